//! The account of a run of the machine.

ghost use Rattle.sc_base.specs.Prelude.{most_events};
ghost use Rattle.sc_chain.specs.Prelude.{IsAccountOf, IsChainWith, IsExplained, IsFault, IsImageExplained};
ghost use Rattle.sc_chain.specs.Prelude.{IsImageFault, IsNextOf, IsObserved, is_listed, legal, performing_comps};
ghost use Rattle.sc_chain.specs.Prelude.{trapped_in};
ghost use Rattle.sc_core_laws.specs.Prelude.{IsSubset};
ghost use Rattle.sc_word.specs.Prelude.{word_of};
ghost use Rattle.sc_core.specs.Prelude.{scripted_meaning};
ghost use Rattle.sc_compile.specs.Prelude.{EmitsOrIsBlamed, IsRobust, origin_of};
ghost use Rattle.std.specs.Prelude.{◌≡◌, ◌<◌, ◌≤◌, ℕ, Bool, true, false, length, map, All, IfOk, IfErr};

use crate::fault::{ExplainFault, ImageFault};
use crate::replacing::{have_words, performing_text, replaced};
use sc_base::{OutOfMemory, Stop};
use sc_compile::{CompileFault, compile, finds_origin};
use sc_core::{Explanation, Link, Links, RunEnd, SourceRun, TrapOrigin, Trapped};
use sc_event::{CompId, CompIds, Event, Interfaces, Trace};
use sc_image::{Image, given_in};
use sc_machine::{LoadFault, Machine};
use sc_run::run_source;
use sc_store::PagedStore;
use sc_types::{SourceText, one_program};
use std::alloc::Global;

// How many steps and events a run of the machine may have, or how many turns and events one of the meaning.
#[derive(Clone, Copy)]
struct Limits {
    steps: u32,
    events: u32,
}

// A run of the machine: its trace, why it stopped, where it stands, and how many steps it took.
#[derive(Drop)]
struct MachineRun {
    trace: Trace,
    stop: Stop,
    active: CompId,
    taken: u32,
}

// The same compartments again.
fn copied_comps(alloc: Global, comps: &[CompId]) -> Result<CompIds, OutOfMemory>
    ensures { IfOk result (λ copy. copy ≡ comps.now) }
{
    let mut copy = CompIds::new(alloc);
    for comp in comps {
        copy.push(*comp)?;
    }
    Ok(copy)
}

// The machine's run on an image in at most `steps` steps and `events` events.
fn run_image(
    alloc: Global,
    image: Image,
    inputs: &[i32],
    steps: u32,
    events: u32,
) -> Result<MachineRun, OutOfMemory>
    ensures { IfOk result (IsObserved image (map word_of inputs.now) steps events) }
{
    // An image is well formed.
    let _parts = image.parts();
    let mut machine = Machine::<PagedStore>::load(alloc, image, inputs, events).map_err(
        |LoadFault::OutOfMemory(_)| OutOfMemory,
    )?;
    let stop = machine.run(steps);
    let active = machine.active();
    let taken = machine.steps_taken();
    Ok(MachineRun {
        trace: machine.into_trace(),
        stop,
        active,
        taken,
    })
}

// The link of a run that is blamed before the end of the trace.
fn next_link(
    alloc: Global,
    interfaces: &Interfaces,
    trace: &[Event],
    run: &SourceRun,
) -> Result<Option<Link>, OutOfMemory>
    requires { length trace.now ≤ most_events }
    ensures { IfOk result (IsNextOf interfaces.now trace.now run.now) }
{
    let RunEnd::Blamed { comp, cause, line } = run.end else {
        return Ok(None);
    };
    if run.trace.len() >= trace.len() {
        return Ok(None);
    }
    let text = performing_text(alloc, interfaces, trace, comp)?;
    Ok(Some(Link {
        comp,
        after: run.trace.len() as u32,
        cause,
        line,
        text,
    }))
}

// The run of the text in which these compartments perform their parts of a trace. Where nobody does it is the source's
// own, which isn't read again.
fn performed_run(
    alloc: Global,
    source: &SourceText,
    comps: &[CompId],
    trace: &[Event],
    inputs: &[i32],
    limits: Limits,
) -> Result<SourceRun, OutOfMemory>
    requires allowed { legal source.now.program.interfaces trace.now ≡ true }
    requires few { length trace.now ≤ most_events }
    requires known { All (λ comp. comp < length source.now.program.interfaces.comps) comps.now }
    ensures { IfOk result (λ run. run ≡ scripted_meaning source.now.program (is_listed comps.now) trace.now
        (map word_of inputs.now) limits.steps limits.events) }
{
    let Limits { steps, events } = limits;
    if comps.is_empty() {
        let run = run_source(alloc, source.program(), inputs, steps, events)?;
        return Ok(run);
    }
    let text = replaced(alloc, source, trace, comps)?;
    let run = run_source(alloc, text.program(), inputs, steps, events)?;
    Ok(run)
}

// The chain of texts that accounts for a trace of an image of which some compartments are given. As long as the meaning
// of the text so far is blamed before the end of the trace, the blamed compartment performs its part too.
fn chain(
    alloc: Global,
    source: &SourceText,
    given: &[CompId],
    inputs: &[i32],
    steps: u32,
    trace: &[Event],
) -> Result<Links, OutOfMemory>
    requires allowed { legal source.now.program.interfaces trace.now ≡ true }
    requires few { length trace.now ≤ most_events }
    requires known { All (λ comp. comp < length source.now.program.interfaces.comps) given.now }
    requires scripted { (set : ℕ → Bool) → IsSubset (is_listed given.now) set →
        EmitsOrIsBlamed (length source.now.program.sections) set trace.now
        (scripted_meaning source.now.program set trace.now (map word_of inputs.now) steps (length trace.now)) }
    ensures { IfOk result (IsChainWith source.now (map word_of inputs.now) steps trace.now given.now) }
{
    one_program();
    have_words(trace);
    let events = trace.len() as u32;
    let limits = Limits { steps, events };
    let program = source.program();
    let tree = program.tree();
    let mut links = Links::new(alloc);
    let mut comps = copied_comps(alloc, given)?;
    let mut run = performed_run(alloc, source, given, trace, inputs, limits)?;
    while let Some(link) = next_link(alloc, &tree.interfaces, trace, &run)? {
        comps.push(link.comp)?;
        links.push(link)?;
        run = performed_run(alloc, source, comps.as_slice(), trace, inputs, limits)?;
    }
    Ok(links)
}

// Those that perform in the last text of a chain.
fn performing_comps(alloc: Global, given: &[CompId], links: &[Link]) -> Result<CompIds, OutOfMemory>
    ensures { IfOk result (λ comps. comps ≡ performing_comps given.now links.now) }
{
    let mut performing = copied_comps(alloc, given)?;
    for link in links {
        performing.push(link.comp)?;
    }
    Ok(performing)
}

fn performs(comps: &[CompId], comp: CompId) -> bool
    ensures { result ≡ is_listed comps.now comp }
{
    comps.iter().any(|one| *one == comp)
}

// Why a compartment that doesn't perform stands trapped, by the end of the meaning.
fn honest_origin(end: RunEnd) -> TrapOrigin
    ensures { result ≡ origin_of false end }
{
    match end {
        RunEnd::Blamed { cause, line, .. } => TrapOrigin::Blamed { cause, line },
        RunEnd::Ended | RunEnd::TurnsOut | RunEnd::EventsOut => TrapOrigin::FullStack,
    }
}

// Who stands where a trap stopped the machine, and why, by the text in which these compartments perform. Its meaning has
// no more turns than the machine took steps, since a full stack is mostly a recursion without end.
fn trapped(
    alloc: Global,
    source: &SourceText,
    comps: &[CompId],
    inputs: &[i32],
    observed: &MachineRun,
) -> Result<Option<Trapped>, OutOfMemory>
    requires allowed { legal source.now.program.interfaces observed.now.trace ≡ true }
    requires few { length observed.now.trace ≤ most_events }
    requires known { All (λ comp. comp < length source.now.program.interfaces.comps) comps.now }
    ensures { IfOk result (λ trapped. trapped ≡ trapped_in source.now.program (is_listed comps.now)
        (map word_of inputs.now) observed.now) }
{
    let Stop::Trap { .. } = observed.stop else {
        return Ok(None);
    };
    let comp = observed.active;
    if performs(comps, comp) {
        let origin = TrapOrigin::Replaced;
        return Ok(Some(Trapped { comp, origin }));
    }
    let limits = Limits {
        steps: observed.taken,
        events: observed.trace.len() as u32 + 1,
    };
    let trace = observed.trace.as_slice();
    let run = performed_run(alloc, source, comps, trace, inputs, limits)?;
    let origin = honest_origin(run.end);
    Ok(Some(Trapped { comp, origin }))
}

// The account of a run of an image that does what the program means, but for the given compartments.
fn account(
    alloc: Global,
    source: &SourceText,
    image: Image,
    given: CompIds,
    inputs: &[i32],
    limits: Limits,
) -> Result<Explanation, OutOfMemory>
    requires few { limits.events ≤ most_events }
    requires robust { IsRobust source.now.program (is_listed given) image }
    requires known { All (λ comp. comp < length source.now.program.interfaces.comps) given }
    ensures account { IfOk result (IsAccountOf source.now image given (map word_of inputs.now) limits.steps
        limits.events) }
    ensures allowed { IfOk result (λ explanation. legal source.now.program.interfaces explanation.trace ≡ true) }
    ensures few { IfOk result (λ explanation. length explanation.trace ≤ limits.events) }
{
    let observed = run_image(alloc, image, inputs, limits.steps, limits.events)?;
    let emitted = observed.trace.as_slice();
    have_words(emitted);
    one_program();
    finds_origin();
    source.program();
    let links = chain(
        alloc,
        source,
        given.as_slice(),
        inputs,
        limits.steps,
        emitted,
    )?;
    let comps = performing_comps(alloc, given.as_slice(), links.as_slice())?;
    let trapped = trapped(alloc, source, comps.as_slice(), inputs, &observed)?;
    let MachineRun { trace, stop, .. } = observed;
    Ok(Explanation {
        trace,
        stop,
        trapped,
        given,
        links,
    })
}

/// The machine's trace on the image of a program in at most `steps` steps and `events` events, and the chain of texts
/// that accounts for it. Where a trap stops the machine, the account says in which compartment and why.
pub fn explain(
    alloc: Global,
    source: &SourceText,
    inputs: &[i32],
    steps: u32,
    events: u32,
) -> Result<Explanation, ExplainFault>
    requires few { events ≤ most_events }
    ensures explained { IfOk result (IsExplained source.now (map word_of inputs.now) steps events) }
    ensures allowed { IfOk result (λ explanation. legal source.now.program.interfaces explanation.trace ≡ true) }
    ensures few { IfOk result (λ explanation. length explanation.trace ≤ events) }
    ensures fault { IfErr result (IsFault source.now.program) }
{
    one_program();
    let image = match compile(alloc, source.program()) {
        Ok(image) => image,
        Err(CompileFault::OutOfMemory) => return Err(ExplainFault::OutOfMemory),
        Err(fault) => return Err(ExplainFault::CompileFault(fault)),
    };
    let limits = Limits { steps, events };
    let nobody = CompIds::new(alloc);
    match account(alloc, source, image, nobody, inputs, limits) {
        Ok(explanation) => Ok(explanation),
        Err(OutOfMemory) => Err(ExplainFault::OutOfMemory),
    }
}

/// The machine's trace on an image that is the program's own but for given compartments, whose code may be anybody's, in
/// at most `steps` steps and `events` events. The chain of texts that accounts for it begins with the text in which the
/// given compartments perform their parts of the trace, and it says of a trap what `explain` does.
pub fn explain_image(
    alloc: Global,
    source: &SourceText,
    image: Image,
    inputs: &[i32],
    steps: u32,
    events: u32,
) -> Result<Explanation, ImageFault>
    requires few { events ≤ most_events }
    ensures explained { IfOk result (IsImageExplained source.now image (map word_of inputs.now) steps events) }
    ensures allowed { IfOk result (λ explanation. legal source.now.program.interfaces explanation.trace ≡ true) }
    ensures few { IfOk result (λ explanation. length explanation.trace ≤ events) }
    ensures fault { IfErr result (IsImageFault source.now.program image) }
{
    let own = match compile(alloc, source.program()) {
        Ok(own) => own,
        Err(CompileFault::OutOfMemory) => return Err(ImageFault::OutOfMemory),
        Err(fault) => return Err(ImageFault::CompileFault(fault)),
    };
    let Ok(found) = given_in(alloc, &own, &image) else {
        return Err(ImageFault::OutOfMemory);
    };
    let Some(given) = found else {
        return Err(ImageFault::Differs);
    };
    let limits = Limits { steps, events };
    match account(alloc, source, image, given, inputs, limits) {
        Ok(explanation) => Ok(explanation),
        Err(OutOfMemory) => Err(ImageFault::OutOfMemory),
    }
}
