// Texts in which compartments perform a trace, read and run by the program.
use crate::lines::reported;
use crate::traces::{Inputs, LIKE_IMAGES, LONG, Origin, long_text};
use chain_texts::programs::{INPUTS, LEFT_OUT, STORE};
use code_texts::PROGRAMS;
use memory_runs::Run;
use sc_base::OutOfMemory;
use sc_chain::replaced;
use sc_event::{Event, legal};
use sc_types::SourceText;
use second_meaning::{CompSet, Task, run_task};
use std::alloc::Global;
use std::test::Fail;

// The most events of a trace that a text performs.
const LIMIT: usize = 4096;

// Up to this length each prefix of a trace is tried; beyond it the lengths double.
const CLOSE: usize = 64;

// A trace of a program, and what is read.
#[derive(Clone, Copy)]
struct Matter<'a> {
    source: &'a SourceText,
    inputs: Inputs<'static>,
    trace: &'a [Event],
}

// How many traces that no run emits are drawn for each program.
const SEEDS: u32 = 3;

// What the program reports of the text in which a set performs, beside what the source gives where the set performs.
#[derive(Clone, Copy, PartialEq, Eq)]
enum Verdict {
    Same,
    Different,
    NotLegal,
}

// Whether this is what the program reports of a text.
fn is_reported(alloc: Global, matter: &Matter, text: &[u8], want: &[u8]) -> Result<bool, Fail> {
    let (events, turns) = (event_bound(matter.trace), turns(matter.trace));
    let word = matter.inputs.word;
    let words = format!(in alloc; "meaning {word} --turns {turns} --events {events}")?;
    let ran = Run::new(words.as_str(), text).run(alloc)?;
    Ok(ran.status == 0 && ran.out.as_slice() == want)
}

// Turns enough for the trace, and some after it. `second_meaning` has stack for this number of nested calls.
fn turns(trace: &[Event]) -> u32 {
    match u32::try_from(trace.len()) {
        Ok(events) => events.wrapping_mul(2).wrapping_add(200),
        Err(_) => 200,
    }
}

// A bound on events that lets what follows a trace be seen too.
fn event_bound(trace: &[Event]) -> u32 {
    match u32::try_from(trace.len().saturating_add(2).min(LIMIT)) {
        Ok(events) => events,
        Err(_) => 0,
    }
}

fn judge(alloc: Global, matter: &Matter, set: CompSet) -> Result<Verdict, Fail> {
    let Matter {
        source,
        trace,
        inputs,
    } = *matter;
    let interfaces = &source.program().tree().interfaces;
    if trace.len() > 4096 || !legal(interfaces, trace) {
        return Ok(Verdict::NotLegal);
    }
    let comps = set.members(alloc, interfaces.comps.len())?;
    let text = replaced(alloc, source, trace, comps.as_slice())?;
    let task = Task {
        program: source.program(),
        set,
        trace,
        inputs: inputs.numbers,
        turns: turns(trace),
        events: event_bound(trace),
    };
    let run = run_task(alloc, &task)?;
    let want = reported(alloc, interfaces, &run)?;
    match is_reported(alloc, matter, text.bytes(), want.as_bytes())? {
        true => Ok(Verdict::Same),
        false => Ok(Verdict::Different),
    }
}

// The length of the prefix that is tried next.
fn next_length(length: usize) -> usize {
    if length < CLOSE {
        return length.wrapping_add(1);
    }
    length.wrapping_mul(2)
}

// The lengths of the prefixes that are tried.
fn lengths(alloc: Global, whole: usize) -> Result<Vec<usize>, OutOfMemory> {
    let mut lengths = Vec::new(alloc);
    let mut length: usize = 0;
    for _ in 0..LIMIT {
        if length >= whole {
            break;
        }
        lengths.push(length)?;
        length = next_length(length);
    }
    lengths.push(whole)?;
    Ok(lengths)
}

// For how many prefixes of a trace both are the same, `None` where they differ for one.
fn same_prefixes(alloc: Global, matter: &Matter, set: CompSet) -> Result<Option<u32>, Fail> {
    let mut count: u32 = 0;
    for length in lengths(alloc, matter.trace.len())? {
        let Some(trace) = matter.trace.get(..length) else {
            return Ok(None);
        };
        let inputs = matter.inputs;
        let prefix = Matter {
            source: matter.source,
            inputs,
            trace,
        };
        if judge(alloc, &prefix, set)? != Verdict::Same {
            return Ok(None);
        }
        count = count.wrapping_add(1);
    }
    Ok(Some(count))
}

// For how many prefixes and sets of compartments they are.
fn same_sets(alloc: Global, matter: &Matter) -> Result<Option<u32>, Fail> {
    let mut count: u32 = 0;
    let comps = matter.source.program().interfaces().comps.len();
    for set in CompSet::samples(alloc, comps)? {
        let Some(prefixes) = same_prefixes(alloc, matter, set)? else {
            return Ok(None);
        };
        count = count.wrapping_add(prefixes);
    }
    Ok(Some(count))
}

// For how many they are in a text.
fn same(alloc: Global, text: &[u8], origin: Origin) -> Result<Option<u32>, Fail> {
    let source = SourceText::read(alloc, text)?;
    let inputs = Inputs::of(text);
    let trace = origin.trace(alloc, &source, inputs)?;
    let trace = trace.as_slice();
    let matter = Matter {
        source: &source,
        inputs,
        trace,
    };
    same_sets(alloc, &matter)
}

// For how many they are in all of these texts.
fn same_of_all(alloc: Global, texts: &[&[u8]], origin: Origin) -> Result<Option<u32>, Fail> {
    let mut count: u32 = 0;
    for text in texts {
        let Some(one) = same(alloc, text, origin)? else {
            return Ok(None);
        };
        count = count.wrapping_add(one);
    }
    Ok(Some(count))
}

// For how many they are in the long texts.
fn same_of_long(alloc: Global) -> Result<Option<u32>, Fail> {
    let mut count: u32 = 0;
    for parts in LONG {
        let text = long_text(alloc, parts)?;
        let Some(one) = same(alloc, &text, Origin::Meant)? else {
            return Ok(None);
        };
        count = count.wrapping_add(one);
    }
    Ok(Some(count))
}

// For how many they are in traces that no run emits.
fn same_of_drawn(alloc: Global) -> Result<Option<u32>, Fail> {
    let mut count: u32 = 0;
    for seed in 1..=SEEDS {
        let Some(one) = same_of_all(alloc, PROGRAMS, Origin::Drawn(seed))? else {
            return Ok(None);
        };
        count = count.wrapping_add(one);
    }
    Ok(Some(count))
}

// Whether something was counted, and at least so much.
fn reaches(count: Option<u32>, floor: u32) -> bool {
    match count {
        Some(count) => count >= floor,
        None => false,
    }
}

// What is found of a text and the trace of another one, whose first events are left out.
fn judge_strange(alloc: Global, text: &[u8], other: &[u8], skip: usize) -> Result<Verdict, Fail> {
    let source = SourceText::read(alloc, text)?;
    let stranger = SourceText::read(alloc, other)?;
    let inputs = Inputs::of(text);
    let trace = Origin::Emitted.trace(alloc, &stranger, inputs)?;
    let trace = trace.as_slice().get(skip..).unwrap_or(&[]);
    let matter = Matter {
        source: &source,
        inputs,
        trace,
    };
    judge(alloc, &matter, CompSet::full())
}

#[test]
fn what_programs_mean_is_performed(rt: HostRuntime) -> Result<(), Fail> {
    let count = same_of_all(rt.alloc(), PROGRAMS, Origin::Meant)?;
    assert!(rt; reaches(count, 690));
    Ok(())
}

#[test]
fn what_the_machine_emits_is_performed(rt: HostRuntime) -> Result<(), Fail> {
    let count = same_of_all(rt.alloc(), PROGRAMS, Origin::Emitted)?;
    assert!(rt; reaches(count, 1000));
    Ok(())
}

#[test]
fn what_images_emit_is_performed(rt: HostRuntime) -> Result<(), Fail> {
    let count = same_of_all(rt.alloc(), &LIKE_IMAGES, Origin::Meant)?;
    assert!(rt; reaches(count, 18));
    Ok(())
}

#[test]
fn what_long_programs_mean_is_performed(rt: HostRuntime) -> Result<(), Fail> {
    assert!(rt; reaches(same_of_long(rt.alloc())?, 290));
    Ok(())
}

#[test]
fn what_no_run_emits_is_performed(rt: HostRuntime) -> Result<(), Fail> {
    assert!(rt; reaches(same_of_drawn(rt.alloc())?, 4200));
    Ok(())
}

// A trace whose first call is missing, one of other compartments, and one that outputs what isn't imported.
#[test]
fn what_is_not_legal_is_left_out(rt: HostRuntime) -> Result<(), Fail> {
    for (text, other, skip) in [(STORE, STORE, 1), (INPUTS, STORE, 0), (LEFT_OUT, INPUTS, 0)] {
        assert!(rt; judge_strange(rt.alloc(), text, other, skip)? == Verdict::NotLegal);
    }
    assert!(rt; judge_strange(rt.alloc(), STORE, STORE, 0)? == Verdict::Same);
    Ok(())
}
