//! The accounts that `explain` and `judge` report: of a run of a text's own image, or of the image that stands before
//! the text.

ghost use Rattle.sc_base.specs.Prelude.{most_compiled, most_events};
ghost use Rattle.sc_top.specs.Prelude.{Command, IsAccountFor, IsAnotherCompiling, IsCauseIn, IsCompiling, IsExplained};
ghost use Rattle.sc_top.specs.Prelude.{IsFault, IsImageExplained, IsLimited, IsSource, accounted_intake, compiles};
ghost use Rattle.sc_top.specs.Prelude.{legal, section_of, Accepts};
ghost use Rattle.sc_word.specs.Prelude.{word_of};
ghost use Rattle.std.specs.Prelude.{◌≡◌, ◌≤◌, false, true, length, map, None, IfOk, IfErr, IsTrue};

use crate::failure::{Failure, compile_failure};
use crate::text::read_source;
use sc_chain::{ExplainFault, ImageFault};
use sc_core::{Explanation, Program};
use sc_image::{Image, read_image_part};
use sc_top_words::RunOptions;
use sc_types::SourceText;
use std::alloc::Global;

/// How many bytes a text that follows an image has at most.
const MOST_COMPILED: u32 = 1_048_576;

/// A text, and the account of a run.
#[derive(Drop)]
pub(crate) struct Account {
    pub(crate) source: SourceText,
    pub(crate) explanation: Explanation,
}

/// The text in the bytes, and the account of a run of its program's image, or of the image before it.
pub(crate) fn accounted(
    alloc: Global,
    options: &RunOptions,
    image: bool,
    bytes: &[u8],
) -> Result<Account, Failure>
    requires few { options.now.events ≤ most_events }
    requires short { image ≡ false → length bytes.now ≤ most_compiled }
    ensures account { IfOk result (IsAccountFor options.now image bytes.now) }
    ensures allowed { IfOk result (λ account.
        legal account.source.program.interfaces account.explanation.trace ≡ true) }
    ensures most { IfOk result (λ account. length account.explanation.trace ≤ most_events) }
    ensures cause { IfErr result (λ failure. (c : Command) → section_of c ≡ None → IsTrue (compiles c) →
        IsCauseIn (accounted_intake image) c bytes.now failure) }
{
    if image {
        image_accounted(alloc, options, bytes)
    } else {
        text_accounted(alloc, options, bytes)
    }
}

// The text that the bytes are, and the account of a run of its program's image.
fn text_accounted(alloc: Global, options: &RunOptions, bytes: &[u8]) -> Result<Account, Failure>
    requires few { options.now.events ≤ most_events }
    requires short { length bytes.now ≤ most_compiled }
    ensures account { IfOk result (IsAccountFor options.now false bytes.now) }
    ensures allowed { IfOk result (λ account.
        legal account.source.program.interfaces account.explanation.trace ≡ true) }
    ensures most { IfOk result (λ account. length account.explanation.trace ≤ most_events) }
    ensures cause { IfErr result (λ failure. (c : Command) → section_of c ≡ None → IsTrue (compiles c) →
        IsCauseIn (accounted_intake false) c bytes.now failure) }
{
    let source = read_source(alloc, bytes)?;
    let explanation = explained(alloc, options, &source)?;
    Ok(Account {
        source,
        explanation,
    })
}

// The text that follows an image, and the account of a run of that image.
fn image_accounted(alloc: Global, options: &RunOptions, bytes: &[u8]) -> Result<Account, Failure>
    requires few { options.now.events ≤ most_events }
    ensures account { IfOk result (IsAccountFor options.now true bytes.now) }
    ensures allowed { IfOk result (λ account.
        legal account.source.program.interfaces account.explanation.trace ≡ true) }
    ensures most { IfOk result (λ account. length account.explanation.trace ≤ most_events) }
    ensures cause { IfErr result (λ failure. (c : Command) → section_of c ≡ None → IsTrue (compiles c) →
        IsCauseIn (accounted_intake true) c bytes.now failure) }
{
    let (image, place) = read_image_part(alloc, bytes)?;
    // Every image is well formed.
    let _parts = image.parts();
    let source = read_limited(alloc, &bytes[place..])?;
    let explanation = image_explained(alloc, options, &source, image)?;
    Ok(Account {
        source,
        explanation,
    })
}

// The text as an accepted one, unless it is too long to be compiled.
fn read_limited(alloc: Global, bytes: &[u8]) -> Result<SourceText, Failure>
    ensures accepted { IfOk result (λ source. (source.bytes ≡ bytes.now) × Accepts bytes.now source.program) }
    ensures parts { IfOk result IsSource }
    ensures short { IfOk result (λ source. length source.bytes ≤ most_compiled) }
    ensures cause { IfErr result (IsLimited most_compiled bytes.now) }
{
    if bytes.len() > MOST_COMPILED as usize {
        return Err(Failure::TooLong {
            limit: MOST_COMPILED,
        });
    }
    read_source(alloc, bytes)
}

// The machine's trace and stop on the image of a program, and the chain.
fn explained(
    alloc: Global,
    options: &RunOptions,
    source: &SourceText,
) -> Result<Explanation, Failure>
    requires few { options.now.events ≤ most_events }
    ensures explained { IfOk result (IsExplained source.now (map word_of options.now.inputs)
        options.now.steps options.now.events) }
    ensures allowed { IfOk result (λ explanation.
        legal source.now.program.interfaces explanation.trace ≡ true) }
    ensures most { IfOk result (λ explanation. length explanation.trace ≤ most_events) }
    ensures cause { IfErr result (IsCompiling source.now.program) }
{
    let inputs = options.inputs.as_slice();
    match sc_chain::explain(alloc, source, inputs, options.steps, options.events) {
        Ok(explanation) => Ok(explanation),
        Err(fault) => Err(explain_failure(source.program(), fault)),
    }
}

// The failure that a fault is, by the names of the program.
fn explain_failure(program: &Program, fault: ExplainFault) -> Failure
    requires { IsFault program.now fault }
    ensures { IsCompiling program.now result }
{
    // Every program is well typed, so that each section has a compartment.
    let _tree = program.tree();
    match fault {
        ExplainFault::CompileFault(fault) => compile_failure(program.interfaces(), fault),
        ExplainFault::OutOfMemory => Failure::OutOfMemory,
    }
}

// The machine's trace and stop on an image, and the chain.
fn image_explained(
    alloc: Global,
    options: &RunOptions,
    source: &SourceText,
    image: Image,
) -> Result<Explanation, Failure>
    requires few { options.now.events ≤ most_events }
    ensures explained { IfOk result (IsImageExplained source.now image (map word_of options.now.inputs)
        options.now.steps options.now.events) }
    ensures allowed { IfOk result (λ explanation.
        legal source.now.program.interfaces explanation.trace ≡ true) }
    ensures most { IfOk result (λ explanation. length explanation.trace ≤ most_events) }
    ensures cause { IfErr result (IsAnotherCompiling source.now.program image) }
{
    let inputs = options.inputs.as_slice();
    match sc_chain::explain_image(alloc, source, image, inputs, options.steps, options.events) {
        Ok(explanation) => Ok(explanation),
        Err(ImageFault::CompileFault(fault)) => Err(explain_failure(
            source.program(),
            ExplainFault::CompileFault(fault),
        )),
        Err(ImageFault::Differs) => Err(Failure::Differs),
        Err(ImageFault::OutOfMemory) => Err(Failure::OutOfMemory),
    }
}
