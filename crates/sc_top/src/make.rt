//! The command that makes programs.

ghost use Rattle.sc_top_words.specs.Words.{most_steps};
ghost use Rattle.sc_base.specs.Prelude.{most_events};
ghost use Rattle.sc_top.specs.Prelude.{IsExplained, IsMade, IsMadeText, IsSource, IsSummary, too_large};
ghost use Rattle.sc_report_made.specs.Laws.{IsAccepted, IsAsked};
ghost use Rattle.std.specs.Prelude.{◌≡◌, [], None, IfOk};

use sc_base::{OutOfMemory, Text};
use sc_chain::{ExplainFault, explain};
use sc_core::Explanation;
use sc_lex::TextFault;
use sc_report::{make_text, summary_text};
use sc_report_made::made_texts_are_accepted;
use sc_top_words::MakeOptions;
use sc_types::{SourceText, accepted_or_refused, one_program};
use std::alloc::Global;

// How far the machine runs for a summary, without inputs.
const STEPS: u32 = 16_777_216;

const EVENTS: u32 = 4096;

/// A program that is made from a seed, or what it is summed up as.
pub(crate) fn make(alloc: Global, options: &MakeOptions) -> Result<Text, OutOfMemory>
    requires { IsAsked options.now.size options.now.seed }
    ensures { IfOk result (IsMade options.now) }
{
    if options.summary {
        summary(alloc, options)
    } else {
        text(alloc, options)
    }
}

fn text(alloc: Global, options: &MakeOptions) -> Result<Text, OutOfMemory>
    requires { IsAsked options.now.size options.now.seed }
    ensures { IfOk result (IsMadeText options.now) }
{
    made_texts_are_accepted();
    make_text(alloc, options.size, options.seed)
}

// The machine's trace on the image of the text's program, and the chain, in short.
fn summary(alloc: Global, options: &MakeOptions) -> Result<Text, OutOfMemory>
    requires { IsAsked options.now.size options.now.seed }
    ensures { IfOk result (IsSummary options.now) }
{
    made_texts_are_accepted();
    let text = make_text(alloc, options.size, options.seed)?;
    let source = read_made(alloc, text.as_bytes())?;
    let explanation = explain_made(alloc, &source)?;
    summary_text(
        alloc,
        options.size,
        source.program().interfaces(),
        &explanation,
    )
}

// A text that is accepted, as a small program.
fn read_made(alloc: Global, bytes: &[u8]) -> Result<SourceText, OutOfMemory>
    requires { IsAccepted bytes.now }
    ensures whole { IfOk result (λ source. source.bytes ≡ bytes.now) }
    ensures parts { IfOk result IsSource }
    ensures fits { IfOk result (λ source. too_large source.program ≡ None) }
{
    accepted_or_refused();
    one_program();
    match SourceText::read(alloc, bytes) {
        Ok(source) => Ok(source),
        Err(TextFault::OutOfMemory) => Err(OutOfMemory),
        // The text is accepted.
        Err(TextFault::Refused(_)) => unreachable!(),
    }
}

fn explain_made(alloc: Global, source: &SourceText) -> Result<Explanation, OutOfMemory>
    requires { too_large source.now.program ≡ None }
    ensures { IfOk result (IsExplained source.now [] most_steps most_events) }
{
    match explain(alloc, source, &[], STEPS, EVENTS) {
        Ok(explanation) => Ok(explanation),
        Err(ExplainFault::OutOfMemory) => Err(OutOfMemory),
        // Nothing of the program is too large.
        Err(ExplainFault::CompileFault(_)) => unreachable!(),
    }
}
