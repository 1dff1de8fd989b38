//! The command that accounts for a run.

ghost use Rattle.sc_base.specs.Prelude.{most_compiled, most_events};
ghost use Rattle.sc_top.specs.Prelude.{Explain, IsOutput, IsOutputCause, account, comp_of, legal, report_text};
ghost use Rattle.sc_top.specs.Prelude.{text_after};
ghost use Rattle.std.specs.Prelude.{◌≡◌, ◌≤◌, ◌++◌, false, true, length, map, take, IfOk, IfErr};

use crate::account::accounted;
use crate::failure::Failure;
use sc_base::{OutOfMemory, Text};
use sc_chain::recomposed_text;
use sc_core::{Explanation, Link};
use sc_event::{CompId, CompIds};
use sc_report::{append_trapped, explain_text};
use sc_top_words::ExplainOptions;
use sc_types::SourceText;
use std::alloc::Global;

/// The machine's trace on the image of the text, or on the image that stands before the text, with a chain of texts that
/// accounts for it; or one of these texts.
pub(crate) fn explain(
    alloc: Global,
    options: &ExplainOptions,
    bytes: &[u8],
) -> Result<Text, Failure>
    requires few { options.now.run.events ≤ most_events }
    requires short { options.now.image ≡ false → length bytes.now ≤ most_compiled }
    ensures ok { IfOk result (IsOutput (Explain options.now) bytes.now) }
    ensures cause { IfErr result (IsOutputCause (Explain options.now) bytes.now) }
{
    let found = accounted(alloc, &options.run, options.image, bytes)?;
    Ok(account(alloc, options, &found.source, &found.explanation)?)
}

// The report, or the text of the chain after `show` links.
fn account(
    alloc: Global,
    options: &ExplainOptions,
    source: &SourceText,
    explanation: &Explanation,
) -> Result<Text, OutOfMemory>
    requires allowed { legal source.now.program.interfaces explanation.now.trace ≡ true }
    requires few { length explanation.now.trace ≤ most_events }
    ensures { IfOk result (λ text. text ≡ account options.now source.now explanation.now) }
{
    match options.show {
        None => report(alloc, source, explanation, options.trapped),
        Some(links) => text_after(alloc, source, explanation, links),
    }
}

/// The machine's trace and stop, the given compartments, and the chain; and if asked for, who stopped the machine.
pub(crate) fn report(
    alloc: Global,
    source: &SourceText,
    explanation: &Explanation,
    trapped: bool,
) -> Result<Text, OutOfMemory>
    requires { legal source.now.program.interfaces explanation.now.trace ≡ true }
    ensures { IfOk result (λ text. text ≡ report_text trapped source.now explanation.now) }
{
    let program = source.program();
    // Every program is well typed, so that its main compartment is there.
    let _tree = program.tree();
    let interfaces = program.interfaces();
    let mut text = explain_text(alloc, interfaces, explanation)?;
    if trapped {
        append_trapped(&mut text, interfaces, explanation.trapped)?;
    }
    Ok(text)
}

fn text_after(
    alloc: Global,
    source: &SourceText,
    explanation: &Explanation,
    links: u32,
) -> Result<Text, OutOfMemory>
    requires { length explanation.now.trace ≤ most_events }
    ensures { IfOk result (λ text. text ≡ text_after source.now explanation.now links) }
{
    let first = first_links(explanation.links.as_slice(), links);
    let comps = performers(alloc, explanation.given.as_slice(), first)?;
    recomposed_text(
        alloc,
        source,
        explanation.trace.as_slice(),
        comps.as_slice(),
    )
}

// The first `most` links, or all where there are fewer.
fn first_links(links: &[Link], most: u32) -> &[Link]
    ensures { result.now ≡ take most links.now }
{
    if (most as usize) < links.len() {
        &links[..most as usize]
    } else {
        links
    }
}

// The compartments that perform their parts of the trace: the given ones, and those of the links.
fn performers(alloc: Global, given: &[CompId], links: &[Link]) -> Result<CompIds, OutOfMemory>
    ensures { IfOk result (λ comps. comps ≡ given.now ++ map comp_of links.now) }
{
    let mut comps = CompIds::new(alloc);
    for comp in given {
        comps.push(*comp)?;
    }
    for link in links {
        comps.push(link.comp)?;
    }
    Ok(comps)
}
