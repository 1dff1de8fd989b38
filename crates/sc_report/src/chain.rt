ghost use Rattle.sc_event.specs.Prelude.{IsKnown};
ghost use Rattle.std.specs.Prelude.{◌≡◌, ◌++◌, All, IfOk, OnOk, codes, flat_map, length};
ghost use Rattle.sc_report.specs.Report.{cause_at_line, chain_text, explain_text, given_line, link_end, link_line};
ghost use Rattle.sc_report.specs.Report.{number_end, origin_end, trapped_line, trapped_text};

use crate::run::{append_count, append_number, cause_word, run_text};
use itoa::Buffer;
use sc_base::{OutOfMemory, Text};
use sc_core::{Cause, Explanation, Link, TrapOrigin, Trapped};
use sc_event::{CompId, Interfaces};
use std::alloc::Global;

/// The events of a machine run, why it stops, the given compartments, and the chain that accounts for the run.
pub fn explain_text(
    alloc: Global,
    interfaces: &Interfaces,
    explanation: &Explanation,
) -> Result<Text, OutOfMemory>
    requires { All (IsKnown interfaces.now) explanation.now.trace }
    ensures { IfOk result (λ text. text ≡ explain_text interfaces.now explanation.now) }
{
    let mut text = run_text(
        alloc,
        interfaces,
        explanation.trace.as_slice(),
        explanation.stop,
    )?;
    append_given(&mut text, interfaces, explanation.given.as_slice())?;
    append_chain(&mut text, interfaces, explanation.links.as_slice())?;
    Ok(text)
}

/// Adds the line that says who stopped the machine and why, or nothing where no trap did. After an `Err` a part of it may
/// have been added.
pub fn append_trapped(
    text: &mut Text,
    interfaces: &Interfaces,
    trapped: Option<Trapped>,
) -> Result<(), OutOfMemory>
    ensures { OnOk result (text.new ≡ text.old ++ trapped_text interfaces.now trapped) }
{
    match trapped {
        None => Ok(()),
        Some(trapped) => append_trapped_line(text, interfaces, trapped),
    }
}

fn append_trapped_line(
    text: &mut Text,
    interfaces: &Interfaces,
    trapped: Trapped,
) -> Result<(), OutOfMemory>
    ensures { OnOk result (text.new ≡ text.old ++ trapped_line interfaces.now trapped) }
{
    text.append(b"trapped ")?;
    text.append(interfaces.comp_name(trapped.comp))?;
    append_origin(text, trapped.origin)
}

// Why the compartment stands trapped, as the last words of a line.
fn append_origin(text: &mut Text, origin: TrapOrigin) -> Result<(), OutOfMemory>
    ensures { OnOk result (text.new ≡ text.old ++ origin_end origin) }
{
    match origin {
        TrapOrigin::Replaced => text.append(b" replaced\n"),
        TrapOrigin::Blamed { cause, line } => append_cause_at_line(text, cause, line),
        TrapOrigin::FullStack => text.append(b" stack\n"),
    }
}

fn append_given(
    text: &mut Text,
    interfaces: &Interfaces,
    given: &[CompId],
) -> Result<(), OutOfMemory>
    ensures { OnOk result (text.new ≡ text.old ++ flat_map (given_line interfaces.now) given.now) }
{
    for comp in given {
        append_given_line(text, interfaces, *comp)?;
    }
    Ok(())
}

fn append_given_line(
    text: &mut Text,
    interfaces: &Interfaces,
    comp: CompId,
) -> Result<(), OutOfMemory>
    ensures { OnOk result (text.new ≡ text.old ++ given_line interfaces.now comp) }
{
    text.append(b"given ")?;
    text.append(interfaces.comp_name(comp))?;
    text.push(b'\n')
}

fn append_chain(text: &mut Text, interfaces: &Interfaces, links: &[Link]) -> Result<(), OutOfMemory>
    ensures { OnOk result (text.new ≡ text.old ++ chain_text interfaces.now links.now) }
{
    append_count(text, b"chain", links.len())?;
    append_links(text, interfaces, links)
}

fn append_links(text: &mut Text, interfaces: &Interfaces, links: &[Link]) -> Result<(), OutOfMemory>
    ensures { OnOk result (text.new ≡ text.old ++ flat_map (link_line interfaces.now) links.now) }
{
    for link in links {
        append_link(text, interfaces, link)?;
    }
    Ok(())
}

fn append_link(text: &mut Text, interfaces: &Interfaces, link: &Link) -> Result<(), OutOfMemory>
    ensures { OnOk result (text.new ≡ text.old ++ link_line interfaces.now link.now) }
{
    text.append(b"replace ")?;
    text.append(interfaces.comp_name(link.comp))?;
    append_link_end(text, link)
}

// After how many events, and why.
fn append_link_end(text: &mut Text, link: &Link) -> Result<(), OutOfMemory>
    ensures { OnOk result (text.new ≡ text.old ++ link_end link.now) }
{
    let mut buffer = Buffer::new();
    text.append(b" after ")?;
    text.append(buffer.format(link.after).as_bytes())?;
    append_cause_at_line(text, link.cause, link.line)
}

// A cause and the number of its line, as the last things of a line.
fn append_cause_at_line(text: &mut Text, cause: Cause, line: u32) -> Result<(), OutOfMemory>
    ensures { OnOk result (text.new ≡ text.old ++ cause_at_line cause line) }
{
    text.push(b' ')?;
    text.append(cause_word(cause))?;
    append_line(text, line)
}

fn append_line(text: &mut Text, line: u32) -> Result<(), OutOfMemory>
    ensures { OnOk result (text.new ≡ text.old ++ (codes " line" ++ number_end line)) }
{
    text.append(b" line")?;
    append_number(text, line)
}
