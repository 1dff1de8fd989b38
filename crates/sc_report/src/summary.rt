//! What a made program and its explanation are summed up as.

ghost use Rattle.std.specs.Prelude.{◌≡◌, ◌++◌, IfOk, OnOk};
ghost use Rattle.sc_report.specs.Summary.{output_sum, output_word, summary_text, trace_lines};

use crate::run::{append_count, append_stop};
use sc_base::{OutOfMemory, Text};
use sc_core::Explanation;
use sc_event::{Event, Interfaces};
use std::alloc::Global;

/// How many functions and compartments a made program has, how many events the machine emits on it, what its outputs
/// add up to, why the machine stops, and how many sections the chain replaces.
pub fn summary_text(
    alloc: Global,
    size: u32,
    interfaces: &Interfaces,
    explanation: &Explanation,
) -> Result<Text, OutOfMemory>
    ensures { IfOk result (λ text. text ≡ summary_text size interfaces.now explanation.now) }
{
    let mut text = Text::new(alloc);
    append_count(&mut text, b"functions", size as usize)?;
    append_count(&mut text, b"compartments", interfaces.comps.len())?;
    append_trace(&mut text, explanation.trace.as_slice())?;
    append_stop(&mut text, explanation.stop)?;
    append_count(&mut text, b"chain", explanation.links.len())?;
    Ok(text)
}

fn append_trace(text: &mut Text, trace: &[Event]) -> Result<(), OutOfMemory>
    ensures { OnOk result (text.new ≡ text.old ++ trace_lines trace.now) }
{
    append_count(text, b"events", trace.len())?;
    append_count(text, b"sum", output_sum(trace) as usize)
}

// The words of all outputs, added modulo 2^32.
fn output_sum(events: &[Event]) -> u32
    ensures { result ≡ output_sum events.now }
{
    let mut sum: u32 = 0;
    for event in events {
        sum = sum.wrapping_add(output_word(event));
    }
    sum
}

fn output_word(event: &Event) -> u32
    ensures { result ≡ output_word event.now }
{
    match event {
        Event::Out { value, .. } => *value,
        _ => 0,
    }
}
