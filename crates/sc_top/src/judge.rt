//! The command that judges a run by a policy.

ghost use Rattle.sc_base.specs.Prelude.{most_compiled, most_events};
ghost use Rattle.sc_top.specs.Prelude.{IsOutput, IsOutputCause, Judge, judge_text, legal};
ghost use Rattle.std.specs.Prelude.{◌≡◌, ◌≤◌, false, true, length, IfOk, IfErr};

use crate::account::accounted;
use crate::chain::report;
use crate::failure::Failure;
use sc_base::{OutOfMemory, Text};
use sc_core::Explanation;
use sc_monitor::first_violations;
use sc_policy::{Policy, read_policy};
use sc_report::append_verdict;
use sc_top_words::JudgeOptions;
use sc_types::SourceText;
use std::alloc::Global;

/// The report of what follows a policy, a text or an image with a text after it, and the policy's verdict.
pub(crate) fn judge(alloc: Global, options: &JudgeOptions, bytes: &[u8]) -> Result<Text, Failure>
    requires few { options.now.run.events ≤ most_events }
    requires short { options.now.image ≡ false → length bytes.now ≤ most_compiled }
    ensures ok { IfOk result (IsOutput (Judge options.now) bytes.now) }
    ensures cause { IfErr result (IsOutputCause (Judge options.now) bytes.now) }
{
    first_violations();
    let read = read_policy(alloc, bytes)?;
    let found = accounted(alloc, &options.run, options.image, &bytes[read.rest..])?;
    // Every program is well typed, so that each event of the trace has a compartment.
    let _tree = found.source.program().tree();
    Ok(verdict(
        alloc,
        options,
        &read.policy,
        &found.source,
        &found.explanation,
    )?)
}

// The report, and what the policy says of the trace.
fn verdict(
    alloc: Global,
    options: &JudgeOptions,
    policy: &Policy,
    source: &SourceText,
    explanation: &Explanation,
) -> Result<Text, OutOfMemory>
    requires allowed { legal source.now.program.interfaces explanation.now.trace ≡ true }
    requires few { length explanation.now.trace ≤ most_events }
    ensures { IfOk result (λ text. text ≡ judge_text policy.now options.now.trapped source.now explanation.now) }
{
    let mut text = report(alloc, source, explanation, options.trapped)?;
    let interfaces = source.program().interfaces();
    let verdict = sc_monitor::judge(policy, interfaces, explanation);
    append_verdict(&mut text, policy, interfaces, verdict)?;
    Ok(text)
}
