ghost use Rattle.sc_policy.specs.Prelude.{state_name};
ghost use Rattle.sc_report.specs.Verdict.{guilt_word, holds_text, rule_end, verdict_text, violated_text, violator_end};
ghost use Rattle.std.specs.Prelude.{◌≡◌, ◌++◌, OnOk};

use itoa::Buffer;
use sc_base::{OutOfMemory, Text};
use sc_event::Interfaces;
use sc_monitor::Verdict;
use sc_policy::Policy;

/// Adds the line of a verdict. After an `Err` a part of it may have been added.
pub fn append_verdict(
    text: &mut Text,
    policy: &Policy,
    interfaces: &Interfaces,
    verdict: Verdict,
) -> Result<(), OutOfMemory>
    ensures { OnOk result (text.new ≡ text.old ++ verdict_text policy.now.states interfaces.now verdict) }
{
    match verdict {
        Verdict::Holds { state } => append_state(text, state_name(policy, state)),
        Verdict::Violated {
            after,
            comp,
            rule,
            compromised,
        } => append_violated(text, after, interfaces.comp_name(comp), rule, compromised),
    }
}

// The name of a state, empty where there is none of this number.
fn state_name(policy: &Policy, state: u16) -> &[u8]
    ensures { result.now ≡ state_name policy.now.states state }
{
    match policy.states.as_slice().get(state as usize) {
        None => b"",
        Some(name) => name.as_bytes(),
    }
}

fn append_state(text: &mut Text, name: &[u8]) -> Result<(), OutOfMemory>
    ensures { OnOk result (text.new ≡ text.old ++ holds_text name.now) }
{
    text.append(b"verdict holds ")?;
    text.append(name)?;
    text.append(b"\n")
}

fn append_violated(
    text: &mut Text,
    after: u32,
    comp: &[u8],
    rule: u32,
    compromised: bool,
) -> Result<(), OutOfMemory>
    ensures { OnOk result (text.new ≡ text.old ++ violated_text after comp.now rule compromised) }
{
    let mut buffer = Buffer::new();
    text.append(b"verdict violated after ")?;
    text.append(buffer.format(after).as_bytes())?;
    append_violator(text, comp, rule, compromised)
}

fn append_violator(
    text: &mut Text,
    comp: &[u8],
    rule: u32,
    compromised: bool,
) -> Result<(), OutOfMemory>
    ensures { OnOk result (text.new ≡ text.old ++ violator_end comp.now rule compromised) }
{
    text.append(b" by ")?;
    text.append(comp)?;
    append_rule(text, rule, compromised)
}

fn append_rule(text: &mut Text, rule: u32, compromised: bool) -> Result<(), OutOfMemory>
    ensures { OnOk result (text.new ≡ text.old ++ rule_end rule compromised) }
{
    let mut buffer = Buffer::new();
    text.append(b" rule ")?;
    text.append(buffer.format(rule).as_bytes())?;
    text.append(guilt_word(compromised))
}

fn guilt_word(compromised: bool) -> &'static [u8]
    ensures { result.now ≡ guilt_word compromised }
{
    if compromised {
        b" compromised\n"
    } else {
        b" clean\n"
    }
}
