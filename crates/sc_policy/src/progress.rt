//! Lines as parts of a policy.

ghost use Rattle.sc_base.specs.Prelude.{is_numbered};
ghost use Rattle.sc_policy.specs.Reading.{after, begun, continued, new_state, ruled};
ghost use Rattle.std.specs.Prelude.{◌≡◌, ◌≤◌, length, Some, IfOk, option_map};

use crate::patterns::{comp_of, ends_of, pattern_with};
use crate::words::{name_after, words};
use crate::{Names, Policy, Rule, Rules};
use sc_base::{Name, OutOfMemory};
use std::alloc::Global;

/// What the lines so far have said.
#[derive(Drop)]
pub(crate) enum Progress {
    /// Nothing yet.
    Start,
    /// The policy's name.
    Titled(Name),
    /// A policy, which may go on.
    Open(Policy),
    /// A policy, to its last line.
    Closed(Policy),
}

impl Progress {
    /// What this line adds, `None` where it can't follow.
    pub(crate) fn after(self, alloc: Global, line: &[u8]) -> Result<Option<Progress>, OutOfMemory>
        ensures { IfOk result (λ next. next ≡ after self line.now) }
    {
        match self {
            Progress::Start => Ok(name_after(b"policy ", line).map(Progress::Titled)),
            Progress::Titled(name) => begun(alloc, name, line),
            Progress::Open(policy) => continued(alloc, policy, line),
            Progress::Closed(_) => Ok(None),
        }
    }
}

fn begun(alloc: Global, name: Name, line: &[u8]) -> Result<Option<Progress>, OutOfMemory>
    ensures { IfOk result (λ next. next ≡ after (Progress.Titled name) line.now) }
{
    let Some(state) = name_after(b"state ", line) else {
        return Ok(None);
    };
    let states = Names::of(alloc, state)?;
    let rules = Rules::new(alloc);
    Ok(Some(Progress::Open(Policy {
        name,
        states,
        rules,
    })))
}

fn continued(
    alloc: Global,
    mut policy: Policy,
    line: &[u8],
) -> Result<Option<Progress>, OutOfMemory>
    ensures { IfOk result (λ next. next ≡ continued policy line.now) }
{
    if line == b"policy end".as_slice() {
        return Ok(Some(Progress::Closed(policy)));
    }
    match new_state(&policy, line) {
        None => ruled(alloc, policy, line),
        Some(name) => {
            policy.states.push(name)?;
            Ok(Some(Progress::Open(policy)))
        }
    }
}

// The name of a state that the line adds to the policy.
fn new_state(policy: &Policy, line: &[u8]) -> Option<Name>
    ensures { result ≡ new_state policy.now line.now }
{
    if !policy.rules.as_slice().is_empty() || policy.states.is_full() {
        return None;
    }
    let name = name_after(b"state ", line)?;
    if is_among(policy.states.as_slice(), &name) {
        None
    } else {
        Some(name)
    }
}

fn is_among(names: &[Name], name: &Name) -> bool
    ensures { result ≡ is_numbered names.now name.now }
{
    names.iter().any(|other| *name == *other)
}

fn ruled(alloc: Global, mut policy: Policy, line: &[u8]) -> Result<Option<Progress>, OutOfMemory>
    ensures { IfOk result (λ next. next ≡ ruled policy line.now) }
{
    if policy.rules.is_full() {
        return Ok(None);
    }
    let words = words(alloc, line)?;
    let Some(comp) = comp_of(&words) else {
        return Ok(None);
    };
    let Some(pattern) = pattern_with(comp, &words) else {
        return Ok(None);
    };
    let Some((state, goal)) = ends_of(policy.states.as_slice(), &words) else {
        return Ok(None);
    };
    let place = policy.rules.rules.len() as u16;
    policy.rules.index.push(alloc, state, place)?;
    policy.rules.rules.push(Rule {
        state,
        pattern,
        goal,
    })?;
    Ok(Some(Progress::Open(policy)))
}
