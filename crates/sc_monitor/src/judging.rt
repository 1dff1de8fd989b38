//! The automaton of a policy on the events of a trace.

ghost use Rattle.sc_monitor.specs.Places.{matches_at};
ghost use Rattle.sc_monitor.specs.Verdict.{is_compromised, move_at, rule_for, verdict};
ghost use Rattle.std.specs.Prelude.{◌≡◌, ◌<◌, ◌^◌, ◌&&◌, ◌==◌, length, nat_le, position, IfSome};
ghost use Rattle.std.specs.List.{list_any};
ghost use Rattle.sc_event.specs.Prelude.{is_listed};

use crate::Verdict;
use crate::matching::matches;
use sc_core::{Explanation, Link};
use sc_event::{CompId, Event, Interfaces};
use sc_policy::{Policy, Rule, Rules};

// What an event does to the automaton.
enum Move {
    // It stands in this state afterwards.
    Goes(u16),
    // The event is a violation by the rule of this number, counted from 1.
    Breaks(u32),
}

/// The first violation of the policy in the trace, or the state in which the policy stands after the trace. An event
/// takes the first rule of the present state whose pattern it matches.
pub fn judge(policy: &Policy, interfaces: &Interfaces, explanation: &Explanation) -> Verdict
    requires { length explanation.now.trace < 2 ^ 32 }
    ensures { result ≡ verdict policy.now interfaces.now explanation.now }
{
    let events = explanation.trace.as_slice();
    let mut state = 0;
    for after in 0..events.len() {
        let event = &events[after];
        match move_at(&policy.rules, interfaces, state, event) {
            Move::Goes(next) => state = next,
            Move::Breaks(rule) => {
                let after = after as u32;
                let comp = event.performer();
                let compromised = is_compromised(explanation, comp, after);
                return Verdict::Violated {
                    after,
                    comp,
                    rule,
                    compromised,
                };
            }
        }
    }
    Verdict::Holds { state }
}

fn move_at(rules: &Rules, interfaces: &Interfaces, state: u16, event: &Event) -> Move
    ensures { result ≡ move_at rules.now interfaces.now state event.now }
{
    match rule_for(rules, interfaces, state, event) {
        None => Move::Goes(state),
        Some(place) => match rules.as_slice()[place].goal {
            None => Move::Breaks(place as u32 + 1),
            Some(goal) => Move::Goes(goal),
        },
    }
}

// The place of the rule that the event takes, if it takes one: only the state's rules are tried.
#[tactic(auto, using(crate::proofs::Places::taken, crate::proofs::Places::none_taken))]
fn rule_for(rules: &Rules, interfaces: &Interfaces, state: u16, event: &Event) -> Option<usize>
    ensures place { result ≡ rule_for rules.now interfaces.now state event.now }
    ensures within { IfSome result (λ place. place < length rules.now) }
{
    let places = rules.of_state(state);
    let found = first_match(rules.as_slice(), interfaces, event, places)?;
    Some(usize::from(places[found]))
}

// Which of the rules at these places the event matches first.
fn first_match(
    rules: &[Rule],
    interfaces: &Interfaces,
    event: &Event,
    places: &[u16],
) -> Option<usize>
    ensures { result ≡ position (matches_at rules.now interfaces.now event.now) places.now }
{
    places
        .iter()
        .position(|place| matches_at(rules, interfaces, event, *place))
}

// Whether the event matches the pattern of the rule at a place.
fn matches_at(rules: &[Rule], interfaces: &Interfaces, event: &Event, place: u16) -> bool
    ensures { result ≡ matches_at rules.now interfaces.now event.now place }
{
    match rules.get(usize::from(place)) {
        None => false,
        Some(rule) => matches(interfaces, &rule.pattern, event),
    }
}

// Whether the compartment is given or had been replaced when this many events were over.
fn is_compromised(explanation: &Explanation, comp: CompId, after: u32) -> bool
    ensures { result ≡ is_compromised explanation.now.given explanation.now.links comp after }
{
    is_given(explanation.given.as_slice(), comp)
        || was_replaced(explanation.links.as_slice(), comp, after)
}

fn is_given(given: &[CompId], comp: CompId) -> bool
    ensures { result ≡ is_listed given.now comp }
{
    given.iter().any(|one| *one == comp)
}

fn was_replaced(links: &[Link], comp: CompId, after: u32) -> bool
    ensures { result ≡ list_any (λ link. link.comp == comp && nat_le link.after after) links.now }
{
    links
        .iter()
        .any(|link| link.comp == comp && link.after <= after)
}
