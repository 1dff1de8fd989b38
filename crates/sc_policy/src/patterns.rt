//! The words of rules.

ghost use Rattle.sc_base.specs.Prelude.{number_by_name};
ghost use Rattle.sc_policy.specs.Limits.{most_states};
ghost use Rattle.sc_policy.specs.Reading.{call_of, comp_of, ends_of, goal_of, goal_part, name_count, pattern_count};
ghost use Rattle.sc_policy.specs.Reading.{pattern_of, pattern_part, pattern_with, ret_of, test_count};
ghost use Rattle.std.specs.Prelude.{◌≡◌, ◌<◌, ◌≤◌, IfSome, length, map, nat_eq};
ghost use Rattle.std.specs.Cmp.Lexicographic.{pointwise};

use crate::words::{maybe_arg_of, maybe_test_of, who_of};
use crate::{Pattern, Who};
use sc_base::Name;

/// The compartment of a rule's pattern, which stands after the pattern's kind.
pub(crate) fn comp_of(words: &[&[u8]]) -> Option<Who>
    ensures { result ≡ comp_of (map (λ word. word.now) words.now) }
{
    let word = words.get(3)?;
    who_of(word)
}

/// The pattern of a rule, where it has this compartment.
pub(crate) fn pattern_with(comp: Who, words: &[&[u8]]) -> Option<Pattern>
    ensures { result ≡ pattern_with comp (map (λ word. word.now) words.now) }
{
    let [_, _, kind, _, rest @ ..] = words else {
        return None;
    };
    pattern_of(kind, comp, pattern_part(kind, rest))
}

/// The state and the goal of a rule.
pub(crate) fn ends_of(states: &[Name], words: &[&[u8]]) -> Option<(u16, Option<u16>)>
    requires { length states.now ≤ most_states }
    ensures { result ≡ ends_of states.now (map (λ word. word.now) words.now) }
{
    let [on, state, kind, _, rest @ ..] = words else {
        return None;
    };
    if *on != b"on".as_slice() {
        return None;
    }
    let state = place_of(states, state)?;
    let goal = goal_of(states, goal_part(kind, rest))?;
    Some((state, goal))
}

// The place of the state of this name.
fn place_of(states: &[Name], name: &[u8]) -> Option<u16>
    requires { length states.now ≤ most_states }
    ensures { result ≡ number_by_name states.now name.now }
{
    let place = position_of(states, name)?;
    Some(place as u16)
}

fn position_of(states: &[Name], name: &[u8]) -> Option<usize>
    ensures place { result ≡ number_by_name states.now name.now }
    ensures within { IfSome result (λ place. place < length states.now) }
{
    states.iter().position(|state| is_called(state, name))
}

fn is_called(state: &Name, name: &[u8]) -> bool
    ensures { result ≡ pointwise nat_eq name.now state.now }
{
    name == state.as_bytes()
}

fn goal_of(states: &[Name], words: &[&[u8]]) -> Option<Option<u16>>
    requires { length states.now ≤ most_states }
    ensures { result ≡ goal_of states.now (map (λ word. word.now) words.now) }
{
    match words {
        [word] => {
            if *word == b"deny".as_slice() {
                Some(None)
            } else {
                None
            }
        }
        [word, state] => {
            if *word == b"to".as_slice() {
                place_of(states, state).map(Some)
            } else {
                None
            }
        }
        _ => None,
    }
}

// The words after the compartment that are the pattern's.
#[tactic(auto, using(crate::proofs::Parts::parts))]
fn pattern_part<'a>(kind: &[u8], words: &'a [&'a [u8]]) -> &'a [&'a [u8]]
    ensures { map (λ word. word.now) result.now ≡ pattern_part kind.now (map (λ word. word.now) words.now) }
{
    let count = pattern_count(kind, words.len());
    &words[..count.min(words.len())]
}

// The words after the compartment that are the goal's.
#[tactic(auto, using(crate::proofs::Parts::parts))]
fn goal_part<'a>(kind: &[u8], words: &'a [&'a [u8]]) -> &'a [&'a [u8]]
    ensures { map (λ word. word.now) result.now ≡ goal_part kind.now (map (λ word. word.now) words.now) }
{
    let count = pattern_count(kind, words.len());
    &words[count.min(words.len())..]
}

// How many of `count` words are the pattern's.
fn pattern_count(kind: &[u8], count: usize) -> usize
    ensures { result ≡ pattern_count kind.now count }
{
    if count > name_count(kind) + 2 {
        name_count(kind) + test_count(kind)
    } else {
        name_count(kind)
    }
}

fn name_count(kind: &[u8]) -> usize
    ensures { result ≡ name_count kind.now }
{
    if kind == b"call".as_slice() {
        2
    } else if kind == b"ret".as_slice() {
        1
    } else {
        0
    }
}

fn test_count(kind: &[u8]) -> usize
    ensures { result ≡ test_count kind.now }
{
    if kind == b"call".as_slice() { 4 } else { 2 }
}

fn pattern_of(kind: &[u8], comp: Who, words: &[&[u8]]) -> Option<Pattern>
    ensures { result ≡ pattern_of kind.now comp (map (λ word. word.now) words.now) }
{
    if kind == b"call".as_slice() {
        call_of(comp, words)
    } else if kind == b"ret".as_slice() {
        ret_of(comp, words)
    } else if kind == b"out".as_slice() {
        let test = maybe_test_of(words)?;
        Some(Pattern::Out { comp, test })
    } else if kind == b"in".as_slice() {
        let test = maybe_test_of(words)?;
        Some(Pattern::In { comp, test })
    } else if kind == b"end".as_slice() {
        let test = maybe_test_of(words)?;
        Some(Pattern::End { comp, test })
    } else {
        None
    }
}

fn call_of(from: Who, words: &[&[u8]]) -> Option<Pattern>
    ensures { result ≡ call_of from (map (λ word. word.now) words.now) }
{
    let [to, function, words @ ..] = words else {
        return None;
    };
    let to = who_of(to)?;
    let function = who_of(function)?;
    let arg = maybe_arg_of(words)?;
    Some(Pattern::Call {
        from,
        to,
        function,
        arg,
    })
}

fn ret_of(from: Who, words: &[&[u8]]) -> Option<Pattern>
    ensures { result ≡ ret_of from (map (λ word. word.now) words.now) }
{
    let [to, words @ ..] = words else {
        return None;
    };
    let to = who_of(to)?;
    let test = maybe_test_of(words)?;
    Some(Pattern::Ret { from, to, test })
}
