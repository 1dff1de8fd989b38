//! Compartment lines and the words of lines.

ghost use Rattle.sc_lex.specs.Prelude.{begins_heading, heading_name, is_blank, only_name, words};
ghost use Rattle.std.specs.Prelude.{◌≡◌, ◌≤◌, [], length, get_or, drop, slice_index};
ghost use Rattle.std.specs.List.{prefix_len, position_or_len};

use crate::bytes::is_blank;
use sc_base::Name;

/// Whether the bytes begin a compartment line, good or bad.
pub fn begins_heading(text: &[u8]) -> bool
    ensures { result ≡ begins_heading text.now }
{
    text.starts_with(b"#pragma compartment ")
}

#[tactic(auto, using(crate::proofs::Wording::lengths))]
fn blanks_len(line: &[u8]) -> usize
    ensures value { result ≡ prefix_len is_blank line.now }
    ensures within { result ≤ length line.now }
{
    line.iter().take_while(|byte| is_blank(**byte)).count()
}

#[tactic(auto, using(crate::proofs::Wording::lengths))]
fn word_len(line: &[u8]) -> usize
    ensures value { result ≡ position_or_len is_blank line.now }
    ensures within { result ≤ length line.now }
{
    line.iter().take_while(|byte| !is_blank(**byte)).count()
}

/// The first word of a line, which is empty where the line has none, and what follows it.
#[tactic(auto, using(crate::proofs::Wording::wording))]
pub fn next_word(line: &[u8]) -> (&[u8], &[u8])
    ensures word { result.0.now ≡ get_or (words line.now) 0 [] }
    ensures rest { words result.1.now ≡ drop 1 (words line.now) }
{
    let rest = &line[blanks_len(line)..];
    let len = word_len(rest);
    (&rest[..len], &rest[len..])
}

/// The only word of a line as a name, `None` where it is no name or not the only one.
#[tactic(auto, using(crate::proofs::Wording::only_words))]
fn only_name(line: &[u8]) -> Option<Name>
    ensures { result ≡ only_name (words line.now) }
{
    let (word, rest) = next_word(line);
    let (other, _) = next_word(rest);
    if other.is_empty() {
        Name::new(word)
    } else {
        None
    }
}

fn blank_stands_at(line: &[u8], at: usize) -> bool
    ensures { result ≡ is_blank (slice_index line.now at) }
{
    at < line.len() && is_blank(line[at])
}

/// The name that a compartment line gives, `None` where the line is bad.
#[tactic(auto, using(crate::proofs::Wording::heading), unfolding(crate::specs::Headings::heading_name))]
pub fn heading_name(line: &[u8]) -> Option<Name>
    ensures { result ≡ heading_name line.now }
{
    if !begins_heading(line) || blank_stands_at(line, 20) {
        return None;
    }
    only_name(&line[20..])
}
