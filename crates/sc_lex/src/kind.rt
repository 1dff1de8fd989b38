//! The kinds of texts, and the token at the start of a text.

ghost use Rattle.sc_lex.specs.Prelude.{IsToken, NoToken, begins_block_comment, begins_line_comment, is_directive};
ghost use Rattle.sc_lex.specs.Prelude.{is_export, is_import, is_mark, line_kind, word_kind, words};
ghost use Rattle.sc_base.specs.Prelude.{is_name_byte};
ghost use Rattle.std.specs.Prelude.{◌≡◌, ◌≢◌, ℕ, ◌≤◌, ◌<◌, Bool, true, false, [], get_or, length, take, nat_le, ◌&&◌};
ghost use Rattle.std.specs.Prelude.{slice_index, IsTrue, IfSome, IfNone};
ghost use Rattle.std.specs.List.{prefix_len};
ghost use Rattle.sc_lex.specs.declared.token.TokenKind.{TokenKind};

use crate::TokenKind;
use crate::bytes::line_len;
use crate::gap::begins_comment;
use crate::heading::{heading_name, next_word};
use crate::integer::is_integer;
use crate::tables::is_mark;
use sc_base::{is_name, is_reserved};

fn is_name_byte(byte: u8) -> bool
    ensures { result ≡ is_name_byte byte }
{
    byte.is_ascii_alphanumeric() || byte == b'_'
}

// How many letters, digits and `_` are at the start.
#[tactic(auto, using(crate::proofs::Wording::lengths))]
fn name_len(text: &[u8]) -> usize
    ensures value { result ≡ prefix_len is_name_byte text.now }
    ensures within { result ≤ length text.now }
{
    text.iter().take_while(|byte| is_name_byte(**byte)).count()
}

/// The first words of a line, which are empty from where the line has no more.
#[derive(Clone, Copy)]
pub struct FirstWords<'a> {
    pub pragma: &'a [u8],
    pub verb: &'a [u8],
    pub first: &'a [u8],
    pub second: &'a [u8],
    pub third: &'a [u8],
}

/// The words of a line up to the fifth, as those of a directive.
#[tactic(auto, using(crate::proofs::Wording::later_words))]
pub fn first_words(line: &[u8]) -> FirstWords<'_>
    ensures pragma { result.pragma.now ≡ get_or (words line.now) 0 [] }
    ensures verb { result.verb.now ≡ get_or (words line.now) 1 [] }
    ensures first { result.first.now ≡ get_or (words line.now) 2 [] }
    ensures second { result.second.now ≡ get_or (words line.now) 3 [] }
    ensures third { result.third.now ≡ get_or (words line.now) 4 [] }
{
    let (pragma, rest) = next_word(line);
    let (verb, rest) = next_word(rest);
    let (first, rest) = next_word(rest);
    let (second, rest) = next_word(rest);
    let (third, _) = next_word(rest);
    FirstWords {
        pragma,
        verb,
        first,
        second,
        third,
    }
}

#[tactic(auto, using(crate::proofs::Directives::directives))]
fn is_export(line: &[u8]) -> bool
    ensures { result ≡ is_export (words line.now) }
{
    let words = first_words(line);
    words.pragma == b"#pragma".as_slice()
        && words.verb == b"export".as_slice()
        && is_name(words.first)
        && words.second.is_empty()
}

#[tactic(auto, using(crate::proofs::Directives::directives))]
fn is_import(line: &[u8]) -> bool
    ensures { result ≡ is_import (words line.now) }
{
    let words = first_words(line);
    words.pragma == b"#pragma".as_slice()
        && words.verb == b"import".as_slice()
        && is_name(words.first)
        && is_name(words.second)
        && words.third.is_empty()
}

#[tactic(auto, unfolding(crate::specs::Kinds::line_kind))]
fn line_kind(line: &[u8]) -> Option<TokenKind>
    ensures { result ≡ line_kind line.now }
{
    if heading_name(line).is_some() {
        Some(TokenKind::Compartment)
    } else if is_export(line) {
        Some(TokenKind::Export)
    } else if is_import(line) {
        Some(TokenKind::Import)
    } else {
        None
    }
}

#[tactic(auto, unfolding(crate::specs::Kinds::word_kind))]
fn word_kind(word: &[u8]) -> Option<TokenKind>
    ensures { result ≡ word_kind word.now }
{
    if is_reserved(word) {
        Some(TokenKind::Reserved)
    } else if is_name(word) {
        Some(TokenKind::Ident)
    } else if is_integer(word) {
        Some(TokenKind::Integer)
    } else {
        None
    }
}

// An identifier, reserved word or integer ends where letters, digits and `_` end.
fn word_at(text: &[u8]) -> Option<(TokenKind, usize)>
    requires some { 0 < length text.now }
    requires start { IsTrue (is_name_byte (slice_index text.now 0)) }
    ensures found { IfSome result (λ x. (directives : Bool) → IsToken directives text.now x.0 x.1) }
    ensures none { IfNone result (NoToken text.now) }
{
    let len = name_len(text);
    let kind = word_kind(&text[..len])?;
    Some((kind, len))
}

// A directive ends where its line ends.
fn directive_at(text: &[u8]) -> Option<(TokenKind, usize)>
    requires some { 0 < length text.now }
    requires start { slice_index text.now 0 ≡ 35 }
    ensures found { IfSome result (λ x. IsTrue (is_directive x.0) × IsToken true text.now x.0 x.1) }
    ensures none { IfNone result (NoToken text.now) }
{
    let len = line_len(text);
    let kind = line_kind(&text[..len])?;
    Some((kind, len))
}

fn mark_stands(text: &[u8], len: usize) -> bool
    ensures { result ≡ (nat_le len (length text.now) && is_mark (take len text.now)) }
{
    text.len() >= len && is_mark(&text[..len])
}

// The longest mark at the start.
fn mark_at(text: &[u8]) -> Option<(TokenKind, usize)>
    requires some { 0 < length text.now }
    requires no_word { is_name_byte (slice_index text.now 0) ≡ false }
    requires no_directive { slice_index text.now 0 ≢ 35 }
    requires no_block_comment { IsTrue (begins_block_comment text.now) → ⊥ }
    requires no_line_comment { IsTrue (begins_line_comment text.now) → ⊥ }
    ensures found { IfSome result (λ x. (directives : Bool) → IsToken directives text.now x.0 x.1) }
    ensures none { IfNone result (NoToken text.now) }
{
    if mark_stands(text, 3) {
        Some((TokenKind::Mark, 3))
    } else if mark_stands(text, 2) {
        Some((TokenKind::Mark, 2))
    } else if mark_stands(text, 1) {
        Some((TokenKind::Mark, 1))
    } else {
        None
    }
}

/// The token at the start and its length, where directives are allowed or not.
pub fn token_at(text: &[u8], directives: bool) -> Option<(TokenKind, usize)>
    requires { 0 < length text.now }
    ensures found { IfSome result (λ x. IsToken directives text.now x.0 x.1) }
    ensures none { IfNone result ((kind : TokenKind) (len : ℕ) → IsToken directives text.now kind len → ⊥) }
{
    if begins_comment(text) {
        None
    } else if is_name_byte(text[0]) {
        word_at(text)
    } else if text[0] != b'#' {
        mark_at(text)
    } else if directives {
        directive_at(text)
    } else {
        None
    }
}
