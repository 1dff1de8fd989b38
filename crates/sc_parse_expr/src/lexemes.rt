ghost use Rattle.sc_parse_expr.specs.Prelude.{Agrees, AreSpans, IsSpan, begins_with, first_line, first_of, ident_at};
ghost use Rattle.sc_parse_expr.specs.Prelude.{keyword_at, lexeme_of};
ghost use Rattle.sc_parse_expr.specs.Prelude.{following, is_empty, keyword_by, mark_at, mark_by, name_by, symbol_of};
ghost use Rattle.std.specs.Prelude.{◌≡◌, ◌+◌, ◌<◌, ◌^◌, drop, is_some, length, map, slice_get};
ghost use Rattle.sc_parse_expr.specs.declared.fault.SyntaxFault.TheVariants.{Refused};

use crate::fault::SyntaxFault;
use crate::lexeme::Lexeme;
use crate::mark::{Keyword, Mark};
use crate::reading::{ident_in, keyword_of, mark_of, symbol_of};
use sc_ast::Ident;
use sc_lex::{Token, TokenKind};
use std::marker::Model;

/// The lexemes that tokens are, in order. Each is made of its token when it is asked for, so that they take no memory.
/// Contracts see the list.
#[derive(Drop)]
pub struct Lexemes<'a> {
    bytes: &'a [u8],
    tokens: &'a [Token],
}

impl<'a> Model for Lexemes<'a> {
    ghost use Rattle.std.specs.Prelude.{List, map};
    ghost use Rattle.sc_parse_expr.specs.declared.lexeme.Lexeme.{Lexeme};
    ghost use Rattle.sc_parse_expr.specs.Prelude.{AreSpans, lexeme_of};

    ghost Value = { List Lexeme };

    ghost view = { λ lexemes. map (λ token. lexeme_of lexemes.bytes.now token) lexemes.tokens.now };

    ghost invariant = { λ lexemes. AreSpans lexemes.bytes.now lexemes.tokens.now };
}

impl<'a> Lexemes<'a> {
    /// The lexemes that tokens are. The tokens are slices of the bytes.
    pub fn new(bytes: &'a [u8], tokens: &'a [Token]) -> Lexemes<'a>
        requires { AreSpans bytes.now tokens.now }
        ensures { result ≡ map (λ token. lexeme_of bytes.now token) tokens.now }
    {
        Lexemes { bytes, tokens }
    }

    /// The same lexemes, to go on from the same place.
    pub fn again(&self) -> Lexemes<'a>
        ensures { result ≡ self.now }
    {
        Lexemes {
            bytes: self.bytes,
            tokens: self.tokens,
        }
    }

    /// How many lexemes there are.
    pub fn len(&self) -> usize
        ensures value { result ≡ length self.now }
        ensures within { result < 2 ^ 63 }
    {
        self.tokens.len()
    }

    /// Whether there is no lexeme.
    pub fn is_empty(&self) -> bool
        ensures { result ≡ is_empty self.now }
    {
        match self.tokens {
            [_, ..] => false,
            [] => true,
        }
    }

    /// The lexeme at a place.
    pub fn get(&self, at: usize) -> Option<Lexeme>
        ensures { result ≡ slice_get self.now at }
    {
        match self.tokens.get(at) {
            Some(token) => Some(lexeme_of(self.bytes, token)),
            None => None,
        }
    }

    /// The first lexeme.
    pub fn first(&self) -> Option<Lexeme>
        ensures { result ≡ first_of self.now }
    {
        match self.tokens {
            [first, ..] => Some(lexeme_of(self.bytes, first)),
            [] => None,
        }
    }

    /// The mark at the start.
    pub fn mark(&self) -> Option<Mark>
        ensures { result ≡ mark_at self.now }
    {
        match self.tokens {
            [first, ..] => mark_in(self.bytes, first),
            [] => None,
        }
    }

    /// The reserved word at the start.
    pub fn keyword(&self) -> Option<Keyword>
        ensures { result ≡ keyword_at self.now }
    {
        match self.tokens {
            [first, ..] => keyword_in(self.bytes, first),
            [] => None,
        }
    }

    /// The identifier at the start.
    pub fn ident(&self) -> Option<Ident>
        ensures { result ≡ ident_at self.now }
    {
        match self.tokens {
            [first, ..] => name_in(self.bytes, first),
            [] => None,
        }
    }

    /// Whether an identifier is at the start.
    pub fn begins_ident(&self) -> bool
        ensures { result ≡ is_some (ident_at self.now) }
    {
        match self.tokens {
            [first, ..] => is_name_in(self.bytes, first),
            [] => false,
        }
    }

    /// The line of the first lexeme, 0 where there is none.
    pub fn line(&self) -> u32
        ensures { result ≡ first_line self.now }
    {
        match self.tokens {
            [first, ..] => first.line,
            [] => 0,
        }
    }

    /// Goes past the first lexeme, if there is one.
    pub fn advance(&mut self)
        ensures { self.new ≡ drop 1 self.old }
    {
        if let [_, rest @ ..] = self.tokens {
            self.tokens = rest;
        }
    }

    /// The lexemes after the first.
    pub fn past(&self) -> Lexemes<'a>
        ensures { result ≡ drop 1 self.now }
    {
        let mut rest = self.again();
        rest.advance();
        rest
    }
}

fn lexeme_of(bytes: &[u8], token: &Token) -> Lexeme
    requires { IsSpan bytes.now token.now }
    ensures { result ≡ lexeme_of bytes.now token.now }
{
    Lexeme {
        symbol: symbol_of(bytes, token),
        line: token.line,
    }
}

#[tactic(auto, using(crate::proofs::Seen::marks))]
fn mark_in(bytes: &[u8], token: &Token) -> Option<Mark>
    requires { IsSpan bytes.now token.now }
    ensures { result ≡ mark_by (symbol_of bytes.now token.now) }
{
    match token.kind {
        TokenKind::Mark => mark_of(&bytes[token.start..token.end]),
        _ => None,
    }
}

#[tactic(auto, using(crate::proofs::Seen::keywords))]
fn keyword_in(bytes: &[u8], token: &Token) -> Option<Keyword>
    requires { IsSpan bytes.now token.now }
    ensures { result ≡ keyword_by (symbol_of bytes.now token.now) }
{
    match token.kind {
        TokenKind::Reserved => Some(keyword_of(&bytes[token.start..token.end]).unwrap_or(
            Keyword::Unused,
        )),
        _ => None,
    }
}

#[tactic(auto, using(crate::proofs::Seen::names))]
fn name_in(bytes: &[u8], token: &Token) -> Option<Ident>
    requires { IsSpan bytes.now token.now }
    ensures { result ≡ name_by (symbol_of bytes.now token.now) }
{
    match token.kind {
        TokenKind::Ident => ident_in(&bytes[token.start..token.end]),
        _ => None,
    }
}

#[tactic(auto, using(crate::proofs::Seen::named))]
fn is_name_in(bytes: &[u8], token: &Token) -> bool
    requires { IsSpan bytes.now token.now }
    ensures { result ≡ is_some (name_by (symbol_of bytes.now token.now)) }
{
    match token.kind {
        TokenKind::Ident => true,
        _ => false,
    }
}

/// The refusal at the first of these lexemes.
pub fn refused(lexemes: &Lexemes<'_>) -> SyntaxFault
    ensures { result ≡ Refused (length lexemes.now) }
{
    SyntaxFault::Refused {
        left: lexemes.len(),
    }
}

/// The refusal at the lexeme right before these.
pub fn refused_before(lexemes: &Lexemes<'_>) -> SyntaxFault
    ensures { result ≡ Refused (length lexemes.now + 1) }
{
    SyntaxFault::Refused {
        left: lexemes.len() + 1,
    }
}

/// Whether the lexemes begin with this mark.
pub fn begins_with(mark: Mark, lexemes: &Lexemes<'_>) -> bool
    ensures { result ≡ begins_with mark lexemes.now }
{
    match lexemes.mark() {
        Some(other) => other == mark,
        None => false,
    }
}

/// Goes past a mark, which is refused where another lexeme stands there.
pub fn take(mark: Mark, rest: &mut Lexemes<'_>) -> Result<(), SyntaxFault>
    ensures { Agrees (λ x. rest.new) result (following mark rest.old) }
{
    if begins_with(mark, rest) {
        rest.advance();
        Ok(())
    } else {
        Err(refused(rest))
    }
}
