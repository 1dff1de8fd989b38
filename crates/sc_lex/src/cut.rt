ghost use Rattle.sc_lex.specs.Prelude.{AreSpans, IsCut, IsPiece, NoPiece, RefusesBytes, allows_directive, placed};
ghost use Rattle.std.specs.Prelude.{◌≡◌, ℕ, ◌+◌, ◌^◌, ◌<◌, ◌≤◌, List, ◌++◌, length, IfOk, OnOk, IsErrOf, IfSome};
ghost use Rattle.std.specs.Prelude.{IfNone};
ghost use Rattle.sc_lex.specs.declared.refusal.Phase.TheVariants.{Lex};
ghost use Rattle.sc_lex.specs.declared.refusal.Refusal.{Refusal};
ghost use Rattle.sc_lex.specs.declared.token.Token.{Token};

use crate::bytes::{begins_line, line_after};
use crate::gap::gap_len;
use crate::heading::begins_heading;
use crate::kind::token_at;
use crate::{Phase, Refusal, TextFault, Token, TokenKind};
use sqlite_items::Items;
use std::alloc::{AllocError, Global};

/// The tokens of some bytes, in order. Contracts see the list.
pub type Tokens = Items<Token>;

// What stands between two tokens, or one.
#[derive(Clone, Copy)]
enum Piece {
    Gap,
    Token(TokenKind),
}

/// The tokens of bytes that begin in this line of a text, each the longest at its place (C11 6.4p4), with white space
/// and comments (C11 6.4.9) between them. Where the bytes begin with a compartment line, as a section does, a line
/// that begins with `#` outside a comment is a directive. The line of a refusal is counted from `line`, that of a
/// token from 1.
pub fn tokens(alloc: Global, bytes: &[u8], line: u32) -> Result<Tokens, TextFault>
    ensures cut { IfOk result (IsCut bytes.now) }

    // Bytes are refused exactly where no tokens cut them, at the first place that begins neither gap nor token.
    ensures refused { (refusal : Refusal) → IsErrOf result (TextFault.Refused refusal) →
        RefusesBytes bytes.now line refusal }
    ensures uncut { (refusal : Refusal) → IsErrOf result (TextFault.Refused refusal) → (tokens : List Token) →
        IsCut bytes.now tokens → ⊥ }
{
    let mut found = Items::new(alloc);
    let mut at = 0;
    let mut token_line = 1;
    while at < bytes.len() {
        let rest = &bytes[at..];
        let Some((piece, len)) = piece_at(rest, allows_directive(bytes, at)) else {
            return Err(TextFault::Refused(Refusal {
                phase: Phase::Lex,
                line: line_after(line, &bytes[..at]),
            }));
        };
        push_piece(&mut found, piece, at, len, token_line)?;
        token_line = line_after(token_line, &rest[..len]);
        at += len;
    }
    Ok(found)
}

fn allows_directive(bytes: &[u8], at: usize) -> bool
    requires { at ≤ length bytes.now }
    ensures { result ≡ allows_directive bytes.now at }
{
    begins_line(bytes, at) && begins_heading(bytes)
}

// The piece at the start and its length, where directives are allowed or not.
#[tactic(auto, using(crate::proofs::Cuts::fits))]
fn piece_at(text: &[u8], directives: bool) -> Option<(Piece, usize)>
    requires { 0 < length text.now }
    ensures found { IfSome result (λ x. IsPiece directives text.now x.0 x.1) }
    ensures fits { IfSome result (λ x. (0 < x.1) × (x.1 ≤ length text.now)) }
    ensures none { IfNone result (NoPiece directives text.now) }
{
    if let Some(len) = gap_len(text) {
        return Some((Piece::Gap, len));
    }
    let (kind, len) = token_at(text, directives)?;
    Some((Piece::Token(kind), len))
}

// Adds the token that a piece is, if it is one.
fn push_piece(
    found: &mut Tokens,
    piece: Piece,
    start: usize,
    len: usize,
    line: u32,
) -> Result<(), AllocError>
    requires { start + len < 2 ^ 64 }
    ensures { OnOk result (found.new ≡ found.old ++ placed piece start len line) }
{
    if let Piece::Token(kind) = piece {
        found.push(Token {
            kind,
            start,
            end: start + len,
            line,
        })?;
    }
    Ok(())
}

/// Tokens that cut bytes are slices of them, one after another.
pub fn slices_in_order()
    ensures { (bytes : List ℕ) (tokens : List Token) → IsCut bytes tokens → AreSpans bytes tokens }
{}

/// Bytes are cut into one list of tokens at most.
pub fn one_cut()
    ensures { (bytes : List ℕ) (tokens others : List Token) → IsCut bytes tokens → IsCut bytes others →
        tokens ≡ others }
{}

/// Bytes are refused in one line at most, counted from the same line.
pub fn one_refusal()
    ensures { (bytes : List ℕ) (line : ℕ) (refusal other : Refusal) → RefusesBytes bytes line refusal →
        RefusesBytes bytes line other → refusal ≡ other }
{}
