//! The limit on open brackets.

ghost use Rattle.sc_base.specs.Prelude.{most_brackets};
ghost use Rattle.sc_parse.specs.Prelude.{IsExcess, most_open, open_after_mark, open_at};
ghost use Rattle.std.specs.Prelude.{◌≡◌, ◌<◌, ◌≤◌, IfSome, IfNone, length};

use sc_base::MAX_BRACKETS;
use sc_parse_expr::{Lexemes, Mark};

fn open_after_mark(mark: Mark, count: u32) -> u32
    requires { count < 4294967295 }
    ensures { result ≡ open_after_mark mark count }
{
    match mark {
        Mark::OpenParen | Mark::OpenSquare | Mark::OpenCurly => count + 1,
        Mark::CloseParen | Mark::CloseSquare | Mark::CloseCurly => count.saturating_sub(1),
        _ => count,
    }
}

// How many are open after the first lexeme.
#[tactic(auto, using(crate::proofs::Excess::opens))]
fn open_after(rest: &Lexemes<'_>, count: u32) -> u32
    requires { count < 4294967295 }
    ensures { result ≡ open_at rest.now count }
{
    match rest.mark() {
        Some(mark) => open_after_mark(mark, count),
        None => count,
    }
}

/// The place of the first lexeme after which more than 1,024 brackets are open.
pub fn first_excess(lexemes: &Lexemes<'_>) -> Option<usize>
    ensures excess { IfSome result (IsExcess lexemes.now) }
    ensures none { IfNone result (most_open 0 lexemes.now ≤ most_brackets) }
{
    let mut count = 0;
    let mut rest = lexemes.again();
    for at in 0..lexemes.len() {
        count = open_after(&rest, count);
        if count > MAX_BRACKETS {
            return Some(at);
        }
        rest.advance();
    }
    None
}
