//! White space and comments.

ghost use Rattle.sc_lex.specs.Prelude.{IsGap, begins_block_comment, begins_line_comment, ends_comment, is_white_space};
ghost use Rattle.std.specs.Prelude.{◌≡◌, ℕ, ◌≤◌, ◌<◌, ◌||◌, length, IsTrue, IfSome, IfNone};

use crate::bytes::{is_blank, line_len};

fn is_white_space(byte: u8) -> bool
    ensures { result ≡ is_white_space byte }
{
    is_blank(byte) || byte == b'\n'
}

fn begins_block_comment(text: &[u8]) -> bool
    ensures { result ≡ begins_block_comment text.now }
{
    text.starts_with(b"/*")
}

fn begins_line_comment(text: &[u8]) -> bool
    ensures { result ≡ begins_line_comment text.now }
{
    text.starts_with(b"//")
}

/// Whether the text begins with `/*` or `//`.
pub fn begins_comment(text: &[u8]) -> bool
    ensures { result ≡ (begins_block_comment text.now || begins_line_comment text.now) }
{
    begins_block_comment(text) || begins_line_comment(text)
}

fn ends_comment(text: &[u8], at: usize) -> bool
    requires { at < length text.now }
    ensures { result ≡ ends_comment text.now at }
{
    text[at..].starts_with(b"*/")
}

// The length of a comment up to the first `*/`, `None` where it doesn't end.
fn block_comment_len(text: &[u8]) -> Option<usize>
    requires { IsTrue (begins_block_comment text.now) }
    ensures found { IfSome result (IsGap text.now) }
    ensures none { IfNone result ((at : ℕ) → 2 ≤ at → IsTrue (ends_comment text.now at) → ⊥) }
{
    for at in 2..text.len() {
        if ends_comment(text, at) {
            return Some(at + 2);
        }
    }
    None
}

/// How many bytes at the start are a byte of white space or a comment, `None` where they are neither, or a comment
/// that doesn't end.
#[tactic(auto, using(crate::proofs::Gaps::gaps))]
pub fn gap_len(text: &[u8]) -> Option<usize>
    requires { 0 < length text.now }
    ensures found { IfSome result (IsGap text.now) }
    ensures none { IfNone result ((len : ℕ) → IsGap text.now len → ⊥) }
{
    if is_white_space(text[0]) {
        Some(1)
    } else if begins_line_comment(text) {
        Some(line_len(text))
    } else if begins_block_comment(text) {
        block_comment_len(text)
    } else {
        None
    }
}
