//! Classes of bytes, and lines.

ghost use Rattle.sc_lex.specs.Prelude.{begins_line, is_blank, line_after, line_len, newlines};
ghost use Rattle.std.specs.Prelude.{◌≡◌, ◌≤◌, length};

/// White space other than a newline.
pub fn is_blank(byte: u8) -> bool
    ensures { result ≡ is_blank byte }
{
    matches!(byte, b' ' | b'\t' | 11 | 12 | b'\r')
}

/// Whether a line of the text begins at this place.
pub fn begins_line(text: &[u8], at: usize) -> bool
    requires { at ≤ length text.now }
    ensures { result ≡ begins_line text.now at }
{
    at == 0 || text[at - 1] == b'\n'
}

/// How long the first line is, without its newline.
#[tactic(auto, using(crate::proofs::Wording::lengths))]
pub fn line_len(text: &[u8]) -> usize
    ensures value { result ≡ line_len text.now }
    ensures within { result ≤ length text.now }
{
    text.iter().take_while(|byte| **byte != b'\n').count()
}

fn newlines(text: &[u8]) -> usize
    ensures { result ≡ newlines text.now }
{
    // Most texts that are asked for are one byte: a blank or a mark.
    if let [only] = text {
        usize::from(*only == b'\n')
    } else {
        text.iter().filter(|byte| **byte == b'\n').count()
    }
}

/// The line in which the text ends that begins in this line.
pub fn line_after(line: u32, text: &[u8]) -> u32
    ensures { result ≡ line_after line (newlines text.now) }
{
    match u32::try_from(newlines(text)) {
        Ok(more) => line.saturating_add(more),
        Err(_) => u32::MAX,
    }
}
