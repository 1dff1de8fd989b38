// What a text gives, against what it must give.
use sc_lex::{Phase, Refusal};
use sc_types::{SourceText, TextFault};
use std::alloc::Global;
use std::test::Fail;

/// A text, or several with `@@` between them. The line at which a text must be refused has an `@` in it, the text's
/// first, or is that of a token between backquotes, which stands in a line of its own; no mark is part of the text.
/// A text with no mark is a program if it is the first, and else is refused in its first line.
pub type Row = &'static [u8];

/// A text of a row that gives something else than it must.
#[derive(Clone, Copy, Debug, Drop, PartialEq, Eq)]
pub struct Wrong {
    pub row: usize,
    pub text: usize,
    pub answer: Option<Refusal>,
}

// What stands before and after each row of a table.
#[derive(Clone, Copy)]
pub struct Frame {
    pub before: &'static [u8],
    pub after: &'static [u8],
}

/// Where a table has whole texts.
pub const WHOLE: Frame = Frame {
    before: b"",
    after: b"",
};

/// Where a table has declarations of a compartment.
pub const DECLARATIONS: Frame = Frame {
    before: b"#pragma compartment Main\n",
    after: b"int main(void) { return 0; }\n",
};

// What each statement of a table may speak of. The statement stands in line 10.
pub const STATEMENTS: Frame = Frame {
    before: b"#pragma compartment Main
struct S { int n; unsigned int m; int *q; struct S *next; int list[3]; };
struct T { int n; struct S inner; };
void nothing(void) { }
int number(int n, int *p) { return n; }
int *place(void) { return 0; }
struct T build(void) { }
int main(void) {
  int i, j, *p, *q, **pp, a[4]; unsigned int u, *r, b[4]; struct S s, *t, ss[2]; struct T v, *w;
",
    after: b"\n  return 0;\n}\n",
};

/// The refusal of a text, or none where it is a program.
pub fn judge(alloc: Global, text: &[u8]) -> Result<Option<Refusal>, Fail> {
    match SourceText::read(alloc, text) {
        Ok(_) => Ok(None),
        Err(TextFault::Refused(refusal)) => Ok(Some(refusal)),
        Err(fault) => Err(fault)?,
    }
}

/// The line in which a text ends, from 1.
fn line_at_end(text: &[u8]) -> u32 {
    let mut line = 1;
    for &byte in text {
        if byte == b'\n' {
            line = u32::saturating_add(line, 1);
        }
    }
    line
}

/// The texts of a row.
fn texts(alloc: Global, row: Row) -> Result<Vec<Vec<u8>>, Fail> {
    let mut texts = Vec::new(alloc);
    let mut text = Vec::new(alloc);
    for &byte in row {
        if byte == b'@' && text.last() == Some(&b'@') {
            text.pop();
            texts.push(text)?;
            text = Vec::new(alloc);
        } else {
            text.push(byte)?;
        }
    }
    texts.push(text)?;
    Ok(texts)
}

/// A text in its frame, and the line that is marked in it.
fn marked(alloc: Global, frame: Frame, text: &[u8]) -> Result<(Vec<u8>, Option<u32>), Fail> {
    let mut whole = frame.before.to_vec(alloc)?;
    let mut line = None;
    let mut apart = false;
    for &byte in text {
        let first = line.is_none();
        apart |= byte == b'`' && first;
        match byte {
            b'@' if first => line = Some(line_at_end(whole.as_slice())),
            b'`' if apart => {
                whole.push(b'\n')?;
                line = line.or(Some(line_at_end(whole.as_slice())));
            }
            _ => whole.push(byte)?,
        }
    }
    whole.extend_from_slice(frame.after)?;
    Ok((whole, line))
}

/// The first text of a row that isn't refused in this phase at its line, or is no program where it must be one.
fn wrong_text(alloc: Global, frame: Frame, phase: Phase, row: Row) -> Result<Option<Wrong>, Fail> {
    let first_line = line_at_end(frame.before);
    for (text, bytes) in texts(alloc, row)?.iter().enumerate() {
        let (whole, line) = marked(alloc, frame, bytes.as_slice())?;
        let line = if text == 0 {
            line
        } else {
            line.or(Some(first_line))
        };
        let answer = judge(alloc, whole.as_slice())?;
        if answer != line.map(|line| Refusal { phase, line }) {
            return Ok(Some(Wrong {
                row: 0,
                text,
                answer,
            }));
        }
    }
    Ok(None)
}

/// The rows with a text that gives something else than it must, each with its first.
pub fn wrong_rows(
    alloc: Global,
    frame: Frame,
    phase: Phase,
    rows: &[Row],
) -> Result<Vec<Wrong>, Fail> {
    let mut wrong = Vec::new(alloc);
    for (row, texts) in rows.iter().enumerate() {
        if let Some(found) = wrong_text(alloc, frame, phase, texts)? {
            wrong.push(Wrong { row, ..found })?;
        }
    }
    Ok(wrong)
}
