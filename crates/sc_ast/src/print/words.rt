//! Parentheses, integer constants and indentation.

ghost use Rattle.sc_ast.specs.Prelude.{closed, deeper, indent, literal_text, opened, text_of};
ghost use Rattle.std.specs.Prelude.{◌≡◌, ◌++◌, [], ◌∷◌, OnOk};

use crate::number::Literal;
use itoa::Buffer;
use sc_base::{OutOfMemory, Text};

/// Adds `(` where it is wanted.
pub fn append_opened(out: &mut Text, wanted: bool) -> Result<(), OutOfMemory>
    ensures { OnOk result (out.new ≡ out.old ++ text_of (opened wanted)) }
{
    if wanted { out.append(b"(") } else { Ok(()) }
}

/// Adds `)` where it is wanted.
pub fn append_closed(out: &mut Text, wanted: bool) -> Result<(), OutOfMemory>
    ensures { OnOk result (out.new ≡ out.old ++ text_of (closed wanted)) }
{
    if wanted { out.append(b")") } else { Ok(()) }
}

/// Adds an integer constant.
pub fn append_literal(out: &mut Text, literal: &Literal) -> Result<(), OutOfMemory>
    ensures { OnOk result (out.new ≡ out.old ++ literal_text literal.now) }
{
    append_number(out, literal.value(), literal.is_unsigned())
}

/// Adds an integer constant of this value, with `u` where its type is `unsigned int`.
pub fn append_number(out: &mut Text, value: u32, unsigned: bool) -> Result<(), OutOfMemory>
    ensures { OnOk result (out.new ≡ out.old ++ literal_text (record { value = value; unsigned = unsigned })) }
{
    let mut buffer = Buffer::new();
    out.append(buffer.format(value).as_bytes())?;
    if unsigned { out.append(b"u") } else { Ok(()) }
}

/// The next level of indentation. Levels stop at 4294967295.
pub fn deeper(depth: u32) -> u32
    ensures { result ≡ deeper depth }
{
    depth.saturating_add(1)
}

/// Adds two blanks a level.
pub fn append_indent(out: &mut Text, depth: u32) -> Result<(), OutOfMemory>
    ensures { OnOk result (out.new ≡ out.old ++ text_of (indent depth ∷ [])) }
{
    for _ in 0..depth {
        out.append(b"  ")?;
    }
    Ok(())
}
