//! Types.

ghost use Rattle.sc_ast.specs.Prelude.{base_words, blank_if, star_words, text_of, type_words};
ghost use Rattle.std.specs.Prelude.{◌≡◌, ◌<◌, ◌++◌, OnOk, nat_lt};

use crate::types::{BaseTree, TypeName};
use sc_base::{OutOfMemory, Text};

/// Adds a base.
pub fn append_base(out: &mut Text, base: &BaseTree) -> Result<(), OutOfMemory>
    ensures { OnOk result (out.new ≡ out.old ++ text_of (base_words base.now)) }
{
    match base {
        BaseTree::Int => out.append(b"int"),
        BaseTree::Unsigned => out.append(b"unsigned int"),
        BaseTree::Struct(tag) => {
            out.append(b"struct ")?;
            out.append(tag.as_bytes())
        }
    }
}

/// Adds `*` this many times.
pub fn append_stars(out: &mut Text, stars: u64) -> Result<(), OutOfMemory>
    ensures { OnOk result (out.new ≡ out.old ++ text_of (star_words stars)) }
{
    for _ in 0..stars {
        out.append(b"*")?;
    }
    Ok(())
}

/// Adds a blank where it is wanted.
pub fn append_blank(out: &mut Text, wanted: bool) -> Result<(), OutOfMemory>
    ensures { OnOk result (out.new ≡ out.old ++ text_of (blank_if wanted)) }
{
    if wanted { out.push(b' ') } else { Ok(()) }
}

/// Adds a type that is no array.
pub fn append_type(out: &mut Text, ty: &TypeName) -> Result<(), OutOfMemory>
    ensures { OnOk result (out.new ≡ out.old ++ text_of (type_words ty.now)) }
{
    append_base(out, &ty.base)?;
    append_blank(out, ty.stars > 0)?;
    append_stars(out, ty.stars)
}
