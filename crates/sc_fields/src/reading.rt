//! Each function takes a field from the start of the bytes that are left.

ghost use Rattle.sc_base.specs.Prelude.{most_compartments};
ghost use Rattle.sc_fields.specs.Prelude.{Gives, bytes_at, code_at, comp_name_at, fields_at, globals_at, import_at};
ghost use Rattle.sc_fields.specs.Prelude.{imports_at, mark_at, number_at, number_that, read_name};
ghost use Rattle.std.specs.Prelude.{◌≡◌, ◌≤◌, nat_le, nat_lt};

use crate::{FieldFault, ImportPart, ImportParts};
use byteorder::{ByteOrder, LittleEndian};
use sc_base::{Name, Text, Words};
use sc_event::CompId;
use std::alloc::Global;

/// The most imports of a compartment.
const MOST_IMPORTS: u16 = 4096;

/// The bytes that files of a kind begin with.
pub fn mark_at<'a, C: Copy>(
    cause: C,
    mark: &[u8],
    bytes: &mut &'a [u8],
) -> Result<&'a [u8], FieldFault<C>>
    ensures { Gives (λ x. (x.now, bytes.new.now)) result (mark_at cause mark.now bytes.old.now) }
{
    let found = bytes_at(cause, mark.len(), bytes)?;
    if found != mark {
        return Err(FieldFault::Bad(cause));
    }
    Ok(found)
}

/// The name of a compartment, which is not that of the environment.
#[tactic(auto, unfolding(crate::specs::Reading::comp_name_at))]
pub fn comp_name_at<C: Copy>(cause: C, bytes: &mut &[u8]) -> Result<Name, FieldFault<C>>
    ensures { Gives (λ x. (x, bytes.new.now)) result (comp_name_at cause bytes.old.now) }
{
    let name = name_at(cause, bytes)?;
    if name.as_bytes() == b"Env".as_slice() {
        return Err(FieldFault::Bad(cause));
    }
    Ok(name)
}

/// The imports of a compartment, one of `comps`.
#[tactic(auto, unfolding(crate::specs::Reading::imports_at))]
pub fn imports_at<C: Copy>(
    alloc: Global,
    cause: C,
    comps: u8,
    bytes: &mut &[u8],
) -> Result<ImportParts, FieldFault<C>>
    requires { comps ≤ most_compartments }
    ensures { Gives (λ x. (x, bytes.new.now)) result (imports_at cause comps bytes.old.now) }
{
    let count = u16_up_to(cause, MOST_IMPORTS, bytes)?;
    several_imports(alloc, cause, comps, count, bytes)
}

fn several_imports<C: Copy>(
    alloc: Global,
    cause: C,
    comps: u8,
    count: u16,
    bytes: &mut &[u8],
) -> Result<ImportParts, FieldFault<C>>
    requires { comps ≤ most_compartments }
    ensures { Gives (λ x. (x, bytes.new.now)) result (fields_at (import_at cause comps) count bytes.old.now) }
{
    let mut imports = ImportParts::new(alloc);
    for _ in 0..count {
        let import = import_at(cause, comps, bytes)?;
        imports.push(import)?;
    }
    Ok(imports)
}

#[tactic(auto, unfolding(crate::specs::Reading::import_at))]
fn import_at<C: Copy>(cause: C, comps: u8, bytes: &mut &[u8]) -> Result<ImportPart, FieldFault<C>>
    requires { comps ≤ most_compartments }
    ensures { Gives (λ x. (x, bytes.new.now)) result (import_at cause comps bytes.old.now) }
{
    let comp = comp_id_at(cause, comps, bytes)?;
    let index = u16_at(cause, bytes)?;
    Ok(ImportPart { comp, index })
}

/// Code of at most as many bytes, after its length.
#[tactic(auto, unfolding(crate::specs::Reading::code_at))]
pub fn code_at<C: Copy>(
    alloc: Global,
    cause: C,
    most: u32,
    bytes: &mut &[u8],
) -> Result<Words, FieldFault<C>>
    ensures { Gives (λ x. (x, bytes.new.now)) result (code_at cause most bytes.old.now) }
{
    let size = u32_at(cause, bytes)?;
    if size % 4 != 0 || size > most {
        return Err(FieldFault::Bad(cause));
    }
    several_words(alloc, cause, size / 4, bytes)
}

fn several_words<C: Copy>(
    alloc: Global,
    cause: C,
    count: u32,
    bytes: &mut &[u8],
) -> Result<Words, FieldFault<C>>
    ensures { Gives (λ x. (x, bytes.new.now)) result (fields_at (number_at cause 4) count bytes.old.now) }
{
    let mut words = Words::new(alloc);
    for _ in 0..count {
        let word = u32_at(cause, bytes)?;
        words.push(word)?;
    }
    Ok(words)
}

/// What globals hold at the start, of at most as many bytes, after its length.
#[tactic(auto, unfolding(crate::specs::Reading::globals_at))]
pub fn globals_at<C: Copy>(
    alloc: Global,
    cause: C,
    most: u32,
    bytes: &mut &[u8],
) -> Result<Text, FieldFault<C>>
    ensures { Gives (λ x. (x, bytes.new.now)) result (globals_at cause most bytes.old.now) }
{
    let size = u32_at(cause, bytes)?;
    if size > most {
        return Err(FieldFault::Bad(cause));
    }
    let prefix = bytes_at(cause, size as usize, bytes)?;
    let mut globals = Text::new(alloc);
    globals.append(prefix)?;
    Ok(globals)
}

/// An identifier, after its length.
#[tactic(auto, unfolding(crate::specs::Reading::read_name))]
pub fn name_at<C: Copy>(cause: C, bytes: &mut &[u8]) -> Result<Name, FieldFault<C>>
    ensures { Gives (λ x. (x, bytes.new.now)) result (read_name cause bytes.old.now) }
{
    let size = u8_at(cause, bytes)?;
    let text = bytes_at(cause, usize::from(size), bytes)?;
    let Some(name) = Name::new(text) else {
        return Err(FieldFault::Bad(cause));
    };
    Ok(name)
}

/// The number of one of `comps` compartments.
pub fn comp_id_at<C: Copy>(cause: C, comps: u8, bytes: &mut &[u8]) -> Result<CompId, FieldFault<C>>
    requires { comps ≤ most_compartments }
    ensures { Gives (λ x. (x, bytes.new.now)) result (number_that (λ c. nat_lt c comps) cause 1 bytes.old.now) }
{
    let number = u8_at(cause, bytes)?;
    match CompId::new(number) {
        Some(comp) if number < comps => Ok(comp),
        _ => Err(FieldFault::Bad(cause)),
    }
}

/// A number of one byte, which is not above `most`.
pub fn u8_up_to<C: Copy>(cause: C, most: u8, bytes: &mut &[u8]) -> Result<u8, FieldFault<C>>
    ensures { Gives (λ x. (x, bytes.new.now)) result (number_that (λ n. nat_le n most) cause 1 bytes.old.now) }
{
    let number = u8_at(cause, bytes)?;
    if number > most {
        return Err(FieldFault::Bad(cause));
    }
    Ok(number)
}

/// A number of two bytes, which is not above `most`.
pub fn u16_up_to<C: Copy>(cause: C, most: u16, bytes: &mut &[u8]) -> Result<u16, FieldFault<C>>
    ensures { Gives (λ x. (x, bytes.new.now)) result (number_that (λ n. nat_le n most) cause 2 bytes.old.now) }
{
    let number = u16_at(cause, bytes)?;
    if number > most {
        return Err(FieldFault::Bad(cause));
    }
    Ok(number)
}

/// A number of one byte.
pub fn u8_at<C: Copy>(cause: C, bytes: &mut &[u8]) -> Result<u8, FieldFault<C>>
    ensures { Gives (λ x. (x, bytes.new.now)) result (number_at cause 1 bytes.old.now) }
{
    let prefix = bytes_at(cause, 1, bytes)?;
    Ok(prefix[0])
}

/// A number of two bytes.
pub fn u16_at<C: Copy>(cause: C, bytes: &mut &[u8]) -> Result<u16, FieldFault<C>>
    ensures { Gives (λ x. (x, bytes.new.now)) result (number_at cause 2 bytes.old.now) }
{
    let prefix = bytes_at(cause, 2, bytes)?;
    Ok(LittleEndian::read_u16(prefix))
}

/// A number of four bytes.
pub fn u32_at<C: Copy>(cause: C, bytes: &mut &[u8]) -> Result<u32, FieldFault<C>>
    ensures { Gives (λ x. (x, bytes.new.now)) result (number_at cause 4 bytes.old.now) }
{
    let prefix = bytes_at(cause, 4, bytes)?;
    Ok(LittleEndian::read_u32(prefix))
}

/// The first `size` bytes.
pub fn bytes_at<'a, C: Copy>(
    cause: C,
    size: usize,
    bytes: &mut &'a [u8],
) -> Result<&'a [u8], FieldFault<C>>
    ensures { Gives (λ x. (x.now, bytes.new.now)) result (bytes_at cause size bytes.old.now) }
{
    let all = *bytes;
    if all.len() < size {
        return Err(FieldFault::Bad(cause));
    }
    let (prefix, rest) = all.split_at(size);
    *bytes = rest;
    Ok(prefix)
}
