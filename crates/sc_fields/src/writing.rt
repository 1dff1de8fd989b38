//! Each function appends a field to what is written so far.

ghost use Rattle.sc_fields.specs.Prelude.{code_bytes, globals_bytes, import_bytes, imports_bytes, name_bytes};
ghost use Rattle.std.specs.Prelude.{◌≡◌, ◌*◌, ◌^◌, ◌<◌, ◌++◌, length, OnOk};
ghost use Rattle.byteorder.specs.Endian.{little_bytes};

use crate::ImportPart;
use byteorder::{ByteOrder, LittleEndian};
use sc_base::{Name, OutOfMemory, Text};

/// The imports of a compartment, after their number.
pub fn append_imports(text: &mut Text, imports: &[ImportPart]) -> Result<(), OutOfMemory>
    requires { length imports.now < 2 ^ 16 }
    ensures { OnOk result (text.new ≡ text.old ++ imports_bytes imports.now) }
{
    append_u16(text, imports.len() as u16)?;
    for import in imports {
        append_import(text, import)?;
    }
    Ok(())
}

fn append_import(text: &mut Text, import: &ImportPart) -> Result<(), OutOfMemory>
    ensures { OnOk result (text.new ≡ text.old ++ import_bytes import.now) }
{
    text.push(import.comp.number())?;
    append_u16(text, import.index)
}

/// Words of code, after their length in bytes.
pub fn append_code(text: &mut Text, code: &[u32]) -> Result<(), OutOfMemory>
    requires { 4 * length code.now < 2 ^ 32 }
    ensures { OnOk result (text.new ≡ text.old ++ code_bytes code.now) }
{
    append_u32(text, 4 * code.len() as u32)?;
    for word in code {
        append_u32(text, *word)?;
    }
    Ok(())
}

/// What globals hold at the start, after its length.
pub fn append_globals(text: &mut Text, globals: &[u8]) -> Result<(), OutOfMemory>
    requires { length globals.now < 2 ^ 32 }
    ensures { OnOk result (text.new ≡ text.old ++ globals_bytes globals.now) }
{
    append_u32(text, globals.len() as u32)?;
    text.append(globals)
}

/// A name, after its length.
#[tactic(auto, using(sc_base::proofs::Filled::name_is_short))]
pub fn append_name(text: &mut Text, name: &Name) -> Result<(), OutOfMemory>
    ensures { OnOk result (text.new ≡ text.old ++ name_bytes name.now) }
{
    let bytes = name.as_bytes();
    text.push(bytes.len() as u8)?;
    text.append(bytes)
}

/// A number of two bytes.
pub fn append_u16(text: &mut Text, number: u16) -> Result<(), OutOfMemory>
    ensures { OnOk result (text.new ≡ text.old ++ little_bytes 2 number) }
{
    let mut bytes = [0; 2];
    LittleEndian::write_u16(&mut bytes, number);
    text.append(&bytes)
}

/// A number of four bytes.
pub fn append_u32(text: &mut Text, number: u32) -> Result<(), OutOfMemory>
    ensures { OnOk result (text.new ≡ text.old ++ little_bytes 4 number) }
{
    let mut bytes = [0; 4];
    LittleEndian::write_u32(&mut bytes, number);
    text.append(&bytes)
}
