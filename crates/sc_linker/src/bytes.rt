//! The bytes that the globals of a section hold at the start.

ghost use Rattle.sc_linker.specs.Prelude.{global_fits, global_words, initial_words, structs_fit};
ghost use Rattle.std.specs.Prelude.{◌≡◌, ◌++◌, IfOk, IsTrue, OnOk, flat_map, replicate};
ghost use Rattle.std.specs.List.{list_all};
ghost use Rattle.byteorder.specs.Endian.{little_bytes};

use byteorder::{ByteOrder, LittleEndian};
use sc_base::{OutOfMemory, Text};
use sc_core::{TypedGlobal, TypedSection, TypedStruct, cells_of};
use std::alloc::Global;

fn push_word(bytes: &mut Text, word: u32) -> Result<(), OutOfMemory>
    ensures { OnOk result (bytes.new ≡ bytes.old ++ little_bytes 4 word) }
{
    let mut buffer = [0; 4];
    LittleEndian::write_u32(&mut buffer, word);
    bytes.append(&buffer)
}

fn push_words(bytes: &mut Text, words: &[u32]) -> Result<(), OutOfMemory>
    ensures { OnOk result (bytes.new ≡ bytes.old ++ flat_map (little_bytes 4) words.now) }
{
    for word in words {
        push_word(bytes, *word)?;
    }
    Ok(())
}

fn push_zeros(bytes: &mut Text, count: u64) -> Result<(), OutOfMemory>
    ensures { OnOk result (bytes.new ≡ bytes.old ++ flat_map (little_bytes 4) (replicate count 0)) }
{
    for _ in 0..count {
        push_word(bytes, 0)?;
    }
    Ok(())
}

// The words that the global begins with, followed by zeros.
fn push_global(
    bytes: &mut Text,
    structs: &[TypedStruct],
    global: &TypedGlobal,
) -> Result<(), OutOfMemory>
    ensures { OnOk result (bytes.new ≡ bytes.old ++
        flat_map (little_bytes 4) (initial_words structs.now global.now)) }
{
    let words = global.init.as_slice();
    push_words(bytes, words)?;
    push_zeros(
        bytes,
        cells_of(structs, global.ty).saturating_sub(words.len() as u64),
    )
}

/// The bytes of a section's globals, in the order of declaration.
pub fn global_bytes(alloc: Global, section: &TypedSection) -> Result<Text, OutOfMemory>
    requires structs { IsTrue (structs_fit section.now.structs 0 section.now.structs) }
    requires globals { IsTrue (list_all (global_fits section.now.structs) section.now.globals) }
    ensures { IfOk result (λ bytes. bytes ≡ flat_map (little_bytes 4) (global_words section.now)) }
{
    let structs = section.structs.as_slice();
    let mut bytes = Text::new(alloc);
    for global in section.globals.as_slice() {
        push_global(&mut bytes, structs, global)?;
    }
    Ok(bytes)
}
