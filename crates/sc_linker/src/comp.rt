//! A compartment of an image.

ghost use Rattle.sc_base.specs.Prelude.{most_exports};
ghost use Rattle.sc_linker.specs.Prelude.{IsLinkable, IsNamed, IsWellTyped, IsWhole, Proto, codes_at, comp_part};
ghost use Rattle.sc_linker.specs.Prelude.{export_parts, import_part, is_name, use_heap};
ghost use Rattle.sc_event.specs.Prelude.{comp_at};
ghost use Rattle.std.specs.Prelude.{◌≡◌, ◌≤◌, ◌++◌, All, IfOk, IsTrue, OnOk, Some, flat_map, length};

use crate::bytes::global_bytes;
use crate::code::section_code;
use crate::layout::entry_address;
use crate::sections::{codes_in, section_at};
use sc_base::{Name, OutOfMemory};
use sc_core::ProgramTree;
use sc_event::{CompId, Import, Interface, Proto};
use sc_image::{CompPart, ExportPart, ExportParts, ImportPart, ImportParts};
use sc_tac::Code;
use std::alloc::Global;

// A name, which is one.
fn named(name: &Name) -> Name
    ensures same { result ≡ name.now }
    ensures named { IsTrue (is_name name.now) }
{
    let _ = name.as_bytes();
    *name
}

fn export_parts(alloc: Global, comp: CompId, exports: &[Proto]) -> Result<ExportParts, OutOfMemory>
    requires { length exports.now ≤ most_exports }
    ensures parts { IfOk result (λ parts. parts ≡ export_parts comp 0 exports.now) }
    ensures named { IfOk result (λ _. All {X = Proto} (λ proto. IsTrue (is_name proto.name)) exports.now) }
{
    let mut parts = ExportParts::new(alloc);
    let mut index = 0;
    for proto in exports {
        parts.push(ExportPart {
            name: named(&proto.name),
            params: proto.params.as_slice().len() as u8,
            result: proto.result.is_some(),
            entry: entry_address(comp, index),
        })?;
        index += 1;
    }
    Ok(parts)
}

fn push_import(parts: &mut ImportParts, import: Import) -> Result<(), OutOfMemory>
    ensures { OnOk result (parts.new ≡ parts.old ++ import_part import) }
{
    match import {
        Import::Function { comp, index } => Ok(parts.push(ImportPart { comp, index })?),
        _ => Ok(()),
    }
}

fn import_parts(alloc: Global, imports: &[Import]) -> Result<ImportParts, OutOfMemory>
    ensures { IfOk result (λ parts. parts ≡ flat_map import_part imports.now) }
{
    let mut parts = ImportParts::new(alloc);
    for import in imports {
        push_import(&mut parts, *import)?;
    }
    Ok(parts)
}

// Whether one of these codes uses the heap.
fn use_heap(codes: &[Code]) -> bool
    ensures { result ≡ use_heap codes.now }
{
    codes.iter().any(|code| code.tree().heap)
}

/// A compartment of a program, of this interface.
pub fn comp_part(
    alloc: Global,
    program: &ProgramTree,
    codes: &[Code],
    comp: CompId,
    interface: &Interface,
) -> Result<CompPart, OutOfMemory>
    requires typed { IsWellTyped program.now }
    requires linkable { IsLinkable program.now codes.now }
    requires there { comp_at program.now.interfaces comp ≡ Some interface.now }
    ensures part { IfOk result (λ part. part ≡ comp_part program.now codes.now comp interface.now) }
    // Names are names, and code is made of instructions.
    ensures named { IfOk result (λ _. IsNamed interface.now) }
    ensures whole { IfOk result (λ _. All IsWhole (codes_at program.now codes.now comp)) }
{
    let section = section_at(program, comp);
    let own = codes_in(comp, program.sections.as_slice(), codes);
    let exports = interface.exports.as_slice();
    Ok(CompPart {
        name: named(&interface.name),
        input: program.interfaces.imports_input(comp),
        output: program.interfaces.imports_output(comp),
        heap: use_heap(own),
        exports: export_parts(alloc, comp, exports)?,
        imports: import_parts(alloc, interface.imports.as_slice())?,
        code: section_code(alloc, comp, exports, section, own)?,
        globals: global_bytes(alloc, section)?,
    })
}
