//! The image of a whole program.

ghost use Rattle.sc_linker.specs.Prelude.{AreNamed, IsLinkable, IsWellTyped, IsWhole, TypedFunction, addresses_at};
ghost use Rattle.sc_linker.specs.Prelude.{comp_parts, entry_in, function_address, linked_image, main_name};
ghost use Rattle.std.specs.Prelude.{◌≡◌, All, IfOk, OnSome, bytes_eq};
ghost use Rattle.std.specs.List.{position};
ghost use Rattle.sc_event.specs.declared.row.Entry.TheVariants.{Main};

use crate::comp::comp_part;
use crate::layout::SectionLayout;
use crate::sections::{codes_in, exports_at, section_at};
use sc_base::OutOfMemory;
use sc_core::{Program, ProgramTree, TypedFunction};
use sc_image::layout::comp_id;
use sc_image::{CompParts, Image, ImageParts};
use sc_tac::Code;
use std::alloc::Global;

fn comp_parts(
    alloc: Global,
    program: &ProgramTree,
    codes: &[Code],
) -> Result<CompParts, OutOfMemory>
    requires typed { IsWellTyped program.now }
    requires linkable { IsLinkable program.now codes.now }
    ensures parts { IfOk result (λ parts. parts ≡ comp_parts program.now codes.now 0 program.now.interfaces.comps) }
    // Names are names, and code is made of instructions.
    ensures named { IfOk result (λ _. AreNamed program.now.interfaces) }
    ensures whole { IfOk result (λ _. All IsWhole codes.now) }
{
    let comps = program.interfaces.comps.as_slice();
    let mut parts = CompParts::new(alloc);
    for number in 0..comps.len() {
        let comp = comp_id(number);
        parts.push(comp_part(alloc, program, codes, comp, &comps[number])?)?;
    }
    Ok(parts)
}

fn is_main(function: &TypedFunction) -> bool
    ensures { result ≡ bytes_eq function.now.name main_name }
{
    function.name.as_bytes() == b"main".as_slice()
}

fn main_number(functions: &[TypedFunction]) -> Option<usize>
    ensures { result ≡ position {X = TypedFunction} (λ f. bytes_eq f.name main_name) functions.now }
{
    functions.iter().position(is_main)
}

// The address of `main`.
fn main_address(alloc: Global, program: &ProgramTree, codes: &[Code]) -> Result<u32, OutOfMemory>
    requires typed { IsWellTyped program.now }
    requires linkable { IsLinkable program.now codes.now }
    ensures { IfOk result (λ address. let main = program.now.interfaces.main in
        address ≡ function_address (addresses_at program.now codes.now main) (entry_in program.now main Main)) }
{
    let main = program.interfaces.main;
    let section = section_at(program, main);
    let Some(number) = main_number(section.functions.as_slice()) else {
        return Ok(0);
    };
    let exports = exports_at(program, main).len() as u16;
    let own = codes_in(main, program.sections.as_slice(), codes);
    let layout = SectionLayout::new(alloc, main, exports, section, own)?;
    Ok(layout.function(number))
}

/// The image of a program whose functions have these codes, in the order of sections and functions.
pub fn link(alloc: Global, codes: &[Code], program: &Program) -> Result<Image, OutOfMemory>
    requires { IsLinkable program.now codes.now }
    ensures image { IfOk result (λ image. image ≡ linked_image program.now codes.now) }
    // Names are names, and code is made of instructions.
    ensures named { IfOk result (λ _. AreNamed program.now.interfaces) }
    ensures whole { IfOk result (λ _. All IsWhole codes.now) }
{
    let program = program.tree();
    Ok(Image::new(ImageParts {
        main: program.interfaces.main,
        entry: main_address(alloc, program, codes)?,
        comps: comp_parts(alloc, program, codes)?,
    }))
}
