ghost use Rattle.sc_types_elab.specs.Prelude.{SectionTree, callees_of, interfaces_of, program_of, sections_from};
ghost use Rattle.sc_types_elab.specs.Prelude.{typed_section};
ghost use Rattle.std.specs.Prelude.{◌≡◌, List, slice_get, Some, IsSome, IfOk};

use crate::section::build_section;
use sc_ast::SectionTree;
use sc_base::OutOfMemory;
use sc_core::{ProgramTree, TypedSection, TypedSections};
use sc_event::Interfaces;
use sqlite_items::Items;
use std::alloc::Global;

// The section of this number, which is the tree's, over all sections that have these interfaces.
fn section_at(
    alloc: Global,
    interfaces: &Interfaces,
    number: usize,
    section: &SectionTree,
) -> Result<TypedSection, OutOfMemory>
    requires { IsSome (slice_get interfaces.now.comps number) }
    ensures { (sections : List SectionTree) → interfaces.now ≡ interfaces_of sections →
        slice_get sections number ≡ Some section.now →
        IfOk result (λ built. built ≡ typed_section section.now (callees_of sections number section.now)) }
{
    let Some(interface) = interfaces.comps.get(number) else {
        unreachable!()
    };
    build_section(alloc, section, interface.imports.as_slice())
}

fn build_sections(
    alloc: Global,
    sections: &[SectionTree],
    interfaces: &Interfaces,
) -> Result<TypedSections, OutOfMemory>
    requires { interfaces.now ≡ interfaces_of sections.now }
    ensures { IfOk result (λ built. built ≡ sections_from sections.now 0 sections.now) }
{
    let mut built = Items::new(alloc);
    for number in 0..sections.len() {
        built.push(section_at(alloc, interfaces, number, &sections[number])?)?;
    }
    Ok(built)
}

// The same, where the tree of a section is given back once the section is built.
fn into_sections(
    alloc: Global,
    mut sections: Items<SectionTree>,
    interfaces: &Interfaces,
) -> Result<TypedSections, OutOfMemory>
    requires { interfaces.now ≡ interfaces_of sections }
    ensures { IfOk result (λ built. built ≡ sections_from sections 0 sections) }
{
    let mut built = Items::new(alloc);
    for number in 0..sections.len() {
        let section = sections.remove(0);
        built.push(section_at(alloc, interfaces, number, &section)?)?;
    }
    Ok(built)
}

/// The program of the sections of a text, whose interfaces are these; it needs no rule of the language to hold. There
/// is no memory for a type with 2^64 or more `*`, nor for a list with more than 4294967295 names.
pub fn build_program(
    alloc: Global,
    sections: &[SectionTree],
    interfaces: Interfaces,
) -> Result<ProgramTree, OutOfMemory>
    requires { interfaces ≡ interfaces_of sections.now }
    ensures { IfOk result (λ program. program ≡ program_of sections.now) }
{
    let sections = build_sections(alloc, sections, &interfaces)?;
    Ok(ProgramTree {
        interfaces,
        sections,
    })
}

/// The same of sections that nobody needs any more. Trees and typed sections are never all kept side by side, so this
/// takes little more memory than the larger of the two. It is meant for few sections, as many as a program may have.
pub fn into_program(
    alloc: Global,
    sections: Items<SectionTree>,
    interfaces: Interfaces,
) -> Result<ProgramTree, OutOfMemory>
    requires { interfaces ≡ interfaces_of sections }
    ensures { IfOk result (λ program. program ≡ program_of sections) }
{
    let sections = into_sections(alloc, sections, &interfaces)?;
    Ok(ProgramTree {
        interfaces,
        sections,
    })
}
