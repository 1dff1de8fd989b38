ghost use Rattle.sc_types_interfaces.specs.Prelude.{among, interface_broken, line_of_text, main_name, name_fits};
ghost use Rattle.sc_types_interfaces.specs.Prelude.{noted_all, refused_at, section_broken, unless, with_lines};
ghost use Rattle.std.specs.Prelude.{◌≡◌, ◌||◌, IfOk, OnOk, map};

use crate::decls::decls_broken;
use crate::exports::exports_broken;
use crate::imports::{imports_broken, imports_of};
use crate::names::{is_environment_name, main_name};
use crate::tables::{SectionTable, section_tables};
use sc_ast::SectionTree;
use sc_base::{Name, NameTable, OutOfMemory};
use sc_types_scope::BrokenLines;
use std::alloc::Global;

/// The line at which the sections break the rules of interfaces: the least positive line, or 0 where only a `main` is
/// missing; `None` where the rules hold.
pub fn broken_interface(alloc: Global, sections: &[SectionTree]) -> Result<Option<u32>, OutOfMemory>
    ensures { IfOk result (λ line. line ≡ refused_at (interface_broken sections.now)) }
{
    let tables = section_tables(alloc, sections)?;
    let tables = tables.as_slice();
    let mut before = NameTable::new(alloc);
    let mut mains = false;
    let mut least = None;
    for number in 0..sections.len() {
        let section = &sections[number];
        let table = &tables[number];
        least = next_least(alloc, tables, number, table, mains, &before, section, least)?;
        mains = main_found(mains, table);
        before.add(section.name)?;
    }
    Ok(with_main(least, mains))
}

// Whether a section before, or this one, defines `main`.
fn main_found(mains: bool, table: &SectionTable) -> bool
    ensures { result ≡ (mains || among table.now.functions main_name) }
{
    mains || table.functions.contains(&main_name())
}

// A missing `main` is broken at line 0.
fn with_main(least: Option<u32>, mains: bool) -> Option<u32>
    ensures { result ≡ noted_all least (unless mains 0) }
{
    let mut lines = BrokenLines { start: 0, least };
    lines.unless(mains, 0);
    lines.least
}

// The earliest line, after the rules are checked of the section of this number too.
fn next_least(
    alloc: Global,
    tables: &[SectionTable],
    number: usize,
    table: &SectionTable,
    mains: bool,
    before: &NameTable,
    section: &SectionTree,
    least: Option<u32>,
) -> Result<Option<u32>, OutOfMemory>
    ensures { IfOk result (λ later. later ≡ noted_all least
        (map (line_of_text section.now.line)
        (section_broken tables.now number table.now mains before.now section.now))) }
{
    let mut lines = BrokenLines {
        start: section.line,
        least,
    };
    section_broken(
        alloc, tables, number, table, mains, before, section, &mut lines,
    )?;
    Ok(lines.least)
}

#[tactic(auto, using(crate::proofs::Steps::turns))]
fn section_broken(
    alloc: Global,
    tables: &[SectionTable],
    number: usize,
    table: &SectionTable,
    mains: bool,
    before: &NameTable,
    section: &SectionTree,
    lines: &mut BrokenLines,
) -> Result<(), OutOfMemory>
    ensures { OnOk result (lines.new ≡ with_lines lines.old
        (section_broken tables.now number table.now mains before.now section.now)) }
{
    lines.unless(name_fits(before, &section.name), 1);
    exports_broken(alloc, &table.functions, section.exports.as_slice(), lines)?;
    let imports = section.imports.as_slice();
    imports_broken(alloc, tables, number, table, imports, lines)?;
    let imported = imports_of(alloc, tables, number, section)?;
    let decls = section.decls.as_slice();
    decls_broken(alloc, table, &imported, mains, decls, lines)
}

fn name_fits(before: &NameTable, name: &Name) -> bool
    ensures { result ≡ name_fits before.now name.now }
{
    !before.contains(name) && !is_environment_name(name)
}
