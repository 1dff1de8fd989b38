//! What a section declares, by tables in which a name is found at once.

ghost use Rattle.sc_types_interfaces.specs.Prelude.{all_added, all_numbered, function_names, head_added, head_in};
ghost use Rattle.sc_types_interfaces.specs.Prelude.{heads_in, no_heads, offering_number, offering_table, proto_names};
ghost use Rattle.sc_types_interfaces.specs.Prelude.{table_of};
ghost use Rattle.std.specs.Prelude.{◌≡◌, [], IfOk, OnOk, map};
ghost use Rattle.std.specs.Option.{option_copied};

use crate::agreements::Agreements;
use crate::heads::prototype;
use crate::names::same_name;
use sc_ast::{Decl, ExportLine, ImportLine, SectionTree};
use sc_base::{Name, NameTable, OutOfMemory};
use sqlite_items::Items;
use std::alloc::Global;

/// What others, and its own directives, ask of a section.
#[derive(Drop)]
pub(crate) struct SectionTable {
    pub(crate) name: Name,
    pub(crate) functions: NameTable,
    pub(crate) protos: NameTable,
    pub(crate) exports: NameTable,
    pub(crate) heads: Agreements,
}

/// Tables in the order of their sections.
pub(crate) type SectionTables = Items<SectionTable>;

/// The tables of all sections.
pub(crate) fn section_tables(
    alloc: Global,
    sections: &[SectionTree],
) -> Result<SectionTables, OutOfMemory>
    ensures { IfOk result (λ tables. tables ≡ map table_of sections.now) }
{
    let mut tables = SectionTables::new(alloc);
    for section in sections {
        tables.push(section_table(alloc, section)?)?;
    }
    Ok(tables)
}

fn section_table(alloc: Global, section: &SectionTree) -> Result<SectionTable, OutOfMemory>
    ensures { IfOk result (λ table. table ≡ table_of section.now) }
{
    let decls = section.decls.as_slice();
    Ok(SectionTable {
        name: section.name,
        functions: functions(alloc, decls)?,
        protos: protos(alloc, decls)?,
        exports: exports(alloc, section.exports.as_slice())?,
        heads: heads(alloc, decls)?,
    })
}

fn functions(alloc: Global, decls: &[Decl]) -> Result<NameTable, OutOfMemory>
    ensures { IfOk result (λ names. names ≡ all_numbered [] (function_names decls.now)) }
{
    let mut names = NameTable::new(alloc);
    for decl in decls {
        if let Decl::Function(tree) = decl {
            names.add(tree.head.name.name())?;
        }
    }
    Ok(names)
}

fn protos(alloc: Global, decls: &[Decl]) -> Result<NameTable, OutOfMemory>
    ensures { IfOk result (λ names. names ≡ all_numbered [] (proto_names decls.now)) }
{
    let mut names = NameTable::new(alloc);
    for decl in decls {
        if let Decl::Proto(head) = decl {
            names.add(head.name.name())?;
        }
    }
    Ok(names)
}

fn exports(alloc: Global, exports: &[ExportLine]) -> Result<NameTable, OutOfMemory>
    ensures { IfOk result (λ names. names ≡ all_numbered [] (map (λ line. line.name) exports.now)) }
{
    let mut names = NameTable::new(alloc);
    for line in exports {
        names.add(line.name)?;
    }
    Ok(names)
}

#[tactic(auto, using(crate::proofs::Steps::turns))]
fn heads(alloc: Global, decls: &[Decl]) -> Result<Agreements, OutOfMemory>
    ensures { IfOk result (λ known. known ≡ all_added no_heads (heads_in decls.now)) }
{
    let mut known = Agreements::new(alloc);
    for decl in decls {
        add_head(alloc, &mut known, decl)?;
    }
    Ok(known)
}

fn add_head(alloc: Global, known: &mut Agreements, decl: &Decl) -> Result<(), OutOfMemory>
    ensures { OnOk result (known.new ≡ head_added known.old (head_in decl.now)) }
{
    match decl {
        Decl::Proto(head) => known.add(alloc, head.name.name(), head),
        Decl::Function(tree) => {
            let head = prototype(alloc, &tree.head)?;
            known.add(alloc, head.name.name(), &head)
        }
        _ => Ok(()),
    }
}

/// The table of the first section other than the importing one that offers the import.
pub(crate) fn offering_table<'a>(
    tables: &'a [SectionTable],
    importer: usize,
    line: &ImportLine,
) -> Option<&'a SectionTable>
    ensures { option_copied result ≡ offering_table tables.now importer line.now }
{
    let number = offering_number(tables, importer, line)?;
    tables.get(number)
}

/// The number of the first section other than the importing one that offers the import.
pub(crate) fn offering_number(
    tables: &[SectionTable],
    importer: usize,
    line: &ImportLine,
) -> Option<usize>
    ensures { result ≡ offering_number importer line.now 0 tables.now }
{
    for number in 0..tables.len() {
        let table = &tables[number];
        if same_name(&table.name, &line.comp)
            && number != importer
            && table.exports.contains(&line.name)
        {
            return Some(number);
        }
    }
    None
}
