ghost use Rattle.sc_types_interfaces.specs.Prelude.{all_numbered, environment_added, first_added, import_added};
ghost use Rattle.sc_types_interfaces.specs.Prelude.{import_fits, imported_by, imports_added, imports_broken};
ghost use Rattle.sc_types_interfaces.specs.Prelude.{input_head, input_name, int_type, is_offered_by, no_heads};
ghost use Rattle.sc_types_interfaces.specs.Prelude.{others_added, output_head, output_name, with_lines};
ghost use Rattle.std.specs.Prelude.{◌≡◌, [], IfOk, OnOk, map};
ghost use Rattle.std.specs.Option.{option_copied};

use crate::agreements::Agreements;
use crate::names::{is_environment_name, is_input_name, is_output_name, is_plain};
use crate::tables::{SectionTable, offering_number, offering_table};
use sc_ast::{BaseTree, HeadTree, Ident, ImportLine, ParamTree, ParamTrees, SectionTree, TypeName};
use sc_base::{Name, NameTable, OutOfMemory};
use sc_types_scope::BrokenLines;
use std::alloc::Global;

/// What a section imports: the names, and the heads that they stand for where they are offered.
#[derive(Drop)]
pub(crate) struct Imported {
    pub(crate) names: NameTable,
    pub(crate) heads: Agreements,
}

/// An import is offered, its name is imported once and not defined here, and it has a prototype.
#[tactic(auto, using(crate::proofs::Steps::turns))]
pub(crate) fn imports_broken(
    alloc: Global,
    tables: &[SectionTable],
    importer: usize,
    table: &SectionTable,
    imports: &[ImportLine],
    lines: &mut BrokenLines,
) -> Result<(), OutOfMemory>
    ensures { OnOk result (lines.new ≡ with_lines lines.old
        (imports_broken tables.now importer table.now.functions table.now.protos [] imports.now)) }
{
    let mut before = NameTable::new(alloc);
    for line in imports {
        lines.unless(
            import_fits(tables, importer, table, &before, line),
            line.line,
        );
        before.add(line.name)?;
    }
    Ok(())
}

fn import_fits(
    tables: &[SectionTable],
    importer: usize,
    table: &SectionTable,
    before: &NameTable,
    line: &ImportLine,
) -> bool
    ensures { result ≡ import_fits (is_offered_by tables.now importer line.now) table.now.functions table.now.protos
        before.now line.now }
{
    is_offered(tables, importer, line)
        && !before.contains(&line.name)
        && !table.functions.contains(&line.name)
        && table.protos.contains(&line.name)
        && is_plain(&line.name)
}

fn is_offered(tables: &[SectionTable], importer: usize, line: &ImportLine) -> bool
    ensures { result ≡ is_offered_by tables.now importer line.now }
{
    if is_environment_name(&line.comp) {
        is_input_name(&line.name) || is_output_name(&line.name)
    } else {
        offering_number(tables, importer, line).is_some()
    }
}

/// What the section imports.
pub(crate) fn imports_of(
    alloc: Global,
    tables: &[SectionTable],
    importer: usize,
    section: &SectionTree,
) -> Result<Imported, OutOfMemory>
    ensures { IfOk result (λ imported. imported ≡ imported_by tables.now importer section.now) }
{
    let imports = section.imports.as_slice();
    Ok(Imported {
        names: imported_names(alloc, imports)?,
        heads: imported_heads(alloc, tables, importer, imports)?,
    })
}

fn imported_names(alloc: Global, imports: &[ImportLine]) -> Result<NameTable, OutOfMemory>
    ensures { IfOk result (λ names. names ≡ all_numbered [] (map (λ line. line.name) imports.now)) }
{
    let mut names = NameTable::new(alloc);
    for line in imports {
        names.add(line.name)?;
    }
    Ok(names)
}

fn imported_heads(
    alloc: Global,
    tables: &[SectionTable],
    importer: usize,
    imports: &[ImportLine],
) -> Result<Agreements, OutOfMemory>
    ensures { IfOk result (λ known. known ≡ imports_added tables.now importer no_heads imports.now) }
{
    let mut known = Agreements::new(alloc);
    for line in imports {
        add_import(alloc, tables, importer, &mut known, line)?;
    }
    Ok(known)
}

fn add_import(
    alloc: Global,
    tables: &[SectionTable],
    importer: usize,
    known: &mut Agreements,
    line: &ImportLine,
) -> Result<(), OutOfMemory>
    ensures { OnOk result (known.new ≡ import_added tables.now importer known.old line.now) }
{
    if is_environment_name(&line.comp) {
        add_environment(alloc, known, line.name)
    } else {
        add_others(
            alloc,
            known,
            line.name,
            offering_table(tables, importer, line),
        )
    }
}

// What another section declares the name as.
fn add_others(
    alloc: Global,
    known: &mut Agreements,
    name: Name,
    other: Option<&SectionTable>,
) -> Result<(), OutOfMemory>
    ensures { OnOk result (known.new ≡ others_added known.old name (option_copied other.entry)) }
{
    match other {
        None => Ok(()),
        Some(other) => {
            if other.heads.conflicts.contains(&name) {
                known.forbid(name)
            } else {
                add_first(alloc, known, name, other.heads.firsts.get(&name))
            }
        }
    }
}

fn add_first(
    alloc: Global,
    known: &mut Agreements,
    name: Name,
    first: Option<&HeadTree>,
) -> Result<(), OutOfMemory>
    ensures { OnOk result (known.new ≡ first_added known.old name (option_copied first.entry)) }
{
    match first {
        None => Ok(()),
        Some(first) => known.add(alloc, name, first),
    }
}

// What the environment promises of the name.
fn add_environment(alloc: Global, known: &mut Agreements, name: Name) -> Result<(), OutOfMemory>
    ensures { OnOk result (known.new ≡ environment_added known.old name) }
{
    if is_input_name(&name) {
        known.add(alloc, name, &input_head(alloc))
    } else if is_output_name(&name) {
        known.add(alloc, name, &output_head(alloc)?)
    } else {
        Ok(())
    }
}

// `int input(void)`
fn input_head(alloc: Global) -> HeadTree
    ensures { result ≡ input_head }
{
    HeadTree {
        result: Some(int_type()),
        name: input_ident(),
        params: ParamTrees::new(alloc),
        line: 0,
    }
}

// `void output(int)`
fn output_head(alloc: Global) -> Result<HeadTree, OutOfMemory>
    ensures { IfOk result (λ head. head ≡ output_head) }
{
    let mut params = ParamTrees::new(alloc);
    params.push(ParamTree {
        ty: int_type(),
        name: None,
    })?;
    Ok(HeadTree {
        result: None,
        name: output_ident(),
        params,
        line: 0,
    })
}

fn int_type() -> TypeName
    ensures { result ≡ int_type }
{
    TypeName {
        base: BaseTree::Int,
        stars: 0,
    }
}

#[tactic(auto, unfolding(sc_base::specs::Identifier::is_name, sc_base::specs::Reserved::is_reserved))]
fn input_ident() -> Ident
    ensures { result ≡ input_name }
{
    Ident::new(Name::new(b"input").unwrap()).unwrap()
}

#[tactic(auto, unfolding(sc_base::specs::Identifier::is_name, sc_base::specs::Reserved::is_reserved))]
fn output_ident() -> Ident
    ensures { result ≡ output_name }
{
    Ident::new(Name::new(b"output").unwrap()).unwrap()
}
