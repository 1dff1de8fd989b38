//! The interfaces of a text whose sections keep the rules of interfaces and counts.

ghost use Rattle.sc_types_interfaces.specs.Prelude.{IsWithinCounts, all_placed, export_by, export_name, export_places};
ghost use Rattle.sc_types_interfaces.specs.Prelude.{first_by_name, function_at, function_name, function_places};
ghost use Rattle.sc_types_interfaces.specs.Prelude.{import_by, interface_by, interfaces_by, interfaces_of, main_by};
ghost use Rattle.sc_types_interfaces.specs.Prelude.{offered_by, option_placed, promised_by, scalar_of};
ghost use Rattle.std.specs.Prelude.{◌≡◌, [], IfOk, OnOk, map, min, slice_get, take};
ghost use Rattle.std.specs.Option.{option_and_then, option_copied, option_map};

use crate::names::{is_environment_name, is_input_name, main_name};
use crate::tables::{SectionTable, offering_number, section_tables};
use sc_ast::{
    BaseTree, Decl, ExportLine, FunctionParam, FunctionTree, ImportLine, SectionTree, TypeName,
};
use sc_base::{FirstByName, Name, OutOfMemory};
use sc_event::{
    CompId, Import, Imports, Interface, InterfaceList, Interfaces, Params, Proto, Protos, Scalar,
};
use sqlite_items::Items;
use std::alloc::Global;

/// The place in a list at which each name came first.
type Places = FirstByName<usize>;

/// What the sections offer and use, as the interfaces of the text's program.
pub fn interfaces(alloc: Global, sections: &[SectionTree]) -> Result<Interfaces, OutOfMemory>
    requires { IsWithinCounts sections.now }
    ensures { IfOk result (λ interfaces. interfaces ≡ interfaces_of sections.now) }
{
    let tables = section_tables(alloc, sections)?;
    let tables = tables.as_slice();
    let places = all_export_places(alloc, sections)?;
    Ok(Interfaces {
        comps: interface_list(alloc, tables, places.as_slice(), sections)?,
        main: main_comp(tables),
    })
}

fn interface_list(
    alloc: Global,
    tables: &[SectionTable],
    places: &[Places],
    sections: &[SectionTree],
) -> Result<InterfaceList, OutOfMemory>
    ensures { IfOk result (λ list. list ≡ interfaces_by tables.now places.now 0 sections.now) }
{
    let mut list = InterfaceList::new(alloc);
    for number in 0..sections.len() {
        list.push(interface(alloc, tables, places, number, &sections[number])?)?;
    }
    Ok(list)
}

fn interface(
    alloc: Global,
    tables: &[SectionTable],
    places: &[Places],
    number: usize,
    section: &SectionTree,
) -> Result<Interface, OutOfMemory>
    ensures { IfOk result (λ interface. interface ≡ interface_by tables.now places.now number section.now) }
{
    let decls = section.decls.as_slice();
    Ok(Interface {
        name: section.name,
        exports: exports(alloc, decls, section.exports.as_slice())?,
        imports: imports(alloc, tables, places, number, section.imports.as_slice())?,
    })
}

fn exports(alloc: Global, decls: &[Decl], lines: &[ExportLine]) -> Result<Protos, OutOfMemory>
    ensures { IfOk result (λ protos. protos ≡ map (export_by decls.now (function_places decls.now)) lines.now) }
{
    let places = function_places(alloc, decls)?;
    let mut protos = Protos::new(alloc);
    for line in lines {
        protos.push(promised(alloc, line.name, function_at(decls, &places, &line.name)))?;
    }
    Ok(protos)
}

fn function_at<'a>(decls: &'a [Decl], places: &Places, name: &Name) -> Option<&'a FunctionTree>
    ensures { option_copied result ≡ function_at decls.now places.now name.now }
{
    match decls.get(*places.get(name)?)? {
        Decl::Function(tree) => Some(tree),
        _ => None,
    }
}

fn promised(alloc: Global, name: Name, tree: Option<&FunctionTree>) -> Proto
    ensures { result ≡ promised_by name (option_copied tree.entry) }
{
    match tree {
        None => Proto {
            name,
            params: Params::new(alloc),
            result: None,
        },
        Some(tree) => Proto {
            name,
            params: params(alloc, tree.head.params.as_slice()),
            result: result_scalar(&tree.head.result),
        },
    }
}

// The types of the first 8 parameters.
fn params(alloc: Global, params: &[FunctionParam]) -> Params
    ensures { result ≡ take 8 (map (λ param. scalar_of param.ty) params.now) }
{
    let mut scalars = Params::new(alloc);
    for param in params {
        if scalars.push(scalar(&param.ty)).is_none() {
            break;
        }
    }
    scalars
}

fn result_scalar(ty: &Option<TypeName>) -> Option<Scalar>
    ensures { result ≡ option_map scalar_of ty.now }
{
    match ty {
        None => None,
        Some(ty) => Some(scalar(ty)),
    }
}

fn scalar(ty: &TypeName) -> Scalar
    ensures { result ≡ scalar_of ty.now }
{
    match &ty.base {
        BaseTree::Unsigned => Scalar::Unsigned,
        _ => Scalar::Int,
    }
}

fn imports(
    alloc: Global,
    tables: &[SectionTable],
    places: &[Places],
    importer: usize,
    lines: &[ImportLine],
) -> Result<Imports, OutOfMemory>
    ensures { IfOk result (λ imports. imports ≡ map (import_by tables.now places.now importer) lines.now) }
{
    let mut imports = Imports::new(alloc);
    for line in lines {
        imports.push(import(tables, places, importer, line))?;
    }
    Ok(imports)
}

fn import(tables: &[SectionTable], places: &[Places], importer: usize, line: &ImportLine) -> Import
    ensures { result ≡ import_by tables.now places.now importer line.now }
{
    if is_environment_name(&line.comp) {
        if is_input_name(&line.name) {
            Import::Input
        } else {
            Import::Output
        }
    } else {
        offered(places, line, offering_number(tables, importer, line))
    }
}

// An export by its section's number and its place there. Sections and exports are few enough for these numbers.
fn offered(places: &[Places], line: &ImportLine, number: Option<usize>) -> Import
    ensures { result ≡ offered_by places.now line.now number }
{
    match number {
        None => Import::Function {
            comp: CompId::first(),
            index: 0,
        },
        Some(number) => Import::Function {
            comp: comp_id(number),
            index: export_place(places, number, &line.name)
                .unwrap_or(0)
                .min(65535) as u16,
        },
    }
}

fn export_place(places: &[Places], number: usize, name: &Name) -> Option<usize>
    ensures { result ≡ option_and_then (λ found. first_by_name found name.now) (slice_get places.now number) }
{
    places.get(number)?.get(name).copied()
}

// The compartment of this number, or the last for a greater one.
fn comp_id(number: usize) -> CompId
    ensures { result ≡ min number 31 }
{
    CompId::new(number.min(31) as u8).unwrap()
}

fn main_comp(tables: &[SectionTable]) -> CompId
    ensures { result ≡ min (main_by 0 tables.now) 31 }
{
    comp_id(main_number(tables))
}

fn main_number(tables: &[SectionTable]) -> usize
    ensures { result ≡ main_by 0 tables.now }
{
    for number in 0..tables.len() {
        if tables[number].functions.contains(&main_name()) {
            return number;
        }
    }
    0
}

fn all_export_places(alloc: Global, sections: &[SectionTree]) -> Result<Items<Places>, OutOfMemory>
    ensures { IfOk result (λ places. places ≡ map export_places sections.now) }
{
    let mut places = Items::new(alloc);
    for section in sections {
        places.push(export_places(alloc, section.exports.as_slice())?)?;
    }
    Ok(places)
}

fn export_places(alloc: Global, lines: &[ExportLine]) -> Result<Places, OutOfMemory>
    ensures { IfOk result (λ places. places ≡ all_placed [] 0 (map export_name lines.now)) }
{
    let mut places = Places::new(alloc);
    for at in 0..lines.len() {
        places.insert(lines[at].name, at)?;
    }
    Ok(places)
}

fn function_places(alloc: Global, decls: &[Decl]) -> Result<Places, OutOfMemory>
    ensures { IfOk result (λ places. places ≡ function_places decls.now) }
{
    let mut places = Places::new(alloc);
    for at in 0..decls.len() {
        add_function(&mut places, &decls[at], at)?;
    }
    Ok(places)
}

fn add_function(places: &mut Places, decl: &Decl, at: usize) -> Result<(), OutOfMemory>
    ensures { OnOk result (places.new ≡ option_placed places.old (function_name decl.now) at) }
{
    match decl {
        Decl::Function(tree) => places.insert(tree.head.name.name(), at),
        _ => Ok(()),
    }
}
