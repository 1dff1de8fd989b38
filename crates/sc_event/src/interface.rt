ghost use Rattle.sc_base.specs.Prelude.{most_params};
ghost use Rattle.sc_event.specs.Prelude.{comp_at, comp_name, export_at, fits_result, imports, imports_of, is_function};
ghost use Rattle.sc_event.specs.Prelude.{is_input, is_output, may_return, takes};
ghost use Rattle.std.specs.Prelude.{◌≡◌, ◌≤◌, IsTrue};
ghost use Rattle.sc_event.specs.declared.row.Entry.TheVariants.{Export};
ghost use Rattle.std.specs.Option.{option_copied};

use crate::{CompId, Name, Params};
use sqlite_items::Items;

/// The types of values that cross between compartments, `int` and `unsigned int`.
#[derive(Clone, Copy, Debug, Default, PartialEq, Eq)]
pub enum Scalar {
    #[default]
    Int,
    Unsigned,
}

/// What an export promises. A function whose result is `void` has none.
#[derive(Drop)]
pub struct Proto {
    pub name: Name,
    pub params: Params,
    pub result: Option<Scalar>,
}

/// The exports of a compartment, in order. Contracts see the list.
pub type Protos = Items<Proto>;

/// What a compartment may call outside itself.
#[derive(Clone, Copy, Debug, PartialEq, Eq)]
pub enum Import {
    /// The environment's `input`.
    Input,
    /// The environment's `output`.
    Output,
    /// The export at place `index` of another compartment.
    Function { comp: CompId, index: u16 },
}

/// The imports of a compartment, in order. Contracts see the list.
pub type Imports = Items<Import>;

/// A compartment as the others see it.
#[derive(Drop)]
pub struct Interface {
    pub name: Name,
    pub exports: Protos,
    pub imports: Imports,
}

/// The compartments' interfaces, by their numbers. Contracts see the list.
pub type InterfaceList = Items<Interface>;

/// The interfaces of a whole program, and the compartment that defines `main`.
#[derive(Drop)]
pub struct Interfaces {
    pub comps: InterfaceList,
    pub main: CompId,
}

impl Interfaces {
    /// The compartment of this number.
    pub fn comp(&self, comp: CompId) -> Option<&Interface>
        ensures { option_copied result ≡ comp_at self.now comp }
    {
        self.comps.get(comp.number() as usize)
    }

    /// The name of a compartment, empty where there is none of this number.
    pub fn comp_name(&self, comp: CompId) -> &[u8]
        ensures { result.now ≡ comp_name self.now comp }
    {
        match self.comp(comp) {
            None => &[],
            Some(found) => found.name.as_bytes(),
        }
    }

    /// The export of a compartment at this place.
    pub fn export(&self, comp: CompId, index: u16) -> Option<&Proto>
        ensures { option_copied result ≡ export_at self.now comp index }
    {
        self.comp(comp)?.exports.get(index as usize)
    }

    /// Whether a compartment imports `input`.
    pub fn imports_input(&self, comp: CompId) -> bool
        ensures { result ≡ imports self.now comp is_input }
    {
        self.imports_of(comp).iter().any(|import| is_input(*import))
    }

    /// Whether a compartment imports `output`.
    pub fn imports_output(&self, comp: CompId) -> bool
        ensures { result ≡ imports self.now comp is_output }
    {
        self.imports_of(comp)
            .iter()
            .any(|import| is_output(*import))
    }

    /// Whether a compartment imports this export of another.
    pub fn imports_function(&self, comp: CompId, to: CompId, index: u16) -> bool
        ensures { result ≡ imports self.now comp (is_function to index) }
    {
        let imports = self.imports_of(comp);
        imports.iter().any(|import| is_function(to, index, *import))
    }

    /// Whether the export takes `count` arguments.
    pub fn takes(&self, comp: CompId, index: u16, count: usize) -> bool
        ensures allowed { result ≡ takes self.now comp index count }
        ensures few { IsTrue result → count ≤ most_params }
    {
        match self.export(comp, index) {
            None => false,
            Some(export) => export.params.as_slice().len() == count,
        }
    }

    /// Whether the export may return this: a value exactly where it promises a result.
    pub fn may_return(&self, comp: CompId, index: u16, value: Option<u32>) -> bool
        ensures { result ≡ may_return self.now comp (Export index) value }
    {
        match self.export(comp, index) {
            None => false,
            Some(export) => fits_result(export.result, value),
        }
    }

    fn imports_of(&self, comp: CompId) -> &[Import]
        ensures { result.now ≡ imports_of self.now comp }
    {
        match self.comp(comp) {
            None => &[],
            Some(found) => found.imports.as_slice(),
        }
    }
}

fn fits_result(promised: Option<Scalar>, value: Option<u32>) -> bool
    ensures { result ≡ fits_result promised value }
{
    promised.is_some() == value.is_some()
}

fn is_output(import: Import) -> bool
    ensures { result ≡ is_output import }
{
    matches!(import, Import::Output)
}

fn is_input(import: Import) -> bool
    ensures { result ≡ is_input import }
{
    matches!(import, Import::Input)
}

fn is_function(to: CompId, at: u16, import: Import) -> bool
    ensures { result ≡ is_function to at import }
{
    match import {
        Import::Function { comp, index } => comp == to && index == at,
        _ => false,
    }
}
