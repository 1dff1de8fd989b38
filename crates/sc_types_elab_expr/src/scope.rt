ghost use Rattle.sc_types_elab_expr.specs.Prelude.{variable_named, visible};
ghost use Rattle.std.specs.Prelude.{◌≡◌};

use crate::callees::Callees;
use crate::structs::Structs;
use crate::variables::{Found, Variables};
use sc_base::{Name, NameList};
use sc_core::Ty;

/// What a section gives to the bodies of its functions: the tags of its structs, its structs and globals, and whom it
/// calls.
#[derive(Drop)]
pub struct SectionScope {
    pub tags: NameList,
    pub structs: Structs,
    pub globals: Variables,
    pub callees: Callees,
}

/// The variables of a function and the type of its result, which is absent for `void`.
#[derive(Drop)]
pub struct FunctionScope {
    pub params: Variables,
    pub locals: Variables,
    pub result: Option<Ty>,
}

/// The variable of a name (C11 6.2.1p4).
pub fn found(section: &SectionScope, function: &FunctionScope, name: &Name) -> Option<Found>
    ensures { result ≡ variable_named (visible section.now function.now) name.now }
{
    if let Some(local) = function.locals.local(name) {
        return Some(local);
    }
    if let Some(param) = function.params.param(name) {
        return Some(param);
    }
    section.globals.global(name)
}
