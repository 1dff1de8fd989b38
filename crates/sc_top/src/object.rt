//! The command that compiles a section on its own.

ghost use Rattle.sc_top.specs.Objects.{comp_named, place_named};
ghost use Rattle.sc_top.specs.Prelude.{IsCompiling, IsOutput, IsOutputCause};
ghost use Rattle.sc_top.specs.Prelude.{Object as ObjectCommand};
ghost use Rattle.sc_object.specs.Prelude.{IsObjectOf};
ghost use Rattle.std.specs.Prelude.{◌≡◌, ◌<◌, length, IfErr, IfOk, IfSome, None, Some, bytes_eq};
ghost use Rattle.sc_top.specs.declared.failure.Failure.{Failure};

use crate::failure::{Failure, compile_failure};
use crate::text::read_source;
use sc_base::{Name, Text};
use sc_core::Program;
use sc_event::{CompId, Interface};
use sc_image::layout::comp_id;
use sc_object::{Object, write_object};
use sc_top_words::ObjectOptions;
use std::alloc::Global;

/// The object of the text's section of this name.
pub(crate) fn object(alloc: Global, options: &ObjectOptions, bytes: &[u8]) -> Result<Text, Failure>
    ensures ok { IfOk result (IsOutput (ObjectCommand options.now) bytes.now) }
    ensures cause { IfErr result (IsOutputCause (ObjectCommand options.now) bytes.now) }
{
    let source = read_source(alloc, bytes)?;
    let program = source.program();
    let comp = asked_section(program, &options.section)?;
    let object = compiled_object(alloc, program, comp)?;
    Ok(write_object(alloc, &object)?)
}

// The compartment of a name, which may not be there.
fn asked_section(program: &Program, name: &Name) -> Result<CompId, Failure>
    ensures ok { IfOk result (λ comp. comp_named program.now.interfaces name.now ≡ Some comp) }
    ensures within { IfOk result (λ comp. comp < length program.now.interfaces.comps) }
    ensures cause { IfErr result (λ failure. failure ≡ Failure.NoSection name.now) }
    ensures lacks { IfErr result (λ _. comp_named program.now.interfaces name.now ≡ None) }
{
    match comp_named(program, name) {
        Some(comp) => Ok(comp),
        None => Err(Failure::NoSection { comp: *name }),
    }
}

// The compartment of a name.
fn comp_named(program: &Program, name: &Name) -> Option<CompId>
    ensures place { result ≡ comp_named program.now.interfaces name.now }
    ensures within { IfSome result (λ comp. comp < length program.now.interfaces.comps) }
{
    // Every program is well typed, so that it has few compartments.
    let _tree = program.tree();
    match place_named(program.interfaces().comps.as_slice(), name) {
        None => None,
        Some(place) => Some(comp_id(place)),
    }
}

fn place_named(comps: &[Interface], name: &Name) -> Option<usize>
    ensures place { result ≡ place_named comps.now name.now }
    ensures within { IfSome result (λ place. place < length comps.now) }
{
    comps.iter().position(|comp| is_named(comp, name))
}

fn is_named(comp: &Interface, name: &Name) -> bool
    ensures { result ≡ bytes_eq comp.now.name name.now }
{
    comp.name.as_bytes() == name.as_bytes()
}

// The object of a compartment.
fn compiled_object(alloc: Global, program: &Program, comp: CompId) -> Result<Object, Failure>
    requires { comp < length program.now.interfaces.comps }
    ensures object { IfOk result (IsObjectOf program.now comp) }
    ensures cause { IfErr result (IsCompiling program.now) }
{
    // Every program is well typed, so that each section has a compartment.
    let _tree = program.tree();
    match sc_object::object(alloc, program, comp) {
        Ok(object) => Ok(object),
        Err(fault) => Err(compile_failure(program.interfaces(), fault)),
    }
}
