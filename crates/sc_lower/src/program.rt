//! Sections and programs.

ghost use Rattle.sc_lower.specs.Prelude.{AreFunctions, HasBranches, IsLowerable, IsWellTyped, KeepsCodeRules};
ghost use Rattle.sc_lower.specs.Prelude.{MeansTheSame};
ghost use Rattle.sc_lower.specs.Prelude.{lowered_function, lowered_program, lowered_section, lowered_sections};
ghost use Rattle.sc_base.specs.Prelude.{most_compartments};
ghost use Rattle.std.specs.Prelude.{◌≡◌, ◌<◌, map, IfOk};

use crate::function::function_tree;
use sc_base::OutOfMemory;
use sc_core::{Program, ProgramTree, TypedFunction, TypedSection, TypedStruct};
use sc_event::{CompId, Interfaces};
use sc_tac::{
    Tac, TacFn, TacFns, TacSection, TacSections, TacTree, copy_globals, copy_interfaces,
    copy_structs,
};
use std::alloc::Global;

/// A function that can be lowered, of the section of this number, which has these structs.
pub fn lower_function(
    alloc: Global,
    interfaces: &Interfaces,
    comp: CompId,
    structs: &[TypedStruct],
    function: &TypedFunction,
) -> Result<TacFn, OutOfMemory>
    requires { IsLowerable interfaces.now comp structs.now function.now }
    ensures { IfOk result (λ lowered. lowered ≡ lowered_function interfaces.now comp structs.now function.now) }
{
    let tree = function_tree(alloc, interfaces, comp, structs, function)?;
    Ok(TacFn::new(tree))
}

fn lower_functions(
    alloc: Global,
    interfaces: &Interfaces,
    comp: CompId,
    structs: &[TypedStruct],
    functions: &[TypedFunction],
) -> Result<TacFns, OutOfMemory>
    requires { AreFunctions interfaces.now comp structs.now functions.now }
    ensures { IfOk result (λ lowered. lowered ≡ map (lowered_function interfaces.now comp structs.now) functions.now) }
{
    let mut lowered = TacFns::new(alloc);
    for function in functions {
        lowered.push(lower_function(alloc, interfaces, comp, structs, function)?)?;
    }
    Ok(lowered)
}

fn lower_section(
    alloc: Global,
    interfaces: &Interfaces,
    comp: CompId,
    section: &TypedSection,
) -> Result<TacSection, OutOfMemory>
    requires { AreFunctions interfaces.now comp section.now.structs section.now.functions }
    ensures { IfOk result (λ lowered. lowered ≡ lowered_section interfaces.now comp section.now) }
{
    let structs = section.structs.as_slice();
    let functions = section.functions.as_slice();
    Ok(TacSection {
        structs: copy_structs(alloc, structs)?,
        globals: copy_globals(alloc, section.globals.as_slice())?,
        functions: lower_functions(alloc, interfaces, comp, structs, functions)?,
    })
}

// The compartment of this number.
fn comp_of(number: u8) -> CompId
    requires { number < most_compartments }
    ensures number { result ≡ number }
    ensures within { result < most_compartments }
{
    CompId::new(number).unwrap()
}

// The sections in order.
fn lower_sections(alloc: Global, program: &ProgramTree) -> Result<TacSections, OutOfMemory>
    requires { IsWellTyped program.now }
    ensures { IfOk result (λ lowered. lowered ≡ lowered_sections program.now.interfaces 0 program.now.sections) }
{
    let mut lowered = TacSections::new(alloc);
    let mut number = 0;
    for section in program.sections.as_slice() {
        let comp = comp_of(number);
        lowered.push(lower_section(alloc, &program.interfaces, comp, section)?)?;
        number += 1;
    }
    Ok(lowered)
}

/// The code of a program: it means the same, keeps the rules of three-address code, and has one `If` for each `if`,
/// `while`, `for`, `&&` and `||`.
pub fn lower(alloc: Global, program: &Program) -> Result<Tac, OutOfMemory>
    ensures code { IfOk result (λ tac. tac ≡ lowered_program program.now) }
    ensures meaning { IfOk result (MeansTheSame program.now) }
    ensures rules { IfOk result (KeepsCodeRules program.now) }
    ensures branches { IfOk result (HasBranches program.now) }
{
    let program = program.tree();
    let interfaces = copy_interfaces(alloc, &program.interfaces)?;
    let sections = lower_sections(alloc, program)?;
    Ok(Tac::new(TacTree {
        interfaces,
        sections,
    }))
}
