//! Passes over the functions of a program.

ghost use Rattle.sc_opt.specs.Prelude.{optimised_function, optimised_program, optimised_section};
ghost use Rattle.std.specs.Prelude.{◌≡◌, map, IfOk};

use crate::pass::pass_function;
use sc_base::OutOfMemory;
use sc_tac::{
    Tac, TacFn, TacFns, TacSection, TacSections, TacTree, copy_globals, copy_interfaces,
    copy_structs,
};
use std::alloc::Global;

/// A function, with passes over it until one takes no weight away.
pub fn optimise_function(alloc: Global, f: &TacFn) -> Result<TacFn, OutOfMemory>
    ensures { IfOk result (λ passed. passed ≡ optimised_function f.now) }
{
    let mut before = f.weight();
    let mut passed = pass_function(alloc, f)?;
    let mut weight = passed.weight();
    while weight < before {
        before = weight;
        passed = pass_function(alloc, &passed)?;
        weight = passed.weight();
    }
    Ok(passed)
}

fn optimise_functions(alloc: Global, functions: &TacFns) -> Result<TacFns, OutOfMemory>
    ensures { IfOk result (λ optimised. optimised ≡ map optimised_function functions.now) }
{
    let mut optimised = TacFns::new(alloc);
    for f in functions.as_slice() {
        optimised.push(optimise_function(alloc, f)?)?;
    }
    Ok(optimised)
}

fn optimise_section(alloc: Global, section: &TacSection) -> Result<TacSection, OutOfMemory>
    ensures { IfOk result (λ optimised. optimised ≡ optimised_section section.now) }
{
    Ok(TacSection {
        structs: copy_structs(alloc, section.structs.as_slice())?,
        globals: copy_globals(alloc, section.globals.as_slice())?,
        functions: optimise_functions(alloc, &section.functions)?,
    })
}

fn optimise_sections(alloc: Global, sections: &TacSections) -> Result<TacSections, OutOfMemory>
    ensures { IfOk result (λ optimised. optimised ≡ map optimised_section sections.now) }
{
    let mut optimised = TacSections::new(alloc);
    for section in sections.as_slice() {
        optimised.push(optimise_section(alloc, section)?)?;
    }
    Ok(optimised)
}

/// The program, with less to compute: it means the same, each of its functions is lean, and its shape is kept.
pub fn optimise(alloc: Global, tac: &Tac) -> Result<Tac, OutOfMemory>
    ensures { IfOk result (λ optimised. optimised ≡ optimised_program tac.now) }
{
    let tree = tac.tree();
    let interfaces = copy_interfaces(alloc, &tree.interfaces)?;
    let sections = optimise_sections(alloc, &tree.sections)?;
    Ok(Tac::new(TacTree {
        interfaces,
        sections,
    }))
}
