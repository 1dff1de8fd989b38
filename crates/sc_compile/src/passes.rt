//! The passes of the compiler, one after the other.

ghost use Rattle.sc_compile.specs.Prelude.{CanBeCompiled, EmitsAll, EmitsFrom, EmitsSo, Fits, HasParts, IsCompiled};
ghost use Rattle.sc_compile.specs.Prelude.{IsFault, IsWellTyped, all_codes, built_image, code_from, frame_bound};
ghost use Rattle.sc_compile.specs.Prelude.{function_code, image_of, program_tac, too_large};
ghost use Rattle.sc_emit.specs.Prelude.{IsEmitted};
ghost use Rattle.std.specs.Prelude.{◌≡◌, ◌++◌, Ok, None, Some, All, IfErr, IfOk, OnOk, map};

use crate::fault::CompileFault;
use crate::globals::globals_are_words;
use crate::sizes::check_sizes;
use sc_alloc::assign;
use sc_base::OutOfMemory;
use sc_core::{Program, ProgramTree, TypedFunction, TypedStruct};
use sc_emit::emit;
use sc_event::{CompId, Interfaces};
use sc_frame::lay;
use sc_image::Image;
use sc_image::layout::comp_id;
use sc_linker::link;
use sc_live::intervals;
use sc_lower::lower_function;
use sc_opt::optimise_function;
use sc_tac::{Code, TacFn};
use sqlite_items::Items;
use std::alloc::Global;

/// Codes of functions in order.
type Codes = Items<Code>;

// The code of a function: its temporaries' intervals, a place for each, the frame, and the instructions.
fn function_code(alloc: Global, f: &TacFn) -> Result<Code, OutOfMemory>
    requires { Fits f.now }
    ensures code { IfOk result (λ code. code ≡ function_code f.now) }
    ensures emitted { OnOk result (EmitsSo f.now) }
{
    let intervals = intervals(alloc, f)?;
    let places = assign(alloc, &intervals)?;
    let frame = lay(alloc, f, &places)?;
    let code = emit(alloc, f, &places, &frame)?;
    Ok(code)
}

// The code of a function from its source: it is lowered, optimised and selected before the next one is lowered.
fn compile_function(
    alloc: Global,
    interfaces: &Interfaces,
    comp: CompId,
    structs: &[TypedStruct],
    function: &TypedFunction,
) -> Result<Code, OutOfMemory>
    requires { CanBeCompiled interfaces.now comp structs.now function.now }
    ensures code { IfOk result (λ code. code ≡ code_from interfaces.now comp structs.now function.now) }
    ensures emitted { OnOk result (EmitsFrom interfaces.now comp structs.now function.now) }
{
    let lowered = lower_function(alloc, interfaces, comp, structs, function)?;
    let tac = optimise_function(alloc, &lowered)?;
    let code = function_code(alloc, &tac)?;
    Ok(code)
}

// Those of a section's functions, after others.
fn add_codes(
    alloc: Global,
    codes: &mut Codes,
    interfaces: &Interfaces,
    comp: CompId,
    structs: &[TypedStruct],
    functions: &[TypedFunction],
) -> Result<(), OutOfMemory>
    requires { All (CanBeCompiled interfaces.now comp structs.now) functions.now }
    ensures codes { OnOk result (codes.new ≡
        codes.old ++ map (code_from interfaces.now comp structs.now) functions.now) }
    ensures emitted { OnOk result (All (EmitsFrom interfaces.now comp structs.now) functions.now) }
{
    for function in functions {
        codes.push(compile_function(alloc, interfaces, comp, structs, function)?)?;
    }
    Ok(())
}

// The codes of all functions, section by section.
fn all_codes(alloc: Global, program: &ProgramTree) -> Result<Codes, OutOfMemory>
    requires typed { IsWellTyped program.now }
    requires fits { too_large program.now ≡ None }
    ensures codes { IfOk result (λ codes. codes ≡ all_codes (program_tac program.now)) }
    ensures emitted { OnOk result (All EmitsAll (program_tac program.now).sections) }
{
    let mut codes = Codes::new(alloc);
    let mut number = 0;
    for section in program.sections.as_slice() {
        let structs = section.structs.as_slice();
        let functions = section.functions.as_slice();
        let comp = comp_id(number);
        add_codes(
            alloc,
            &mut codes,
            &program.interfaces,
            comp,
            structs,
            functions,
        )?;
        number += 1;
    }
    Ok(codes)
}

// The image of a program that fits.
fn build(alloc: Global, program: &Program) -> Result<Image, OutOfMemory>
    requires { too_large program.now ≡ None }
    ensures image { IfOk result (λ image. image ≡ built_image program.now) }
    ensures compiled { IfOk result (IsCompiled program.now) }
    ensures parts { IfOk result (HasParts program.now) }
{
    let tree = program.tree();
    globals_are_words(tree.sections.as_slice());
    let codes = all_codes(alloc, tree)?;
    let image = link(alloc, codes.as_slice(), program)?;
    Ok(image)
}

// Whether the program fits.
fn check(program: &Program) -> Result<(), CompileFault>
    ensures none { IfOk result (λ _. too_large program.now ≡ None) }
    ensures found { IfErr result (λ fault. too_large program.now ≡ Some fault) }
{
    check_sizes(program.tree().sections.as_slice())
}

/// The image of a program: each function is lowered to three-address code that is optimised, with registers by linear
/// scan, its frame laid out and instructions selected; then all are linked.
pub fn compile(alloc: Global, program: &Program) -> Result<Image, CompileFault>
    ensures image { IfOk result (λ image. image_of program.now ≡ Ok image) }
    ensures fault { IfErr result (IsFault program.now) }
    ensures compiled { IfOk result (IsCompiled program.now) }
    // Each compartment of the image is made of its own section.
    ensures parts { IfOk result (HasParts program.now) }
{
    check(program)?;
    match build(alloc, program) {
        Ok(image) => Ok(image),
        Err(_) => Err(CompileFault::OutOfMemory),
    }
}
