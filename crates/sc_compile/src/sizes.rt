//! What of a program is too large to be compiled.

ghost use Rattle.sc_base.specs.Prelude.{most_compartments};
ghost use Rattle.sc_compile.specs.Prelude.{IsCounted, IsCountedFunction, cells_of, faults_from, first, frame_bound};
ghost use Rattle.sc_compile.specs.Prelude.{found_in, large_code, large_data, large_frame, large_frames, nodes, total};
ghost use Rattle.sc_compile.specs.Prelude.{variables};
ghost use Rattle.std.specs.Prelude.{◌≡◌, ◌≤◌, ◌<◌, ◌^◌, [], length, map, All, IfErr, IfOk, None, Some};
ghost use Rattle.sc_core.specs.declared.section.TypedGlobal.{TypedGlobal};
ghost use Rattle.sc_core.specs.declared.section.TypedLocal.{TypedLocal};
ghost use Rattle.sc_core.specs.declared.section.TypedParam.{TypedParam};

use crate::fault::CompileFault;
use sc_core::{
    TypedFunction, TypedGlobal, TypedLocal, TypedParam, TypedSection, TypedStruct, cells_of,
};
use sc_event::CompId;
use sc_image::layout::comp_id;
use sc_lower::function_nodes;

/// The most bytes of a section's globals.
const MOST_DATA: u64 = 458_752;

/// The most bytes of a frame, so that two fit into a stack.
const MOST_FRAME: u64 = 32_768;

/// The most bytes of a section's code.
const MOST_CODE: u64 = 1_048_576;

/// Bytes of code for each node.
const BYTES_A_NODE: u64 = 96;

fn cells(structs: &[TypedStruct], globals: &[TypedGlobal]) -> u64
    requires { total (map {A = TypedGlobal} (λ g. cells_of structs.now g.ty) globals.now) < 2 ^ 60 }
    ensures { result ≡ total (map {A = TypedGlobal} (λ g. cells_of structs.now g.ty) globals.now) }
{
    let mut sum = 0;
    for global in globals {
        sum += cells_of(structs, global.ty);
    }
    sum
}

fn param_cells(structs: &[TypedStruct], params: &[TypedParam]) -> u64
    requires { total (map {A = TypedParam} (λ p. cells_of structs.now p.ty) params.now) < 2 ^ 60 }
    ensures { result ≡ total (map {A = TypedParam} (λ p. cells_of structs.now p.ty) params.now) }
{
    let mut sum = 0;
    for param in params {
        sum += cells_of(structs, param.ty);
    }
    sum
}

fn local_cells(structs: &[TypedStruct], locals: &[TypedLocal]) -> u64
    requires { total (map {A = TypedLocal} (λ l. cells_of structs.now l.ty) locals.now) < 2 ^ 60 }
    ensures { result ≡ total (map {A = TypedLocal} (λ l. cells_of structs.now l.ty) locals.now) }
{
    let mut sum = 0;
    for local in locals {
        sum += cells_of(structs, local.ty);
    }
    sum
}

fn nodes(structs: &[TypedStruct], function: &TypedFunction) -> u32
    requires { IsCountedFunction structs.now function.now }
    ensures { result ≡ nodes function.now }
{
    function_nodes(function, function.params.len() as u32)
}

fn all_nodes(structs: &[TypedStruct], functions: &[TypedFunction]) -> u64
    requires each { All (IsCountedFunction structs.now) functions.now }
    requires sum { total (map nodes functions.now) < 2 ^ 50 }
    ensures { result ≡ total (map nodes functions.now) }
{
    let mut sum = 0;
    for function in functions {
        sum += u64::from(nodes(structs, function));
    }
    sum
}

fn frame_bytes(structs: &[TypedStruct], function: &TypedFunction) -> u64
    requires { IsCountedFunction structs.now function.now }
    ensures { result ≡ frame_bound (variables structs.now function.now) (nodes function.now) }
{
    let params = param_cells(structs, function.params.as_slice());
    let locals = local_cells(structs, function.locals.as_slice());
    64 + 4 * (params + locals + u64::from(nodes(structs, function)))
}

fn check_data(comp: CompId, section: &TypedSection) -> Result<(), CompileFault>
    requires { IsCounted section.now }
    ensures none { IfOk result (λ _. large_data comp section.now ≡ []) }
    ensures found { IfErr result (λ fault. first (large_data comp section.now) ≡ Some fault) }
{
    let bytes = 4 * cells(section.structs.as_slice(), section.globals.as_slice());
    if bytes > MOST_DATA {
        return Err(CompileFault::DataTooLarge { comp, bytes });
    }
    Ok(())
}

fn check_frame(
    comp: CompId,
    section: &TypedSection,
    function: &TypedFunction,
) -> Result<(), CompileFault>
    requires { IsCountedFunction section.now.structs function.now }
    ensures none { IfOk result (λ _. large_frame comp section.now function.now ≡ []) }
    ensures found { IfErr result (λ fault. first (large_frame comp section.now function.now) ≡ Some fault) }
{
    let bound = frame_bytes(section.structs.as_slice(), function);
    if bound > MOST_FRAME {
        return Err(CompileFault::FrameTooLarge {
            comp,
            function: function.name,
            bound,
        });
    }
    Ok(())
}

fn check_frames(comp: CompId, section: &TypedSection) -> Result<(), CompileFault>
    requires { IsCounted section.now }
    ensures none { IfOk result (λ _. large_frames comp section.now ≡ []) }
    ensures found { IfErr result (λ fault. first (large_frames comp section.now) ≡ Some fault) }
{
    for function in section.functions.as_slice() {
        check_frame(comp, section, function)?;
    }
    Ok(())
}

fn check_code(comp: CompId, section: &TypedSection) -> Result<(), CompileFault>
    requires { IsCounted section.now }
    ensures none { IfOk result (λ _. large_code comp section.now ≡ []) }
    ensures found { IfErr result (λ fault. first (large_code comp section.now) ≡ Some fault) }
{
    let structs = section.structs.as_slice();
    let bound = BYTES_A_NODE * all_nodes(structs, section.functions.as_slice());
    if bound > MOST_CODE {
        return Err(CompileFault::CodeTooLarge { comp, bound });
    }
    Ok(())
}

fn check_all_data(sections: &[TypedSection]) -> Result<(), CompileFault>
    requires few { length sections.now ≤ most_compartments }
    requires counted { All IsCounted sections.now }
    ensures none { IfOk result (λ _. faults_from large_data 0 sections.now ≡ []) }
    ensures found { IfErr result (λ fault. first (faults_from large_data 0 sections.now) ≡ Some fault) }
{
    for number in 0..sections.len() {
        check_data(comp_id(number), &sections[number])?;
    }
    Ok(())
}

fn check_all_frames(sections: &[TypedSection]) -> Result<(), CompileFault>
    requires few { length sections.now ≤ most_compartments }
    requires counted { All IsCounted sections.now }
    ensures none { IfOk result (λ _. faults_from large_frames 0 sections.now ≡ []) }
    ensures found { IfErr result (λ fault. first (faults_from large_frames 0 sections.now) ≡ Some fault) }
{
    for number in 0..sections.len() {
        check_frames(comp_id(number), &sections[number])?;
    }
    Ok(())
}

fn check_all_code(sections: &[TypedSection]) -> Result<(), CompileFault>
    requires few { length sections.now ≤ most_compartments }
    requires counted { All IsCounted sections.now }
    ensures none { IfOk result (λ _. faults_from large_code 0 sections.now ≡ []) }
    ensures found { IfErr result (λ fault. first (faults_from large_code 0 sections.now) ≡ Some fault) }
{
    for number in 0..sections.len() {
        check_code(comp_id(number), &sections[number])?;
    }
    Ok(())
}

/// Whether all of a program fits: else what of it is too large first, data before frames before code.
pub fn check_sizes(sections: &[TypedSection]) -> Result<(), CompileFault>
    requires few { length sections.now ≤ most_compartments }
    requires counted { All IsCounted sections.now }
    ensures none { IfOk result (λ _. found_in sections.now ≡ None) }
    ensures found { IfErr result (λ fault. found_in sections.now ≡ Some fault) }
{
    check_all_data(sections)?;
    check_all_frames(sections)?;
    check_all_code(sections)
}
