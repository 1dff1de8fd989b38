//! Where the functions and the globals of a section begin.

ghost use Rattle.sc_linker.specs.Prelude.{CodeTree, IsCodeAddress, cells, code_sizes, entry_address, global_sizes};
ghost use Rattle.sc_linker.specs.Prelude.{instructions, section_layout, starts};
ghost use Rattle.sc_image.specs.Prelude.{most_globals, stack_top, stretch};
ghost use Rattle.std.specs.Prelude.{◌≡◌, ◌+◌, ◌*◌, ◌<◌, ◌≤◌, ◌^◌, All, IfOk, length, slice_index};

use sc_base::{OutOfMemory, Words};
use sc_core::{TypedGlobal, TypedSection, TypedStruct, cells_of};
use sc_event::CompId;
use sc_image::layout::{code_start, stack_top};
use sc_tac::Code;
use std::alloc::Global;

/// Where the functions and the globals of a compartment's section begin.
#[derive(Drop)]
pub struct SectionLayout {
    pub comp: CompId,
    pub functions: Words,
    pub globals: Words,
}

/// The address of a compartment's entry for the export of this index.
pub fn entry_address(comp: CompId, index: u16) -> u32
    ensures { result ≡ entry_address comp index }
{
    code_start(comp) + 4 * u32::from(index)
}

// Where the codes of functions begin that stand from an address on.
fn function_starts(alloc: Global, address: u32, codes: &[Code]) -> Result<Words, OutOfMemory>
    requires { address + 4 * instructions codes.now < 2 ^ 32 }
    ensures starts { IfOk result (λ functions. functions ≡ starts address (code_sizes codes.now)) }
    // No code is empty.
    ensures some { IfOk result (λ _. All {X = CodeTree} (λ code. 0 < length code.instrs) codes.now) }
{
    let mut functions = Words::from_vec(Vec::with_capacity(alloc, codes.len())?);
    let mut next = address;
    for code in codes {
        functions.push(next)?;
        next += 4 * code.tree().instrs.len() as u32;
    }
    Ok(functions)
}

// Where globals begin that stand from an address on.
fn global_starts(
    alloc: Global,
    address: u32,
    structs: &[TypedStruct],
    globals: &[TypedGlobal],
) -> Result<Words, OutOfMemory>
    requires { address + 4 * cells structs.now globals.now < 2 ^ 32 }
    ensures { IfOk result (λ all. all ≡ starts address (global_sizes structs.now globals.now)) }
{
    let mut all = Words::from_vec(Vec::with_capacity(alloc, globals.len())?);
    let mut next = address;
    for global in globals {
        all.push(next)?;
        next += 4 * cells_of(structs, global.ty) as u32;
    }
    Ok(all)
}

impl SectionLayout {
    /// The layout of a section with `exports` exports.
    pub fn new(
        alloc: Global,
        comp: CompId,
        exports: u16,
        section: &TypedSection,
        codes: &[Code],
    ) -> Result<SectionLayout, OutOfMemory>
        requires code { 4 * (exports + instructions codes.now) ≤ stretch }
        requires globals { 4 * cells section.now.structs section.now.globals ≤ most_globals }
        ensures layout { IfOk result (λ layout. layout ≡ section_layout comp exports section.now codes.now) }
        ensures functions { IfOk result (λ layout. All (IsCodeAddress comp) layout.functions) }
    {
        let structs = section.structs.as_slice();
        let globals = section.globals.as_slice();
        Ok(SectionLayout {
            comp,
            functions: function_starts(alloc, entry_address(comp, exports), codes)?,
            globals: global_starts(alloc, stack_top(comp), structs, globals)?,
        })
    }

    /// Where the function of this number begins.
    pub fn function(&self, number: usize) -> u32
        requires known { number < length self.now.functions }
        requires all { All (IsCodeAddress self.now.comp) self.now.functions }
        ensures address { result ≡ slice_index self.now.functions number }
        ensures within { IsCodeAddress self.now.comp result }
    {
        self.functions.as_slice()[number]
    }

    /// Where the global of this number begins.
    pub fn global(&self, number: usize) -> u32
        requires { number < length self.now.globals }
        ensures { result ≡ slice_index self.now.globals number }
    {
        self.globals.as_slice()[number]
    }
}
