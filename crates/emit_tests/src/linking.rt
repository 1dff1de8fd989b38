// The words of a section: the codes of its functions one after the other, and each reference completed with the
// address of its target.
use crate::placing::{Choice, code_by};
use rv_code::{Immediate, Instr, JumpOffset, Reg, UpperImmediate, encode};
use sc_base::OutOfMemory;
use sc_core::cells_of;
use sc_event::{CompId, Entry};
use sc_image::layout::{code_start, stack_top};
use sc_tac::{Code, CodeTree, TacFn, TacSection, Target};
use std::alloc::Global;

/// The codes of a section's functions, and where these and the globals begin.
#[derive(Drop)]
pub struct Section {
    comp: CompId,
    codes: Vec<Code>,
    functions: Vec<u32>,
    globals: Vec<u32>,
}

/// The address of a compartment's entry for the export of this index.
pub fn entry_address(comp: CompId, index: u16) -> u32 {
    code_start(comp).wrapping_add(4 * u32::from(index))
}

/// A count, as a word.
pub fn number_of(count: usize) -> u32 {
    u32::try_from(count).unwrap_or(u32::MAX)
}

// The codes of functions by such a choice, if there are any.
fn codes_by(
    alloc: Global,
    functions: &[TacFn],
    choice: Choice,
) -> Result<Option<Vec<Code>>, OutOfMemory> {
    let mut codes = Vec::new(alloc);
    for function in functions {
        match code_by(alloc, function, choice)? {
            None => return Ok(None),
            Some(code) => codes.push(code)?,
        }
    }
    Ok(Some(codes))
}

fn function_starts(alloc: Global, start: u32, codes: &[Code]) -> Result<Vec<u32>, OutOfMemory> {
    let mut starts = Vec::new(alloc);
    let mut next = start;
    for code in codes {
        starts.push(next)?;
        next = next.wrapping_add(number_of(code.tree().instrs.len()).wrapping_mul(4));
    }
    Ok(starts)
}

fn global_starts(alloc: Global, start: u32, tree: &TacSection) -> Result<Vec<u32>, OutOfMemory> {
    let mut starts = Vec::new(alloc);
    let mut next = start;
    for global in tree.globals.as_slice() {
        starts.push(next)?;
        let cells = cells_of(tree.structs.as_slice(), global.ty);
        next = next.wrapping_add(number_of(cells as usize).wrapping_mul(4));
    }
    Ok(starts)
}

fn address_in(starts: &[u32], number: u32) -> u32 {
    starts.get(number as usize).copied().unwrap_or(0)
}

// What the instruction of this number refers to.
fn target_at(code: &CodeTree, number: u32) -> Option<Target> {
    for relocation in code.relocations.as_slice() {
        if relocation.at == number {
            return Some(relocation.target);
        }
    }
    None
}

// A jump, or a LUI, with the address that it refers to.
fn with_address(instr: Instr, pc: u32, address: u32) -> Option<Instr> {
    match instr {
        Instr::Jal { rd, .. } => {
            let imm = JumpOffset::new(address.wrapping_sub(pc).cast_signed())?;
            Some(Instr::Jal { rd, imm })
        }
        Instr::Upper { op, rd, .. } => {
            let imm = UpperImmediate::new(address.wrapping_add(0x800) & 0xffff_f000)?;
            Some(Instr::Upper { op, rd, imm })
        }
        _ => None,
    }
}

// The instruction that follows a LUI, with the low 12 bits of the address.
fn with_low(instr: Instr, address: u32) -> Option<Instr> {
    let imm = Immediate::new((address << 20).cast_signed() >> 20)?;
    match instr {
        Instr::OpImm { op, rd, rs1, .. } => Some(Instr::OpImm { op, rd, rs1, imm }),
        Instr::Jalr { rd, rs1, .. } => Some(Instr::Jalr { rd, rs1, imm }),
        _ => None,
    }
}

fn uses_heap(code: &Code) -> bool {
    code.tree().heap
}

impl Section {
    /// Whether one of its functions allocates or frees.
    pub fn uses_heap(&self) -> bool {
        self.codes.iter().any(|code| uses_heap(code))
    }

    /// A section with this number of exports, whose functions have codes by such a choice.
    pub fn new(
        alloc: Global,
        comp: CompId,
        exports: u16,
        tree: &TacSection,
        choice: Choice,
    ) -> Result<Option<Section>, OutOfMemory> {
        let Some(codes) = codes_by(alloc, tree.functions.as_slice(), choice)? else {
            return Ok(None);
        };
        let functions = function_starts(alloc, entry_address(comp, exports), codes.as_slice())?;
        let globals = global_starts(alloc, stack_top(comp), tree)?;
        Ok(Some(Section {
            comp,
            codes,
            functions,
            globals,
        }))
    }

    fn address_of(&self, target: Target) -> u32 {
        match target {
            Target::Function(number) => address_in(self.functions.as_slice(), number),
            Target::Entry(comp, index) => entry_address(comp, index),
            Target::Global(number) => address_in(self.globals.as_slice(), number),
        }
    }

    /// Where the function begins that is entered so.
    pub fn entered(&self, functions: &[TacFn], entry: Entry) -> u32 {
        for (function, start) in functions.iter().zip(self.functions.as_slice()) {
            if function.tree().entry == Some(entry) {
                return *start;
            }
        }
        0
    }

    // The instruction of this number at an address, complete.
    fn completed(&self, code: &CodeTree, number: u32, pc: u32, instr: Instr) -> Option<Instr> {
        if let Some(target) = target_at(code, number) {
            return with_address(instr, pc, self.address_of(target));
        }
        match target_at(code, number.wrapping_sub(1)) {
            None | Some(Target::Function(_)) => Some(instr),
            Some(target) => with_low(instr, self.address_of(target)),
        }
    }

    fn append_code(
        &self,
        words: &mut Vec<u32>,
        start: u32,
        code: &CodeTree,
    ) -> Result<(), OutOfMemory> {
        let mut number = 0u32;
        for instr in code.instrs.as_slice() {
            let pc = start.wrapping_add(number.wrapping_mul(4));
            match self.completed(code, number, pc, *instr) {
                None => words.push(0)?,
                Some(instr) => words.push(encode(instr))?,
            }
            number = number.wrapping_add(1);
        }
        Ok(())
    }

    fn append_entries(
        &self,
        words: &mut Vec<u32>,
        functions: &[TacFn],
        exports: u16,
    ) -> Result<(), OutOfMemory> {
        for index in 0..exports {
            let to = self.entered(functions, Entry::Export(index));
            words.push(jump(entry_address(self.comp, index), to).unwrap_or(0))?;
        }
        Ok(())
    }

    /// All words of a section with this number of exports.
    pub fn words(
        &self,
        alloc: Global,
        functions: &[TacFn],
        exports: u16,
    ) -> Result<Vec<u32>, OutOfMemory> {
        let mut words = Vec::new(alloc);
        self.append_entries(&mut words, functions, exports)?;
        for (code, start) in self.codes.as_slice().iter().zip(self.functions.as_slice()) {
            self.append_code(&mut words, *start, code.tree())?;
        }
        Ok(words)
    }
}

fn jump(from: u32, to: u32) -> Option<u32> {
    let rd = Reg::new(0)?;
    let imm = JumpOffset::new(to.wrapping_sub(from).cast_signed())?;
    Some(encode(Instr::Jal { rd, imm }))
}
