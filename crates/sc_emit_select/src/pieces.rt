//! Pieces of code: constants, words of the frame, the prologue and the epilogue of a function.

ghost use Rattle.sc_emit_select.specs.Prelude.{Add, Addi, IsImmediate, IsReg, Load, Op, OpImm, Store, Upper, epilogue};
ghost use Rattle.sc_emit_select.specs.Prelude.{far_from_sp, frame_taken, load_word, loading, lower_part, move};
ghost use Rattle.sc_emit_select.specs.Prelude.{moved_by, plainly, store_word, upper_part};
ghost use Rattle.std.specs.Prelude.{◌≡◌, ◌++◌, ◌∷◌, ◌<◌, OnOk};
ghost use Rattle.rv_code.specs.declared.instr.UpperOp.TheVariants.{Lui};
ghost use Rattle.rv_code.specs.declared.instr.LoadOp.TheVariants.{Lw};
ghost use Rattle.rv_code.specs.declared.instr.StoreOp.TheVariants.{Sw};

use crate::backward::Backward;
use rv_code::{Immediate, Instr, LoadOp, OpImmOp, OpOp, Reg, StoreOp, UpperImmediate, UpperOp};
use sc_base::OutOfMemory;

/// Register x0, which is always 0.
pub(crate) const ZERO: u8 = 0;

/// The return address.
pub(crate) const RA: u8 = 1;

/// The stack pointer.
pub(crate) const SP: u8 = 2;

/// The register of first operands and of results on their way to slots.
pub(crate) const FIRST_SCRATCH: u8 = 5;

/// The register of second operands.
pub(crate) const SECOND_SCRATCH: u8 = 6;

/// The register of addresses of words far from the stack pointer, and of constants.
pub(crate) const ADDRESS_SCRATCH: u8 = 7;

/// The register of the first argument and of results.
pub(crate) const A0: u8 = 10;

/// The register of the second argument.
pub(crate) const A1: u8 = 11;

/// The register that says what an environment call calls.
pub(crate) const A7: u8 = 17;

/// The register of that number.
pub(crate) fn register(number: u8) -> Reg
    requires { IsReg number }
    ensures { result ≡ number }
{
    Reg::new(number).unwrap()
}

/// That immediate.
pub(crate) fn immediate(value: i32) -> Immediate
    requires { IsImmediate value }
    ensures { result ≡ value }
{
    Immediate::new(value).unwrap()
}

/// What LUI loads of a word whose low 12 bits another instruction adds: the word rounded to the nearest multiple of
/// 4096, since what is added is signed (RISC-V Unprivileged ISA, 2.4).
pub fn upper_part(word: u32) -> UpperImmediate
    ensures { result ≡ upper_part word }
{
    UpperImmediate::new(word.wrapping_add(0x800) / 0x1000 * 0x1000).unwrap()
}

/// The low 12 bits of a word, as the signed number that is added to its upper part.
pub fn lower_part(word: u32) -> Immediate
    ensures { result ≡ lower_part word }
{
    let low = (word % 0x1000) as i32;
    immediate(if low < 0x800 { low } else { low - 0x1000 })
}

/// ADDI.
pub(crate) fn addi(rd: Reg, rs1: Reg, imm: Immediate) -> Instr
    ensures { result ≡ OpImm Addi rd rs1 imm }
{
    Instr::OpImm {
        op: OpImmOp::Addi,
        rd,
        rs1,
        imm,
    }
}

/// ADD.
pub(crate) fn add(rd: Reg, rs1: Reg, rs2: Reg) -> Instr
    ensures { result ≡ Op Add rd rs1 rs2 }
{
    Instr::Op {
        op: OpOp::Add,
        rd,
        rs1,
        rs2,
    }
}

/// LW.
pub(crate) fn load(rd: Reg, rs1: Reg, imm: Immediate) -> Instr
    ensures { result ≡ Load Lw rd rs1 imm }
{
    Instr::Load {
        op: LoadOp::Lw,
        rd,
        rs1,
        imm,
    }
}

/// SW.
pub(crate) fn store(rs1: Reg, rs2: Reg, imm: Immediate) -> Instr
    ensures { result ≡ Store Sw rs1 rs2 imm }
{
    Instr::Store {
        op: StoreOp::Sw,
        rs1,
        rs2,
        imm,
    }
}

/// A register into another.
pub(crate) fn move_to(rd: Reg, rs: Reg) -> Instr
    ensures { result ≡ move rd rs }
{
    addi(rd, rs, immediate(0))
}

fn load_upper(rd: Reg, word: u32) -> Instr
    ensures { result ≡ Upper Lui rd (upper_part word) }
{
    Instr::Upper {
        op: UpperOp::Lui,
        rd,
        imm: upper_part(word),
    }
}

/// A LUI before the linker completes it.
pub(crate) fn upper(rd: Reg) -> Instr
    ensures { result ≡ Upper Lui rd 0 }
{
    Instr::Upper {
        op: UpperOp::Lui,
        rd,
        imm: UpperImmediate::new(0).unwrap(),
    }
}

impl Backward {
    /// A word into a register.
    pub fn loading(&mut self, rd: Reg, word: u32) -> Result<(), OutOfMemory>
        ensures { OnOk result (self.new ≡ plainly (loading rd word) ++ self.old) }
    {
        if let Some(imm) = Immediate::new(word.cast_signed()) {
            return self.plain(addi(rd, register(ZERO), imm));
        }
        self.plain(addi(rd, rd, lower_part(word)))?;
        self.plain(load_upper(rd, word))
    }

    /// A register plus `bytes` into another.
    pub fn moved_by(&mut self, rd: Reg, rs: Reg, bytes: u32) -> Result<(), OutOfMemory>
        ensures { OnOk result (self.new ≡ plainly (moved_by rd rs bytes) ++ self.old) }
    {
        if let Some(imm) = Immediate::new(bytes.cast_signed()) {
            return self.plain(addi(rd, rs, imm));
        }
        let scratch = register(ADDRESS_SCRATCH);
        self.plain(add(rd, rs, scratch))?;
        self.loading(scratch, bytes)
    }

    fn far_from_sp(&mut self, offset: u32) -> Result<(), OutOfMemory>
        ensures { OnOk result (self.new ≡ plainly (far_from_sp offset) ++ self.old) }
    {
        let scratch = register(ADDRESS_SCRATCH);
        self.plain(add(scratch, scratch, register(SP)))?;
        self.plain(load_upper(scratch, offset))
    }

    /// The word at an offset from the stack pointer into a register.
    pub fn load_word(&mut self, rd: Reg, offset: u32) -> Result<(), OutOfMemory>
        ensures { OnOk result (self.new ≡ plainly (load_word rd offset) ++ self.old) }
    {
        if let Some(imm) = Immediate::new(offset.cast_signed()) {
            return self.plain(load(rd, register(SP), imm));
        }
        self.plain(load(rd, register(ADDRESS_SCRATCH), lower_part(offset)))?;
        self.far_from_sp(offset)
    }

    /// A register into the word at an offset from the stack pointer.
    pub fn store_word(&mut self, rs: Reg, offset: u32) -> Result<(), OutOfMemory>
        ensures { OnOk result (self.new ≡ plainly (store_word rs offset) ++ self.old) }
    {
        if let Some(imm) = Immediate::new(offset.cast_signed()) {
            return self.plain(store(register(SP), rs, imm));
        }
        self.plain(store(register(ADDRESS_SCRATCH), rs, lower_part(offset)))?;
        self.far_from_sp(offset)
    }

    /// The start of a prologue: the frame is taken.
    pub fn frame_taken(&mut self, bytes: u32) -> Result<(), OutOfMemory>
        ensures { OnOk result (self.new ≡ plainly (frame_taken bytes) ++ self.old) }
    {
        let sp = register(SP);
        self.plain(store(sp, register(RA), immediate(0)))?;
        self.moved_by(sp, sp, bytes.wrapping_neg())
    }

    /// The epilogue.
    pub fn epilogue(&mut self, bytes: u32) -> Result<(), OutOfMemory>
        ensures { OnOk result (self.new ≡ plainly (epilogue bytes) ++ self.old) }
    {
        let sp = register(SP);
        let ra = register(RA);
        self.plain(Instr::Jalr {
            rd: register(ZERO),
            rs1: ra,
            imm: immediate(0),
        })?;
        self.moved_by(sp, sp, bytes)?;
        self.plain(load(ra, sp, immediate(0)))
    }
}
