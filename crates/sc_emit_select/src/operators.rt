//! The instructions of operators.

ghost use Rattle.sc_emit_select.specs.Prelude.{Op, OpImm, Slt, Sltiu, Sltu, Xori, added_by, binary_code, binary_short};
ghost use Rattle.sc_emit_select.specs.Prelude.{by_sign, bytes_ahead, bytes_of, inverted, is_not_zero, is_unsigned};
ghost use Rattle.sc_emit_select.specs.Prelude.{is_zero, less_than, op_code, plainly, pointer_difference, pointer_move};
ghost use Rattle.sc_emit_select.specs.Prelude.{short, short_code, short_form, stepped, unary_code};
ghost use Rattle.std.specs.Prelude.{◌≡◌, ◌++◌, ◌∷◌, [], false, OnOk};
ghost use Rattle.sc_base.specs.declared.op.BinaryOp.TheVariants as op;

use crate::backward::Backward;
use crate::pieces::{
    ADDRESS_SCRATCH, FIRST_SCRATCH, SECOND_SCRATCH, ZERO, immediate, move_to, register,
};
use rv_code::{Immediate, Instr, OpImmOp, OpOp, Reg, ShiftAmount, ShiftOp};
use sc_base::{BinaryOp, OutOfMemory, UnaryOp};
use sc_event::Scalar;
use sc_tac::TacOp;

/// An operation on two registers.
pub(crate) fn on_registers(op: OpOp, rd: Reg, rs1: Reg, rs2: Reg) -> Instr
    ensures { result ≡ Op op rd rs1 rs2 }
{
    Instr::Op { op, rd, rs1, rs2 }
}

// 1 where a register is 0, else 0.
fn is_zero(rd: Reg, rs: Reg) -> Instr
    ensures { result ≡ is_zero rd rs }
{
    Instr::OpImm {
        op: OpImmOp::Sltiu,
        rd,
        rs1: rs,
        imm: immediate(1),
    }
}

// 1 where a register isn't 0, else 0.
fn is_not_zero(rd: Reg, rs: Reg) -> Instr
    ensures { result ≡ is_not_zero rd rs }
{
    on_registers(OpOp::Sltu, rd, register(ZERO), rs)
}

fn exclusive_or(rd: Reg, rs: Reg, value: i8) -> Instr
    ensures { result ≡ OpImm Xori rd rs value }
{
    Instr::OpImm {
        op: OpImmOp::Xori,
        rd,
        rs1: rs,
        imm: immediate(i32::from(value)),
    }
}

fn is_unsigned(scalar: Scalar) -> bool
    ensures { result ≡ is_unsigned scalar }
{
    match scalar {
        Scalar::Int => false,
        Scalar::Unsigned => true,
    }
}

fn by_sign(unsigned: bool, of_signed: OpOp, of_unsigned: OpOp) -> OpOp
    ensures { result ≡ by_sign unsigned of_signed of_unsigned }
{
    if unsigned { of_unsigned } else { of_signed }
}

fn bytes_of(cells: u32) -> u32
    ensures { result ≡ bytes_of cells }
{
    cells.wrapping_mul(4)
}

fn unary_code(op: UnaryOp, rd: Reg, rs: Reg) -> Instr
    ensures { unary_code rd rs op ≡ result ∷ [] }
{
    match op {
        UnaryOp::Minus => on_registers(OpOp::Sub, rd, register(ZERO), rs),
        UnaryOp::Plus => move_to(rd, rs),
        UnaryOp::Not => is_zero(rd, rs),
        UnaryOp::BitNot => exclusive_or(rd, rs, -1),
    }
}

/// An instruction on a register and an immediate, without its registers.
#[derive(Clone, Copy)]
pub struct ShortForm {
    pub op: OpImmOp,
    pub imm: Immediate,
}

impl ShortForm {
    /// The instruction on these registers.
    fn on(self, rd: Reg, rs1: Reg) -> Instr
        ensures { result ≡ OpImm self.op rd rs1 self.imm }
    {
        Instr::OpImm {
            op: self.op,
            rd,
            rs1,
            imm: self.imm,
        }
    }
}

// Where the word can be an immediate.
fn short(op: OpImmOp, word: u32) -> Option<ShortForm>
    ensures { result ≡ short op word }
{
    if let Some(imm) = Immediate::new(word.cast_signed()) {
        return Some(ShortForm { op, imm });
    }
    None
}

fn less_than(unsigned: bool) -> OpImmOp
    ensures { result ≡ less_than unsigned }
{
    if unsigned {
        OpImmOp::Sltiu
    } else {
        OpImmOp::Slti
    }
}

fn added_by(minus: bool, word: u32) -> u32
    ensures { result ≡ added_by minus word }
{
    if minus { word.wrapping_neg() } else { word }
}

fn binary_short(unsigned: bool, op: BinaryOp, word: u32) -> Option<ShortForm>
    ensures { result ≡ binary_short unsigned op word }
{
    match op {
        BinaryOp::BitOr => short(OpImmOp::Ori, word),
        BinaryOp::BitXor => short(OpImmOp::Xori, word),
        BinaryOp::BitAnd => short(OpImmOp::Andi, word),
        BinaryOp::Less => short(less_than(unsigned), word),
        BinaryOp::Add => short(OpImmOp::Addi, word),
        BinaryOp::Sub => short(OpImmOp::Addi, added_by(true, word)),
        _ => None,
    }
}

/// The instruction of an operator whose second operand is this word, if there is one.
pub(crate) fn short_form(op: TacOp, word: u32) -> Option<ShortForm>
    ensures { result ≡ short_form op word }
{
    match op {
        TacOp::Binary { op, scalar } => binary_short(is_unsigned(scalar), op, word),
        TacOp::PointerMove { minus, cells, .. } => short(
            OpImmOp::Addi,
            added_by(minus, word.wrapping_mul(bytes_of(cells))),
        ),
        _ => None,
    }
}

/// The registers of an operator: of its result and of its operands.
#[derive(Clone, Copy)]
pub struct Operands {
    pub rd: Reg,
    pub left: Reg,
    pub right: Reg,
}

impl Backward {
    // An operation whose result is 0 or 1, after another into a scratch register.
    fn judged(
        &mut self,
        judgement: Instr,
        op: OpOp,
        left: Reg,
        right: Reg,
    ) -> Result<(), OutOfMemory>
        ensures { OnOk result (self.new ≡ plainly (Op op 5 left right ∷ judgement ∷ []) ++ self.old) }
    {
        self.plain(judgement)?;
        self.plain(on_registers(op, register(FIRST_SCRATCH), left, right))
    }

    fn and_also(&mut self, on: Operands) -> Result<(), OutOfMemory>
        ensures { OnOk result (self.new ≡
            plainly (binary_code on.rd on.left on.right false op.AndAlso) ++ self.old) }
    {
        let first = register(FIRST_SCRATCH);
        let second = register(SECOND_SCRATCH);
        self.plain(on_registers(OpOp::And, on.rd, first, second))?;
        self.plain(is_not_zero(second, on.right))?;
        self.plain(is_not_zero(first, on.left))
    }

    fn binary_code(&mut self, op: BinaryOp, unsigned: bool, on: Operands) -> Result<(), OutOfMemory>
        ensures { OnOk result (self.new ≡
            plainly (binary_code on.rd on.left on.right unsigned op) ++ self.old) }
    {
        let Operands { rd, left, right } = on;
        let scratch = register(FIRST_SCRATCH);
        let less = by_sign(unsigned, OpOp::Slt, OpOp::Sltu);
        let direct = match op {
            BinaryOp::AndAlso => return self.and_also(on),
            BinaryOp::OrElse => return self.judged(is_not_zero(rd, scratch), OpOp::Or, left, right),
            BinaryOp::Equal => return self.judged(is_zero(rd, scratch), OpOp::Xor, left, right),
            BinaryOp::NotEqual => {
                return self.judged(is_not_zero(rd, scratch), OpOp::Xor, left, right);
            }
            BinaryOp::LessEqual => return self.judged(
                exclusive_or(rd, scratch, 1),
                less,
                right,
                left,
            ),
            BinaryOp::GreaterEqual => {
                return self.judged(exclusive_or(rd, scratch, 1), less, left, right);
            }
            BinaryOp::Greater => return self.plain(on_registers(less, rd, right, left)),
            BinaryOp::Less => less,
            BinaryOp::BitOr => OpOp::Or,
            BinaryOp::BitXor => OpOp::Xor,
            BinaryOp::BitAnd => OpOp::And,
            BinaryOp::ShiftLeft => OpOp::Sll,
            BinaryOp::ShiftRight => by_sign(unsigned, OpOp::Sra, OpOp::Srl),
            BinaryOp::Add => OpOp::Add,
            BinaryOp::Sub => OpOp::Sub,
            BinaryOp::Mul => OpOp::Mul,
            BinaryOp::Div => by_sign(unsigned, OpOp::Div, OpOp::Divu),
            BinaryOp::Rem => by_sign(unsigned, OpOp::Rem, OpOp::Remu),
        };
        self.plain(on_registers(direct, rd, left, right))
    }

    // The bytes of as many elements as a register says.
    fn bytes_ahead(&mut self, right: Reg, cells: u32) -> Result<(), OutOfMemory>
        ensures { OnOk result (self.new ≡ plainly (bytes_ahead right cells) ++ self.old) }
    {
        let distance = register(SECOND_SCRATCH);
        if cells == 1 {
            return self.plain(Instr::Shift {
                op: ShiftOp::Slli,
                rd: distance,
                rs1: right,
                amount: ShiftAmount::new(2).unwrap(),
            });
        }
        let scratch = register(ADDRESS_SCRATCH);
        self.plain(on_registers(OpOp::Mul, distance, right, scratch))?;
        self.loading(scratch, bytes_of(cells))
    }

    fn pointer_move(&mut self, minus: bool, cells: u32, on: Operands) -> Result<(), OutOfMemory>
        ensures { OnOk result (self.new ≡ plainly (pointer_move on.rd on.left on.right minus cells) ++ self.old) }
    {
        let step = if minus { OpOp::Sub } else { OpOp::Add };
        self.plain(on_registers(step, on.rd, on.left, register(SECOND_SCRATCH)))?;
        self.bytes_ahead(on.right, cells)
    }

    fn pointer_difference(&mut self, cells: u32, on: Operands) -> Result<(), OutOfMemory>
        ensures { OnOk result (self.new ≡ plainly (pointer_difference on.rd on.left on.right cells) ++ self.old) }
    {
        let distance = register(FIRST_SCRATCH);
        let scratch = register(ADDRESS_SCRATCH);
        self.plain(on_registers(OpOp::Div, on.rd, distance, scratch))?;
        self.loading(scratch, bytes_of(cells))?;
        self.plain(on_registers(OpOp::Sub, distance, on.left, on.right))
    }

    /// An operator.
    pub fn op_code(&mut self, op: TacOp, on: Operands) -> Result<(), OutOfMemory>
        ensures { OnOk result (self.new ≡ plainly (op_code on.rd on.left on.right op) ++ self.old) }
    {
        match op {
            TacOp::Unary { op, .. } => self.plain(unary_code(op, on.rd, on.left)),
            TacOp::Binary { op, scalar } => self.binary_code(op, is_unsigned(scalar), on),
            TacOp::PointerNot => self.plain(is_zero(on.rd, on.left)),
            TacOp::PointerMove { minus, cells, .. } => self.pointer_move(minus, cells, on),
            TacOp::PointerMember { offset } => self.moved_by(on.rd, on.left, bytes_of(offset)),
            TacOp::PointerDifference { cells } => self.pointer_difference(cells, on),
            TacOp::PointerCompare { op } => self.binary_code(op, true, on),
        }
    }

    /// An operator whose second operand is a constant.
    pub fn short_code(
        &mut self,
        rd: Reg,
        left: Reg,
        form: Option<ShortForm>,
    ) -> Result<(), OutOfMemory>
        ensures { OnOk result (self.new ≡ plainly (short_code rd left form) ++ self.old) }
    {
        match form {
            Some(form) => self.plain(form.on(rd, left)),
            None => Ok(()),
        }
    }
}
