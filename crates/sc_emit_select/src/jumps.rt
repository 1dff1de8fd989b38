//! Jumps and branches by the lines that they lead over.

ghost use Rattle.sc_emit_select.specs.Prelude.{Addi, IsJumpOffset, Jal, OpImm, branch_back, jump_back, jump_over};
ghost use Rattle.sc_emit_select.specs.Prelude.{loop_begins, most_lines, plain};
ghost use Rattle.std.specs.Prelude.{◌≡◌, ◌<◌, length, ◌&&◌, ◌==◌};

use crate::homes::Homes;
use crate::pieces::{FIRST_SCRATCH, ZERO, addi, immediate, register};
use rv_code::{BranchOffset, BranchOp, Instr, JumpOffset};
use sc_tac::TacStmt;

/// Fewer lines than a branch can lead back over.
pub(crate) const BRANCH_REACH: usize = 1024;

// A jump by `bytes` bytes from its own address.
fn jump(bytes: i32) -> Instr
    requires { IsJumpOffset bytes }
    ensures { result ≡ Jal 0 bytes }
{
    Instr::Jal {
        rd: register(ZERO),
        imm: JumpOffset::new(bytes).unwrap(),
    }
}

/// A jump over `lines` lines.
pub(crate) fn jump_over(lines: usize) -> Instr
    requires { lines < most_lines }
    ensures { plain result ≡ jump_over lines }
{
    jump(4 * (lines as i32 + 1))
}

/// A jump back to where the `lines` lines before it begin.
pub(crate) fn jump_back(lines: usize) -> Instr
    requires { lines < most_lines }
    ensures { plain result ≡ jump_back lines }
{
    jump(-4 * lines as i32)
}

/// Whether a branch leads over only the second part of a choice: one line, where there is no first part.
pub(crate) fn is_skip(first: &[TacStmt], lines: usize) -> bool
    ensures { result ≡ (length first.now == 0 && lines == 1) }
{
    first.is_empty() && lines == 1
}

/// What a loop begins with, and what stands in the place of its last line until it is known how far that leads.
pub(crate) fn loop_begins() -> Instr
    ensures { plain result ≡ loop_begins }
{
    let zero = register(ZERO);
    addi(zero, zero, immediate(0))
}

/// The branch back from the test of a loop over the `lines` lines before it, or a jump where a branch doesn't reach.
pub(crate) fn branch_back(homes: &Homes, cond: u32, lines: usize) -> Instr
    requires { lines < most_lines }
    ensures { plain result ≡ branch_back homes.now.frame.now homes.now.places.now cond lines }
{
    if lines >= BRANCH_REACH {
        return jump_back(lines);
    }
    Instr::Branch {
        op: BranchOp::Bne,
        rs1: homes.operand(register(FIRST_SCRATCH), cond),
        rs2: register(ZERO),
        imm: BranchOffset::new(-4 * lines as i32).unwrap(),
    }
}
