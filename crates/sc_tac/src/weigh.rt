ghost use Rattle.sc_tac.specs.Prelude.{call_weight, entry_weight, op_weight, stmt_weight, weight};
ghost use Rattle.std.specs.Prelude.{◌≡◌, ◌+◌, ◌<◌, ◌^◌, length};

use crate::function::TacFn;
use crate::stmt::{TacOp, TacStmt, TacStmts, Temps};

impl TacFn {
    /// How many instructions the function takes at most, less than 24 for each node of its source.
    pub fn weight(&self) -> u32
        ensures { result ≡ entry_weight self.now.params + weight self.now.body }
    {
        let tree = self.tree();
        10 + 3 * u32::from(tree.params) + weight(&tree.body)
    }
}

#[cycle(weight)]
fn weight(stmts: &TacStmts) -> u32
    requires { weight stmts.now < 2 ^ 32 }
    ensures { result ≡ weight stmts.now }
{
    let mut sum = 0;
    for stmt in stmts.as_slice() {
        sum += stmt_weight(stmt);
    }
    sum
}

#[cycle(weight)]
fn stmt_weight(stmt: &TacStmt) -> u32
    requires { stmt_weight stmt.now < 2 ^ 32 }
    ensures { result ≡ stmt_weight stmt.now }
{
    match stmt {
        TacStmt::Const { .. } => 5,
        TacStmt::Copy { .. } => 6,
        TacStmt::Op { op, .. } => op_weight(*op),
        TacStmt::ObjectPlace { .. } | TacStmt::GlobalPlace { .. } => 6,
        TacStmt::Load { .. } | TacStmt::Store { .. } => 7,
        TacStmt::If {
            then_part,
            else_part,
            ..
        } => 6 + weight(then_part) + weight(else_part),
        TacStmt::Loop { head, body, next } => 2 + weight(head) + weight(body) + weight(next),
        TacStmt::Break | TacStmt::Continue => 1,
        TacStmt::CallOwn { args, .. } | TacStmt::CallCross { args, .. } => call_weight(args),
        TacStmt::Input { .. } => 5,
        TacStmt::Output { .. } => 8,
        TacStmt::Alloc { .. } => 10,
        TacStmt::Free { .. } => 5,
        TacStmt::Return { .. } => 8,
    }
}

fn op_weight(op: TacOp) -> u32
    ensures { result ≡ op_weight op }
{
    match op {
        TacOp::Unary { .. } | TacOp::PointerNot => 7,
        TacOp::PointerMember { .. } => 9,
        _ => 13,
    }
}

fn call_weight(args: &Temps) -> u32
    requires { call_weight (length args.now) < 2 ^ 32 }
    ensures { result ≡ call_weight (length args.now) }
{
    3 * args.as_slice().len() as u32 + 5
}
