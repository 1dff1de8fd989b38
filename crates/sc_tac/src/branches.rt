ghost use Rattle.sc_tac.specs.Prelude.{branches, stmt_branches};
ghost use Rattle.std.specs.Prelude.{◌≡◌, ◌<◌, ◌^◌};

use crate::function::TacFn;
use crate::stmt::{TacStmt, TacStmts};

impl TacFn {
    /// How many `If`s the function has: nothing else branches.
    #[tactic(auto, using(crate::proofs::Bounds::few_branches))]
    pub fn branches(&self) -> u32
        ensures { result ≡ branches self.now.body }
    {
        branches(&self.tree().body)
    }
}

#[cycle(branches)]
fn branches(stmts: &TacStmts) -> u32
    requires { branches stmts.now < 2 ^ 32 }
    ensures { result ≡ branches stmts.now }
{
    let mut sum = 0;
    for stmt in stmts.as_slice() {
        sum += stmt_branches(stmt);
    }
    sum
}

#[cycle(branches)]
fn stmt_branches(stmt: &TacStmt) -> u32
    requires { stmt_branches stmt.now < 2 ^ 32 }
    ensures { result ≡ stmt_branches stmt.now }
{
    match stmt {
        TacStmt::If {
            then_part,
            else_part,
            ..
        } => 1 + branches(then_part) + branches(else_part),
        TacStmt::Loop { head, body, next } => branches(head) + branches(body) + branches(next),
        _ => 0,
    }
}
