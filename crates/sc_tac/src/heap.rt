ghost use Rattle.sc_tac.specs.Functions.{leaves_heap};
ghost use Rattle.sc_tac.specs.Prelude.{everywhere, uses_heap, with_parts};
ghost use Rattle.sc_tac.specs.declared.stmt.TacStmt.{fold-TacStmt};
ghost use Rattle.std.specs.Prelude.{◌≡◌, Bool};

use crate::function::TacFn;
use crate::stmt::{TacStmt, TacStmts};

impl TacFn {
    /// Whether the function uses the heap.
    pub fn uses_heap(&self) -> bool
        ensures { result ≡ uses_heap self.now.body }
    {
        !leave_heap(&self.tree().body)
    }
}

// Whether no statement allocates or frees.
#[cycle(heap)]
fn leave_heap(stmts: &TacStmts) -> bool
    ensures { result ≡ everywhere leaves_heap stmts.now }
{
    for stmt in stmts.as_slice() {
        if !leaves_heap(stmt) {
            return false;
        }
    }
    true
}

#[cycle(heap)]
fn leaves_heap(stmt: &TacStmt) -> bool
    ensures { result ≡ fold-TacStmt Bool (with_parts leaves_heap) stmt.now }
{
    match stmt {
        TacStmt::Alloc { .. } | TacStmt::Free { .. } => false,
        TacStmt::If {
            then_part,
            else_part,
            ..
        } => leave_heap(then_part) && leave_heap(else_part),
        TacStmt::Loop { head, body, next } => leave_heap(head)
            && leave_heap(body)
            && leave_heap(next),
        _ => true,
    }
}
