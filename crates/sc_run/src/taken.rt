//! Steps that were taken where something isn't done at once. The run keeps the last one, so that what is done at once,
//! as most is, says no more than that it is.

ghost use Rattle.sc_run.specs.Prelude.{step_of, unless_done};
ghost use Rattle.std.specs.Prelude.{◌≡◌, Some};

use crate::work::{Leaving, Now, Step, StepKind, Taken};
use sc_core::{RunEnd, TypedStmt};

/// The end of the run.
#[inline(never)]
pub fn keep_end(taken: &mut Taken, end: RunEnd) -> bool
    ensures { unless_done result taken.new ≡ Some (Step.Stop end) }
{
    taken.kind = StepKind::End;
    taken.end = end;
    false
}

/// Statements.
#[inline(never)]
pub fn keep_statements<'a>(taken: &mut Taken<'a>, stmts: &'a [TypedStmt]) -> bool
    ensures { unless_done result taken.new ≡ Some (Step.Go (Now.Run stmts.entry)) }
{
    taken.kind = StepKind::Statements;
    taken.stmts = stmts;
    false
}

/// Control leaves statements.
#[inline(never)]
pub fn keep_exit(taken: &mut Taken, exit: Leaving) -> bool
    ensures { unless_done result taken.new ≡ Some (Step.Go (Now.Leave exit)) }
{
    taken.kind = StepKind::Exit;
    taken.exit = exit;
    false
}

/// What is done next.
#[inline(never)]
pub fn keep_now<'a>(taken: &mut Taken<'a>, now: Now<'a>) -> bool
    ensures { unless_done result taken.new ≡ Some (Step.Go now.entry) }
{
    match now {
        Now::Run(stmts) => keep_statements(taken, stmts),
        Now::Leave(exit) => keep_exit(taken, exit),
    }
}

/// The step that was taken.
#[inline(never)]
pub fn last_step<'a>(taken: &Taken<'a>) -> Step<'a>
    ensures { result ≡ step_of taken.now }
{
    match taken.kind {
        StepKind::Statements => Step::Go(Now::Run(taken.stmts)),
        StepKind::Exit => Step::Go(Now::Leave(taken.exit)),
        StepKind::End => Step::Stop(taken.end),
    }
}
