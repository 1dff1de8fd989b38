//! What statements are to the loop in whose head they stand.

ghost use Rattle.sc_emit_select.specs.Prelude.{FrameTree, Place, Plan, all_plain, breaks, ending_test, is_break};
ghost use Rattle.sc_emit_select.specs.Prelude.{is_plain, kind_of_fork, select, test_of};
ghost use Rattle.std.specs.Prelude.{◌≡◌, List, map};

use sc_tac::TacStmt;

// Whether the next statement is done after this one, if the call goes on.
#[cycle(plain)]
fn is_plain(stmt: &TacStmt) -> bool
    ensures { (frame : FrameTree) (places : List Place) (plan : Plan) → result ≡
        is_plain (select frame places plan stmt.now).kind }
{
    match stmt {
        TacStmt::If {
            then_part,
            else_part,
            ..
        } => all_plain(then_part.as_slice()) && all_plain(else_part.as_slice()),
        TacStmt::Break | TacStmt::Continue => false,
        _ => true,
    }
}

// Whether that is so after each of these.
#[cycle(plain)]
fn all_plain(stmts: &[TacStmt]) -> bool
    ensures { (frame : FrameTree) (places : List Place) (plan : Plan) → result ≡
        all_plain (map (select frame places plan) stmts.now) }
{
    for at in 0..stmts.len() {
        if !is_plain(&stmts[at]) {
            return false;
        }
    }
    true
}

fn breaks(stmt: &TacStmt) -> bool
    ensures { (frame : FrameTree) (places : List Place) (plan : Plan) → result ≡
        breaks (select frame places plan stmt.now).kind }
{
    matches!(stmt, TacStmt::Break)
}

// Whether these are one break.
#[tactic(auto, using(crate::proofs::Turning::no_break))]
fn is_break(stmts: &[TacStmt]) -> bool
    ensures { (frame : FrameTree) (places : List Place) (plan : Plan) → result ≡
        is_break (map (select frame places plan) stmts.now) }
{
    if stmts.len() != 1 {
        return false;
    }
    breaks(&stmts[0])
}

// The value of an `If` that does nothing where it is true, and else breaks.
fn test_of_fork(cond: u32, first: &[TacStmt], second: &[TacStmt]) -> Option<u32>
    ensures { (frame : FrameTree) (places : List Place) (plan : Plan) → result ≡
        test_of (kind_of_fork cond (map (select frame places plan) first.now)
        (map (select frame places plan) second.now)) }
{
    if !first.is_empty() {
        return None;
    }
    if !is_break(second) {
        return None;
    }
    Some(cond)
}

fn test_of(stmt: &TacStmt) -> Option<u32>
    ensures { (frame : FrameTree) (places : List Place) (plan : Plan) → result ≡
        test_of (select frame places plan stmt.now).kind }
{
    match stmt {
        TacStmt::If {
            cond,
            then_part,
            else_part,
        } => test_of_fork(*cond, then_part.as_slice(), else_part.as_slice()),
        _ => None,
    }
}

/// The test that statements end with, which are plain before it.
pub(crate) fn ending_test(stmts: &[TacStmt]) -> Option<u32>
    ensures { (frame : FrameTree) (places : List Place) (plan : Plan) → result ≡
        ending_test (map (select frame places plan) stmts.now) }
{
    if stmts.is_empty() {
        return None;
    }
    let last = stmts.len() - 1;
    for at in 0..last {
        if !is_plain(&stmts[at]) {
            return None;
        }
    }
    test_of(&stmts[last])
}
