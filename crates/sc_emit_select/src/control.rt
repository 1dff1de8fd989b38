//! Statements in order, choices and loops.

ghost use Rattle.sc_emit_select.specs.Prelude.{Fits, FitsBetween, FitsLoop, FrameTree, Line, Place, between, cycle};
ghost use Rattle.sc_emit_select.specs.Prelude.{ending_test, first_scratch, most_lines, past, plain, plan_by, rotated};
ghost use Rattle.sc_emit_select.specs.Prelude.{select, select_all, take};
ghost use Rattle.sc_tac.specs.declared.stmt.TacStmt;
ghost use Rattle.std.specs.Prelude.{◌≡◌, ◌≤◌, ◌<◌, ◌+◌, ◌-◌, ◌++◌, ◌∷◌, [], ℕ, List, None, OnOk, length, map};
ghost use Rattle.std.specs.Prelude.{if◌then◌else◌};

use crate::backward::Backward;
use crate::homes::Homes;
use crate::jumps::{branch_back, is_skip, jump_back, jump_over, loop_begins};
use crate::kinds::ending_test;
use crate::pieces::{FIRST_SCRATCH, register};
use crate::roles::{Role, joins, role_at, role_before, role_of, role_to_next};
use sc_base::OutOfMemory;
use sc_tac::TacStmt;

/// How many lines lie between the end of a piece of code and where a break leads, and a continue.
#[derive(Clone, Copy)]
pub struct Distances {
    pub to_break: usize,
    pub to_continue: usize,
}

// The test that a loop ends with, if it does.
fn test_at_end(homes: &Homes, head: &[TacStmt]) -> Option<u32>
    ensures { (frame : FrameTree) (places : List Place) → result ≡ (if homes.now.near
        then ending_test (map (select frame places (plan_by homes.now.needs.now homes.now.near)) head.now) else None) }
{
    if homes.near {
        return ending_test(head);
    }
    None
}

impl Backward {
    /// Statements in order, from the last one back.
    #[cycle(control)]
    pub fn in_order(
        &mut self,
        homes: &Homes,
        distances: Distances,
        stmts: &[TacStmt],
    ) -> Result<(), OutOfMemory>
        requires fits { Fits homes.now.frame.now homes.now.places.now (plan_by homes.now.needs.now homes.now.near)
            stmts.now
            distances.to_break
            distances.to_continue }
        ensures { OnOk result (self.new ≡ (select_all homes.now.frame.now homes.now.places.now
            (plan_by homes.now.needs.now homes.now.near) stmts.now).lines
            distances.to_break distances.to_continue ++ self.old) }
    {
        let end = self.len();
        for at in (0..stmts.len()).rev() {
            let following = self.len() - end;
            let from_here = Distances {
                to_break: following + distances.to_break,
                to_continue: following + distances.to_continue,
            };
            let before = role_before(homes.needs, stmts, at);
            self.between(
                homes,
                from_here,
                before,
                &stmts[at],
                role_at(homes.needs, stmts, at + 1),
            )?;
        }
        Ok(())
    }

    // A statement between two others, with which it may be one piece of code.
    #[cycle(control)]
    fn between(
        &mut self,
        homes: &Homes,
        distances: Distances,
        before: Role,
        stmt: &TacStmt,
        following: Role,
    ) -> Result<(), OutOfMemory>
        requires fits { FitsBetween homes.now.frame.now homes.now.places.now
            (plan_by homes.now.needs.now homes.now.near) before
            stmt.now following
            distances.to_break distances.to_continue }
        ensures { OnOk result (self.new ≡ (between homes.now.frame.now homes.now.places.now before
            (select homes.now.frame.now homes.now.places.now (plan_by homes.now.needs.now homes.now.near) stmt.now)
            following).lines
            distances.to_break
            distances.to_continue ++ self.old) }
    {
        let role = role_of(homes.needs, stmt);
        if joins(role_to_next(before, role), following) {
            return Ok(());
        }
        if joins(before, role) {
            return self.as_one(homes, before, role);
        }
        self.statement(homes, distances, stmt)
    }

    // A part of a loop: a break leads to where the loop ends, which has `end` lines after it.
    #[cycle(control)]
    fn part(&mut self, homes: &Homes, end: usize, part: &[TacStmt]) -> Result<(), OutOfMemory>
        requires following { end ≤ length self.now }
        requires fits { Fits homes.now.frame.now homes.now.places.now (plan_by homes.now.needs.now homes.now.near)
            part.now (length
            self.now - end) 0 }
        ensures { OnOk result (self.new ≡ (select_all homes.now.frame.now homes.now.places.now
            (plan_by homes.now.needs.now homes.now.near) part.now).lines
            (length self.old - end) 0 ++ self.old) }
    {
        let distances = Distances {
            to_break: self.len() - end,
            to_continue: 0,
        };
        self.in_order(homes, distances, part)
    }

    // A jump past `lines` lines, where there are any.
    fn past(&mut self, lines: usize) -> Result<(), OutOfMemory>
        requires { lines < most_lines }
        ensures { OnOk result (self.new ≡ past lines ++ self.old) }
    {
        if lines == 0 {
            return Ok(());
        }
        self.plain(jump_over(lines))
    }

    // The first part where the value is true, else the second.
    #[cycle(control)]
    fn fork(
        &mut self,
        homes: &Homes,
        distances: Distances,
        cond: u32,
        first: &[TacStmt],
        second: &[TacStmt],
    ) -> Result<(), OutOfMemory>
        requires fits { Fits homes.now.frame.now homes.now.places.now (plan_by homes.now.needs.now homes.now.near)
            (TacStmt.If cond
            first.now second.now ∷ [])
            distances.to_break distances.to_continue }
        ensures { OnOk result (self.new ≡ (select homes.now.frame.now homes.now.places.now
            (plan_by homes.now.needs.now homes.now.near)
            (TacStmt.If cond first.now second.now)).lines distances.to_break distances.to_continue ++ self.old) }
    {
        let end = self.len();
        self.in_order(homes, distances, second)?;
        let following = self.len() - end;
        if is_skip(first, following) {
            return self.choice(homes, cond);
        }
        self.past(following)?;
        let over = self.len() - end;
        let over_second = Distances {
            to_break: over + distances.to_break,
            to_continue: over + distances.to_continue,
        };
        self.in_order(homes, over_second, first)?;
        let before = self.len() - end - following;
        self.plain(jump_over(before))?;
        self.choice(homes, cond)
    }

    // A loop that begins with its head. A line stands in the place of the jump back until it is known how far that
    // leads.
    #[cycle(control)]
    fn cycle(
        &mut self,
        homes: &Homes,
        head: &[TacStmt],
        body: &[TacStmt],
        next: &[TacStmt],
    ) -> Result<(), OutOfMemory>
        requires fits { FitsLoop homes.now.frame.now homes.now.places.now (plan_by homes.now.needs.now homes.now.near)
            head.now body.now next.now 2 }
        ensures { (to_break to_continue : ℕ) → OnOk result (self.new ≡
            (cycle homes.now.frame.now homes.now.places.now
            (select_all homes.now.frame.now homes.now.places.now (plan_by homes.now.needs.now homes.now.near) head.now)
            (select_all homes.now.frame.now homes.now.places.now (plan_by homes.now.needs.now homes.now.near) body.now)
            (select_all homes.now.frame.now homes.now.places.now (plan_by homes.now.needs.now homes.now.near)
            next.now)).lines
            to_break to_continue ++ self.old) }
    {
        let end = self.len();
        self.plain(loop_begins())?;
        self.part(homes, end, next)?;
        self.part(homes, end, body)?;
        self.part(homes, end, head)?;
        let lines = self.len() - end - 1;
        self.plain(loop_begins())?;
        self.replace(end, jump_back(lines));
        Ok(())
    }

    // A loop that ends with its head, and that with its test. A line stands in the place of the branch back until it is
    // known how far that leads.
    #[cycle(control)]
    fn rotated(
        &mut self,
        homes: &Homes,
        cond: u32,
        head: &[TacStmt],
        body: &[TacStmt],
        next: &[TacStmt],
    ) -> Result<(), OutOfMemory>
        requires fits { FitsLoop homes.now.frame.now homes.now.places.now (plan_by homes.now.needs.now homes.now.near)
            head.now body.now next.now
            (2 + length (take homes.now.frame.now homes.now.places.now first_scratch cond)) }
        ensures { (to_break to_continue : ℕ) → OnOk result (self.new ≡
            (rotated homes.now.frame.now homes.now.places.now cond
            (select_all homes.now.frame.now homes.now.places.now (plan_by homes.now.needs.now homes.now.near) head.now)
            (select_all homes.now.frame.now homes.now.places.now (plan_by homes.now.needs.now homes.now.near) body.now)
            (select_all homes.now.frame.now homes.now.places.now (plan_by homes.now.needs.now homes.now.near)
            next.now)).lines
            to_break to_continue ++ self.old) }
    {
        let end = self.len();
        self.plain(loop_begins())?;
        self.take(homes, register(FIRST_SCRATCH), cond)?;
        self.part(homes, end, head)?;
        let following = self.len();
        self.part(homes, end, next)?;
        self.part(homes, end, body)?;
        let over = self.len() - following;
        let lines = self.len() - end - 1;
        self.plain(jump_over(over))?;
        self.replace(end, branch_back(homes, cond, lines));
        Ok(())
    }

    // A loop.
    #[cycle(control)]
    fn turning(
        &mut self,
        homes: &Homes,
        head: &[TacStmt],
        body: &[TacStmt],
        next: &[TacStmt],
    ) -> Result<(), OutOfMemory>
        requires fits { Fits homes.now.frame.now homes.now.places.now (plan_by homes.now.needs.now homes.now.near)
            (TacStmt.Loop head.now body.now next.now ∷ []) 0 0 }
        ensures { (to_break to_continue : ℕ) → OnOk result (self.new ≡
            (select homes.now.frame.now homes.now.places.now (plan_by homes.now.needs.now homes.now.near)
            (TacStmt.Loop head.now body.now next.now)).lines
            to_break to_continue ++ self.old) }
    {
        match test_at_end(homes, head) {
            Some(cond) => self.rotated(homes, cond, &head[..head.len() - 1], body, next),
            None => self.cycle(homes, head, body, next),
        }
    }

    // A statement.
    #[cycle(control)]
    fn statement(
        &mut self,
        homes: &Homes,
        distances: Distances,
        stmt: &TacStmt,
    ) -> Result<(), OutOfMemory>
        requires fits { Fits homes.now.frame.now homes.now.places.now (plan_by homes.now.needs.now homes.now.near)
            (stmt.now ∷ [])
            distances.to_break
            distances.to_continue }
        ensures { OnOk result (self.new ≡ (select homes.now.frame.now homes.now.places.now
            (plan_by homes.now.needs.now homes.now.near) stmt.now).lines
            distances.to_break distances.to_continue ++ self.old) }
    {
        match stmt {
            TacStmt::Const { dest, value } => self.constant(homes, *dest, *value),
            TacStmt::Copy { dest, from } => self.copy(homes, *dest, *from),
            TacStmt::Op {
                dest,
                op,
                left,
                right,
            } => self.operation(homes, *dest, *op, *left, *right),
            TacStmt::ObjectPlace { dest, object } => self.object_place(homes, *dest, *object),
            TacStmt::GlobalPlace { dest, global } => self.global_place(homes, *dest, *global),
            TacStmt::Load { dest, place, .. } => self.load_from(homes, *dest, *place),
            TacStmt::Store { place, value } => self.store_to(homes, *place, *value),
            TacStmt::If {
                cond,
                then_part,
                else_part,
            } => self.fork(
                homes,
                distances,
                *cond,
                then_part.as_slice(),
                else_part.as_slice(),
            ),
            TacStmt::Loop { head, body, next } => {
                self.turning(homes, head.as_slice(), body.as_slice(), next.as_slice())
            }
            TacStmt::Break => self.plain(jump_over(distances.to_break)),
            TacStmt::Continue => self.plain(jump_over(distances.to_continue)),
            TacStmt::CallOwn {
                dest,
                function,
                args,
            } => self.call_own(homes, *dest, *function, args),
            TacStmt::CallCross {
                dest,
                comp,
                index,
                args,
            } => self.call_cross(homes, *dest, *comp, *index, args),
            TacStmt::Input { dest } => self.input(homes, *dest),
            TacStmt::Output { value } => self.output(homes, *value),
            TacStmt::Alloc { dest, count, words } => self.allocate(homes, *dest, *count, *words),
            TacStmt::Free { pointer } => self.free(homes, *pointer),
            TacStmt::Return { value } => self.return_value(homes, *value),
        }
    }
}
