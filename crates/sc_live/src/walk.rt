ghost use Rattle.sc_tac.specs.Prelude.{if_calls, is_one, one_or_none, plain_points, point, stmt_weight, weight};
ghost use Rattle.std.specs.Prelude.{◌≡◌, ◌<◌, ◌≤◌, ◌+◌, ◌^◌, ◌∷◌, [], ◌&&◌, ◌||◌, ◌==◌, not, IfOk, OnOk, Some, true};
ghost use Rattle.std.specs.Prelude.{false};
ghost use Rattle.sc_live.specs.Marks.{set_of};
ghost use Rattle.sc_live.specs.Walks.{Holds, Passed, Walked, WalkedAll, WalkedOver, lives_at};

use crate::live::LiveSet;
use crate::marks::{Here, Marks, mark_used};
use sc_base::OutOfMemory;
use sc_tac::{TacStmt, TacStmts};
use std::alloc::Global;
use std::mem::replace;

/// A walk back through a function's code.
#[derive(Drop)]
pub struct Walk {
    /// How many points it has passed.
    pub points: u32,
    /// The nearest of them at which a function is called.
    pub call: Option<u32>,
    /// What is live where it is.
    pub live: LiveSet,
    pub marks: Marks,
}

/// Where control goes on at a break and at a continue: what is live there.
#[derive(Clone, Copy)]
pub struct Exits<'a> {
    pub broken: &'a LiveSet,
    pub continued: &'a LiveSet,
}

impl Walk {
    /// A walk that stands after all points, of a function with `temps` temporaries.
    pub fn new(alloc: Global, temps: u32) -> Result<Walk, OutOfMemory>
        ensures start { IfOk result (λ walk. (walk.live ≡ []) × Holds temps walk []) }
        ensures none { IfOk result (λ walk. walk.points ≡ 0) }
    {
        Ok(Walk {
            points: 0,
            call: None,
            live: LiveSet::new(alloc),
            marks: Marks::from_vec(vec![in alloc; None; temps as usize]?),
        })
    }

    // One point: whether a temporary is assigned and a function called there. What is used there is used to the end.
    fn pass_to(&mut self, assigned: Option<u32>, calls: bool, end: u32)
        requires { self.old.points + 1 < 2 ^ 32 }
        ensures passed { Passed (record { assigned = assigned; calls = calls; live = set_of self.old.live }) end
            self.old self.new }
        ensures few { self.new.points ≡ self.old.points + 1 }
    {
        let at = self.points;
        if calls {
            self.call = Some(at);
        }
        let here = Here {
            at,
            call: self.call,
            end,
        };
        mark_used(&mut self.marks, here, assigned, &self.live);
        self.points = at + 1;
    }

    // One point, at which nothing ends.
    fn pass(&mut self, assigned: Option<u32>, calls: bool)
        requires { self.old.points + 1 < 2 ^ 32 }
        ensures walked { Walked
            (record { assigned = assigned; calls = calls; live = set_of self.old.live } ∷ []) (set_of self.old.live)
            self.old self.new }
        ensures few { self.new.points ≡ self.old.points + 1 }
    {
        self.pass_to(assigned, calls, self.points);
    }

    // The point at which a statement assigns.
    fn assign(&mut self, assigned: Option<u32>)
        requires { self.old.points + 1 < 2 ^ 32 }
        ensures walked { Walked
            (record { assigned = assigned; calls = false; live = set_of self.old.live } ∷ [])
            (λ t. not (is_one t (one_or_none assigned)) && is_one t self.old.live) self.old self.new }
        ensures few { self.new.points ≡ self.old.points + 1 }
    {
        self.pass(assigned, false);
        if let Some(temp) = assigned {
            self.live.remove(temp);
        }
    }

    // The point at which it calls a function, if it does.
    fn call(&mut self, calls: bool)
        requires { self.old.points + 1 < 2 ^ 32 }
        ensures walked { Walked (if_calls calls (point true (set_of self.old.live)))
            (set_of self.old.live) self.old self.new }
        ensures few { self.new.points ≤ self.old.points + 1 }
    {
        if calls {
            self.pass(None, true);
        }
    }

    // The point at which it reads.
    fn read(&mut self, reads: &[u32]) -> Result<(), OutOfMemory>
        requires { self.old.points + 1 < 2 ^ 32 }
        ensures walked { IfOk result (λ _. Walked
            (point false (λ t. is_one t reads.now || is_one t self.old.live) ∷ [])
            (λ t. is_one t reads.now || is_one t self.old.live) self.old self.new) }
        ensures few { OnOk result (self.new.points ≡ self.old.points + 1) }
    {
        self.live.insert_all(reads)?;
        self.pass(None, false);
        Ok(())
    }

    // A statement without others inside.
    fn plain(
        &mut self,
        reads: &[u32],
        calls: bool,
        assigned: Option<u32>,
    ) -> Result<(), OutOfMemory>
        requires { self.old.points + 3 < 2 ^ 32 }
        ensures walked { IfOk result (λ _. Walked
            (plain_points reads.now calls assigned (lives_at self.old.live [] []))
            (λ t. is_one t reads.now || (not (is_one t (one_or_none assigned)) && is_one t self.old.live))
            self.old self.new) }
        ensures few { OnOk result (self.new.points ≤ self.old.points + 3) }
    {
        self.assign(assigned);
        self.call(calls);
        self.read(reads)?;
        Ok(())
    }

    // An operator, which may read only one value.
    fn op(&mut self, dest: u32, left: u32, right: Option<u32>) -> Result<(), OutOfMemory>
        requires { self.old.points + 3 < 2 ^ 32 }
        ensures walked { IfOk result (λ _. Walked
            (plain_points (left ∷ one_or_none right) false (Some dest) (lives_at self.old.live [] []))
            (λ t. is_one t (left ∷ one_or_none right) ||
            (not (is_one t (dest ∷ [])) && is_one t self.old.live)) self.old self.new) }
        ensures few { OnOk result (self.new.points ≤ self.old.points + 3) }
    {
        match right {
            None => self.plain(&[left], false, Some(dest)),
            Some(right) => self.plain(&[left, right], false, Some(dest)),
        }
    }

    // Control goes on elsewhere, where this is live.
    fn leave(&mut self, live: LiveSet)
        requires { self.old.points + 1 < 2 ^ 32 }
        ensures walked { Walked (point false (set_of live) ∷ []) (set_of live) self.old self.new }
        ensures few { self.new.points ≡ self.old.points + 1 }
    {
        self.live = live;
        self.pass(None, false);
    }

    // To a place elsewhere, where this is live.
    fn jump(&mut self, alloc: Global, live: &LiveSet) -> Result<(), OutOfMemory>
        requires { self.old.points + 1 < 2 ^ 32 }
        ensures walked { IfOk result (λ _. Walked (point false (set_of live.now) ∷ []) (set_of live.now)
            self.old self.new) }
        ensures few { OnOk result (self.new.points ≡ self.old.points + 1) }
    {
        self.leave(live.copy(alloc)?);
        Ok(())
    }

    // To the caller, who gets a value or none.
    fn give_back(&mut self, alloc: Global, value: Option<u32>) -> Result<(), OutOfMemory>
        requires { self.old.points + 1 < 2 ^ 32 }
        ensures walked { IfOk result (λ _. Walked (point false (set_of (one_or_none value)) ∷ [])
            (set_of (one_or_none value)) self.old self.new) }
        ensures few { OnOk result (self.new.points ≡ self.old.points + 1) }
    {
        self.leave(LiveSet::one(alloc, value)?);
        Ok(())
    }

    // What is live on the other way too, and the point at which a condition decides.
    fn join(&mut self, other: &LiveSet, cond: u32) -> Result<(), OutOfMemory>
        requires { self.old.points + 1 < 2 ^ 32 }
        ensures walked { IfOk result (λ _. Walked
            (point false (λ t. cond == t || (is_one t other.now || is_one t self.old.live)) ∷ [])
            (λ t. cond == t || (is_one t other.now || is_one t self.old.live)) self.old self.new) }
        ensures few { OnOk result (self.new.points ≡ self.old.points + 1) }
    {
        self.live.insert_all(other.as_slice())?;
        self.live.insert(cond)?;
        self.pass(None, false);
        Ok(())
    }

    // A part of a loop: what is live at its end is live at a `Continue`.
    #[cycle(walk)]
    fn part(&mut self, alloc: Global, broken: &LiveSet, part: &TacStmts) -> Result<(), OutOfMemory>
        requires { self.old.points + weight part.now < 2 ^ 32 }
        ensures walked { IfOk result (λ _. WalkedAll part.now (lives_at self.old.live broken.now self.old.live)
            self.old self.new) }
        ensures few { OnOk result (self.new.points ≤ self.old.points + weight part.now) }
    {
        let continued = self.live.copy(alloc)?;
        let exits = Exits {
            broken,
            continued: &continued,
        };
        self.row(alloc, exits, part)?;
        Ok(())
    }

    /// Over statements in order, from the last one back.
    #[cycle(walk)]
    pub fn row(&mut self, alloc: Global, exits: Exits, stmts: &TacStmts) -> Result<(), OutOfMemory>
        requires { self.old.points + weight stmts.now < 2 ^ 32 }
        ensures walked { IfOk result (λ _. WalkedAll stmts.now
            (lives_at self.old.live exits.entry.broken.now exits.entry.continued.now) self.old self.new) }
        ensures few { OnOk result (self.new.points ≤ self.old.points + weight stmts.now) }
    {
        let list = stmts.as_slice();
        let mut at = list.len();
        while at > 0 {
            at -= 1;
            self.stmt(alloc, exits, &list[at])?;
        }
        Ok(())
    }

    // Of a loop one round is walked, with nothing live at its end; what is then live at its start is used all through.
    #[cycle(walk)]
    fn stmt(&mut self, alloc: Global, exits: Exits, stmt: &TacStmt) -> Result<(), OutOfMemory>
        requires { self.old.points + stmt_weight stmt.now < 2 ^ 32 }
        ensures walked { IfOk result (λ _. WalkedOver stmt.now
            (lives_at self.old.live exits.entry.broken.now exits.entry.continued.now) self.old self.new) }
        ensures few { OnOk result (self.new.points ≤ self.old.points + stmt_weight stmt.now) }
    {
        match stmt {
            TacStmt::Const { dest, .. } => self.plain(&[], false, Some(*dest)),
            TacStmt::ObjectPlace { dest, .. } => self.plain(&[], false, Some(*dest)),
            TacStmt::GlobalPlace { dest, .. } => self.plain(&[], false, Some(*dest)),
            TacStmt::Copy { dest, from } => self.plain(&[*from], false, Some(*dest)),
            TacStmt::Op {
                dest,
                left,
                right,
                ..
            } => self.op(*dest, *left, *right),
            TacStmt::Load { dest, place, .. } => self.plain(&[*place], false, Some(*dest)),
            TacStmt::Store { place, value } => self.plain(&[*place, *value], false, None),
            TacStmt::If {
                cond,
                then_part,
                else_part,
            } => {
                let following = self.live.copy(alloc)?;
                self.row(alloc, exits, else_part)?;
                let live = replace(&mut self.live, following);
                self.row(alloc, exits, then_part)?;
                self.join(&live, *cond)?;
                Ok(())
            }
            TacStmt::Loop { head, body, next } => {
                let end = self.points;
                let broken = replace(&mut self.live, LiveSet::new(alloc));
                self.pass(None, false);
                self.part(alloc, &broken, next)?;
                self.part(alloc, &broken, body)?;
                self.part(alloc, &broken, head)?;
                self.pass_to(None, false, end);
                Ok(())
            }
            TacStmt::Break => self.jump(alloc, exits.broken),
            TacStmt::Continue => self.jump(alloc, exits.continued),
            TacStmt::CallOwn { dest, args, .. } => self.plain(args.as_slice(), true, *dest),
            TacStmt::CallCross { dest, args, .. } => self.plain(args.as_slice(), true, *dest),
            TacStmt::Input { dest } => self.plain(&[], false, *dest),
            TacStmt::Output { value } => self.plain(&[*value], false, None),
            TacStmt::Alloc { dest, count, .. } => self.plain(&[*count], false, Some(*dest)),
            TacStmt::Free { pointer } => self.plain(&[*pointer], false, None),
            TacStmt::Return { value } => self.give_back(alloc, *value),
        }
    }
}
