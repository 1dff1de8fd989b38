//! The lines at which the rules of types are broken.

ghost use Rattle.sc_types_elab_stmt.specs.Prelude.{Scope, Suits, called, lines_at, part_type_lines, stmt_type_lines};
ghost use Rattle.sc_types_elab_stmt.specs.Prelude.{visible};
ghost use Rattle.sc_types_scope.specs.Prelude.{with_lines};
ghost use Rattle.std.specs.Prelude.{◌≡◌, ◌++◌, List, OnOk, map};
ghost use Rattle.std.specs.List.{concat};

use crate::rules::Place;
use sc_ast::{SimpleTree, StmtKind, StmtTree, Stmts};
use sc_base::OutOfMemory;
use sc_types_scope::BrokenLines;
use sqlite_items::Boxed;
use std::alloc::Global;

impl Place<'_> {
    // Notes the line of a part of a `for` that breaks a rule.
    #[tactic(auto, using(crate::proofs::Noted::nothing))]
    fn note_part(
        &self,
        alloc: Global,
        lines: &mut BrokenLines,
        part: &Option<Boxed<SimpleTree>>,
    ) -> Result<(), OutOfMemory>
        ensures { (scope : Scope) → Suits (visible self.now.section.now self.now.function.now) scope →
            OnOk result (lines.new ≡ with_lines lines.old
            (part_type_lines (visible self.now.section.now self.now.function.now)
            (called self.now.section.now.callees) scope self.now.function.now.result part.now)) }
    {
        match part {
            None => Ok(()),
            Some(simple) => {
                let simple = simple.get();
                let holds = self.simple_holds(alloc, &simple.kind)?;
                lines.unless(holds, simple.line);
                Ok(())
            }
        }
    }

    /// Notes the lines of the statements that break rules of types.
    #[cycle(body)]
    pub fn note_stmts(
        &self,
        alloc: Global,
        lines: &mut BrokenLines,
        stmts: &Stmts,
    ) -> Result<(), OutOfMemory>
        ensures { (scope : Scope) → Suits (visible self.now.section.now self.now.function.now) scope →
            OnOk result (lines.new ≡ with_lines lines.old
            (concat (map (stmt_type_lines (visible self.now.section.now self.now.function.now)
            (called self.now.section.now.callees) scope self.now.function.now.result) stmts.now))) }
    {
        for stmt in stmts.as_slice() {
            self.note_stmt(alloc, lines, stmt)?;
        }
        Ok(())
    }

    #[cycle(body)]
    #[tactic(auto, using(crate::proofs::Noted::statements))]
    fn note_stmt(
        &self,
        alloc: Global,
        lines: &mut BrokenLines,
        stmt: &StmtTree,
    ) -> Result<(), OutOfMemory>
        ensures { (scope : Scope) → Suits (visible self.now.section.now self.now.function.now) scope →
            OnOk result (lines.new ≡ with_lines lines.old
            (stmt_type_lines (visible self.now.section.now self.now.function.now)
            (called self.now.section.now.callees) scope self.now.function.now.result stmt.now)) }
    {
        self.note_kind(alloc, lines, &stmt.kind, stmt.line)
    }

    #[cycle(body)]
    #[tactic(auto, using(crate::proofs::Noted::statements))]
    fn note_kind(
        &self,
        alloc: Global,
        lines: &mut BrokenLines,
        kind: &StmtKind,
        line: u32,
    ) -> Result<(), OutOfMemory>
        ensures { (scope : Scope) → Suits (visible self.now.section.now self.now.function.now) scope →
            OnOk result (lines.new ≡ with_lines lines.old
            (lines_at (visible self.now.section.now self.now.function.now)
            (called self.now.section.now.callees) scope self.now.function.now.result kind.now line)) }
    {
        match kind {
            StmtKind::If {
                cond,
                then_part,
                else_part,
            } => {
                lines.unless(self.cond_holds(alloc, cond.get())?, line);
                self.note_stmts(alloc, lines, then_part)?;
                self.note_stmts(alloc, lines, else_part)
            }
            StmtKind::While { cond, body } => {
                lines.unless(self.cond_holds(alloc, cond.get())?, line);
                self.note_stmts(alloc, lines, body)
            }
            StmtKind::For {
                first,
                cond,
                next,
                body,
            } => {
                self.note_part(alloc, lines, first)?;
                lines.unless(self.cond_holds(alloc, cond.get())?, line);
                self.note_part(alloc, lines, next)?;
                self.note_stmts(alloc, lines, body)
            }
            StmtKind::Assign { place, value } => {
                lines.unless(self.assign_holds(alloc, place.get(), value.get())?, line);
                Ok(())
            }
            StmtKind::AssignCall { place, call } => {
                lines.unless(
                    self.assign_call_holds(alloc, place.get(), call.get())?,
                    line,
                );
                Ok(())
            }
            StmtKind::Call(call) => {
                lines.unless(self.call_holds(alloc, call.get())?, line);
                Ok(())
            }
            StmtKind::Malloc { place, count, of } => {
                lines.unless(
                    self.malloc_holds(alloc, place.get(), count, of.get())?,
                    line,
                );
                Ok(())
            }
            StmtKind::Free(pointer) => {
                lines.unless(self.free_holds(alloc, pointer.get())?, line);
                Ok(())
            }
            StmtKind::Return => {
                lines.unless(self.function.result.is_none(), line);
                Ok(())
            }
            StmtKind::ReturnValue(value) => {
                lines.unless(self.return_value_holds(alloc, value.get())?, line);
                Ok(())
            }
            StmtKind::ReturnCall(call) => {
                lines.unless(self.return_call_holds(alloc, call.get())?, line);
                Ok(())
            }
            StmtKind::Empty => Ok(()),
            StmtKind::Break => Ok(()),
            StmtKind::Continue => Ok(()),
        }
    }
}
