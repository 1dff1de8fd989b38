//! The rules of types on the parts of statements (C11 6.5.2.2, 6.5.16.1, 6.8), by what is judged of their expressions.

ghost use Rattle.sc_types_elab_stmt.specs.Prelude.{Scope, Suits, all_go, assign_call_holds, assign_holds, call_holds};
ghost use Rattle.sc_types_elab_stmt.specs.Prelude.{called, cond_holds, count_fits, free_holds, goes_in, init_goes};
ghost use Rattle.sc_types_elab_stmt.specs.Prelude.{is_int, is_target, is_type, judged, malloc_holds, option_goes};
ghost use Rattle.sc_types_elab_stmt.specs.Prelude.{pointer_to, result_goes, type_of_name};
ghost use Rattle.sc_types_elab_stmt.specs.Prelude.{return_call_holds, return_value_holds, simple_holds, typed, visible};
ghost use Rattle.std.specs.Option.{option_map};
ghost use Rattle.std.specs.Prelude.{◌≡◌, ◌&&◌, Some, IfOk};

use crate::stmt::{build_value, int_pointer};
use sc_ast::{CallTree, ExprTree, SimpleKind, TypeName};
use sc_base::{Name, OutOfMemory};
use sc_core::Ty;
use sc_types_elab_expr::{FunctionScope, Judged, SectionScope, build_expr, is_type, type_of_name};
use sqlite_items::Boxed;
use std::alloc::Global;

/// What is seen at a place of a function.
#[derive(Clone, Copy)]
pub struct Place<'a> {
    pub section: &'a SectionScope,
    pub function: &'a FunctionScope,
}

impl Place<'_> {
    // Whether a value goes into a place of this type.
    #[tactic(auto, unfolding(crate::specs::Seen::value_in))]
    fn goes(&self, alloc: Global, ty: Ty, value: &ExprTree) -> Result<bool, OutOfMemory>
        ensures { (scope : Scope) → Suits (visible self.now.section.now self.now.function.now) scope →
            IfOk result (λ goes.
            goes ≡ goes_in (visible self.now.section.now self.now.function.now) scope ty value.now) }
    {
        let value = build_value(alloc, self.section, self.function, ty, value)?;
        value.judged.goes_into(ty)
    }

    /// Whether a local of this type may begin with this (C11 6.7.9p11).
    pub fn may_begin(
        &self,
        alloc: Global,
        ty: Ty,
        init: &Option<Boxed<ExprTree>>,
    ) -> Result<bool, OutOfMemory>
        ensures { (scope : Scope) → Suits (visible self.now.section.now self.now.function.now) scope →
            IfOk result (λ holds. holds ≡ init_goes (visible self.now.section.now self.now.function.now) scope ty
            init.now) }
    {
        match init {
            None => Ok(true),
            Some(init) => self.goes(alloc, ty, init.get()),
        }
    }

    // Whether arguments go into parameters of these types (C11 6.5.2.2p2).
    #[tactic(auto, using(crate::proofs::Ruled::arguments))]
    fn all_go(&self, alloc: Global, params: &[Ty], args: &[ExprTree]) -> Result<bool, OutOfMemory>
        ensures { (scope : Scope) → Suits (visible self.now.section.now self.now.function.now) scope →
            IfOk result (λ holds. holds ≡ all_go (goes_in
            (visible self.now.section.now self.now.function.now) scope) params.now args.now) }
    {
        if params.len() != args.len() {
            return Ok(false);
        }
        for i in 0..params.len() {
            if !self.goes(alloc, params[i], &args[i])? {
                return Ok(false);
            }
        }
        Ok(true)
    }

    pub(crate) fn call_holds(&self, alloc: Global, call: &CallTree) -> Result<bool, OutOfMemory>
        ensures { (scope : Scope) → Suits (visible self.now.section.now self.now.function.now) scope →
            IfOk result (λ holds. holds ≡ call_holds (visible self.now.section.now self.now.function.now)
            (called self.now.section.now.callees) scope self.now.function.now.result call.now) }
    {
        match self.section.callees.signature(&call.name.name()) {
            None => Ok(false),
            Some(signature) => self.all_go(alloc, signature.params(), call.args.as_slice()),
        }
    }

    // Whether what is called by this name has a result that goes into a place of this type.
    fn result_goes(&self, name: &Name, ty: Ty) -> bool
        ensures { result ≡ result_goes ((called self.now.section.now.callees).signature name.now) ty }
    {
        match self.section.callees.signature(name) {
            None => false,
            Some(signature) => option_goes(signature.result(), ty),
        }
    }

    // Whether a call fits and its result goes into a place of this type.
    fn gives(&self, alloc: Global, call: &CallTree, ty: Ty) -> Result<bool, OutOfMemory>
        ensures { (scope : Scope) → Suits (visible self.now.section.now self.now.function.now) scope →
            IfOk result (λ holds. holds ≡ (call_holds (visible self.now.section.now self.now.function.now)
            (called self.now.section.now.callees) scope self.now.function.now.result call.now &&
            result_goes ((called self.now.section.now.callees).signature call.now.name) ty)) }
    {
        let fits = self.call_holds(alloc, call)?;
        Ok(fits && self.result_goes(&call.name.name(), ty))
    }

    pub(crate) fn assign_holds(
        &self,
        alloc: Global,
        place: &ExprTree,
        value: &ExprTree,
    ) -> Result<bool, OutOfMemory>
        ensures { (scope : Scope) → Suits (visible self.now.section.now self.now.function.now) scope →
            IfOk result (λ holds. holds ≡ assign_holds (visible self.now.section.now self.now.function.now)
            (called self.now.section.now.callees) scope self.now.function.now.result place.now value.now) }
    {
        let place = build_expr(alloc, self.section, self.function, place)?;
        let goes = self.goes(alloc, place.expr.ty, value)?;
        Ok(takes(place.judged, goes))
    }

    pub(crate) fn assign_call_holds(
        &self,
        alloc: Global,
        place: &ExprTree,
        call: &CallTree,
    ) -> Result<bool, OutOfMemory>
        ensures { (scope : Scope) → Suits (visible self.now.section.now self.now.function.now) scope →
            IfOk result (λ holds. holds ≡ assign_call_holds (visible self.now.section.now self.now.function.now)
            (called self.now.section.now.callees) scope self.now.function.now.result place.now call.now) }
    {
        let place = build_expr(alloc, self.section, self.function, place)?;
        let gives = self.gives(alloc, call, place.expr.ty)?;
        Ok(takes(place.judged, gives))
    }

    fn is_int(&self, alloc: Global, expr: &ExprTree) -> Result<bool, OutOfMemory>
        ensures { (scope : Scope) → Suits (visible self.now.section.now self.now.function.now) scope →
            IfOk result (λ holds. holds ≡ is_int (judged scope
            (typed (visible self.now.section.now self.now.function.now) expr.now))) }
    {
        let built = build_expr(alloc, self.section, self.function, expr)?;
        Ok(built.judged.is_int())
    }

    // Whether that number of elements may be allocated.
    fn counts(&self, alloc: Global, count: &Option<Boxed<ExprTree>>) -> Result<bool, OutOfMemory>
        ensures { (scope : Scope) → Suits (visible self.now.section.now self.now.function.now) scope →
            IfOk result (λ holds. holds ≡ count_fits (option_map (judged scope) (option_map
            (typed (visible self.now.section.now self.now.function.now)) count.now))) }
    {
        match count {
            None => Ok(true),
            Some(count) => self.is_int(alloc, count.get()),
        }
    }

    // Whether a number of elements of a type may be allocated for a place of type `ty`.
    fn allocates(
        &self,
        alloc: Global,
        ty: Ty,
        count: &Option<Boxed<ExprTree>>,
        of: &TypeName,
    ) -> Result<bool, OutOfMemory>
        ensures { (scope : Scope) → Suits (visible self.now.section.now self.now.function.now) scope →
            IfOk result (λ holds. holds ≡ (is_type (pointer_to (type_of_name self.now.section.now.tags of.now)) ty &&
            count_fits (option_map (judged scope) (option_map
            (typed (visible self.now.section.now self.now.function.now)) count.now)))) }
    {
        let pointer = type_of_name(&self.section.tags, of).pointer_to()?;
        let counts = self.counts(alloc, count)?;
        Ok(is_type(pointer, ty) && counts)
    }

    /// Whether elements of a type may be allocated for a place (C11 7.22.3.4).
    pub(crate) fn malloc_holds(
        &self,
        alloc: Global,
        place: &ExprTree,
        count: &Option<Boxed<ExprTree>>,
        of: &TypeName,
    ) -> Result<bool, OutOfMemory>
        ensures { (scope : Scope) → Suits (visible self.now.section.now self.now.function.now) scope →
            IfOk result (λ holds. holds ≡ malloc_holds (visible self.now.section.now self.now.function.now)
            (called self.now.section.now.callees) scope self.now.function.now.result place.now count.now of.now) }
    {
        let place = build_expr(alloc, self.section, self.function, place)?;
        let goes = self.allocates(alloc, place.expr.ty, count, of)?;
        Ok(takes(place.judged, goes))
    }

    /// Whether this may be freed (C11 7.22.3.3).
    pub(crate) fn free_holds(&self, alloc: Global, pointer: &ExprTree) -> Result<bool, OutOfMemory>
        ensures { (scope : Scope) → Suits (visible self.now.section.now self.now.function.now) scope →
            IfOk result (λ holds. holds ≡ free_holds (visible self.now.section.now self.now.function.now)
            (called self.now.section.now.callees) scope self.now.function.now.result pointer.now) }
    {
        let pointer = build_value(alloc, self.section, self.function, int_pointer(), pointer)?;
        Ok(pointer.judged.points())
    }

    /// Whether this is a condition.
    pub(crate) fn cond_holds(&self, alloc: Global, cond: &ExprTree) -> Result<bool, OutOfMemory>
        ensures { (scope : Scope) → Suits (visible self.now.section.now self.now.function.now) scope →
            IfOk result (λ holds. holds ≡ cond_holds (visible self.now.section.now self.now.function.now)
            (called self.now.section.now.callees) scope self.now.function.now.result cond.now) }
    {
        let cond = build_expr(alloc, self.section, self.function, cond)?;
        Ok(cond.judged.is_scalar())
    }

    /// Whether a value may be returned (C11 6.8.6.4).
    pub(crate) fn return_value_holds(
        &self,
        alloc: Global,
        value: &ExprTree,
    ) -> Result<bool, OutOfMemory>
        ensures { (scope : Scope) → Suits (visible self.now.section.now self.now.function.now) scope →
            IfOk result (λ holds. holds ≡ return_value_holds (visible self.now.section.now self.now.function.now)
            (called self.now.section.now.callees) scope self.now.function.now.result value.now) }
    {
        match self.function.result {
            None => Ok(false),
            Some(ty) => self.goes(alloc, ty, value),
        }
    }

    /// Whether a call's result may be returned.
    pub(crate) fn return_call_holds(
        &self,
        alloc: Global,
        call: &CallTree,
    ) -> Result<bool, OutOfMemory>
        ensures { (scope : Scope) → Suits (visible self.now.section.now self.now.function.now) scope →
            IfOk result (λ holds. holds ≡ return_call_holds (visible self.now.section.now self.now.function.now)
            (called self.now.section.now.callees) scope self.now.function.now.result self.now.function.now.result
            call.now) }
    {
        match self.function.result {
            None => Ok(false),
            Some(ty) => self.gives(alloc, call, ty),
        }
    }

    /// Whether a statement that may stand in the head of a `for` keeps the rules.
    pub(crate) fn simple_holds(
        &self,
        alloc: Global,
        simple: &SimpleKind,
    ) -> Result<bool, OutOfMemory>
        ensures { (scope : Scope) → Suits (visible self.now.section.now self.now.function.now) scope →
            IfOk result (λ holds. holds ≡ simple_holds (visible self.now.section.now self.now.function.now)
            (called self.now.section.now.callees) scope self.now.function.now.result simple.now) }
    {
        match simple {
            SimpleKind::Assign { place, value } => self.assign_holds(
                alloc,
                place.get(),
                value.get(),
            ),
            SimpleKind::AssignCall { place, call } => {
                self.assign_call_holds(alloc, place.get(), call.get())
            }
            SimpleKind::Call(call) => self.call_holds(alloc, call.get()),
            SimpleKind::Malloc { place, count, of } => {
                self.malloc_holds(alloc, place.get(), count, of.get())
            }
            SimpleKind::Free(pointer) => self.free_holds(alloc, pointer.get()),
        }
    }
}

fn option_goes(value: Option<Ty>, place: Ty) -> bool
    ensures { result ≡ option_goes value place }
{
    match value {
        None => false,
        Some(value) => value.goes_into(place),
    }
}

// Whether a place can be stored to, and what is stored goes there.
fn takes(place: Judged, goes: bool) -> bool
    ensures { result ≡ (is_target place && goes) }
{
    place.is_target() && goes
}
