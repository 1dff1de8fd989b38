ghost use Rattle.sc_types_elab_stmt.specs.Prelude.{Scope, Suits, args_in, call_in, called, count_in, expr_in};
ghost use Rattle.sc_types_elab_stmt.specs.Prelude.{first_of, going_to_some, int_pointer, judged, kind_in};
ghost use Rattle.sc_types_elab_stmt.specs.Prelude.{params_called, part_in, rest_of};
ghost use Rattle.sc_types_elab_stmt.specs.Prelude.{returned_in, simple_in, stmt_in, value_in, visible};
ghost use Rattle.std.specs.Prelude.{◌≡◌, ◌++◌, ◌∷◌, [], map, drop, IfOk};
ghost use Rattle.sc_ast.specs.declared.stmt.StmtKind;
ghost use Rattle.sc_core.specs.declared.stmt.TypedStmtKind;

use sc_ast::{
    CallTree, ExprTree, PlaceTree, SimpleKind, SimpleTree, StmtKind, StmtTree, Stmts, TypeName,
};
use sc_base::{Name, OutOfMemory};
use sc_core::{
    BaseTy, Ty, TypedCall, TypedExpr, TypedExprs, TypedPlace, TypedSimple, TypedSimpleKind,
    TypedStmt, TypedStmtKind, TypedStmts,
};
use sc_types_elab_expr::{
    Built, Callees, FunctionScope, SectionScope, Signature, build_expr, cells_under, going_to,
};
use sqlite_items::{Boxed, Items};
use std::alloc::Global;

// A place with its types.
#[tactic(auto, using(crate::proofs::Kept::place_kept))]
fn build_place(
    alloc: Global,
    section: &SectionScope,
    function: &FunctionScope,
    place: &PlaceTree,
) -> Result<TypedPlace, OutOfMemory>
    ensures { IfOk result (λ built. built ≡ expr_in section.now function.now place.now) }
{
    let built = build_expr(alloc, section, function, place.get())?;
    match TypedPlace::new(Boxed::new(alloc, built.expr)?) {
        Ok(place) => Ok(place),
        Err(built) => {
            drop(built);
            unreachable!()
        }
    }
}

/// A value on its way to a place of this type.
#[tactic(auto, unfolding(sc_types_elab_expr::specs::Seen::expr_in, crate::specs::Seen::value_in))]
pub fn build_value(
    alloc: Global,
    section: &SectionScope,
    function: &FunctionScope,
    place: Ty,
    value: &ExprTree,
) -> Result<Built, OutOfMemory>
    ensures expr { IfOk result (λ built. built.expr ≡ value_in section.now function.now place value.now) }
    ensures judged { (scope : Scope) → Suits (visible section.now function.now) scope →
        IfOk result (λ built. built.judged ≡ judged scope built.expr) }
{
    let value = build_expr(alloc, section, function, value)?;
    going_to(place, value)
}

fn going_to_some(place: Option<Ty>, built: Built) -> Result<TypedExpr, OutOfMemory>
    ensures { IfOk result (λ going. going ≡ going_to_some place built.expr) }
{
    match place {
        None => Ok(built.expr),
        Some(place) => {
            let built = going_to(place, built)?;
            Ok(built.expr)
        }
    }
}

// The type of the first parameter, if there is one, and those of the others.
fn next_param(params: &[Ty]) -> (Option<Ty>, &[Ty])
    ensures first { result.0 ≡ first_of params.now }
    ensures rest { result.1.now ≡ rest_of params.now }
{
    match params.split_first() {
        None => (None, params),
        Some((first, rest)) => (Some(*first), rest),
    }
}

// Arguments on their way to parameters of these types.
fn build_args(
    alloc: Global,
    section: &SectionScope,
    function: &FunctionScope,
    params: &[Ty],
    args: &[ExprTree],
) -> Result<TypedExprs, OutOfMemory>
    ensures { IfOk result (λ built. built ≡ args_in section.now function.now params.now args.now) }
{
    let mut built = Items::new(alloc);
    let mut left = params;
    for arg in args {
        let arg = build_expr(alloc, section, function, arg)?;
        let (param, rest) = next_param(left);
        built.push(going_to_some(param, arg)?)?;
        left = rest;
    }
    Ok(built)
}

// The types of the parameters by which a call of this name is typed.
fn params_of<'a>(callees: &'a Callees, name: &Name) -> &'a [Ty]
    ensures { result.now ≡ params_called ((called callees.now).signature name.now) }
{
    match callees.signature(name) {
        None => &[],
        Some(signature) => signature.params(),
    }
}

#[tactic(auto, using(crate::proofs::Statements::call_is))]
fn build_call(
    alloc: Global,
    section: &SectionScope,
    function: &FunctionScope,
    call: &CallTree,
) -> Result<Boxed<TypedCall>, OutOfMemory>
    ensures { IfOk result (λ built. built ≡ call_in section.now function.now call.now) }
{
    let name = call.name.name();
    let params = params_of(&section.callees, &name);
    let args = build_args(alloc, section, function, params, call.args.as_slice())?;
    let target = section.callees.target(&name);
    Ok(Boxed::new(alloc, TypedCall { target, args })?)
}

// The parts of an assignment.
fn build_assign(
    alloc: Global,
    section: &SectionScope,
    function: &FunctionScope,
    place: &PlaceTree,
    value: &ExprTree,
) -> Result<(TypedPlace, Boxed<TypedExpr>), OutOfMemory>
    ensures place { IfOk result (λ built. built.0 ≡ expr_in section.now function.now place.now) }
    ensures value { IfOk result (λ built. built.1 ≡ value_in section.now function.now
        (expr_in section.now function.now place.now).ty value.now) }
{
    let place = build_place(alloc, section, function, place)?;
    let value = build_value(alloc, section, function, place.get().ty, value)?;
    Ok((place, Boxed::new(alloc, value.expr)?))
}

// The parts of an assignment of a call.
fn build_assign_call(
    alloc: Global,
    section: &SectionScope,
    function: &FunctionScope,
    place: &PlaceTree,
    call: &CallTree,
) -> Result<(TypedPlace, Boxed<TypedCall>), OutOfMemory>
    ensures place { IfOk result (λ built. built.0 ≡ expr_in section.now function.now place.now) }
    ensures call { IfOk result (λ built. built.1 ≡ call_in section.now function.now call.now) }
{
    let place = build_place(alloc, section, function, place)?;
    let call = build_call(alloc, section, function, call)?;
    Ok((place, call))
}

// How many elements are allocated, where it stands.
#[tactic(auto, using(crate::proofs::Statements::count_forms))]
fn build_count(
    alloc: Global,
    section: &SectionScope,
    function: &FunctionScope,
    count: &Option<Boxed<ExprTree>>,
) -> Result<Option<Boxed<TypedExpr>>, OutOfMemory>
    ensures { IfOk result (λ built. built ≡ count_in section.now function.now count.now) }
{
    match count {
        None => Ok(None),
        Some(count) => {
            let count = build_expr(alloc, section, function, count.get())?;
            Ok(Some(Boxed::new(alloc, count.expr)?))
        }
    }
}

// The place and the count of an allocation.
fn build_malloc(
    alloc: Global,
    section: &SectionScope,
    function: &FunctionScope,
    place: &PlaceTree,
    count: &Option<Boxed<ExprTree>>,
) -> Result<(TypedPlace, Option<Boxed<TypedExpr>>), OutOfMemory>
    ensures place { IfOk result (λ built. built.0 ≡ expr_in section.now function.now place.now) }
    ensures count { IfOk result (λ built. built.1 ≡ count_in section.now function.now count.now) }
{
    let place = build_place(alloc, section, function, place)?;
    let count = build_count(alloc, section, function, count)?;
    Ok((place, count))
}

/// The type of a null pointer that is freed.
pub fn int_pointer() -> Ty
    ensures { result ≡ int_pointer }
{
    Ty::Pointer {
        stars: 1,
        base: BaseTy::Int,
    }
}

#[tactic(auto, using(crate::proofs::Statements::simple_forms))]
fn build_simple_kind(
    alloc: Global,
    section: &SectionScope,
    function: &FunctionScope,
    kind: &SimpleKind,
) -> Result<TypedSimpleKind, OutOfMemory>
    ensures { IfOk result (λ built. built ≡ simple_in section.now function.now kind.now) }
{
    match kind {
        SimpleKind::Assign { place, value } => {
            let (place, value) = build_assign(alloc, section, function, place, value.get())?;
            Ok(TypedSimpleKind::Assign { place, value })
        }
        SimpleKind::AssignCall { place, call } => {
            let (place, call) = build_assign_call(alloc, section, function, place, call.get())?;
            Ok(TypedSimpleKind::AssignCall { place, call })
        }
        SimpleKind::Call(call) => {
            let call = build_call(alloc, section, function, call.get())?;
            Ok(TypedSimpleKind::Call(call))
        }
        SimpleKind::Malloc { place, count, of } => {
            let (place, count) = build_malloc(alloc, section, function, place, count)?;
            let cells = cells_under(&section.tags, &section.structs, of.get());
            Ok(TypedSimpleKind::Malloc {
                place,
                count,
                cells,
            })
        }
        SimpleKind::Free(pointer) => {
            let pointer = build_value(alloc, section, function, int_pointer(), pointer.get())?;
            Ok(TypedSimpleKind::Free(Boxed::new(alloc, pointer.expr)?))
        }
    }
}

// A statement in the head of a `for`, if it is there.
#[tactic(auto, using(crate::proofs::Statements::part_forms))]
fn build_part(
    alloc: Global,
    section: &SectionScope,
    function: &FunctionScope,
    part: &Option<Boxed<SimpleTree>>,
) -> Result<Option<Boxed<TypedSimple>>, OutOfMemory>
    ensures { IfOk result (λ built. built ≡ part_in section.now function.now part.now) }
{
    match part {
        None => Ok(None),
        Some(simple) => {
            let simple = simple.get();
            let kind = build_simple_kind(alloc, section, function, &simple.kind)?;
            let line = simple.line;
            Ok(Some(Boxed::new(alloc, TypedSimple { line, kind })?))
        }
    }
}

// A value on its way out of the function.
#[tactic(auto, using(crate::proofs::Statements::returned_is))]
fn build_returned(
    alloc: Global,
    section: &SectionScope,
    function: &FunctionScope,
    value: &ExprTree,
) -> Result<TypedExpr, OutOfMemory>
    ensures { IfOk result (λ built. built ≡ returned_in section.now function.now value.now) }
{
    let value = build_expr(alloc, section, function, value)?;
    going_to_some(function.result, value)
}

// An assignment as a statement.
#[tactic(auto, using(crate::proofs::Statements::kind_assign))]
fn assign_kind(
    alloc: Global,
    section: &SectionScope,
    function: &FunctionScope,
    place: &PlaceTree,
    value: &ExprTree,
) -> Result<TypedStmtKind, OutOfMemory>
    ensures { IfOk result (λ built. built ≡ kind_in section.now function.now (StmtKind.Assign place.now value.now)) }
{
    let (place, value) = build_assign(alloc, section, function, place, value)?;
    Ok(TypedStmtKind::Assign { place, value })
}

// An assignment of a call as a statement.
#[tactic(auto, using(crate::proofs::Statements::kind_assign_call))]
fn assign_call_kind(
    alloc: Global,
    section: &SectionScope,
    function: &FunctionScope,
    place: &PlaceTree,
    call: &CallTree,
) -> Result<TypedStmtKind, OutOfMemory>
    ensures { IfOk result (λ built. built ≡ kind_in section.now function.now (StmtKind.AssignCall place.now call.now)) }
{
    let (place, call) = build_assign_call(alloc, section, function, place, call)?;
    Ok(TypedStmtKind::AssignCall { place, call })
}

// A call as a statement.
#[tactic(auto, using(crate::proofs::Statements::kind_call))]
fn call_kind(
    alloc: Global,
    section: &SectionScope,
    function: &FunctionScope,
    call: &CallTree,
) -> Result<TypedStmtKind, OutOfMemory>
    ensures { IfOk result (λ built. built ≡ kind_in section.now function.now (StmtKind.Call call.now)) }
{
    let call = build_call(alloc, section, function, call)?;
    Ok(TypedStmtKind::Call(call))
}

// An allocation as a statement.
#[tactic(auto, using(crate::proofs::Statements::kind_malloc))]
fn malloc_kind(
    alloc: Global,
    section: &SectionScope,
    function: &FunctionScope,
    place: &PlaceTree,
    count: &Option<Boxed<ExprTree>>,
    of: &TypeName,
) -> Result<TypedStmtKind, OutOfMemory>
    ensures { IfOk result (λ built. built ≡
        kind_in section.now function.now (StmtKind.Malloc place.now count.now of.now)) }
{
    let (place, count) = build_malloc(alloc, section, function, place, count)?;
    let cells = cells_under(&section.tags, &section.structs, of);
    Ok(TypedStmtKind::Malloc {
        place,
        count,
        cells,
    })
}

// A `free` as a statement.
#[tactic(auto, using(crate::proofs::Statements::kind_free))]
fn free_kind(
    alloc: Global,
    section: &SectionScope,
    function: &FunctionScope,
    pointer: &ExprTree,
) -> Result<TypedStmtKind, OutOfMemory>
    ensures { IfOk result (λ built. built ≡ kind_in section.now function.now (StmtKind.Free pointer.now)) }
{
    let pointer = build_value(alloc, section, function, int_pointer(), pointer)?;
    Ok(TypedStmtKind::Free(Boxed::new(alloc, pointer.expr)?))
}

// A call whose result is returned.
#[tactic(auto, using(crate::proofs::Statements::kind_return_call))]
fn return_call_kind(
    alloc: Global,
    section: &SectionScope,
    function: &FunctionScope,
    call: &CallTree,
) -> Result<TypedStmtKind, OutOfMemory>
    ensures { IfOk result (λ built. built ≡ kind_in section.now function.now (StmtKind.ReturnCall call.now)) }
{
    let call = build_call(alloc, section, function, call)?;
    Ok(TypedStmtKind::ReturnCall(call))
}

// A value that is returned.
#[tactic(auto, using(crate::proofs::Statements::kind_return_value))]
fn return_value_kind(
    alloc: Global,
    section: &SectionScope,
    function: &FunctionScope,
    value: &ExprTree,
) -> Result<TypedStmtKind, OutOfMemory>
    ensures { IfOk result (λ built. built ≡ kind_in section.now function.now (StmtKind.ReturnValue value.now)) }
{
    let value = build_returned(alloc, section, function, value)?;
    Ok(TypedStmtKind::ReturnValue(Boxed::new(alloc, value)?))
}

// An `if` over what its parts do.
fn if_kind(
    alloc: Global,
    section: &SectionScope,
    function: &FunctionScope,
    cond: &ExprTree,
    then_part: TypedStmts,
    else_part: TypedStmts,
) -> Result<TypedStmtKind, OutOfMemory>
    ensures { IfOk result (λ built. built ≡ TypedStmtKind.If
        (expr_in section.now function.now cond.now) then_part else_part) }
{
    let cond = build_expr(alloc, section, function, cond)?;
    Ok(TypedStmtKind::If {
        cond: Boxed::new(alloc, cond.expr)?,
        then_part,
        else_part,
    })
}

// A `while` over its body.
fn while_kind(
    alloc: Global,
    section: &SectionScope,
    function: &FunctionScope,
    cond: &ExprTree,
    body: TypedStmts,
) -> Result<TypedStmtKind, OutOfMemory>
    ensures { IfOk result (λ built. built ≡ TypedStmtKind.While (expr_in section.now function.now cond.now) body) }
{
    let cond = build_expr(alloc, section, function, cond)?;
    Ok(TypedStmtKind::While {
        cond: Boxed::new(alloc, cond.expr)?,
        body,
    })
}

// A `for` over its body.
fn for_kind(
    alloc: Global,
    section: &SectionScope,
    function: &FunctionScope,
    first: &Option<Boxed<SimpleTree>>,
    cond: &ExprTree,
    next: &Option<Boxed<SimpleTree>>,
    body: TypedStmts,
) -> Result<TypedStmtKind, OutOfMemory>
    ensures { IfOk result (λ built. built ≡ TypedStmtKind.For (part_in section.now function.now first.now)
        (expr_in section.now function.now cond.now) (part_in section.now function.now next.now) body) }
{
    let first = build_part(alloc, section, function, first)?;
    let cond = build_expr(alloc, section, function, cond)?;
    let next = build_part(alloc, section, function, next)?;
    Ok(TypedStmtKind::For {
        first,
        cond: Boxed::new(alloc, cond.expr)?,
        next,
        body,
    })
}

/// Statements with their types.
#[cycle(stmt)]
pub fn build_stmts(
    alloc: Global,
    section: &SectionScope,
    function: &FunctionScope,
    stmts: &Stmts,
) -> Result<TypedStmts, OutOfMemory>
    ensures { IfOk result (λ built. built ≡ map (stmt_in section.now function.now) stmts.now) }
{
    let mut built = Items::new(alloc);
    for stmt in stmts.as_slice() {
        built.push(build_stmt(alloc, section, function, stmt)?)?;
    }
    Ok(built)
}

#[cycle(stmt)]
#[tactic(auto, using(crate::proofs::Statements::stmt_is))]
fn build_stmt(
    alloc: Global,
    section: &SectionScope,
    function: &FunctionScope,
    stmt: &StmtTree,
) -> Result<TypedStmt, OutOfMemory>
    ensures { IfOk result (λ built. built ≡ stmt_in section.now function.now stmt.now) }
{
    let kind = build_kind(alloc, section, function, &stmt.kind)?;
    Ok(TypedStmt {
        line: stmt.line,
        kind,
    })
}

#[cycle(stmt)]
#[tactic(auto, using(crate::proofs::Statements::kind_forms))]
fn build_kind(
    alloc: Global,
    section: &SectionScope,
    function: &FunctionScope,
    kind: &StmtKind,
) -> Result<TypedStmtKind, OutOfMemory>
    ensures { IfOk result (λ built. built ≡ kind_in section.now function.now kind.now) }
{
    match kind {
        StmtKind::Empty => Ok(TypedStmtKind::Empty),
        StmtKind::Assign { place, value } => assign_kind(
            alloc,
            section,
            function,
            place,
            value.get(),
        ),
        StmtKind::AssignCall { place, call } => {
            assign_call_kind(alloc, section, function, place, call.get())
        }
        StmtKind::Call(call) => call_kind(alloc, section, function, call.get()),
        StmtKind::Malloc { place, count, of } => {
            malloc_kind(alloc, section, function, place, count, of.get())
        }
        StmtKind::Free(pointer) => free_kind(alloc, section, function, pointer.get()),
        StmtKind::If {
            cond,
            then_part,
            else_part,
        } => {
            let then_part = build_stmts(alloc, section, function, then_part)?;
            let else_part = build_stmts(alloc, section, function, else_part)?;
            if_kind(alloc, section, function, cond.get(), then_part, else_part)
        }
        StmtKind::While { cond, body } => {
            let body = build_stmts(alloc, section, function, body)?;
            while_kind(alloc, section, function, cond.get(), body)
        }
        StmtKind::For {
            first,
            cond,
            next,
            body,
        } => {
            let body = build_stmts(alloc, section, function, body)?;
            for_kind(alloc, section, function, first, cond.get(), next, body)
        }
        StmtKind::Break => Ok(TypedStmtKind::Break),
        StmtKind::Continue => Ok(TypedStmtKind::Continue),
        StmtKind::Return => Ok(TypedStmtKind::Return),
        StmtKind::ReturnValue(value) => return_value_kind(alloc, section, function, value.get()),
        StmtKind::ReturnCall(call) => return_call_kind(alloc, section, function, call.get()),
    }
}
