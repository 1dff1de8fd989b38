//! Plans of expressions and assignments: made once, before a loop, and followed in each of its rounds without a walk
//! of the tree.

ghost use Rattle.sc_run_value.specs.Prelude.{Ptr, Word, bind, c_arith, here_of, is_pointer, memory_of, moved_on, ways};
ghost use Rattle.sc_run_value.specs.Assigning.{AssignedIf, HoldsIf};
ghost use Rattle.sc_run_value.specs.Plans.{IsOperandOf, IsPlanOf, IsTargetOf, is_choice, operand_value, plan_value};
ghost use Rattle.sc_run_value.specs.Plans.{target_place};
ghost use Rattle.std.specs.Prelude.{◌≡◌, IfSome, Ok, false};
ghost use Rattle.sc_core.specs.declared.value.Want.TheVariants as want;

use crate::Scope;
use crate::at_once::{holds, is_assigned, is_stored};
use crate::elements::{array_block, block_of, element_index};
use crate::quick::of_two;
use sc_base::BinaryOp;
use sc_blocks::{Blocks, Row};
use sc_core::{Pointer, Ty, TypedExpr, TypedKind, Value, is_unsigned_op, target_cells};

/// A word, or a variable of an integer type by the number of its block.
#[derive(Clone, Copy)]
pub enum Operand {
    Word(u32),
    Variable(u64),
}

/// How the word of an expression is found.
#[derive(Clone, Copy)]
pub enum Plan {
    /// By its tree.
    Tree,
    Leaf(Operand),
    Two {
        op: BinaryOp,
        unsigned: bool,
        left: Operand,
        right: Operand,
    },
}

/// How the place of an expression is found.
#[derive(Clone, Copy)]
pub enum Target {
    /// By its tree.
    Tree,
    /// It is a variable, by the number of its block.
    Variable(u64),
    /// It is an element of the array that a block is, by the cells of an element and the index.
    Element {
        block: u64,
        cells: u32,
        unsigned: bool,
        index: Plan,
    },
}

/// How an assignment is done.
#[derive(Clone, Copy)]
pub struct Assignment<'a> {
    pub place: &'a TypedExpr,
    pub value: &'a TypedExpr,
    pub target: Target,
    pub plan: Plan,
}

// A literal, or a variable of an integer type. None of another expression.
fn operand_of(scope: &Scope, expr: &TypedExpr) -> Option<Operand>
    ensures value { IfSome result (λ operand. IsOperandOf operand
        (ways c_arith scope.now.structs.now (here_of scope.now) scope.now.params expr.now)) }
    ensures integer { IfSome result (λ operand. is_pointer expr.now.ty ≡ false) }
{
    match &expr.kind {
        TypedKind::Literal { value } => {
            if expr.ty.is_pointer() {
                return None;
            }
            Some(Operand::Word(*value))
        }
        TypedKind::Variable(name) => match expr.ty {
            Ty::Int => Some(Operand::Variable(block_of(scope, *name))),
            Ty::Unsigned => Some(Operand::Variable(block_of(scope, *name))),
            _ => None,
        },
        _ => None,
    }
}

// Whether an operator may need no second operand.
fn is_choice(op: BinaryOp) -> bool
    ensures { result ≡ is_choice op }
{
    match op {
        BinaryOp::AndAlso => true,
        BinaryOp::OrElse => true,
        _ => false,
    }
}

/// A plan of an expression.
pub fn plan_of(scope: &Scope, expr: &TypedExpr) -> Plan
    ensures { IsPlanOf result
        (ways c_arith scope.now.structs.now (here_of scope.now) scope.now.params expr.now) }
{
    if let Some(operand) = operand_of(scope, expr) {
        return Plan::Leaf(operand);
    }
    let TypedKind::Binary { op, left, right } = &expr.kind else {
        return Plan::Tree;
    };
    if is_choice(*op) {
        return Plan::Tree;
    }
    let Some(first) = operand_of(scope, left.get()) else {
        return Plan::Tree;
    };
    let Some(second) = operand_of(scope, right.get()) else {
        return Plan::Tree;
    };
    Plan::Two {
        op: *op,
        unsigned: is_unsigned_op(*op, left.get().ty, right.get().ty),
        left: first,
        right: second,
    }
}

// How the place of an expression is found.
fn target_of(scope: &Scope, expr: &TypedExpr) -> Target
    ensures { IsTargetOf result (ways c_arith scope.now.structs.now (here_of scope.now) scope.now.params expr.now) }
{
    match &expr.kind {
        TypedKind::Variable(name) => Target::Variable(block_of(scope, *name)),
        TypedKind::Index { base, index } => match array_block(scope, base.get()) {
            None => Target::Tree,
            Some(block) => Target::Element {
                block,
                cells: target_cells(scope.structs, base.get().ty),
                unsigned: index.get().ty.is_unsigned(),
                index: plan_of(scope, index.get()),
            },
        },
        _ => Target::Tree,
    }
}

/// A plan of an assignment.
pub fn assignment_of<'a>(
    scope: &Scope,
    place: &'a TypedExpr,
    value: &'a TypedExpr,
) -> Assignment<'a>
    ensures place { result.place.now ≡ place.now }
    ensures value { result.value.now ≡ value.now }
    ensures target { IsTargetOf result.target
        (ways c_arith scope.now.structs.now (here_of scope.now) scope.now.params place.now) }
    ensures plan { IsPlanOf result.plan
        (ways c_arith scope.now.structs.now (here_of scope.now) scope.now.params value.now) }
{
    Assignment {
        place,
        value,
        target: target_of(scope, place),
        plan: plan_of(scope, value),
    }
}

// The word of an operand, where it holds one.
#[inline(always)]
fn operand_word(row: &Row, operand: Operand) -> Option<u32>
    ensures { IfSome result (λ word. operand_value operand row.now ≡ Ok (Word word)) }
{
    match operand {
        Operand::Word(word) => Some(word),
        Operand::Variable(block) => row.word(block as usize, 0),
    }
}

// The word that a plan gives.
#[inline(always)]
fn plan_word(row: &Row, plan: &Plan) -> Option<u32>
    ensures { IfSome result (λ word. plan_value plan.now row.now ≡ Ok (Word word)) }
{
    match *plan {
        Plan::Tree => None,
        Plan::Leaf(operand) => operand_word(row, operand),
        Plan::Two {
            op,
            unsigned,
            left,
            right,
        } => {
            let first = operand_word(row, left)?;
            let second = operand_word(row, right)?;
            of_two(unsigned, op, first, second)
        }
    }
}

// The cell with which an element begins, by the plan of its index.
#[inline(never)]
fn index_by(row: &Row, block: u64, cells: u32, unsigned: bool, index: &Plan) -> Option<u32>
    ensures { IfSome result (λ found. bind (plan_value index.now row.now) (moved_on row.now cells unsigned
        (Ptr (record { block = block; index = 0 }))) ≡ Ok (Ptr (record { block = block; index = found }))) }
{
    let word = plan_word(row, index)?;
    element_index(row, block, cells, unsigned, word)
}

// The place that a target gives.
#[inline(always)]
fn place_by(row: &Row, target: &Target) -> Option<Pointer>
    ensures { IfSome result (λ place. target_place target.now row.now ≡ Ok (Ptr place)) }
{
    match target {
        Target::Tree => None,
        Target::Variable(block) => Some(Pointer {
            block: *block,
            index: 0,
        }),
        Target::Element {
            block,
            cells,
            unsigned,
            index,
        } => {
            let index = index_by(row, *block, *cells, *unsigned, index)?;
            Some(Pointer {
                block: *block,
                index,
            })
        }
    }
}

// The place and the word of an assignment, by its plan.
#[inline(always)]
fn found_by(blocks: &Blocks, scope: &Scope, assignment: &Assignment) -> Option<(Pointer, u32)>
    ensures place { IfSome result (λ found.
        target_place assignment.now.target (memory_of blocks.now scope.now.comp.now) ≡ Ok (Ptr found.0)) }
    ensures word { IfSome result (λ found.
        plan_value assignment.now.plan (memory_of blocks.now scope.now.comp.now) ≡ Ok (Word found.1)) }
{
    let row = blocks.row(*scope.comp)?;
    let word = plan_word(row, &assignment.plan)?;
    let place = place_by(row, &assignment.target)?;
    Some((place, word))
}

// The word of an expression by its plan.
#[inline(always)]
fn planned_word(blocks: &Blocks, scope: &Scope, plan: &Plan, expr: &TypedExpr) -> Option<u32>
    requires { IsPlanOf plan.now
        (ways c_arith scope.now.structs.now (here_of scope.now) scope.now.params expr.now) }
    ensures { IfSome result (λ word. ways c_arith scope.now.structs.now (here_of scope.now) scope.now.params expr.now
        want.Value (memory_of blocks.now scope.now.comp.now) ≡ Ok (Word word)) }
{
    let row = blocks.row(*scope.comp)?;
    plan_word(row, plan)
}

/// Whether a condition of which there is a plan is known to hold.
#[inline(always)]
pub fn holds_by(blocks: &Blocks, scope: &Scope, plan: &Plan, cond: &TypedExpr) -> bool
    requires { IsPlanOf plan.now
        (ways c_arith scope.now.structs.now (here_of scope.now) scope.now.params cond.now) }
    ensures { HoldsIf result (ways c_arith scope.now.structs.now (here_of scope.now) scope.now.params cond.now)
        (memory_of blocks.now scope.now.comp.now) }
{
    match planned_word(blocks, scope, plan, cond) {
        Some(word) => word != 0,
        None => holds(blocks, scope, cond),
    }
}

/// Does an assignment of which there is a plan, or nothing.
#[inline(always)]
pub fn is_assigned_by(blocks: &mut Blocks, scope: &Scope, assignment: &Assignment) -> bool
    requires target { IsTargetOf assignment.now.target
        (ways c_arith scope.now.structs.now (here_of scope.now) scope.now.params assignment.now.place.now) }
    requires plan { IsPlanOf assignment.now.plan
        (ways c_arith scope.now.structs.now (here_of scope.now) scope.now.params assignment.now.value.now) }
    ensures { AssignedIf result scope.now.comp.now
        (ways c_arith scope.now.structs.now (here_of scope.now) scope.now.params assignment.now.place.now)
        (ways c_arith scope.now.structs.now (here_of scope.now) scope.now.params assignment.now.value.now)
        (memory_of blocks.old) (memory_of blocks.new) }
{
    let Some(found) = found_by(blocks, scope, assignment) else {
        return is_assigned(blocks, scope, assignment.place, assignment.value);
    };
    let (place, word) = found;
    is_stored(blocks, *scope.comp, Value::Ptr(place), Value::Word(word))
}
