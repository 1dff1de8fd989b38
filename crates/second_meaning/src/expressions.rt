//! What expressions give (C11 6.5).
use crate::memory::Memory;
use crate::{pointers, words};
use sc_base::BinaryOp;
use sc_core::{
    Cause, Pointer, Ty, TypedExpr, TypedKind, TypedStruct, Value, VarRef, Want, is_unsigned_op,
    target_cells,
};
use sc_event::CompId;

/// A call that is open: its compartment, and the numbers of its first global, parameter and local.
#[derive(Drop)]
pub(crate) struct Frame {
    pub comp: CompId,
    pub globals: usize,
    pub params: usize,
    pub locals: usize,
}

impl Frame {
    /// The place of the local of this number.
    pub(crate) fn local(&self, number: usize) -> Value {
        Value::Ptr(Pointer {
            block: self.locals.wrapping_add(number) as u64,
            index: 0,
        })
    }

    /// The place of a variable.
    pub(crate) fn place(&self, variable: VarRef) -> Value {
        let number = match variable {
            VarRef::Global(number) => self.globals.wrapping_add(number as usize),
            VarRef::Param(number) => self.params.wrapping_add(number as usize),
            VarRef::Local(number) => self.locals.wrapping_add(number as usize),
        };
        Value::Ptr(Pointer {
            block: number as u64,
            index: 0,
        })
    }
}

/// Where expressions stand: the structs of the section, the memory, and the call.
#[derive(Clone, Copy)]
pub(crate) struct Scope<'a> {
    pub structs: &'a [TypedStruct],
    pub memory: &'a Memory,
    pub frame: &'a Frame,
}

fn literal(ty: Ty, word: u32) -> Value {
    if ty.is_pointer() {
        Value::Null
    } else {
        Value::Word(word)
    }
}

// What the first operand decides by itself.
fn decided(op: BinaryOp, first: Value) -> Option<Value> {
    match op {
        BinaryOp::AndAlso if !words::is_true(first) => Some(words::truth(false)),
        BinaryOp::OrElse if words::is_true(first) => Some(words::truth(true)),
        _ => None,
    }
}

impl Scope<'_> {
    // From a place of this type to what is wanted; the value of an array is the place of its first element.
    fn wanted(&self, want: Want, ty: Ty, place: Value) -> Result<Value, Cause> {
        match want {
            Want::Place => Ok(place),
            Want::Value if ty.is_array() => Ok(place),
            Want::Value => self.memory.load(place, ty.is_pointer()),
        }
    }

    // The place `by` elements after, or before, a pointer of this type.
    fn moved(
        &self,
        op: BinaryOp,
        types: (Ty, Ty),
        place: Value,
        by: Value,
    ) -> Result<Value, Cause> {
        let Value::Word(word) = by else {
            return Err(Cause::BadType);
        };
        let number = pointers::number_of(types.1.is_unsigned(), word);
        let elements = match op {
            BinaryOp::Sub => number.wrapping_neg(),
            _ => number,
        };
        pointers::moved_on(
            self.memory,
            place,
            target_cells(self.structs, types.0),
            elements,
        )
    }

    // An operator between two values of these types.
    fn joined(
        &self,
        op: BinaryOp,
        types: (Ty, Ty),
        left: Value,
        right: Value,
    ) -> Result<Value, Cause> {
        if matches!(op, BinaryOp::AndAlso | BinaryOp::OrElse) {
            return Ok(words::truth(words::is_true(right)));
        }
        match (types.0.is_pointer(), types.1.is_pointer()) {
            (true, true) => {
                let cells = target_cells(self.structs, types.0);
                pointers::between(self.memory, op, cells, left, right)
            }
            (true, false) => self.moved(op, types, left, right),
            (false, true) => self.moved(op, (types.1, types.0), right, left),
            (false, false) => match (left, right) {
                (Value::Word(a), Value::Word(b)) => {
                    words::between(op, is_unsigned_op(op, types.0, types.1), a, b)
                }
                _ => Err(Cause::BadType),
            },
        }
    }
}

/// The place or the value of an expression.
pub(crate) fn evaluate(scope: &Scope, want: Want, expr: &TypedExpr) -> Result<Value, Cause> {
    let place = match &expr.kind {
        TypedKind::Literal { value } => return Ok(literal(expr.ty, *value)),
        TypedKind::SizeOf { cells } => return Ok(Value::Word(cells.wrapping_mul(4))),
        TypedKind::Unary { op, of } => {
            let value = evaluate(scope, Want::Value, of.get())?;
            return words::before(*op, of.get().ty.is_unsigned(), value);
        }
        TypedKind::Binary { op, left, right } => {
            let first = evaluate(scope, Want::Value, left.get())?;
            if let Some(value) = decided(*op, first) {
                return Ok(value);
            }
            let second = evaluate(scope, Want::Value, right.get())?;
            return scope.joined(*op, (left.get().ty, right.get().ty), first, second);
        }
        TypedKind::Address(of) => return evaluate(scope, Want::Place, of.get()),
        TypedKind::Variable(variable) => scope.frame.place(*variable),
        TypedKind::Index { base, index } => {
            let first = evaluate(scope, Want::Value, base.get())?;
            let by = evaluate(scope, Want::Value, index.get())?;
            scope.moved(BinaryOp::Add, (base.get().ty, index.get().ty), first, by)?
        }
        TypedKind::Member { base, offset } => {
            let whole = evaluate(scope, Want::Place, base.get())?;
            pointers::moved(scope.memory, whole, *offset as i64)?
        }
        TypedKind::Arrow { base, offset } => {
            let whole = evaluate(scope, Want::Value, base.get())?;
            pointers::moved(scope.memory, whole, *offset as i64)?
        }
        TypedKind::Deref(of) => evaluate(scope, Want::Value, of.get())?,
    };
    scope.wanted(want, expr.ty, place)
}
