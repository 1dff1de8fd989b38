//! The types that operators give. There is no memory for a type with more than 18446744073709551615 `*`.

ghost use Rattle.sc_types_elab_expr.specs.Prelude.{binary_ty, moved_ty, unary_ty};
ghost use Rattle.std.specs.Prelude.{◌≡◌, IfOk};

use sc_base::{BinaryOp, OutOfMemory, UnaryOp};
use sc_core::Ty;

// The type of a sum or a difference (C11 6.5.6).
fn moved_ty(a: Ty, b: Ty) -> Result<Ty, OutOfMemory>
    ensures { IfOk result (λ ty. ty ≡ moved_ty a b) }
{
    if a.is_pointer() {
        if b.is_pointer() {
            Ok(Ty::Int)
        } else {
            a.decayed()
        }
    } else if b.is_pointer() {
        b.decayed()
    } else {
        Ok(a.common(b))
    }
}

/// The type of an operator's result, by the types of its operands (C11 6.5.5 to 6.5.14).
pub fn binary_ty(op: BinaryOp, a: Ty, b: Ty) -> Result<Ty, OutOfMemory>
    ensures { IfOk result (λ ty. ty ≡ binary_ty op a b) }
{
    match op {
        BinaryOp::OrElse
        | BinaryOp::AndAlso
        | BinaryOp::Equal
        | BinaryOp::NotEqual
        | BinaryOp::Less
        | BinaryOp::Greater
        | BinaryOp::LessEqual
        | BinaryOp::GreaterEqual => Ok(Ty::Int),
        BinaryOp::ShiftLeft | BinaryOp::ShiftRight => Ok(a),
        BinaryOp::Add | BinaryOp::Sub => moved_ty(a, b),
        _ => Ok(a.common(b)),
    }
}

/// The type of an operator's result, by the type of its operand (C11 6.5.3.3).
pub fn unary_ty(op: UnaryOp, a: Ty) -> Ty
    ensures { result ≡ unary_ty op a }
{
    match op {
        UnaryOp::Not => Ty::Int,
        _ => a,
    }
}
