ghost use Rattle.std.specs.Prelude.{◌≡◌, IsTrue};
ghost use Rattle.sc_core.specs.Places.{is_place, place_of};

use crate::expr::{TypedExpr, TypedKind};
use sqlite_items::Boxed;
use std::marker::Model;

/// An expression that names a place: a variable, an index, a member, an arrow or a `*`. Contracts see the expression.
#[derive(Drop)]
pub struct TypedPlace {
    expr: Boxed<TypedExpr>,
}

impl Model for TypedPlace {
    ghost use Rattle.std.specs.Prelude.{IsTrue};
    ghost use Rattle.std.specs.Coded.{codes};
    ghost use Rattle.sc_core.specs.contracts.expr.TypedExpr as typed_expr;
    ghost use Rattle.sc_core.specs.declared.expr.TypedExpr.{TypedExpr};
    ghost use Rattle.sc_core.specs.Places.{is_place};

    ghost Value = { TypedExpr };

    ghost coded = { Prim.hlevel (codes, typed_expr.the_row.coded) };

    ghost view = { λ place. place.expr };

    ghost invariant = { λ place. IsTrue (is_place place.expr) };

    ghost inverse = { λ expr. record { expr = expr } };
}

impl TypedPlace {
    /// The expression as a place; one that names no place is handed back.
    pub fn new(expr: Boxed<TypedExpr>) -> Result<TypedPlace, Boxed<TypedExpr>>
        ensures { result ≡ place_of expr }
    {
        if is_place(expr.get()) {
            Ok(TypedPlace { expr })
        } else {
            Err(expr)
        }
    }

    /// The expression.
    pub fn get(&self) -> &TypedExpr
        ensures value { result.now ≡ self.now }
        ensures place { IsTrue (is_place self.now) }
    {
        self.expr.get()
    }
}

fn is_place(expr: &TypedExpr) -> bool
    ensures { result ≡ is_place expr.now }
{
    match &expr.kind {
        TypedKind::Variable(_) => true,
        TypedKind::Index { .. } => true,
        TypedKind::Member { .. } => true,
        TypedKind::Arrow { .. } => true,
        TypedKind::Deref(_) => true,
        _ => false,
    }
}
