ghost use Rattle.std.specs.Prelude.{◌≡◌, IsTrue};
ghost use Rattle.sc_ast.specs.Places.{is_place, place_of};

use crate::expr::ExprTree;
use sqlite_items::Boxed;
use std::marker::Model;

/// An expression that names a place: a variable, an index, a member, an arrow or a `*`. Contracts see the expression.
#[derive(Drop)]
pub struct PlaceTree {
    expr: Boxed<ExprTree>,
}

impl Model for PlaceTree {
    ghost use Rattle.std.specs.Prelude.{IsTrue};
    ghost use Rattle.std.specs.Coded.{codes};
    ghost use Rattle.sc_ast.specs.contracts.expr.ExprTree as expr_tree;
    ghost use Rattle.sc_ast.specs.declared.expr.ExprTree.{ExprTree};
    ghost use Rattle.sc_ast.specs.Places.{is_place};

    ghost Value = { ExprTree };

    ghost coded = { Prim.hlevel (codes, expr_tree.the_row.coded) };

    ghost view = { λ place. place.expr };

    ghost invariant = { λ place. IsTrue (is_place place.expr) };

    ghost inverse = { λ expr. record { expr = expr } };
}

impl PlaceTree {
    /// The expression as a place; one that names no place is handed back.
    pub fn new(expr: Boxed<ExprTree>) -> Result<PlaceTree, Boxed<ExprTree>>
        ensures { result ≡ place_of expr }
    {
        if is_place(expr.get()) {
            Ok(PlaceTree { expr })
        } else {
            Err(expr)
        }
    }

    /// The expression.
    pub fn get(&self) -> &ExprTree
        ensures value { result.now ≡ self.now }
        ensures place { IsTrue (is_place self.now) }
    {
        self.expr.get()
    }
}

fn is_place(expr: &ExprTree) -> bool
    ensures { result ≡ is_place expr.now }
{
    match expr {
        ExprTree::Variable(_) => true,
        ExprTree::Index { .. } => true,
        ExprTree::Member { .. } => true,
        ExprTree::Arrow { .. } => true,
        ExprTree::Deref(_) => true,
        _ => false,
    }
}
