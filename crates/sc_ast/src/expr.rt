ghost use Rattle.std.specs.Prelude.{◌≡◌, IfOk};
ghost use Rattle.sc_ast.specs.declared.expr.ExprTree.TheVariants.{SizeOf};

use crate::ident::Ident;
use crate::number::Literal;
use crate::types::{BaseTree, TypeName};
use sc_base::{BinaryOp, UnaryOp};
use sqlite_items::{Boxed, Items};
use std::alloc::{AllocError, Global};

/// An expression (C11 6.5). Parentheses leave no mark.
#[derive(Drop)]
pub enum ExprTree {
    /// `7`, `7u`
    Literal(Literal),
    /// `x`
    Variable(Boxed<Ident>),
    /// `-x`
    Unary {
        op: UnaryOp,
        of: Boxed<ExprTree>,
    },
    /// `x + y`
    Binary {
        op: BinaryOp,
        left: Boxed<ExprTree>,
        right: Boxed<ExprTree>,
    },
    /// `x[y]`
    Index {
        base: Boxed<ExprTree>,
        index: Boxed<ExprTree>,
    },
    /// `x.m`
    Member {
        base: Boxed<ExprTree>,
        name: Boxed<Ident>,
    },
    /// `x->m`
    Arrow {
        base: Boxed<ExprTree>,
        name: Boxed<Ident>,
    },
    /// `*x`
    Deref(Boxed<ExprTree>),
    /// `&x`
    Address(Boxed<ExprTree>),
    /// `sizeof(int *)` (C11 6.5.3.4), of a type alone
    SizeOf(Boxed<TypeName>),
}

impl ExprTree {
    /// The size of a type. It is passed in parts, since the borrow checker has to see what it is made of.
    pub fn size_of(alloc: Global, base: BaseTree, stars: u64) -> Result<ExprTree, AllocError>
        ensures { IfOk result (λ size. size ≡ SizeOf (record { base = base; stars = stars })) }
    {
        Ok(ExprTree::SizeOf(Boxed::new(alloc, TypeName { base, stars })?))
    }
}

/// Expressions in order, as the arguments of a call.
pub type Exprs = Items<ExprTree>;

/// A call of a function by its name (C11 6.5.2.2).
#[derive(Drop)]
pub struct CallTree {
    pub name: Ident,
    pub args: Exprs,
}
