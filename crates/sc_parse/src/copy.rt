//! A copy of an expression, for what stands in a tree twice.

ghost use Rattle.std.specs.Prelude.{◌≡◌, IfOk};

use sc_ast::{ExprTree, TypeName};
use sqlite_items::Boxed;
use std::alloc::{AllocError, Global};

/// The same expression once more.
#[cycle(copy)]
pub fn copy_expr(alloc: Global, expr: &ExprTree) -> Result<ExprTree, AllocError>
    ensures { IfOk result (λ copy. copy ≡ expr.now) }
{
    match expr {
        ExprTree::Literal(literal) => Ok(ExprTree::Literal(*literal)),
        ExprTree::Variable(name) => Ok(ExprTree::Variable(Boxed::new(alloc, *name.get())?)),
        ExprTree::Unary { op, of } => Ok(ExprTree::Unary {
            op: *op,
            of: copy_boxed(alloc, of)?,
        }),
        ExprTree::Binary { op, left, right } => Ok(ExprTree::Binary {
            op: *op,
            left: copy_boxed(alloc, left)?,
            right: copy_boxed(alloc, right)?,
        }),
        ExprTree::Index { base, index } => Ok(ExprTree::Index {
            base: copy_boxed(alloc, base)?,
            index: copy_boxed(alloc, index)?,
        }),
        ExprTree::Member { base, name } => Ok(ExprTree::Member {
            base: copy_boxed(alloc, base)?,
            name: Boxed::new(alloc, *name.get())?,
        }),
        ExprTree::Arrow { base, name } => Ok(ExprTree::Arrow {
            base: copy_boxed(alloc, base)?,
            name: Boxed::new(alloc, *name.get())?,
        }),
        ExprTree::Deref(of) => Ok(ExprTree::Deref(copy_boxed(alloc, of)?)),
        ExprTree::Address(of) => Ok(ExprTree::Address(copy_boxed(alloc, of)?)),
        ExprTree::SizeOf(of) => {
            let TypeName { base, stars } = *of.get();
            ExprTree::size_of(alloc, base, stars)
        }
    }
}

#[cycle(copy)]
fn copy_boxed(alloc: Global, expr: &Boxed<ExprTree>) -> Result<Boxed<ExprTree>, AllocError>
    ensures { IfOk result (λ copy. copy ≡ expr.now) }
{
    Boxed::new(alloc, copy_expr(alloc, expr.get())?)
}
