//! What `malloc` and `free` are given.

ghost use Rattle.sc_base.specs.Prelude.{most_brackets};
ghost use Rattle.sc_parse.specs.Prelude.{Agrees, allocated_at, free_statement, is_free, is_malloc, malloc_of};
ghost use Rattle.sc_parse.specs.Prelude.{product_by, sized_type};
ghost use Rattle.std.specs.Prelude.{◌≡◌, ◌<◌};

use crate::calls::condition_at;
use sc_ast::{ExprTree, PlaceTree, SimpleKind, TypeName};
use sc_base::BinaryOp;
use sc_parse_expr::{Keyword, Lexemes, SyntaxFault, refused_before};
use sqlite_items::Boxed;
use std::alloc::Global;

/// Whether the word is `malloc`.
pub fn is_malloc(word: Option<Keyword>) -> bool
    ensures { result ≡ is_malloc word }
{
    matches!(word, Some(Keyword::Malloc))
}

/// Whether the word is `free`.
pub fn is_free(word: Option<Keyword>) -> bool
    ensures { result ≡ is_free word }
{
    matches!(word, Some(Keyword::Free))
}

fn sized_type(expr: ExprTree) -> Option<Boxed<TypeName>>
    ensures { result ≡ sized_type expr }
{
    match expr {
        ExprTree::SizeOf(of) => Some(of),
        other => {
            drop(other);
            None
        }
    }
}

// The count and the type of a product.
fn product_by(
    op: BinaryOp,
    count: Boxed<ExprTree>,
    of: Option<Boxed<TypeName>>,
) -> Option<(Option<Boxed<ExprTree>>, Boxed<TypeName>)>
    ensures { result ≡ product_by op count of }
{
    match (op, of) {
        (BinaryOp::Mul, Some(of)) => Some((Some(count), of)),
        (_, of) => {
            drop(count);
            drop(of);
            None
        }
    }
}

// The count, if there is one, and the type of an argument of `malloc`.
fn malloc_of(argument: ExprTree) -> Option<(Option<Boxed<ExprTree>>, Boxed<TypeName>)>
    ensures { result ≡ malloc_of argument }
{
    match argument {
        ExprTree::SizeOf(of) => Some((None, of)),
        ExprTree::Binary { op, left, right } => {
            let of = sized_type(right.into_inner());
            product_by(op, left, of)
        }
        other => {
            drop(other);
            None
        }
    }
}

/// What follows `malloc`, where the argument is one level higher than its count.
#[tactic(auto, unfolding(crate::specs::StmtReaders::allocated_at))]
pub fn allocated_at(
    alloc: Global,
    room: u32,
    place: PlaceTree,
    rest: &mut Lexemes<'_>,
) -> Result<SimpleKind, SyntaxFault>
    requires { room < 4294967295 }
    ensures { Agrees (λ x. (x, rest.new)) result (allocated_at most_brackets room place rest.old) }
{
    let argument = condition_at(alloc, room + 1, rest)?;
    match malloc_of(argument.into_inner()) {
        Some((count, of)) => Ok(SimpleKind::Malloc { place, count, of }),
        None => {
            drop(place);
            Err(refused_before(rest))
        }
    }
}

/// What follows `free`, in parentheses.
pub fn free_statement(
    alloc: Global,
    room: u32,
    rest: &mut Lexemes<'_>,
) -> Result<SimpleKind, SyntaxFault>
    ensures { Agrees (λ x. (x, rest.new)) result (free_statement most_brackets room rest.old) }
{
    Ok(SimpleKind::Free(condition_at(alloc, room, rest)?))
}
