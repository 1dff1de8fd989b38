//! Expressions.

ghost use Rattle.sc_ast.specs.Prelude.{apart, binary_text, blank, call_words, closed, comma, expr_words, is_doubled};
ghost use Rattle.sc_ast.specs.Prelude.{malloc_argument, opened, place_words, prefix_words, sizeof_words, text_of};
ghost use Rattle.sc_ast.specs.Prelude.{unary_text, word, words_at};
ghost use Rattle.sc_base.specs.Prelude.{level_of, loosest_level};
ghost use Rattle.std.specs.Prelude.{◌≡◌, ◌<◌, ◌++◌, [], ◌∷◌, OnOk, codes};
ghost use Rattle.std.specs.List.{join_by};

use crate::expr::{CallTree, ExprTree, Exprs};
use crate::print::types::append_type;
use crate::print::words::{append_closed, append_literal, append_opened};
use crate::types::TypeName;
use sc_base::{BinaryOp, LOOSEST, OutOfMemory, POSTFIX, Text, UNARY, UnaryOp, level_of};
use sqlite_items::Boxed;

fn unary_text(op: UnaryOp) -> &'static [u8]
    ensures { result.now ≡ unary_text op }
{
    match op {
        UnaryOp::Minus => b"-",
        UnaryOp::Plus => b"+",
        UnaryOp::Not => b"!",
        UnaryOp::BitNot => b"~",
    }
}

fn binary_text(op: BinaryOp) -> &'static [u8]
    ensures { result.now ≡ binary_text op }
{
    match op {
        BinaryOp::OrElse => b"||",
        BinaryOp::AndAlso => b"&&",
        BinaryOp::BitOr => b"|",
        BinaryOp::BitXor => b"^",
        BinaryOp::BitAnd => b"&",
        BinaryOp::Equal => b"==",
        BinaryOp::NotEqual => b"!=",
        BinaryOp::Less => b"<",
        BinaryOp::Greater => b">",
        BinaryOp::LessEqual => b"<=",
        BinaryOp::GreaterEqual => b">=",
        BinaryOp::ShiftLeft => b"<<",
        BinaryOp::ShiftRight => b">>",
        BinaryOp::Add => b"+",
        BinaryOp::Sub => b"-",
        BinaryOp::Mul => b"*",
        BinaryOp::Div => b"/",
        BinaryOp::Rem => b"%",
    }
}

fn is_doubled(sign: &[u8]) -> bool
    ensures { result ≡ is_doubled sign.now }
{
    matches!(sign, b"-" | b"+" | b"&")
}

// The blank between two operators that would be one without it.
fn append_apart(out: &mut Text, before: &[u8], sign: &[u8]) -> Result<(), OutOfMemory>
    ensures { OnOk result (out.new ≡ out.old ++ text_of (apart before.now sign.now)) }
{
    if before == sign && is_doubled(sign) {
        out.push(b' ')
    } else {
        Ok(())
    }
}

// A unary operator, and `(` before it where that is wanted.
fn append_sign(out: &mut Text, before: &[u8], sign: &[u8], wanted: bool) -> Result<(), OutOfMemory>
    ensures { OnOk result (out.new ≡ out.old ++ text_of
        (opened wanted ++ (apart before.now sign.now ++ word sign.now ∷ []))) }
{
    append_opened(out, wanted)?;
    append_apart(out, before, sign)?;
    out.append(sign)
}

// An operator between its operands.
fn append_operator(out: &mut Text, op: BinaryOp) -> Result<(), OutOfMemory>
    ensures { OnOk result (out.new ≡ out.old ++ text_of (blank ∷ word (binary_text op) ∷ blank ∷ [])) }
{
    out.push(b' ')?;
    out.append(binary_text(op))?;
    out.push(b' ')
}

fn append_sizeof(out: &mut Text, of: &TypeName) -> Result<(), OutOfMemory>
    ensures { OnOk result (out.new ≡ out.old ++ text_of (sizeof_words of.now)) }
{
    out.append(b"sizeof(")?;
    append_type(out, of)?;
    out.append(b")")
}

// Adds an expression after an operator, which is empty where there is none. An expression of this level or a tighter
// one gets no parentheses.
#[cycle(expr)]
fn append_at(out: &mut Text, expr: &ExprTree, before: &[u8], level: u8) -> Result<(), OutOfMemory>
    ensures { OnOk result (out.new ≡ out.old ++ text_of (words_at expr.now before.now level)) }
{
    match expr {
        ExprTree::Literal(literal) => append_literal(out, literal),
        ExprTree::Variable(name) => out.append(name.get().as_bytes()),
        ExprTree::Unary { op, of } => append_prefixed(
            out,
            unary_text(*op),
            of.get(),
            before,
            level,
        ),
        ExprTree::Binary { op, left, right } => {
            let own = level_of(*op);
            append_left(out, left.get(), own, level < own)?;
            append_operator(out, *op)?;
            append_right(out, right.get(), own - 1, level < own)
        }
        ExprTree::Index { base, index } => {
            append_at(out, base.get(), b"", POSTFIX)?;
            append_index(out, index.get())
        }
        ExprTree::Member { base, name } => {
            append_at(out, base.get(), b"", POSTFIX)?;
            out.append(b".")?;
            out.append(name.get().as_bytes())
        }
        ExprTree::Arrow { base, name } => {
            append_at(out, base.get(), b"", POSTFIX)?;
            out.append(b"->")?;
            out.append(name.get().as_bytes())
        }
        ExprTree::Deref(of) => append_prefixed(out, b"*", of.get(), before, level),
        ExprTree::Address(of) => append_prefixed(out, b"&", of.get(), before, level),
        ExprTree::SizeOf(of) => append_sizeof(out, of.get()),
    }
}

#[cycle(expr)]
fn append_prefixed(
    out: &mut Text,
    sign: &[u8],
    of: &ExprTree,
    before: &[u8],
    level: u8,
) -> Result<(), OutOfMemory>
    ensures { OnOk result (out.new ≡ out.old ++ text_of (prefix_words sign.now (words_at of.now) before.now level)) }
{
    append_sign(out, before, sign, level < UNARY)?;
    append_at(out, of, sign, UNARY)?;
    append_closed(out, level < UNARY)
}

#[cycle(expr)]
fn append_left(out: &mut Text, left: &ExprTree, level: u8, wanted: bool) -> Result<(), OutOfMemory>
    ensures { OnOk result (out.new ≡ out.old ++ text_of (opened wanted ++ words_at left.now [] level)) }
{
    append_opened(out, wanted)?;
    append_at(out, left, b"", level)
}

#[cycle(expr)]
fn append_right(
    out: &mut Text,
    right: &ExprTree,
    level: u8,
    wanted: bool,
) -> Result<(), OutOfMemory>
    ensures { OnOk result (out.new ≡ out.old ++ text_of (words_at right.now [] level ++ closed wanted)) }
{
    append_at(out, right, b"", level)?;
    append_closed(out, wanted)
}

#[cycle(expr)]
fn append_index(out: &mut Text, index: &ExprTree) -> Result<(), OutOfMemory>
    ensures { OnOk result (out.new ≡ out.old ++ text_of
        (word (codes "[") ∷ (words_at index.now [] loosest_level ++ word (codes "]") ∷ []))) }
{
    out.append(b"[")?;
    append_at(out, index, b"", LOOSEST)?;
    out.append(b"]")
}

/// Adds an expression that needs no parentheses.
pub fn append_expr(out: &mut Text, expr: &ExprTree) -> Result<(), OutOfMemory>
    ensures { OnOk result (out.new ≡ out.old ++ text_of (expr_words expr.now)) }
{
    append_at(out, expr, b"", LOOSEST)
}

/// Adds a place.
pub fn append_place(out: &mut Text, place: &ExprTree) -> Result<(), OutOfMemory>
    ensures { OnOk result (out.new ≡ out.old ++ text_of (place_words place.now)) }
{
    append_at(out, place, b"", UNARY)
}

/// Adds what stands in the parentheses of `malloc`.
pub fn append_malloc_argument(
    out: &mut Text,
    count: &Option<Boxed<ExprTree>>,
    of: &TypeName,
) -> Result<(), OutOfMemory>
    ensures { OnOk result (out.new ≡ out.old ++ text_of (expr_words (malloc_argument count.now of.now))) }
{
    match count {
        None => append_sizeof(out, of),
        Some(count) => {
            append_at(out, count.get(), b"", level_of(BinaryOp::Mul))?;
            append_operator(out, BinaryOp::Mul)?;
            append_sizeof(out, of)
        }
    }
}

/// Adds a call.
pub fn append_call(out: &mut Text, call: &CallTree) -> Result<(), OutOfMemory>
    ensures { OnOk result (out.new ≡ out.old ++ text_of (call_words call.now)) }
{
    out.append(call.name.as_bytes())?;
    out.append(b"(")?;
    append_args(out, &call.args)?;
    out.append(b")")
}

fn append_args(out: &mut Text, args: &Exprs) -> Result<(), OutOfMemory>
    ensures { OnOk result (out.new ≡ out.old ++ text_of (join_by expr_words comma args.now)) }
{
    let [first, rest @ ..] = args.as_slice() else {
        return Ok(());
    };
    append_expr(out, first)?;
    for arg in rest {
        append_next_arg(out, arg)?;
    }
    Ok(())
}

fn append_next_arg(out: &mut Text, arg: &ExprTree) -> Result<(), OutOfMemory>
    ensures { OnOk result (out.new ≡ out.old ++ text_of (comma ++ expr_words arg.now)) }
{
    out.append(b", ")?;
    append_expr(out, arg)
}
