//! Reading an expression: an operand, then in one loop all that extends it.

ghost use Rattle.sc_base.specs.Prelude.{most_brackets};
ghost use Rattle.sc_parse_expr.specs.Prelude.{Agrees, IsParse, Spells, extended_with, extension_at, extension_within};
ghost use Rattle.sc_parse_expr.specs.Prelude.{first_of, found, joined_with, lead_by, lead_of, lead_with, leaf_at};
ghost use Rattle.sc_parse_expr.specs.Prelude.{leaf_of, loosest_level};
ghost use Rattle.sc_parse_expr.specs.Prelude.{accessed, named_with, operand_with, paren_with, prefix_with, read};
ghost use Rattle.sc_parse_expr.specs.Prelude.{read_expr};
ghost use Rattle.sc_parse_expr.specs.Prelude.{read_nested, size_within, unary_level};
ghost use Rattle.sc_ast.specs.Prelude.{expr_height};
ghost use Rattle.std.specs.Prelude.{◌≡◌, ℕ, ◌<◌, ◌≤◌, ◌+◌, ◌-◌, ◌^◌, List, IfOk, IfNone, IsErrOf, Some};
ghost use Rattle.std.specs.Option.{option_map};
ghost use Rattle.sc_ast.specs.declared.expr.ExprTree.{ExprTree};
ghost use Rattle.sc_parse_expr.specs.declared.operator.Extension.TheVariants.{Operator, Index};
ghost use Rattle.sc_parse_expr.specs.declared.fault.SyntaxFault.TheVariants.{Refused};
ghost use Rattle.sc_parse_expr.specs.declared.lexeme.Lexeme.{Lexeme};

use crate::fault::SyntaxFault;
use crate::lexeme::Symbol;
use crate::lexemes::{Lexemes, refused, refused_before, take};
use crate::mark::{Keyword, Mark};
use crate::operator::{
    Extension, Prefix, extension_level, extension_of, prefix_of, prefixed, right_level_of,
};
use crate::types::{name_at, type_in_parens};
use sc_ast::{ExprTree, Ident, TypeName};
use sc_base::{BinaryOp, LOOSEST, MAX_BRACKETS, MAX_HEIGHT, UNARY};
use sqlite_items::Boxed;
use std::alloc::{AllocError, Global};

/// An expression and its height.
#[derive(Drop)]
pub struct Built {
    pub tree: Boxed<ExprTree>,
    pub height: u32,
}

// Whether a member is named of what is on the left, or of what that points to.
#[derive(Clone, Copy)]
enum Access {
    Member,
    Arrow,
}

// What was read.
type Answer = Result<Built, SyntaxFault>;

/// The expression at the start of the lexemes, as far as it goes. Goes past it. `opened` brackets are open before. A
/// bracket is refused where it is one too many, an operator where what it makes is too high.
pub fn parse_expr(alloc: Global, opened: u32, rest: &mut Lexemes<'_>) -> Answer
    requires { opened ≤ most_brackets }
    ensures found { IfOk result (λ x. IsParse loosest_level opened rest.old x.tree rest.new) }
    ensures height { IfOk result (λ x. x.height ≡ expr_height x.tree) }

    // Lexemes are refused where no prefix of them is spelled so.
    ensures refused { (left : ℕ) → IsErrOf result (Refused left) → (e : ExprTree) (more : List Lexeme) →
        IsParse loosest_level opened rest.old e more → ⊥ }

    // The same as a function of the lexemes.
    ensures reading { Agrees (λ x. found x.tree x.height rest.new) result
        (read_expr loosest_level opened rest.old) }
{
    parse_level(alloc, MAX_BRACKETS - opened, MAX_HEIGHT, LOOSEST, rest)
}

/// As `parse_expr`, but for a unary expression (C11 6.5.3), which ends where an operator between operands stands.
pub fn parse_unary(alloc: Global, opened: u32, rest: &mut Lexemes<'_>) -> Answer
    requires { opened ≤ most_brackets }
    ensures found { IfOk result (λ x. IsParse unary_level opened rest.old x.tree rest.new) }
    ensures height { IfOk result (λ x. x.height ≡ expr_height x.tree) }

    // Lexemes are refused where no prefix of them is spelled so.
    ensures refused { (left : ℕ) → IsErrOf result (Refused left) → (e : ExprTree) (more : List Lexeme) →
        IsParse unary_level opened rest.old e more → ⊥ }

    // The same as a function of the lexemes.
    ensures reading { Agrees (λ x. found x.tree x.height rest.new) result
        (read_expr unary_level opened rest.old) }
{
    parse_level(alloc, MAX_BRACKETS - opened, MAX_HEIGHT, UNARY, rest)
}

/// Lexemes spell one expression of a level at most.
#[tactic(auto, using(crate::proofs::Theorem::trees_agree))]
pub fn one_expr()
    ensures { (level : ℕ) (lexemes : List Lexeme) (e f : ExprTree) → Spells level lexemes e → Spells level lexemes f →
        e ≡ f }
{}

/// Lexemes have one expression of a level at their start at most, as far as it goes.
pub fn one_parse()
    ensures { (level count : ℕ) (lexemes : List Lexeme) (e f : ExprTree) (rest more : List Lexeme) →
        IsParse level count lexemes e rest → IsParse level count lexemes f more → (e ≡ f) × (rest ≡ more) }
{}

/// What a mark or a reserved word begins an expression with.
#[derive(Clone, Copy)]
enum Lead {
    Paren,
    Prefix(Prefix),
    SizeOf,
}

fn lead_by(mark: Mark) -> Option<Lead>
    ensures { result ≡ lead_by mark }
{
    match mark {
        Mark::OpenParen => Some(Lead::Paren),
        _ => match prefix_of(mark) {
            Some(prefix) => Some(Lead::Prefix(prefix)),
            None => None,
        },
    }
}

fn lead_of(symbol: &Symbol) -> Option<Lead>
    ensures { result ≡ lead_of symbol.now }
{
    match symbol {
        Symbol::Mark(mark) => lead_by(*mark),
        Symbol::Keyword(Keyword::Sizeof) => Some(Lead::SizeOf),
        _ => None,
    }
}

fn leaf_of(alloc: Global, symbol: &Symbol) -> Result<Option<ExprTree>, AllocError>
    ensures { IfOk result (λ leaf. leaf ≡ leaf_of symbol.now) }
{
    match symbol {
        Symbol::Integer(literal) => Ok(Some(ExprTree::Literal(*literal))),
        Symbol::Ident(name) => Ok(Some(ExprTree::Variable(Boxed::new(alloc, *name)?))),
        _ => Ok(None),
    }
}

fn extension_at(rest: &Lexemes<'_>) -> Option<Extension>
    ensures { result ≡ extension_at rest.now }
{
    match rest.mark() {
        Some(mark) => extension_of(mark),
        None => None,
    }
}

// The extension of this level or a tighter one at the start. Goes past its first lexeme.
fn take_extension(level: u8, rest: &mut Lexemes<'_>) -> Option<Extension>
    ensures found { option_map (λ x. (x, rest.new)) result ≡ extension_within level rest.old }
    ensures same { IfNone result (rest.new ≡ rest.old) }
{
    match extension_at(rest) {
        Some(extension) if extension_level(extension) <= level => {
            rest.advance();
            Some(extension)
        }
        _ => None,
    }
}

fn accessed(access: Access, base: Boxed<ExprTree>, name: Boxed<Ident>) -> ExprTree
    ensures { result ≡ accessed access base name }
{
    match access {
        Access::Member => ExprTree::Member { base, name },
        Access::Arrow => ExprTree::Arrow { base, name },
    }
}

fn build(alloc: Global, tree: ExprTree, height: u32) -> Result<Built, AllocError>
    ensures { IfOk result (λ x. x ≡ record { tree = tree; height = height }) }
{
    let tree = Boxed::new(alloc, tree)?;
    Ok(Built { tree, height })
}

// An expression that is the first lexeme alone.
fn parse_leaf(alloc: Global, symbol: &Symbol, rest: &mut Lexemes<'_>) -> Answer
    requires { option_map (λ first. first.symbol) (first_of rest.old) ≡ Some symbol.now }
    ensures read { Agrees (λ x. found x.tree x.height rest.new) result (leaf_at rest.old) }
    ensures low { IfOk result (λ x. x.height ≡ 1) }
{
    let Some(leaf) = leaf_of(alloc, symbol)? else {
        return Err(refused(rest));
    };
    rest.advance();
    Ok(build(alloc, leaf, 1)?)
}

// The size of a type, after `sizeof`.
fn parse_size(alloc: Global, free: u32, rest: &mut Lexemes<'_>) -> Answer
    ensures read { Agrees (λ x. found x.tree x.height rest.new) result (size_within free rest.old) }
    ensures low { IfOk result (λ x. x.height ≡ 1) }
{
    if free > 0 {
        let TypeName { base, stars } = type_in_parens(rest)?;
        let size = ExprTree::size_of(alloc, base, stars)?;
        Ok(build(alloc, size, 1)?)
    } else {
        Err(refused(rest))
    }
}

/// An expression of a level, at most `room` high, with at most `free` brackets open in it.
#[cycle(parser)]
#[tactic(auto, using(crate::proofs::Steps::reads, crate::proofs::Steps::loops))]
pub fn parse_level(alloc: Global, free: u32, room: u32, level: u8, rest: &mut Lexemes<'_>) -> Answer
    ensures read { Agrees (λ x. found x.tree x.height rest.new) result (read free room level rest.old) }
    ensures low { IfOk result (λ x. x.height ≤ room) }
{
    let Some(below) = room.checked_sub(1) else {
        return Err(refused(rest));
    };
    let mut left = parse_operand(alloc, free, below, rest)?;
    for _ in 0..room {
        let Some(extension) = take_extension(level, rest) else {
            return Ok(left);
        };
        left = parse_extended(alloc, free, below, extension, left, rest)?;
    }
    Err(refused(rest))
}

// What stands before all operators between operands.
#[cycle(parser)]
#[tactic(auto, unfolding(crate::specs::Reading::operand_with))]
fn parse_operand(alloc: Global, free: u32, below: u32, rest: &mut Lexemes<'_>) -> Answer
    requires { below + 1 < 2 ^ 32 }
    ensures read { Agrees (λ x. found x.tree x.height rest.new) result
        (operand_with free (read_nested free) (read free below) below rest.old) }
    ensures low { IfOk result (λ x. x.height ≤ below + 1) }
{
    let Some(first) = rest.first() else {
        return Err(refused(rest));
    };
    match lead_of(&first.symbol) {
        Some(lead) => {
            rest.advance();
            parse_led(alloc, free, below, lead, rest)
        }
        None => parse_leaf(alloc, &first.symbol, rest),
    }
}

// What a mark or a reserved word begins, after it.
#[cycle(parser)]
fn parse_led(alloc: Global, free: u32, below: u32, lead: Lead, rest: &mut Lexemes<'_>) -> Answer
    requires { below + 1 < 2 ^ 32 }
    ensures read { (first : Lexeme) → Agrees (λ x. found x.tree x.height rest.new) result
        (lead_with free (read_nested free) (read free below) below (Some lead) first rest.old) }
    ensures low { IfOk result (λ x. x.height ≤ below + 1) }
{
    match lead {
        Lead::Paren => parse_paren(alloc, free, below, rest),
        Lead::Prefix(prefix) => parse_prefix(alloc, free, below, prefix, rest),
        Lead::SizeOf => parse_size(alloc, free, rest),
    }
}

#[cycle(parser)]
#[tactic(auto, using(crate::proofs::Steps::reads))]
fn parse_paren(alloc: Global, free: u32, below: u32, rest: &mut Lexemes<'_>) -> Answer
    requires { below + 1 < 2 ^ 32 }
    ensures read { Agrees (λ x. found x.tree x.height rest.new) result
        (paren_with (read_nested free) (read free below) below rest.old) }
    ensures low { IfOk result (λ x. x.height ≤ below + 1) }
{
    let Some(fewer) = free.checked_sub(1) else {
        return Err(refused_before(rest));
    };
    let inner = parse_level(alloc, fewer, below + 1, LOOSEST, rest)?;
    take(Mark::CloseParen, rest)?;
    Ok(inner)
}

#[cycle(parser)]
fn parse_prefix(
    alloc: Global,
    free: u32,
    below: u32,
    prefix: Prefix,
    rest: &mut Lexemes<'_>,
) -> Answer
    requires { below + 1 < 2 ^ 32 }
    ensures read { Agrees (λ x. found x.tree x.height rest.new) result
        (prefix_with (read_nested free) (read free below) below prefix rest.old) }
    ensures low { IfOk result (λ x. x.height ≤ below + 1) }
{
    let of = parse_level(alloc, free, below, UNARY, rest)?;
    Ok(build(alloc, prefixed(prefix, of.tree), of.height + 1)?)
}

// What an expression goes on to, where that leaves a level of height.
#[cycle(parser)]
#[tactic(auto, unfolding(crate::specs::Reading::extended_with))]
fn parse_extended(
    alloc: Global,
    free: u32,
    below: u32,
    extension: Extension,
    left: Built,
    rest: &mut Lexemes<'_>,
) -> Answer
    requires { below + 1 < 2 ^ 32 }
    ensures read { Agrees (λ x. found x.tree x.height rest.new) result
        (extended_with (read_nested free) (read free below) below left.tree left.height extension rest.old) }
    ensures low { IfOk result (λ x. x.height ≤ below + 1) }
{
    if left.height > below {
        return Err(refused_before(rest));
    }
    match extension {
        Extension::Operator(op) => parse_joined(alloc, free, below, op, left, rest),
        Extension::Index => parse_index(alloc, free, below, left, rest),
        Extension::Member => parse_named(alloc, Access::Member, left, rest),
        Extension::Arrow => parse_named(alloc, Access::Arrow, left, rest),
    }
}

#[cycle(parser)]
fn parse_joined(
    alloc: Global,
    free: u32,
    below: u32,
    op: BinaryOp,
    left: Built,
    rest: &mut Lexemes<'_>,
) -> Answer
    requires { (below + 1 < 2 ^ 32) × (left.height ≤ below) }
    ensures read { Agrees (λ x. found x.tree x.height rest.new) result
        (joined_with (read_nested free) (read free below) below left.tree left.height (Operator op) rest.old) }
    ensures low { IfOk result (λ x. x.height ≤ below + 1) }
{
    let right = parse_level(alloc, free, below, right_level_of(op), rest)?;
    let height = left.height.max(right.height) + 1;
    let tree = ExprTree::Binary {
        op,
        left: left.tree,
        right: right.tree,
    };
    Ok(build(alloc, tree, height)?)
}

#[cycle(parser)]
#[tactic(auto, using(crate::proofs::Steps::reads))]
fn parse_index(alloc: Global, free: u32, below: u32, left: Built, rest: &mut Lexemes<'_>) -> Answer
    requires { (below + 1 < 2 ^ 32) × (left.height ≤ below) }
    ensures read { Agrees (λ x. found x.tree x.height rest.new) result
        (joined_with (read_nested free) (read free below) below left.tree left.height Index rest.old) }
    ensures low { IfOk result (λ x. x.height ≤ below + 1) }
{
    let Some(fewer) = free.checked_sub(1) else {
        return Err(refused_before(rest));
    };
    let index = parse_level(alloc, fewer, below, LOOSEST, rest)?;
    take(Mark::CloseSquare, rest)?;
    let height = left.height.max(index.height) + 1;
    let tree = ExprTree::Index {
        base: left.tree,
        index: index.tree,
    };
    Ok(build(alloc, tree, height)?)
}

fn parse_named(alloc: Global, access: Access, left: Built, rest: &mut Lexemes<'_>) -> Answer
    requires { left.height + 1 < 2 ^ 32 }
    ensures read { Agrees (λ x. found x.tree x.height rest.new) result
        (named_with (accessed access left.tree) left.height rest.old) }
    ensures low { IfOk result (λ x. x.height ≡ left.height + 1) }
{
    let name = name_at(rest)?;
    let height = left.height + 1;
    let name = Boxed::new(alloc, name)?;
    Ok(build(alloc, accessed(access, left.tree, name), height)?)
}
