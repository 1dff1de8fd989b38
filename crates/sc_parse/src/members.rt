//! Structs and their members.

ghost use Rattle.sc_parse.specs.Prelude.{Agrees, add_member, adds, all_separated, begins_with, declaration_at, grouped};
ghost use Rattle.sc_parse.specs.Prelude.{member_at, members_at, members_in_braces, struct_at};
ghost use Rattle.std.specs.Prelude.{◌≡◌, ◌≤◌, ◌+◌, length};
ghost use Rattle.sc_parse_expr.specs.declared.mark.Mark.TheVariants.{CloseCurly};

use crate::lookahead::skip;
use crate::types::{Declarator, declarator_at};
use sc_ast::{BaseTree, MemberTree, MemberTrees, NonEmpty, StructTree, TypeTree};
use sc_parse_expr::{Lexemes, Mark, SyntaxFault, base_at, begins_with, name_at, refused, take};
use sqlite_items::Items;
use std::alloc::Global;

type Members = Items<MemberTree>;

#[tactic(auto, unfolding(crate::specs::Readers::adds, crate::specs::Readers::member_at))]
fn with_member(
    base: &BaseTree,
    mut members: Members,
    rest: &mut Lexemes<'_>,
) -> Result<Members, SyntaxFault>
    ensures { Agrees (λ x. (x, rest.new)) result (adds (member_at base.now) members rest.old) }
{
    let Declarator {
        stars,
        name,
        length,
    } = declarator_at(rest)?;
    let ty = TypeTree {
        base: *base,
        stars,
        length,
    };
    members.push(MemberTree { ty, name })?;
    Ok(members)
}

// The declarators of one declaration of members, added to the members before.
#[tactic(auto, using(crate::proofs::Steps::turns))]
fn with_members(
    base: &BaseTree,
    mut members: Members,
    rest: &mut Lexemes<'_>,
) -> Result<Members, SyntaxFault>
    ensures { Agrees (λ x. (x, rest.new)) result (all_separated (adds (member_at base.now)) members rest.old) }
{
    for _ in 0..rest.len() + 1 {
        members = with_member(base, members, rest)?;
        if !skip(Mark::Comma, rest) {
            return Ok(members);
        }
    }
    Err(refused(rest))
}

// One declaration of members, added to the members before.
#[tactic(auto, unfolding(crate::specs::Readers::declaration_at))]
fn member_line(members: Members, rest: &mut Lexemes<'_>) -> Result<Members, SyntaxFault>
    ensures { Agrees (λ x. (x, rest.new)) result (declaration_at add_member members rest.old) }
{
    let base = base_at(rest)?;
    let members = with_members(&base, members, rest)?;
    take(Mark::Semicolon, rest)?;
    Ok(members)
}

#[tactic(auto, using(crate::proofs::Steps::groups))]
fn member_lines(mut members: Members, rest: &mut Lexemes<'_>) -> Result<Members, SyntaxFault>
    ensures { Agrees (λ x. (x, rest.new)) result (grouped (begins_with CloseCurly) (declaration_at add_member)
        (length rest.old + 1) members rest.old) }
{
    for _ in 0..rest.len() + 1 {
        if begins_with(Mark::CloseCurly, rest) {
            return Ok(members);
        }
        members = member_line(members, rest)?;
    }
    Err(refused(rest))
}

#[tactic(auto, unfolding(crate::specs::Readers::members_at))]
fn members_at(alloc: Global, rest: &mut Lexemes<'_>) -> Result<MemberTrees, SyntaxFault>
    ensures { Agrees (λ x. (x, rest.new)) result (members_at rest.old) }
{
    let members = member_lines(Items::new(alloc), rest)?;
    match NonEmpty::new(members) {
        Some(members) => Ok(members),
        None => Err(refused(rest)),
    }
}

fn members_in_braces(alloc: Global, rest: &mut Lexemes<'_>) -> Result<MemberTrees, SyntaxFault>
    ensures { Agrees (λ x. (x, rest.new)) result (members_in_braces rest.old) }
{
    take(Mark::OpenCurly, rest)?;
    let members = members_at(alloc, rest)?;
    take(Mark::CloseCurly, rest)?;
    Ok(members)
}

/// A struct, where the lexemes begin with its first word.
#[tactic(auto, unfolding(crate::specs::Readers::struct_at))]
pub fn struct_at(alloc: Global, rest: &mut Lexemes<'_>) -> Result<StructTree, SyntaxFault>
    requires { 1 ≤ length rest.old }
    ensures { Agrees (λ x. (x, rest.new)) result (struct_at rest.old) }
{
    let line = rest.line();
    rest.advance();
    let name = name_at(rest)?;
    let members = members_in_braces(alloc, rest)?;
    take(Mark::Semicolon, rest)?;
    Ok(StructTree {
        name,
        members,
        line,
    })
}
