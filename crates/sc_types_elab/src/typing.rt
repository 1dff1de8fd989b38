//! The phase of types: the lines of a text at which its rules of types are broken.

ghost use Rattle.sc_types_elab.specs.Prelude.{Scope, Stands, StandsIn, Suits, called, callees_of, decl_type_lines};
ghost use Rattle.sc_types_elab.specs.Prelude.{function_type_lines, global_type_lines, init_goes, init_holds, is_sized};
ghost use Rattle.sc_types_elab.specs.Prelude.{line_of_text, typed_locals_from, noted_all, refused_at};
ghost use Rattle.sc_types_elab.specs.Prelude.{section_type_lines};
ghost use Rattle.sc_types_elab.specs.Prelude.{struct_lines, type_of, types_broken, unless, visible, with_lines};
ghost use Rattle.std.specs.Prelude.{◌≡◌, ◌&&◌, [], length, map, OnOk, IfOk};
ghost use Rattle.std.specs.List.{concat, list_all};
ghost use Rattle.sc_ast.specs.declared.section.MemberTree.{MemberTree};

use crate::function::{head_scope, with_local};
use crate::globals::init_holds;
use crate::section::build_scope;
use crate::tree_ty::{is_sized, type_of};
use sc_ast::{Decl, FunctionTree, GlobalTree, LocalTree, MemberTree, SectionTree, StructTree};
use sc_base::OutOfMemory;
use sc_types_elab_expr::{FunctionScope, SectionScope};
use sc_types_elab_stmt::Place;
use sc_types_scope::BrokenLines;
use std::alloc::Global;

/// The least line of a text at which a rule of types is broken, as a line of the whole text, or `None` where none is.
/// Names may break rules of their own: an unknown one has no type. There is no memory for a type with 2^64 or more `*`,
/// nor for a list with more than 4294967295 names.
pub fn broken_type(alloc: Global, sections: &[SectionTree]) -> Result<Option<u32>, OutOfMemory>
    ensures { IfOk result (λ line. line ≡ refused_at (types_broken sections.now)) }
{
    let mut least = None;
    for section in sections {
        least = least_in(alloc, least, section)?;
    }
    Ok(least)
}

// The earliest line so far, after those of a section. Who is called matters not for types.
fn least_in(
    alloc: Global,
    least: Option<u32>,
    section: &SectionTree,
) -> Result<Option<u32>, OutOfMemory>
    ensures { IfOk result (λ line. line ≡ noted_all least
        (map (line_of_text section.now.line) (section_type_lines section.now (callees_of [] 0 section.now)))) }
{
    let scope = build_scope(alloc, section, &[])?;
    let mut lines = BrokenLines {
        start: section.line,
        least,
    };
    note_decls(alloc, &scope, section, &mut lines, section.decls.as_slice())?;
    Ok(lines.least)
}

// Notes the lines of declarations that break rules of types. The section is only for the contract, here and below.
fn note_decls(
    alloc: Global,
    scope: &SectionScope,
    section: &SectionTree,
    lines: &mut BrokenLines,
    decls: &[Decl],
) -> Result<(), OutOfMemory>
    requires { Stands scope.now section.now }
    ensures { OnOk result (lines.new ≡ with_lines lines.old
        (concat (map (decl_type_lines section.now (called scope.now.callees)) decls.now))) }
{
    for decl in decls {
        note_decl(alloc, scope, section, lines, decl)?;
    }
    Ok(())
}

#[tactic(auto, using(sc_types_elab_stmt::proofs::Noted::nothing))]
fn note_decl(
    alloc: Global,
    scope: &SectionScope,
    section: &SectionTree,
    lines: &mut BrokenLines,
    decl: &Decl,
) -> Result<(), OutOfMemory>
    requires { Stands scope.now section.now }
    ensures { OnOk result (lines.new ≡ with_lines lines.old
        (decl_type_lines section.now (called scope.now.callees) decl.now)) }
{
    match decl {
        Decl::Struct(tree) => {
            note_struct(section, lines, tree);
            Ok(())
        }
        Decl::Global(tree) => {
            note_global(scope, section, lines, tree);
            Ok(())
        }
        Decl::Proto(_) => Ok(()),
        Decl::Function(tree) => note_function(alloc, scope, section, lines, tree),
    }
}

fn are_sized(members: &[MemberTree]) -> bool
    ensures { result ≡ list_all {X = MemberTree} (λ member. is_sized member.ty) members.now }
{
    members.iter().all(|member| is_sized(&member.ty))
}

fn note_struct(section: &SectionTree, lines: &mut BrokenLines, tree: &StructTree)
    ensures { lines.new ≡ with_lines lines.old (struct_lines section.now tree.now) }
{
    let _ = section;
    let members = tree.members.as_slice();
    lines.unless(!members.is_empty() && are_sized(members), tree.line);
}

fn note_global(
    scope: &SectionScope,
    section: &SectionTree,
    lines: &mut BrokenLines,
    tree: &GlobalTree,
)
    requires { Stands scope.now section.now }
    ensures { lines.new ≡ with_lines lines.old (global_type_lines section.now tree.now) }
{
    let _ = section;
    lines.unless(global_holds(scope, tree), tree.line);
}

fn global_holds(scope: &SectionScope, tree: &GlobalTree) -> bool
    ensures { result ≡ (is_sized tree.now.ty && init_holds (type_of scope.now.tags tree.now.ty) tree.now.init) }
{
    let ty = type_of(&scope.tags, &tree.ty);
    is_sized(&tree.ty) && init_holds(ty, &tree.init)
}

// Notes the line of a local that breaks a rule, where its initialiser sees these variables.
fn note_local(
    alloc: Global,
    scope: &SectionScope,
    function: &FunctionScope,
    lines: &mut BrokenLines,
    local: &LocalTree,
) -> Result<(), OutOfMemory>
    ensures { (around : Scope) → Suits (visible scope.now function.now) around →
        OnOk result (lines.new ≡ with_lines lines.old
        (unless (is_sized local.now.ty && init_goes (visible scope.now function.now) around
        (type_of scope.now.tags local.now.ty) local.now.init) local.now.line)) }
{
    let place = Place {
        section: scope,
        function,
    };
    let ty = type_of(&scope.tags, &local.ty);
    let begins = place.may_begin(alloc, ty, &local.init)?;
    lines.unless(is_sized(&local.ty) && begins, local.line);
    Ok(())
}

// Notes the lines of locals that break rules, and answers all that the function's body sees.
fn note_locals(
    alloc: Global,
    scope: &SectionScope,
    section: &SectionTree,
    lines: &mut BrokenLines,
    tree: &FunctionTree,
) -> Result<FunctionScope, OutOfMemory>
    requires { Stands scope.now section.now }
    ensures stands { IfOk result (λ function. StandsIn section.now tree.now (length tree.now.locals) function) }
    ensures lines { OnOk result (lines.new ≡ with_lines lines.old
        (typed_locals_from section.now (called scope.now.callees) tree.now 0 tree.now.locals)) }
{
    let _ = section;
    let mut function = head_scope(alloc, scope, tree)?;
    for local in tree.locals.as_slice() {
        function = with_local(&scope.tags, function, local)?;
        note_local(alloc, scope, &function, lines, local)?;
    }
    Ok(function)
}

fn note_function(
    alloc: Global,
    scope: &SectionScope,
    section: &SectionTree,
    lines: &mut BrokenLines,
    tree: &FunctionTree,
) -> Result<(), OutOfMemory>
    requires { Stands scope.now section.now }
    ensures { OnOk result (lines.new ≡ with_lines lines.old
        (function_type_lines section.now (called scope.now.callees) tree.now)) }
{
    let function = note_locals(alloc, scope, section, lines, tree)?;
    let place = Place {
        section: scope,
        function: &function,
    };
    place.note_stmts(alloc, lines, &tree.body)
}
