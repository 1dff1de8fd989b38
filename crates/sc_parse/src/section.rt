//! Directives, declarations and sections.

ghost use Rattle.sc_base.specs.Prelude.{most_brackets, most_height};
ghost use Rattle.sc_parse.specs.Prelude.{Agrees, SectionTree, SpellsSection, adds, begins_struct, compartment_at};
ghost use Rattle.sc_parse.specs.Prelude.{compartment_by, decl_at, decls_at, directives, directives_at, grouped};
ghost use Rattle.sc_parse.specs.Prelude.{headed_at, is_empty, is_struct_word, keyword_at, line_at, line_by, lines_at};
ghost use Rattle.sc_parse.specs.Prelude.{names_struct, section_at, struct_decl_at, with_line};
ghost use Rattle.std.specs.Prelude.{◌≡◌, ◌≤◌, ◌+◌, ◌-◌, ℕ, List, [], length, drop, true, false, IsSome, IfOk};
ghost use Rattle.sc_parse_expr.specs.declared.lexeme.Lexeme.{Lexeme};

use crate::functions::headed_at;
use crate::globals::globals_at;
use crate::heads::begins_head;
use crate::members::struct_at;
use sc_ast::{Decl, Decls, ExportLine, ExportLines, ImportLine, ImportLines, SectionTree};
use sc_base::Name;
use sc_parse_expr::{Keyword, Lexemes, Mark, Symbol, SyntaxFault, begins_with, refused};
use sqlite_items::Items;
use std::alloc::{AllocError, Global};

/// A directive.
#[derive(Clone, Copy)]
enum Line {
    Export(ExportLine),
    Import(ImportLine),
}

/// The directives of a section.
#[derive(Drop)]
struct Directives {
    exports: ExportLines,
    imports: ImportLines,
}

fn names_struct(rest: &Lexemes<'_>) -> bool
    ensures { result ≡ names_struct rest.now }
{
    rest.begins_ident() && begins_with(Mark::OpenCurly, &rest.past())
}

fn is_struct_word(word: Option<Keyword>) -> bool
    ensures value { result ≡ is_struct_word word }
    ensures some { result ≡ true → IsSome word }
{
    matches!(word, Some(Keyword::Struct))
}

fn begins_struct(rest: &Lexemes<'_>) -> bool
    ensures value { result ≡ begins_struct rest.now }
    ensures some { result ≡ true → 1 ≤ length rest.now }
{
    is_struct_word(rest.keyword()) && names_struct(&rest.past())
}

#[tactic(auto, unfolding(crate::specs::Readers::adds, crate::specs::SectionReaders::struct_decl_at))]
fn with_struct(
    alloc: Global,
    mut decls: Decls,
    rest: &mut Lexemes<'_>,
) -> Result<Decls, SyntaxFault>
    requires { 1 ≤ length rest.old }
    ensures { Agrees (λ x. (x, rest.new)) result (adds struct_decl_at decls rest.old) }
{
    decls.push(Decl::Struct(struct_at(alloc, rest)?))?;
    Ok(decls)
}

#[tactic(auto, unfolding(crate::specs::Readers::adds))]
fn with_headed(
    alloc: Global,
    mut decls: Decls,
    rest: &mut Lexemes<'_>,
) -> Result<Decls, SyntaxFault>
    ensures { Agrees (λ x. (x, rest.new)) result (adds (headed_at most_brackets most_height) decls rest.old) }
{
    decls.push(headed_at(alloc, rest)?)?;
    Ok(decls)
}

#[tactic(auto, unfolding(crate::specs::SectionReaders::decl_at))]
fn decl_at(alloc: Global, decls: Decls, rest: &mut Lexemes<'_>) -> Result<Decls, SyntaxFault>
    ensures { Agrees (λ x. (x, rest.new)) result (decl_at most_brackets most_height decls rest.old) }
{
    if begins_struct(rest) {
        with_struct(alloc, decls, rest)
    } else if begins_head(rest) {
        with_headed(alloc, decls, rest)
    } else {
        globals_at(alloc, decls, rest)
    }
}

#[tactic(auto, using(crate::proofs::Steps::groups))]
fn decls_at(alloc: Global, rest: &mut Lexemes<'_>) -> Result<Decls, SyntaxFault>
    ensures { Agrees (λ x. (x, rest.new)) result (decls_at most_brackets most_height rest.old) }
{
    let mut decls = Items::new(alloc);
    for _ in 0..rest.len() + 1 {
        if rest.is_empty() {
            return Ok(decls);
        }
        decls = decl_at(alloc, decls, rest)?;
    }
    Err(refused(rest))
}

fn line_by(symbol: &Symbol, line: u32) -> Option<Line>
    ensures { result ≡ line_by symbol.now line }
{
    match symbol {
        Symbol::Export(name) => Some(Line::Export(ExportLine { name: *name, line })),
        Symbol::Import { comp, name } => Some(Line::Import(ImportLine {
            comp: *comp,
            name: *name,
            line,
        })),
        _ => None,
    }
}

fn line_at(rest: &Lexemes<'_>) -> Option<Line>
    ensures { result ≡ line_at rest.now }
{
    let first = rest.first()?;
    line_by(&first.symbol, first.line)
}

fn with_line(mut found: Directives, line: Line) -> Result<Directives, AllocError>
    ensures { IfOk result (λ more. more ≡ with_line found line) }
{
    match line {
        Line::Export(line) => found.exports.push(line)?,
        Line::Import(line) => found.imports.push(line)?,
    }
    Ok(found)
}

#[tactic(auto, using(crate::proofs::Steps::lines))]
fn directives_at(alloc: Global, rest: &mut Lexemes<'_>) -> Result<Directives, SyntaxFault>
    ensures { Agrees (λ x. (x, rest.new)) result (directives_at rest.old) }
{
    let mut found = Directives {
        exports: Items::new(alloc),
        imports: Items::new(alloc),
    };
    for _ in 0..rest.len() + 1 {
        let Some(line) = line_at(rest) else {
            return Ok(found);
        };
        found = with_line(found, line)?;
        rest.advance();
    }
    Err(refused(rest))
}

fn compartment_by(symbol: &Symbol) -> Option<Name>
    ensures { result ≡ compartment_by symbol.now }
{
    match symbol {
        Symbol::Compartment(name) => Some(*name),
        _ => None,
    }
}

fn compartment_at(rest: &mut Lexemes<'_>) -> Result<Name, SyntaxFault>
    ensures { Agrees (λ x. (x, rest.new)) result (compartment_at rest.old) }
{
    let Some(first) = rest.first() else {
        return Err(refused(rest));
    };
    match compartment_by(&first.symbol) {
        Some(name) => {
            rest.advance();
            Ok(name)
        }
        None => Err(refused(rest)),
    }
}

/// A section whose compartment line is this one of the whole text.
#[tactic(auto, unfolding(crate::specs::SectionReaders::section_within))]
pub fn section_at(
    alloc: Global,
    line: u32,
    rest: &mut Lexemes<'_>,
) -> Result<SectionTree, SyntaxFault>
    ensures { Agrees (λ x. (x, rest.new)) result (section_at line rest.old) }
{
    let name = compartment_at(rest)?;
    let Directives { exports, imports } = directives_at(alloc, rest)?;
    let decls = decls_at(alloc, rest)?;
    Ok(SectionTree {
        name,
        line,
        exports,
        imports,
        decls,
    })
}

/// Lexemes spell one section at most, whatever their height and their brackets.
#[tactic(auto, using(crate::proofs::Sections::sections_agree))]
pub fn one_section()
    ensures { (line : ℕ) (lexemes : List Lexeme) (s t : SectionTree) → SpellsSection line lexemes s →
        SpellsSection line lexemes t → s ≡ t }
{}
