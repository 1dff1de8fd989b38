//! Parsing the tokens of a section.

ghost use Rattle.sc_parse.specs.Prelude.{IsCut, IsParsed, Parses, SectionTree, lexemes_of, line_after, whole_line};
ghost use Rattle.std.specs.Prelude.{◌≡◌, ◌<◌, ◌≤◌, ◌-◌, length, Any, IfOk, IsErrOf};
ghost use Rattle.sc_lex.specs.declared.refusal.Refusal.{Refusal};
ghost use Rattle.sc_lex.specs.declared.refusal.Phase.TheVariants.{Syntax};

use crate::brackets::first_excess;
use crate::section::section_at;
use sc_ast::SectionTree;
use sc_lex::{Phase, Refusal, Section, TextFault, Token, slices_in_order};
use sc_parse_expr::{Lexemes, SyntaxFault};
use std::alloc::Global;

// The line in the whole text of a lexeme, the last where fewer stand there, of a section that begins in this line.
fn line_of(line: u32, lexemes: &Lexemes<'_>, at: usize) -> u32
    ensures { 0 < length lexemes.now → Any (λ t. result ≡ whole_line line t) lexemes.now }
{
    let last = lexemes.len().saturating_sub(1);
    match lexemes.get(at.min(last)) {
        Some(lexeme) => line.saturating_add(lexeme.line.saturating_sub(1)),
        None => line,
    }
}

fn refused_at(line: u32, lexemes: &Lexemes<'_>, at: usize) -> Refusal
    ensures phase { result.phase ≡ Syntax }
    ensures line { 0 < length lexemes.now → Any (λ t. result.line ≡ whole_line line t) lexemes.now }
{
    Refusal {
        phase: Phase::Syntax,
        line: line_of(line, lexemes, at),
    }
}

#[tactic(auto, using(crate::proofs::Trees::trees))]
fn parse_lexemes(alloc: Global, line: u32, lexemes: &Lexemes<'_>) -> Result<SectionTree, TextFault>
    ensures parses { Parses line lexemes.now result }
    ensures phase { (refusal : Refusal) → IsErrOf result (TextFault.Refused refusal) → refusal.phase ≡ Syntax }
    ensures line { (refusal : Refusal) → IsErrOf result (TextFault.Refused refusal) → 0 < length lexemes.now →
        Any (λ t. refusal.line ≡ whole_line line t) lexemes.now }
{
    let excess = first_excess(lexemes);
    let mut rest = lexemes.again();
    let tree = match section_at(alloc, line, &mut rest) {
        Ok(tree) => tree,
        Err(SyntaxFault::Refused { left }) => {
            let stuck = lexemes.len().saturating_sub(left);
            let first = stuck.min(excess.unwrap_or(stuck));
            return Err(TextFault::Refused(refused_at(line, lexemes, first)));
        }
        Err(SyntaxFault::OutOfMemory) => return Err(TextFault::OutOfMemory),
    };
    match excess {
        None => Ok(tree),
        Some(at) => Err(TextFault::Refused(refused_at(line, lexemes, at))),
    }
}

/// The tree of a section, from the tokens that its bytes are cut into. The line of a refusal is counted in the whole
/// text: that of the first token that can't go on or opens a bracket too many, or of the last where the section ends
/// early.
pub fn parse(
    alloc: Global,
    section: &Section<'_>,
    tokens: &[Token],
) -> Result<SectionTree, TextFault>
    requires { IsCut section.now.bytes.now tokens.now }
    ensures parsed { IfOk result (λ tree. IsParsed section.now.line
        (lexemes_of section.now.bytes.now tokens.now) tree) }

    // Tokens are refused exactly where they are no tree within the limits, with the line of one of them.
    ensures refused { (refusal : Refusal) → IsErrOf result (TextFault.Refused refusal) → (tree : SectionTree) →
        IsParsed section.now.line (lexemes_of section.now.bytes.now tokens.now) tree → ⊥ }
    ensures phase { (refusal : Refusal) → IsErrOf result (TextFault.Refused refusal) → refusal.phase ≡ Syntax }
    ensures line { (refusal : Refusal) → IsErrOf result (TextFault.Refused refusal) → 0 < length tokens.now →
        Any (λ token. refusal.line ≡ line_after section.now.line (token.line - 1)) tokens.now }
{
    slices_in_order();
    let lexemes = Lexemes::new(section.bytes, tokens);
    parse_lexemes(alloc, section.line, &lexemes)
}
