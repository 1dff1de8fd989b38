ghost use Rattle.sc_lex.specs.Prelude.{IsCut, RefusesBytes};
ghost use Rattle.std.specs.Prelude.{◌≡◌, IfOk, IsErrOf};
ghost use Rattle.std.specs.List.{AllZip};
ghost use Rattle.sc_lex.specs.declared.refusal.Refusal.{Refusal};
ghost use Rattle.sc_lex.specs.declared.refusal.Phase.TheVariants.{Syntax};
ghost use Rattle.sc_parse_read.specs.First.{First};
ghost use Rattle.sc_parse_read.specs.Reading.{Reads, FailsReading};
ghost use Rattle.sc_parse_read.specs.Steps.{IsCutInto, IsCuttable, IsTreeOf, IsParsable, RefusesTokens};

use sc_ast::SectionTree;
use sc_lex::{Phase, Refusal, Section, Split, TextFault, Token, Tokens, sections, tokens};
use sc_parse::parse;
use sqlite_items::Items;
use std::alloc::Global;

/// The trees of a text's sections, in order. Contracts see the list.
pub type Trees = Items<SectionTree>;

/// Reads a text: the trees of its sections, or the first phase that it fails, and the line.
pub fn read_trees(alloc: Global, text: &[u8]) -> Result<Trees, TextFault>
    ensures read { IfOk result (Reads text.now) }
    ensures refused { (refusal : Refusal) → IsErrOf result (TextFault.Refused refusal) →
        FailsReading text.now refusal.phase refusal.line }
{
    let Split { preamble, sections } = sections(alloc, text)?;
    let before = tokens(alloc, preamble, 1)?;
    let cuts = cut_sections(alloc, sections.as_slice())?;
    if let Some(first) = before.get(0) {
        return Err(TextFault::Refused(Refusal {
            phase: Phase::Syntax,
            line: first.line,
        }));
    }
    parse_sections(alloc, sections.as_slice(), cuts)
}

// The tokens of each section.
fn cut_sections(alloc: Global, sections: &[Section<'_>]) -> Result<Items<Tokens>, TextFault>
    ensures cut { IfOk result (AllZip IsCutInto sections.now) }
    ensures refused { (refusal : Refusal) → IsErrOf result (TextFault.Refused refusal) →
        First IsCuttable (λ section. RefusesBytes section.bytes.now section.line refusal) sections.now }
{
    let mut cuts = Items::new(alloc);
    for section in sections {
        cuts.push(tokens(alloc, section.bytes, section.line)?)?;
    }
    Ok(cuts)
}

// The tree of each section. Its tokens are given back as soon as it stands, so that all tokens and all trees are never
// kept side by side.
fn parse_sections(
    alloc: Global,
    sections: &[Section<'_>],
    mut cuts: Items<Tokens>,
) -> Result<Trees, TextFault>
    requires { AllZip IsCutInto sections.now cuts }
    ensures read { IfOk result (AllZip IsTreeOf sections.now) }
    ensures refused { (refusal : Refusal) → IsErrOf result (TextFault.Refused refusal) →
        (refusal.phase ≡ Syntax) × First IsParsable (RefusesTokens refusal.line) sections.now }
{
    let mut trees = Items::new(alloc);
    for at in 0..sections.len() {
        let tokens = cuts.as_slice()[at].as_slice();
        trees.push(parse_section(alloc, &sections[at], tokens)?)?;
        cuts.set(at, Items::new(alloc));
    }
    Ok(trees)
}

fn parse_section(
    alloc: Global,
    section: &Section<'_>,
    tokens: &[Token],
) -> Result<SectionTree, TextFault>
    requires { IsCut section.now.bytes.now tokens.now }
    ensures read { IfOk result (IsTreeOf section.now) }
    ensures refused { (refusal : Refusal) → IsErrOf result (TextFault.Refused refusal) →
        (refusal.phase ≡ Syntax) × RefusesTokens refusal.line section.now }
{
    Ok(parse(alloc, section, tokens)?)
}
