ghost use Rattle.std.specs.Prelude.{◌≡◌, ◌<◌, ◌≤◌, Some, map, take, drop, length, slice_get, slice_range, IfOk};
ghost use Rattle.std.specs.Prelude.{IsErrOf};
ghost use Rattle.sc_lex.specs.declared.refusal.Refusal.{Refusal};
ghost use Rattle.sc_types.specs.Acceptance.{Accepts, Fails};
ghost use Rattle.sc_types.specs.Source.{IsSource};
ghost use Rattle.sc_types.specs.Starts.{start_of, AreStarts, first_start, parts_from};

use crate::acceptance::into_program;
use sc_core::Program;
use sc_event::CompId;
use sc_lex::{Section, Split, sections};
use sc_parse_read::{TextFault, read_trees};
use sqlite_items::Items;
use std::alloc::{AllocError, Global};
use std::marker::Model;

/// A text that is a program, with the places of its sections. Contracts see its parts.
#[derive(Drop)]
pub struct SourceText {
    bytes: Items<u8>,
    // Where each section begins.
    starts: Items<usize>,
    program: Program,
}

impl Model for SourceText {
    ghost use Rattle.std.specs.Coded.{codes};
    ghost use Rattle.sc_core.specs.contracts.expr.TypedExpr as typed_expr;
    ghost use Rattle.sc_core.specs.contracts.stmt.TypedStmt as typed_stmt;
    ghost use Rattle.sc_types.specs.Source.{SourceParts};
    ghost use Rattle.sc_types.specs.Starts.{source_of, IsKept};

    ghost Value = { SourceParts };

    ghost coded = { Prim.hlevel (codes, typed_expr.the_row.coded, typed_stmt.the_row.coded) };

    ghost view = { λ text. source_of text.bytes text.starts text.program };

    ghost invariant = { λ text. IsKept text.bytes text.starts text.program };
}

impl SourceText {
    /// Reads a text as a program. One that isn't accepted is refused at the first phase that it fails.
    pub fn read(alloc: Global, bytes: &[u8]) -> Result<SourceText, TextFault>
        ensures bytes { IfOk result (λ source. source.bytes ≡ bytes.now) }
        ensures source { IfOk result IsSource }
        ensures refused { (refusal : Refusal) → IsErrOf result (TextFault.Refused refusal) →
            Fails bytes.now refusal.phase refusal.line }
    {
        let program = read_program(alloc, bytes)?;
        let starts = section_starts(alloc, bytes)?;
        let bytes = Items::from_slice(alloc, bytes)?;
        Ok(SourceText {
            bytes,
            starts,
            program,
        })
    }

    /// The whole text.
    pub fn bytes(&self) -> &[u8]
        ensures bytes { result.now ≡ self.now.bytes }
        ensures source { IsSource self.now }
    {
        self.bytes.as_slice()
    }

    /// What stands before the first compartment line.
    pub fn preamble(&self) -> &[u8]
        ensures preamble { result.now ≡ self.now.preamble }
        ensures source { IsSource self.now }
    {
        preamble_in(self.bytes.as_slice(), self.starts.as_slice())
    }

    /// The section of a compartment, from its compartment line to before the next one.
    pub fn section(&self, comp: CompId) -> &[u8]
        requires compartment { comp < length self.now.program.interfaces.comps }
        ensures section { slice_get self.now.sections comp ≡ Some result.now }
        ensures source { IsSource self.now }
    {
        section_in(
            self.bytes.as_slice(),
            self.starts.as_slice(),
            comp.number() as usize,
        )
    }

    /// What the text says.
    pub fn program(&self) -> &Program
        ensures program { result.now ≡ self.now.program }
        ensures source { IsSource self.now }
    {
        &self.program
    }
}

fn read_program(alloc: Global, text: &[u8]) -> Result<Program, TextFault>
    ensures accepted { IfOk result (Accepts text.now) }
    ensures refused { (refusal : Refusal) → IsErrOf result (TextFault.Refused refusal) →
        Fails text.now refusal.phase refusal.line }
{
    let trees = read_trees(alloc, text)?;
    into_program(alloc, trees)
}

fn section_starts(alloc: Global, text: &[u8]) -> Result<Items<usize>, TextFault>
    ensures starts { IfOk result (AreStarts text.now) }
    ensures refused { (refusal : Refusal) → IsErrOf result (TextFault.Refused refusal) →
        Fails text.now refusal.phase refusal.line }
{
    let Split {
        preamble: _,
        sections,
    } = sections(alloc, text)?;
    let starts = starts_of(alloc, sections.as_slice())?;
    Ok(starts)
}

fn starts_of(alloc: Global, sections: &[Section<'_>]) -> Result<Items<usize>, AllocError>
    ensures { IfOk result (λ starts. starts ≡ map start_of sections.now) }
{
    let mut starts = Items::new(alloc);
    for section in sections {
        starts.push(section.start)?;
    }
    Ok(starts)
}

fn preamble_in<'a>(text: &'a [u8], starts: &[usize]) -> &'a [u8]
    requires { AreStarts text.now starts.now }
    ensures { result.now ≡ take (first_start text.now starts.now) text.now }
{
    between(text, 0, start_at(text, starts, 0))
}

fn section_in<'a>(text: &'a [u8], starts: &[usize], at: usize) -> &'a [u8]
    requires starts { AreStarts text.now starts.now }
    requires within { at < length starts.now }
    ensures { slice_get (parts_from text.now starts.now) at ≡ Some result.now }
{
    between(
        text,
        start_at(text, starts, at),
        start_at(text, starts, at + 1),
    )
}

fn between(text: &[u8], start: usize, end: usize) -> &[u8]
    requires { (start ≤ end) × (end ≤ length text.now) }
    ensures { result.now ≡ slice_range text.now start end }
{
    &text[start..end]
}

// Where the section at this place begins, or the text ends.
fn start_at(text: &[u8], starts: &[usize], at: usize) -> usize
    ensures { result ≡ first_start text.now (drop at starts.now) }
{
    match starts.get(at) {
        Some(start) => *start,
        None => text.len(),
    }
}
