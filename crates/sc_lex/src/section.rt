ghost use Rattle.sc_lex.specs.Prelude.{IsBadHeading, IsSection, IsSplit, NoHeading, RefusesHeading, is_heading};
ghost use Rattle.sc_lex.specs.Prelude.{line_at, name_at};
ghost use Rattle.std.specs.Prelude.{◌≡◌, ℕ, ◌+◌, ◌<◌, ◌≤◌, ◌++◌, length, IsTrue, IfOk, OnOk, IfSome, IfNone, IsErrOf};
ghost use Rattle.std.specs.List.{flat_map};
ghost use Rattle.sc_lex.specs.declared.refusal.Refusal.{Refusal};
ghost use Rattle.sc_lex.specs.declared.refusal.Phase.TheVariants.{Lex};

use crate::bytes::{begins_line, line_after, line_len};
use crate::heading::{begins_heading, heading_name};
use crate::{Phase, Refusal, TextFault};
use sc_base::Name;
use sqlite_items::Items;
use std::alloc::Global;

/// One section of a text: a compartment line and what follows it, up to the next one.
#[derive(Clone, Copy)]
pub struct Section<'a> {
    /// The name that the compartment line gives.
    pub name: Name,
    /// The place of the section's first byte in the text.
    pub start: usize,
    /// The line of the compartment line in the text, counted from 1.
    pub line: u32,
    /// All bytes of the section, the compartment line included.
    pub bytes: &'a [u8],
}

/// The sections of a text, in order. Contracts see the list.
pub type Sections<'a> = Items<Section<'a>>;

/// A text in its parts.
#[derive(Drop)]
pub struct Split<'a> {
    /// The bytes before the first compartment line.
    pub preamble: &'a [u8],
    pub sections: Sections<'a>,
}

/// The preamble and the sections of a text. Each line that begins with `#pragma compartment `, also inside a comment,
/// begins a section, and nothing else does. A name and any blanks follow on that line.
pub fn sections(alloc: Global, text: &[u8]) -> Result<Split<'_>, TextFault>
    ensures split { IfOk result (λ split. IsSplit text.now split.preamble.now split.sections) }
    ensures joined { IfOk result (λ split. split.preamble.now ++
        flat_map (λ section. section.bytes.now) split.sections ≡ text.now) }

    // A text is refused exactly where a compartment line is bad, at the first such line.
    ensures good { OnOk result ((at : ℕ) → IsBadHeading text.now at → ⊥) }
    ensures refused { (refusal : Refusal) → IsErrOf result (TextFault.Refused refusal) →
        RefusesHeading text.now refusal }
{
    let first = next_heading(text, 0);
    let mut sections = Items::new(alloc);
    let mut at = first;
    let mut line = line_after(1, &text[..first]);
    while at < text.len() {
        let end = next_heading(text, at + 1);
        let Some(section) = section_at(text, at, end, line) else {
            return Err(TextFault::Refused(Refusal {
                phase: Phase::Lex,
                line,
            }));
        };
        sections.push(section)?;
        line = line_after(line, &text[at..end]);
        at = end;
    }
    Ok(Split {
        preamble: &text[..first],
        sections,
    })
}

// The section that lies between two places, `None` where its compartment line is bad.
fn section_at(text: &[u8], start: usize, end: usize, line: u32) -> Option<Section<'_>>
    requires places { (start < end) × (end ≤ length text.now) }
    requires heading { IsTrue (is_heading text.now start) }
    requires line { line ≡ line_at text.now start }
    requires whole { NoHeading text.now (start + 1) end }
    ensures found { IfSome result (IsSection text.now start end) }
    ensures none { IfNone result (name_at text.now start ≡ None) }
{
    let rest = &text[start..];
    let name = heading_name(&rest[..line_len(rest)])?;
    Some(Section {
        name,
        start,
        line,
        bytes: &text[start..end],
    })
}

// The first place from this one on where a compartment line stands, or the text's length.
fn next_heading(text: &[u8], from: usize) -> usize
    requires { from ≤ length text.now }
    ensures within { (from ≤ result) × (result ≤ length text.now) }
    ensures heading { result < length text.now → IsTrue (is_heading text.now result) }
    ensures none { NoHeading text.now from result }
{
    for at in from..text.len() {
        if is_heading(text, at) {
            return at;
        }
    }
    text.len()
}

#[tactic(auto, using(std::proofs::lemmas::List::take_rest))]
fn is_heading(text: &[u8], at: usize) -> bool
    requires { at ≤ length text.now }
    ensures { result ≡ is_heading text.now at }
{
    begins_line(text, at) && begins_heading(&text[at..])
}
