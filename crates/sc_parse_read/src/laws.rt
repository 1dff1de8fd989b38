//! What holds of every text.

ghost use Rattle.std.specs.Prelude.{◌≡◌, ◌⊎◌, ℕ, List};
ghost use Rattle.sc_lex.specs.declared.refusal.Phase.{Phase};
ghost use Rattle.sc_lex.specs.declared.refusal.Phase.TheVariants.{Lex};
ghost use Rattle.sc_ast.specs.declared.section.SectionTree.{SectionTree};
ghost use Rattle.sc_parse_read.specs.Reading.{Reads, FailsReading};

use sc_lex::{one_cut, one_refusal};
use sc_parse::one_section;

/// A text is read as one list of trees at most.
pub fn one_reading()
    ensures { (text : List ℕ) (trees others : List SectionTree) → Reads text trees → Reads text others →
        trees ≡ others }
{
    one_cut();
    one_section();
}

/// A text that is read fails no phase.
pub fn read_or_refused()
    ensures { (text : List ℕ) (trees : List SectionTree) (phase : Phase) (line : ℕ) → Reads text trees →
        FailsReading text phase line → ⊥ }
{
    one_cut();
}

/// A text fails one phase at most, and phase Lex in one line at most.
pub fn one_phase()
    ensures { (text : List ℕ) (phase other : Phase) (line later : ℕ) → FailsReading text phase line →
        FailsReading text other later →
        (phase ≡ other) × (phase ≡ Lex → line ≡ later) }
{
    one_refusal();
}

/// Each text is read, or fails a phase.
pub fn read_or_fails()
    ensures { (text : List ℕ) → ((trees : List SectionTree) × Reads text trees) ⊎
        ((phase : Phase) × (line : ℕ) × FailsReading text phase line) }
{}
