//! What holds of every text.

ghost use Rattle.sc_types.specs.Prelude.{Accepts, Fails};
ghost use Rattle.std.specs.Prelude.{◌≡◌, ◌≢◌, ◌⊎◌, ℕ, List};
ghost use Rattle.sc_lex.specs.declared.refusal.Phase.{Phase};
ghost use Rattle.sc_lex.specs.declared.refusal.Phase.TheVariants.{Syntax};
ghost use Rattle.sc_core.specs.declared.program.ProgramTree.{ProgramTree};

use sc_parse_read::{
    one_phase as one_phase_of_reading, one_reading, read_or_fails, read_or_refused,
};

/// A text is accepted as one program at most.
pub fn one_program()
    ensures { (text : List ℕ) (program other : ProgramTree) → Accepts text program → Accepts text other →
        program ≡ other }
{
    one_reading();
}

/// A text that is accepted fails no phase.
pub fn accepted_or_refused()
    ensures { (text : List ℕ) (program : ProgramTree) (phase : Phase) (line : ℕ) → Accepts text program →
        Fails text phase line → ⊥ }
{
    one_reading();
    read_or_refused();
}

/// Each text is accepted, or fails a phase.
pub fn accepted_or_fails()
    ensures { (text : List ℕ) → ((program : ProgramTree) × Accepts text program) ⊎
        ((phase : Phase) × (line : ℕ) × Fails text phase line) }
{
    read_or_fails();
}

/// A text fails one phase at most, and a phase other than Syntax in one line at most.
pub fn one_phase()
    ensures { (text : List ℕ) (phase other : Phase) (line later : ℕ) → Fails text phase line → Fails text other later →
        (phase ≡ other) × (phase ≢ Syntax → line ≡ later) }
{
    one_reading();
    read_or_refused();
    one_phase_of_reading();
}
