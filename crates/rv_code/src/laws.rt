//! What holds of words and instructions as a whole.

ghost use Rattle.rv_code.specs.Prelude.{HasWord, decoded};
ghost use Rattle.std.specs.Prelude.{◌≡◌, ℕ, ◌^◌, ◌<◌, ◌↔◌, Some};
ghost use Rattle.rv_code.specs.declared.instr.Instr.{Instr};

/// Each instruction has one word, and each word one instruction or none. It does nothing: its
/// clauses are for the proofs of callers.
pub fn one_word_each()
    // A word is decoded to the instruction that has it.
    ensures exact { (w : ℕ) (i : Instr) → w < 2 ^ 32 → (decoded w ≡ Some i) ↔ HasWord i w }
    ensures one_instr { (w : ℕ) (i j : Instr) → HasWord i w → HasWord j w → i ≡ j }
    ensures one_word { (i : Instr) (v w : ℕ) → HasWord i v → HasWord i w → v ≡ w }
    ensures below { (i : Instr) (w : ℕ) → HasWord i w → w < 2 ^ 32 }
{}
