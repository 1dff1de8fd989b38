//! Laws that tie C's operators to instructions. Each is the contract of a function with nothing to do.

ghost use Rattle.sc_word.specs.Prelude.{MachineComputesC, OperatorsAreInstructions};

/// Wherever a C operator answers a word, its instruction answers the same word, so code may be
/// compiled operator by operator.
pub fn the_machine_computes_what_c_computes()
    ensures { MachineComputesC }
{}

/// An operator that answers on all words, its results taken modulo 2^32, is one instruction or a few.
pub fn operators_are_instructions()
    ensures { OperatorsAreInstructions }
{}
