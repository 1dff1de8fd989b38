ghost use Rattle.sc_tac.specs.Prelude.{CodeObeys, PlacesAreClear, WrappedCodeAgrees};

/// The denotations of functions of code obey the laws: that runs only go on, that more turns and events extend them,
/// that traces are legal, and those of compartments that perform.
#[tactic(auto, using(crate::proofs::Matching::code_obeys))]
pub fn code_obeys()
    ensures { CodeObeys }
{}

/// Where every operator gives a word, code emits the same up to the first blame for arithmetic.
#[tactic(auto, using(crate::proofs::Matching::wrapped_code_agrees))]
pub fn wrapped_code_agrees()
    ensures { WrappedCodeAgrees }
{}

/// At each point of a function's code, places for its least intervals keep apart what is live and what is assigned, and
/// keep what is live over a call in slots.
#[tactic(auto, using(crate::proofs::Clear::places_are_clear))]
pub fn places_are_clear()
    ensures { PlacesAreClear }
{}
