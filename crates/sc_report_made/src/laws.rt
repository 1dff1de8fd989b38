// The law, the contract of a function with nothing to do.

ghost use Rattle.sc_report_made.specs.Laws.{MadeTextsAreAccepted};

/// Each text that is made from a size and a seed is accepted, as a small program, and short.
pub fn made_texts_are_accepted()
    ensures { MadeTextsAreAccepted }
{}
