// The laws, each the contract of a function with nothing to do.

ghost use Rattle.sc_back_performer_laws.specs.Laws.{CountsHold, LegalRowsFit, NamesHold, RowsPerform, TypesHold};
ghost use Rattle.sc_back_performer_laws.specs.Recomposed.{RecomposedHold};
ghost use Rattle.sc_back_performer_laws.specs.Performing.{PartsPerform};

/// A section that performs breaks no rule of names.
pub fn names_hold()
    ensures { NamesHold }
{}

/// It breaks no rule of types.
pub fn types_hold()
    ensures { TypesHold }
{}

/// With its types, its only global is a counter, and its functions perform its rows, each those of its entry.
pub fn rows_perform()
    ensures { RowsPerform }
{}

/// It holds no more than a program may.
pub fn counts_hold()
    ensures { CountsHold }
{}

/// What a compartment does in a legal trace is such as its section can perform.
pub fn legal_rows_fit()
    ensures { LegalRowsFit }
{}

/// Where sections of a program are replaced by ones that perform their parts of a trace, the sections keep the rules,
/// and their program is the old one recomposed.
pub fn recomposed_hold()
    ensures { RecomposedHold }
{}

/// A compartment of a program can perform its part of a trace in a text.
pub fn parts_perform()
    ensures { PartsPerform }
{}
