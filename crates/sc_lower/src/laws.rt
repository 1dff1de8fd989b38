// The laws, each the contract of a function with nothing to do.

ghost use Rattle.sc_lower.specs.Prelude.{CodeHasNoLines, KeepsBranches, KeepsMeaning, KeepsRules};

/// The code of a well-typed program runs as the program does, up to the lines of blames: in each arithmetic, also where
/// compartments perform their parts of a trace, and with the same stack depths.
pub fn keeps_meaning()
    ensures { KeepsMeaning }
{}

/// The code of each function of a well-typed program keeps the rules of three-address code.
pub fn keeps_rules()
    ensures { KeepsRules }
{}

/// The code of a function has one `If` for each `if`, `while`, `for`, `&&` and `||`.
pub fn keeps_branches()
    ensures { KeepsBranches }
{}

/// A section whose parts stand on other lines has the same code.
pub fn code_has_no_lines()
    ensures { CodeHasNoLines }
{}
