// The laws, each the contract of a function with nothing to do.

ghost use Rattle.sc_core_kind_laws.specs.Kinds.{ResultsHaveKinds, ValuesHaveKinds};

/// What an expression gives is a word where its type is an integer, and a pointer or null where it is a pointer (C11
/// 6.5), so no operator meets an operand that C has no meaning for.
pub fn values_have_kinds()
    ensures { ValuesHaveKinds }
{}

/// What a function of a well-typed program returns has the kind of its result, what an export returns crosses as it is,
/// and functions make only calls that may be made.
pub fn results_have_kinds()
    ensures { ResultsHaveKinds }
{}
