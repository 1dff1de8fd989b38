// The laws, each the contract of a function with nothing to do.

ghost use Rattle.sc_opt.specs.Prelude.{ChainGoesAtOnce, OptimiserKeepsMeaning, OptimiserKeepsRules};
ghost use Rattle.sc_opt.specs.Prelude.{OptimiserKeepsShape, ResultsAreLean};

/// In each arithmetic an optimised program has the same traces, ends and stack depths, also where compartments perform
/// their parts of a trace.
#[tactic(auto, using(crate::proofs::Promises::optimiser_keeps_meaning))]
pub fn optimiser_keeps_meaning()
    ensures { OptimiserKeepsMeaning }
{}

/// No operator on constants is left, no copy between temporaries that are assigned in one place each, and nothing that
/// can't be blamed and that nobody reads.
#[tactic(auto, using(crate::proofs::Promises::results_are_lean))]
pub fn results_are_lean()
    ensures { ResultsAreLean }
{}

/// Sections and functions stay in their order with all that they are but their code, which has no more statements.
#[tactic(auto, using(crate::proofs::Promises::optimiser_keeps_shape))]
pub fn optimiser_keeps_shape()
    ensures { OptimiserKeepsShape }
{}

/// Optimised code keeps the rules of three-address code.
#[tactic(auto, using(crate::proofs::Promises::optimiser_keeps_rules))]
pub fn optimiser_keeps_rules()
    ensures { OptimiserKeepsRules }
{}

/// A chain of operators on constants becomes one constant in one pass.
#[tactic(auto, using(crate::proofs::Chaining::chain_goes_at_once))]
pub fn chain_goes_at_once()
    ensures { ChainGoesAtOnce }
{}
