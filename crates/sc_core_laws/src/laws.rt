// Laws of the meaning, each the contract of a function with nothing to do.

ghost use Rattle.sc_core_laws.specs.Prelude.{AgreeingRunAlike, BlameIsPassed, BlameRemains, BlamedAreThere};
ghost use Rattle.sc_core_laws.specs.Prelude.{BlamedStandActive};
ghost use Rattle.sc_core_laws.specs.Prelude.{ChainExists, ChainIsLeast, ChainsRise, DeepestIsReached, DepthsAreKept};
ghost use Rattle.sc_core_laws.specs.Prelude.{EmptySetIsMeaning, FixedPoint, MeaningGoesOn, MoreGoesOn, MoreMayPerform};
ghost use Rattle.sc_core_laws.specs.Prelude.{NobodyWhoPerformsIsBlamed, OnlyGoesOn, OtherLinesAgree, ProgramsObey};
ghost use Rattle.sc_core_laws.specs.Prelude.{PromisingRunAlike, TracesAreLegal, TurnsOutMeansTurns, WrappedAgrees};
ghost use Rattle.sc_core_laws.specs.Prelude.{WrappingAgrees};

/// The functions of a program denote interaction trees: what is given or blamed, what the blocks of the compartment
/// decide, and what comes after new blocks, after a turn and after a call. All laws hold of such denotations.
pub fn programs_obey()
    ensures { ProgramsObey }
{}

/// Whatever a function does, events are appended to those that were emitted, no turn comes back, and it stops the run
/// only for a blame or for want of turns.
pub fn only_goes_on()
    ensures { OnlyGoesOn }
{}

/// What functions do with as many open calls as they have turns is what they do by just that, and any greater bound on
/// open calls is as good.
pub fn fixed_point()
    ensures { FixedPoint }
{}

/// More turns and more events extend a run in which some compartments perform a script, and change none that came to
/// its end or to a blame.
pub fn more_goes_on()
    ensures { MoreGoesOn }
{}

/// Where some compartments perform a script, the arithmetic that wraps gives the same run up to the first blame for
/// arithmetic.
pub fn wrapping_agrees()
    ensures { WrappingAgrees }
{}

/// Where more compartments perform their parts of a trace that a run emits, it still emits the trace.
pub fn more_may_perform()
    ensures { MoreMayPerform }
{}

/// A blame that comes along the trace stays where more compartments perform, unless the blamed one is of these.
pub fn blame_remains()
    ensures { BlameRemains }
{}

/// A blame is passed where the blamed compartment performs too, unless it wants a turn or a row right there.
pub fn blame_is_passed()
    ensures { BlameIsPassed }
{}

/// A set of compartments gives the trace exactly where it has every compartment of the chain.
pub fn chain_is_least()
    ensures { ChainIsLeast }
{}

/// Where no compartment performs, the scripted meaning is the meaning, also where every operator gives a word.
pub fn empty_set_is_meaning()
    ensures { EmptySetIsMeaning }
{}

/// With more turns or more events a run of the meaning goes on, and one that the program itself ended stays as it is.
pub fn meaning_goes_on()
    ensures { MeaningGoesOn }
{}

/// Where every operator gives a word, a run emits the same events up to the first blame for arithmetic.
pub fn wrapped_agrees()
    ensures { WrappedAgrees }
{}

/// What a run emits is allowed by the interfaces of its program, also where compartments perform.
pub fn traces_are_legal()
    ensures { TracesAreLegal }
{}

/// No compartment that performs its part of a trace is blamed, whatever the trace is.
pub fn nobody_who_performs_is_blamed()
    ensures { NobodyWhoPerformsIsBlamed }
{}

/// Only compartments that there are are blamed, also where some perform.
pub fn blamed_are_there()
    ensures { BlamedAreThere }
{}

/// The compartment that a run blames is the one that stands active after the run's events, whichever compartments
/// perform.
pub fn blamed_stand_active()
    ensures { BlamedStandActive }
{}

/// The blames of a chain come after ever more events of the trace, all before its end, and their compartments differ.
pub fn chains_rise()
    ensures { ChainsRise }
{}

/// Where every set emits the trace or is blamed outside of itself along it, there is a chain, of at most as many links
/// as there are compartments.
pub fn chain_exists()
    ensures { ChainExists }
{}

/// The depth of a run is at least the stack depth at any moment before its cut.
pub fn deepest_is_reached()
    ensures { DeepestIsReached }
{}

/// Each change of frames is of a moment within the trace, the greatest depth is the stack depth at one before the cut,
/// a call that returns leaves the stack depths as they were, and no call emits the end of the run.
pub fn depths_are_kept()
    ensures { DepthsAreKept }
{}

/// A run that ends for want of turns has none left, where `main` is there. Where compartments perform their parts of a
/// trace, this holds while an event of the trace is to come, and where the active compartment doesn't perform.
pub fn turns_out_means_turns()
    ensures { TurnsOutMeansTurns }
{}

/// Where two denotations agree function by function but for the lines of blames, so do their runs, in trace, end and
/// stack depth, whatever their functions carry and whichever compartments perform.
pub fn agreeing_run_alike()
    ensures { AgreeingRunAlike }
{}

/// The same where functions agree only where their calls agree and give the results that they promise.
#[tactic(auto, using(crate::proofs::Promises::promising_run_alike))]
pub fn promising_run_alike()
    ensures { PromisingRunAlike }
{}

/// A program whose trees stand on other lines has denotations that agree with its own but for the lines of blames.
pub fn other_lines_agree()
    ensures { OtherLinesAgree }
{}
