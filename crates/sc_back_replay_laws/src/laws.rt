// The law, the contract of a function with nothing to do.

ghost use Rattle.sc_back_replay_laws.specs.Replay.{TextsPerform};

/// A program in which texts perform parts of a trace that its interfaces allow, by a counter in each compartment, emits
/// what the program emits in which these compartments perform their parts, and blames none of them.
pub fn texts_perform()
    ensures { TextsPerform }
{}
