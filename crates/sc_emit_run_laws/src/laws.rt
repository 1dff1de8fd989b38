// The laws, each the contract of a function with nothing to do.

ghost use Rattle.sc_emit_run_laws.specs.Prelude.{OutcomesSimulate, ScriptsSimulate, ScriptsStop, Simulates};
ghost use Rattle.sc_emit_run_laws.specs.Prelude.{StandsButFor};

/// From its start, the machine on an image in which the code of a program stands emits what a run of that code emits,
/// unless a stack is full; and it takes no more steps than the turns pay for.
pub fn simulates()
    ensures { Simulates }
{}

/// What the machine does beside a run, in steps, gives the traces of its runs wherever they are stopped: all that the
/// run emits within a bound on steps, or a full stack, and nothing else in as many steps as the run has turns. Where a
/// trap stops it in these, the run is blamed or a stack is full.
pub fn outcomes_simulate()
    ensures { OutcomesSimulate }
{}

/// Where a set of compartments performs its part of the machine's trace, whatever its code does, the run of all other
/// code emits all of that trace, or is blamed before, with as many turns as the machine may take steps.
pub fn scripts_simulate()
    ensures { ScriptsSimulate }
{}

/// Code that stands in an image also stands in each image that differs from it in given compartments only, outside of
/// any set that includes these.
pub fn stands_but_for()
    ensures { StandsButFor }
{}

/// Where a trap stops the machine in a compartment that does not perform, the run in which the others perform their
/// parts of its trace stands where the machine does: it is blamed, or a stack is full.
pub fn scripts_stop()
    ensures { ScriptsStop }
{}
