//! The laws, each the contract of a function with nothing to do.

ghost use Rattle.sc_monitor.specs.Laws.{IsViolation, NamesNoEvent};
ghost use Rattle.sc_monitor.specs.Verdict.{is_compromised, verdict};
ghost use Rattle.sc_event.specs.declared.interface.Interfaces.{Interfaces};
ghost use Rattle.sc_core.specs.declared.explanation.Explanation.{Explanation};
ghost use Rattle.sc_monitor.specs.declared.verdict.Verdict.TheVariants.{Holds, Violated};
ghost use Rattle.sc_policy.specs.declared.policy.Policy.{Policy};
ghost use Rattle.std.specs.Prelude.{◌≡◌, ℕ, Bool, false, []};

/// A policy whose rules are for no event of the trace holds, in its first state.
pub fn unnamed_events()
    ensures { (policy : Policy) (interfaces : Interfaces) (explanation : Explanation)
        → NamesNoEvent policy.rules interfaces explanation.trace → verdict policy interfaces explanation ≡ Holds 0 }
{}

/// A verdict depends only on the trace, the given compartments and the links: how the machine stopped says nothing.
pub fn trace_and_links()
    ensures { (policy : Policy) (interfaces : Interfaces) (one other : Explanation) → one.trace ≡ other.trace
        → one.given ≡ other.given → one.links ≡ other.links → verdict policy interfaces one ≡ verdict policy interfaces other }
{}

/// Where nobody is given and nothing was replaced, every violation is clean.
pub fn no_links()
    ensures { (policy : Policy) (interfaces : Interfaces) (explanation : Explanation) (after comp rule : ℕ)
        (compromised : Bool) → explanation.given ≡ [] → explanation.links ≡ []
        → verdict policy interfaces explanation ≡ Violated after comp rule compromised → compromised ≡ false }
{}

/// What is called a violation is the first one, and its compartment was compromised exactly where it is given or a link
/// says so.
pub fn first_violations()
    ensures violation { (policy : Policy) (interfaces : Interfaces) (explanation : Explanation) (after comp rule : ℕ)
        (compromised : Bool) → verdict policy interfaces explanation ≡ Violated after comp rule compromised
        → IsViolation policy.rules interfaces explanation.given explanation.links explanation.trace after comp rule }
    ensures replaced { (policy : Policy) (interfaces : Interfaces) (explanation : Explanation) (after comp rule : ℕ)
        (compromised : Bool) → verdict policy interfaces explanation ≡ Violated after comp rule compromised
        → compromised ≡ is_compromised explanation.given explanation.links comp after }
{}
