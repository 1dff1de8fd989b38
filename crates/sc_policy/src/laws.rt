//! The laws, each the contract of a function with nothing to do.

ghost use Rattle.sc_policy.specs.Lines.{lines_of};
ghost use Rattle.sc_policy.specs.Policies.{IsBadAt, IsPolicyRead};
ghost use Rattle.sc_policy.specs.declared.read.PolicyRead.{PolicyRead};
ghost use Rattle.std.specs.Prelude.{◌≡◌, ℕ, List};

/// Bytes begin with one policy at most.
pub fn one_policy()
    ensures { (bytes : List ℕ) (one other : PolicyRead) → IsPolicyRead bytes one → IsPolicyRead bytes other
        → one ≡ other }
{}

/// Where bytes begin with a policy no line is bad, and at most one line is.
pub fn policy_or_bad()
    ensures either { (bytes : List ℕ) (read : PolicyRead) (line : ℕ) → IsPolicyRead bytes read
        → IsBadAt (lines_of bytes) line → ⊥ }
    ensures line { (lines : List (List ℕ)) (one other : ℕ) → IsBadAt lines one → IsBadAt lines other → one ≡ other }
{}
