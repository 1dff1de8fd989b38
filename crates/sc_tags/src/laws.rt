//! Laws of the machine with tags. Each law is the contract of a function with nothing to do, for the proofs of callers.

ghost use Rattle.sc_tags.specs.Prelude.{CapabilitiesAreLinear, TagTracesAreKnown, TagsAgree};

/// At each moment of a run one capability is live at each level below the call level, and none at another.
#[tactic(auto, using(crate::proofs::Linear::capabilities_linear))]
pub fn capabilities_are_linear()
    ensures { CapabilitiesAreLinear }
{}

/// Each event of a run names compartments and exports of the image.
#[tactic(auto, using(crate::proofs::KnownEvents::traces_known))]
pub fn tag_traces_are_known()
    ensures { TagTracesAreKnown }
{}

/// Without ranges the machine's trace and stop are those of the machine with regions.
#[tactic(auto, using(crate::proofs::Agree::tags_agree))]
pub fn tags_agree()
    ensures { TagsAgree }
{}
