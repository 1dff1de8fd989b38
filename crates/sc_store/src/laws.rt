// Laws of loads and stores, each the contract of a function with nothing to do.
#![tactic(auto, using(crate::proofs::Words::laws))]

ghost use Rattle.sc_store.specs.Laws.{GivesStored, KeepsApart, KeepsAddresses};

/// A load of what was stored gives the number, cut to the bytes of the store.
pub fn gives_stored()
    ensures { GivesStored }
{}

/// A load apart from a store gives what it gave before.
pub fn keeps_apart()
    ensures { KeepsApart }
{}

/// A store leaves the same addresses with a byte.
pub fn keeps_addresses()
    ensures { KeepsAddresses }
{}
