// Where bytes go.
#![tactic(auto)]

ghost use Rattle.std.specs.Prelude.{◌≡◌, ◌<◌, ◌≤◌, ℕ, List, Option, length, take, IfOk, OnErr};
ghost use Rattle.sc_edge.specs.Edge.{Rose, Adds};

use crate::Failed;

/// Something that takes bytes, in order.
pub trait Sink {
    /// The bytes taken so far, where the sink states them.
    ghost written: { Self → Option (List ℕ) };

    /// How often writing has failed. It never falls.
    ghost faults: { Self → ℕ };

    /// Takes the first bytes of `piece`, at least one, and answers how many.
    fn write(&mut self, piece: &[u8]) -> Result<usize, Failed>
        requires { 0 < length piece.now }
        ensures within { IfOk result (λ n. (0 < n) × (n ≤ length piece.now)) }
        ensures added { IfOk result (λ n. Adds (written self.old) (written self.new) (take n piece.now)) }
        ensures nothing { OnErr result (written self.new ≡ written self.old) }
        ensures cause { OnErr result (Rose (faults self.old) (faults self.new)) }
        ensures faults { faults self.old ≤ faults self.new };
}
