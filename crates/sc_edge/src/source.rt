// Where bytes come from.
#![tactic(auto)]

ghost use Rattle.std.specs.Prelude.{◌≡◌, ◌<◌, ◌≤◌, ℕ, List, Option, length, take, Ok, IfOk, OnErr};
ghost use Rattle.sc_edge.specs.Edge.{Rose, Takes, IsAtEnd};

use crate::Failed;

/// Something that bytes are read from, in order, each once.
pub trait Source {
    /// The bytes not yet read, where the source states them.
    ghost left: { Self → Option (List ℕ) };

    /// How often reading has failed. It never falls.
    ghost faults: { Self → ℕ };

    /// Reads some bytes into the start of `buf` and answers how many. 0 is the end of the input; fewer than fit aren't.
    /// What follows them in `buf` isn't specified, nor is anything in it after a `Failed`.
    fn read(&mut self, buf: &mut [u8]) -> Result<usize, Failed>
        requires { 0 < length buf.old }
        ensures within { IfOk result (λ n. n ≤ length buf.old) }
        ensures taken { IfOk result (λ n. Takes (left self.old) (left self.new) (take n buf.new)) }
        ensures end { result ≡ Ok 0 → IsAtEnd (left self.new) }
        ensures nothing { OnErr result (left self.new ≡ left self.old) }
        ensures cause { OnErr result (Rose (faults self.old) (faults self.new)) }
        ensures faults { faults self.old ≤ faults self.new };
}
