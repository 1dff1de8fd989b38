// What the sources and sinks share: counts of calls, the calls that fail, and copying what fits.
#![tactic(auto)]

ghost use Rattle.std.specs.Prelude.{◌≡◌, ◌↔◌, ◌++◌, min, length, take, drop, Contains, IsTrue};
ghost use Rattle.sc_edge.specs.Memory.{counted};

pub(crate) fn one_more(count: u64) -> u64
    ensures { result ≡ counted count }
{
    count.saturating_add(1)
}

// Whether the call with this number is to fail.
pub(crate) fn is_listed(fails: &[u32], call: u64) -> bool
    ensures { IsTrue result ↔ Contains fails.now call }
{
    fails.iter().any(|n| u64::from(*n) == call)
}

// Copies as many bytes as both have, and answers how many.
pub(crate) fn copy_prefix(from: &[u8], to: &mut [u8]) -> usize
    ensures count { result ≡ min (length to.old) (length from.now) }
    ensures copied { to.new ≡ take result from.now ++ drop result to.old }
{
    let n = to.len().min(from.len());
    to[..n].copy_from_slice(&from[..n]);
    n
}
