ghost use Rattle.sc_run_value.specs.Where.{here_of};
ghost use Rattle.std.specs.Prelude.{◌≡◌, ◌≤◌, ◌^◌};

use sc_core::TypedStruct;
use sc_event::CompId;

/// Where an expression stands: the structs of its section, and the call in which it is evaluated, by its compartment,
/// its first block and the number of its function's parameters.
#[derive(Clone, Copy)]
pub struct Scope<'a> {
    pub structs: &'a [TypedStruct],
    pub comp: &'a CompId,
    pub first: i64,
    pub params: u32,
}

impl<'a> Scope<'a> {
    /// The number of the first block of the call. It stands in 63 bits, so that sums with numbers of variables fit.
    #[inline(always)]
    pub fn first_block(&self) -> u64
        ensures number { result ≡ (here_of self.now).first }
        ensures short { result ≤ 2 ^ 63 }
    {
        self.first.unsigned_abs()
    }
}
