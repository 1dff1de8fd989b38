ghost use Rattle.sc_alloc.specs.Prelude.{AreRegisters, GivesRegister, Placement, is_over, register_count, register_for};
ghost use Rattle.std.specs.Prelude.{◌≡◌, ◌≤◌, [], List, Some, None, MatchOption, replicate};
ghost use Rattle.std.specs.List.{position, slice_set};

use sc_tac::Interval;

/// Of each register, where the interval ends that got it last.
#[derive(Drop)]
pub struct Registers {
    lasts: [Option<u32>; 18],
}

fn is_over(at: u32, last: &Option<u32>) -> bool
    ensures { result ≡ is_over at last.now }
{
    match last {
        None => true,
        Some(last) => *last < at,
    }
}

impl Registers {
    pub fn new() -> Registers
        ensures none { result.lasts ≡ replicate register_count None }
        ensures rules { AreRegisters [] result.lasts }
    {
        Registers { lasts: [None; 18] }
    }

    fn free_at(&self, at: u32) -> Option<usize>
        ensures { result ≡ position (is_over at) self.now.lasts }
    {
        self.lasts.iter().position(|last| is_over(at, last))
    }

    /// The first register that is free where the interval begins, and belongs to it from then on. One over a call gets
    /// none.
    pub fn give(&mut self, interval: &Interval) -> Option<u8>
        requires { interval.now.first ≤ interval.now.last }
        ensures register { result ≡ register_for interval.now self.old.lasts }
        ensures lasts { MatchOption result (self.new.lasts ≡ self.old.lasts)
            (λ r. self.new.lasts ≡ slice_set self.old.lasts r (Some interval.now.last)) }
        ensures rules { (placements : List Placement) → AreRegisters placements self.old.lasts →
            GivesRegister placements interval.now self.new.lasts result }
    {
        if interval.spans_call {
            return None;
        }
        match self.free_at(interval.first) {
            None => None,
            Some(register) => {
                self.lasts[register] = Some(interval.last);
                Some(register as u8)
            }
        }
    }
}
