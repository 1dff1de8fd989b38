ghost use Rattle.sc_base.specs.Prelude.{most_params};
ghost use Rattle.sc_image.specs.Prelude.{cleared_for_call, cleared_for_return, is_argument, kept};
ghost use Rattle.sc_gate.specs.Clearing.{KeepsNone, cleared_first};
ghost use Rattle.std.specs.Prelude.{Bool, List, length, ◌≡◌, ◌≤◌, ℕ};

use sc_image::layout::A0;

/// Puts 0 into every register that doesn't hold one of `params` arguments, at most 8. They lie in a0 to a7.
pub fn clear_for_call(regs: &mut [u32; 32], params: u8)
    requires { params ≤ most_params }
    ensures { regs.new ≡ cleared_for_call params regs.old }
{
    keep(regs, params as usize);
}

/// Puts 0 into every register that doesn't hold the result, which is in a0 where there is one.
pub fn clear_for_ret(regs: &mut [u32; 32], has_result: bool)
    ensures { regs.new ≡ cleared_for_return has_result regs.old }
{
    keep(regs, usize::from(has_result));
}

/// Puts 0 into every register but the `count` from a0 on.
fn keep(regs: &mut [u32; 32], count: usize)
    requires { count ≤ most_params }
    ensures { regs.new ≡ kept (is_argument count) regs.old }
{
    clear(regs, 0, A0);
    clear(regs, A0 + count, 32);
}

/// Puts 0 into the registers from one number on, up to another.
#[inline(always)]
fn clear(regs: &mut [u32; 32], from: usize, to: usize)
    requires within { to ≤ 32 }
    requires order { from ≤ to }
    ensures { (keeps : ℕ → Bool) (all : List ℕ) → length all ≡ 32 → KeepsNone keeps from to →
        regs.old ≡ cleared_first keeps from all → regs.new ≡ cleared_first keeps to all }
{
    for number in from..to {
        regs[number] = 0;
    }
}
