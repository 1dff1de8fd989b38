ghost use Rattle.sc_tac.specs.Prelude.{register_count};
ghost use Rattle.std.specs.Prelude.{◌≡◌};

/// How many registers temporaries may lie in: the places of registers are the numbers below.
pub fn reg_count() -> u32
    ensures { result ≡ register_count }
{
    18
}
