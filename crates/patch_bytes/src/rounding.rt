ghost use Rattle.std.specs.Prelude.{◌^◌, ◌≤◌, ◌<◌};
ghost use Rattle.std.specs.Int.{next_multiple_of};
ghost use Rattle.std.specs.Option.{SomeIff};
ghost use Rattle.patch_bytes.specs.Rounding.{IsLeastMultiple};

/// The least multiple of `unit` at or above `n`, or `None` where that does not fit 64 bits. Takes no
/// memory.
pub fn round_up(n: u64, unit: u64) -> Option<u64>
    requires { 1 ≤ unit }
    ensures value { SomeIff result (next_multiple_of n unit < 2 ^ 64) (next_multiple_of n unit) }
    ensures least { IsLeastMultiple n unit (next_multiple_of n unit) }
{
    n.checked_next_multiple_of(unit)
}
