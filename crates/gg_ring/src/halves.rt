//! A value of the two words of a place.
ghost use Rattle.std.specs.Prelude.{◌≡◌, ◌+◌, ◌*◌};

pub(crate) fn joined(low: u64, high: u64) -> u128
    ensures { result ≡ high * 18446744073709551616 + low }
{
    u128::from(high) * (1 << 64) + u128::from(low)
}
