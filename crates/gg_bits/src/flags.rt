//! Flags.
ghost use Rattle.std.specs.Prelude.{◌≡◌, ◌||◌};

/// Whether at least one of the two is true.
pub fn either(one: bool, other: bool) -> bool
    ensures { result ≡ (one || other) }
{
    one || other
}
