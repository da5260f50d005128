//! Comparison of texts.

ghost use Rattle.std.specs.Prelude.{◌≡◌, ◌≢◌};
ghost use Rattle.std.specs.Bool.{OnTrue, OnFalse};

/// Whether two texts have the same bytes.
pub fn same_bytes(one: &[u8], other: &[u8]) -> bool
    ensures same { OnTrue result (one.now ≡ other.now) }
    ensures differ { OnFalse result (one.now ≢ other.now) }
{
    // a function of its own: contracts of its callers then see equal lists instead of `==` on slices
    one == other
}
