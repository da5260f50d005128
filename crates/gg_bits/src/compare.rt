//! Comparisons of two values' numbers.
ghost use Rattle.std.specs.Prelude.{◌≡◌, int_lt};
ghost use Rattle.std.specs.Ordering.{int_eq};
ghost use Rattle.gg_bits.specs.Shape.{shape, number, Fits};

use crate::patterns::signed_number;
use crate::types::{Kind, Ty, Val};

// Whether the first number is less.
pub(crate) fn less(ta: Ty, a: Val, tb: Ty, b: Val) -> bool
    requires kinds { ta.kind ≡ tb.kind }
    requires first { Fits (shape ta) a.0 }
    requires second { Fits (shape tb) b.0 }
    ensures { result ≡ int_lt (number (shape ta) a.0) (number (shape tb) b.0) }
{
    match ta.kind {
        Kind::UInt => a.0 < b.0,
        Kind::SInt => signed_number(ta, a) < signed_number(tb, b),
    }
}

// Whether the numbers are equal.
pub(crate) fn equal(ta: Ty, a: Val, tb: Ty, b: Val) -> bool
    requires kinds { ta.kind ≡ tb.kind }
    requires first { Fits (shape ta) a.0 }
    requires second { Fits (shape tb) b.0 }
    ensures { result ≡ int_eq (number (shape ta) a.0) (number (shape tb) b.0) }
{
    match ta.kind {
        Kind::UInt => a.0 == b.0,
        Kind::SInt => signed_number(ta, a) == signed_number(tb, b),
    }
}
