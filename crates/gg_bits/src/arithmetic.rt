//! Sums, products and quotients of two values' numbers, as patterns of 128 bits.
ghost use Rattle.std.specs.Prelude.{◌≡◌, ◌+ℤ◌, ◌-ℤ◌, ◌*ℤ◌, ◌^◌, ◌<◌, ◌≤◌, pos, unsigned_abs};
ghost use Rattle.gg_bits.specs.Value.{pattern_of};
ghost use Rattle.gg_bits.specs.Shape.{shape, number, Fits};
ghost use Rattle.gg_bits.specs.Meaning.{quotient as quotient_of, remainder as remainder_of};

use crate::patterns::{signed_number, wide};
use crate::types::{Kind, Ty, Val};

// The sum.
pub(crate) fn sum(ta: Ty, a: Val, tb: Ty, b: Val) -> u128
    requires first { Fits (shape ta) a.0 }
    requires second { Fits (shape tb) b.0 }
    ensures { result ≡ pattern_of 128 (number (shape ta) a.0 +ℤ number (shape tb) b.0) }
{
    wide(ta, a).wrapping_add(wide(tb, b))
}

// The difference.
pub(crate) fn difference(ta: Ty, a: Val, tb: Ty, b: Val) -> u128
    requires first { Fits (shape ta) a.0 }
    requires second { Fits (shape tb) b.0 }
    ensures { result ≡ pattern_of 128 (number (shape ta) a.0 -ℤ number (shape tb) b.0) }
{
    wide(ta, a).wrapping_sub(wide(tb, b))
}

// The product.
pub(crate) fn product(ta: Ty, a: Val, tb: Ty, b: Val) -> u128
    requires first { Fits (shape ta) a.0 }
    requires second { Fits (shape tb) b.0 }
    ensures { result ≡ pattern_of 128 (number (shape ta) a.0 *ℤ number (shape tb) b.0) }
{
    wide(ta, a).wrapping_mul(wide(tb, b))
}

// The quotient, cut towards zero; 0 where the divisor is 0.
#[inline(never)]
pub(crate) fn quotient(ta: Ty, a: Val, tb: Ty, b: Val) -> u128
    requires kinds { ta.kind ≡ tb.kind }
    requires room { ta.kind ≡ Kind.SInt → ta.width < 128 }
    requires first { Fits (shape ta) a.0 }
    requires second { Fits (shape tb) b.0 }
    ensures { result ≡ pattern_of 128 (quotient_of (number (shape ta) a.0) (number (shape tb) b.0)) }
{
    match ta.kind {
        Kind::UInt => a.0.checked_div(b.0).unwrap_or(0),
        Kind::SInt => signed_quotient(signed_number(ta, a), signed_number(tb, b)),
    }
}

// The quotient of signed numbers.
fn signed_quotient(x: i128, y: i128) -> u128
    requires { unsigned_abs x < 2 ^ 127 }
    ensures { result ≡ pattern_of 128 (quotient_of x y) }
{
    if y == 0 { 0 } else { (x / y).cast_unsigned() }
}

// The remainder, with the dividend's sign; 0 where the divisor is 0.
#[inline(never)]
pub(crate) fn remainder(ta: Ty, a: Val, tb: Ty, b: Val) -> u128
    requires kinds { ta.kind ≡ tb.kind }
    requires first { Fits (shape ta) a.0 }
    requires second { Fits (shape tb) b.0 }
    ensures { result ≡ pattern_of 128 (remainder_of (number (shape ta) a.0) (number (shape tb) b.0)) }
{
    match ta.kind {
        Kind::UInt => a.0.checked_rem(b.0).unwrap_or(0),
        Kind::SInt => signed_remainder(signed_number(ta, a), signed_number(tb, b)),
    }
}

// The remainder of signed numbers.
fn signed_remainder(x: i128, y: i128) -> u128
    ensures { result ≡ pattern_of 128 (remainder_of x y) }
{
    if y == 0 {
        0
    } else {
        x.wrapping_rem(y).cast_unsigned()
    }
}
