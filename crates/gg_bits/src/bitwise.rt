//! Bitwise operations on two values.
ghost use Rattle.std.specs.Prelude.{◌≡◌, ◌+◌, ◌*◌, ◌^◌, ◌<◌, ◌≤◌, max, pos, bit_and, bit_or, bit_xor};
ghost use Rattle.gg_bits.specs.Value.{pattern_of};
ghost use Rattle.gg_bits.specs.Shape.{shape, Fits};
ghost use Rattle.gg_bits.specs.Meaning.{extended};

use crate::patterns::extend;
use crate::types::{Kind, Ty, Val};

// The bits that both have, after extension to the wider width.
pub(crate) fn both(width: u32, ta: Ty, a: Val, tb: Ty, b: Val) -> u128
    requires kinds { ta.kind ≡ tb.kind }
    requires width { width ≡ max ta.width tb.width }
    requires first { Fits (shape ta) a.0 }
    requires second { Fits (shape tb) b.0 }
    ensures { result ≡ pattern_of width (pos (bit_and (extended (shape ta) width a.0) (extended (shape tb) width b.0))) }
{
    let (a, b) = extend_both(width, ta, a, tb, b);
    a.0 & b.0
}

// The bits that one has or both have, after extension to the wider width.
pub(crate) fn either(width: u32, ta: Ty, a: Val, tb: Ty, b: Val) -> u128
    requires kinds { ta.kind ≡ tb.kind }
    requires width { width ≡ max ta.width tb.width }
    requires first { Fits (shape ta) a.0 }
    requires second { Fits (shape tb) b.0 }
    ensures { result ≡ pattern_of width (pos (bit_or (extended (shape ta) width a.0) (extended (shape tb) width b.0))) }
{
    let (a, b) = extend_both(width, ta, a, tb, b);
    a.0 | b.0
}

// The bits that just one has, after extension to the wider width.
pub(crate) fn differing(width: u32, ta: Ty, a: Val, tb: Ty, b: Val) -> u128
    requires kinds { ta.kind ≡ tb.kind }
    requires width { width ≡ max ta.width tb.width }
    requires first { Fits (shape ta) a.0 }
    requires second { Fits (shape tb) b.0 }
    ensures { result ≡ pattern_of width (pos (bit_xor (extended (shape ta) width a.0) (extended (shape tb) width b.0))) }
{
    let (a, b) = extend_both(width, ta, a, tb, b);
    a.0 ^ b.0
}

// The bits of `a` above the bits of `b`.
pub(crate) fn concatenate(_ta: Ty, a: Val, tb: Ty, b: Val) -> u128
    requires few { _ta.width + tb.width ≤ 128 }
    requires first { Fits (shape _ta) a.0 }
    requires second { Fits (shape tb) b.0 }
    ensures { result ≡ pattern_of (_ta.width + tb.width) (pos (a.0 * 2 ^ tb.width + b.0)) }
{
    a.0 << tb.width | b.0
}

// Both values in this width, which is the wider one's.
fn extend_both(width: u32, ta: Ty, a: Val, tb: Ty, b: Val) -> (Val, Val)
    requires kinds { ta.kind ≡ tb.kind }
    requires width { width ≡ max ta.width tb.width }
    requires first { Fits (shape ta) a.0 }
    requires second { Fits (shape tb) b.0 }
    ensures first { result.0.0 ≡ extended (shape ta) width a.0 }
    ensures second { result.1.0 ≡ extended (shape tb) width b.0 }
    ensures fits { (result.0.0 < 2 ^ width) × (result.1.0 < 2 ^ width) }
{
    match ta.kind {
        Kind::UInt => (a, b),
        Kind::SInt => (extend(a, ta, width), extend(b, tb, width)),
    }
}
