//! Patterns of 128 bits: the pattern of a value's number, and the bits of a result.
ghost use Rattle.std.specs.Prelude.{◌≡◌, ℤ, ◌-◌, ◌%◌, ◌^◌, ◌<◌, ◌≤◌};
ghost use Rattle.gg_bits.specs.Value.{number_of, pattern_of};
ghost use Rattle.gg_bits.specs.Shape.{shape, number, Fits};
ghost use Rattle.gg_bits.specs.Meaning.{truth, extended};

use crate::types::{Kind, Ty, Val};

// The pattern with the low `width` bits set.
pub(crate) fn ones(width: u32) -> u128
    requires positive { 1 ≤ width }
    requires bounded { width ≤ 128 }
    ensures { result ≡ 2 ^ width - 1 }
{
    if width <= 64 {
        (u64::MAX >> (64 - width)) as u128
    } else {
        u128::MAX >> (128 - width)
    }
}

// The low `width` bits of `x`. If `x` is the pattern of a number in 128 bits, this is its pattern in `width` bits.
pub(crate) fn fit(x: u128, width: u32) -> u128
    requires positive { 1 ≤ width }
    requires bounded { width ≤ 128 }
    ensures low { result ≡ x % 2 ^ width }
    ensures small { result < 2 ^ width }
    ensures fitted { (z : ℤ) → x ≡ pattern_of 128 z → result ≡ pattern_of width z }
{
    x & ones(width)
}

// The pattern in 128 bits of a value's number.
pub(crate) fn wide(ty: Ty, v: Val) -> u128
    requires { Fits (shape ty) v.0 }
    ensures { result ≡ pattern_of 128 (number (shape ty) v.0) }
{
    match ty.kind {
        Kind::UInt => v.0,
        Kind::SInt => sign_extend(v.0, ty.width),
    }
}

// The pattern in 128 bits of the number that `x` encodes in two's complement of `width` bits.
fn sign_extend(x: u128, width: u32) -> u128
    requires positive { 1 ≤ width }
    requires bounded { width ≤ 128 }
    requires small { x < 2 ^ width }
    ensures { result ≡ pattern_of 128 (number_of Kind.SInt width x) }
{
    if width == 128 || x < 1 << (width - 1) {
        x
    } else {
        x.wrapping_sub(1 << width)
    }
}

/// The value of the same number in `width` bits: a `UInt` is extended with zeros, an `SInt` with its sign.
pub fn extend(v: Val, ty: Ty, width: u32) -> Val
    requires typed { Fits (shape ty) v.0 }
    requires longer { ty.width ≤ width }
    requires bounded { width ≤ 128 }
    ensures value { result.0 ≡ extended (shape ty) width v.0 }
    ensures typed { result.0 < 2 ^ width }
{
    match ty.kind {
        Kind::UInt => v,
        Kind::SInt if ty.width == width => v,
        Kind::SInt => Val(fit(sign_extend(v.0, ty.width), width)),
    }
}

// The number of a value of an `SInt` type.
pub(crate) fn signed_number(ty: Ty, v: Val) -> i128
    requires kind { ty.kind ≡ Kind.SInt }
    requires typed { Fits (shape ty) v.0 }
    ensures { result ≡ number (shape ty) v.0 }
{
    wide(ty, v).cast_signed()
}

// The bit of a truth value: 1 if it is true.
pub(crate) fn bit(holds: bool) -> u128
    ensures { result ≡ pattern_of 1 (truth holds) }
{
    if holds { 1 } else { 0 }
}
