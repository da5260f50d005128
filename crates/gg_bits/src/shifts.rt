//! Shifts of a value's number.
ghost use Rattle.std.specs.Prelude.{◌≡◌, pos, ◌*ℤ◌, ◌^◌, ◌<◌, FitsSigned};
ghost use Rattle.std.specs.Int.{w128};
ghost use Rattle.gg_bits.specs.Value.{pattern_of};
ghost use Rattle.gg_bits.specs.Shape.{shape, number, Fits};
ghost use Rattle.gg_bits.specs.Meaning.{floor_by};

use crate::patterns::{signed_number, wide};
use crate::types::{Kind, Ty, Val};

// The number times 2 to the power of `by`.
pub(crate) fn shift_left(ty: Ty, v: Val, by: u32) -> u128
    requires few { by < 128 }
    requires typed { Fits (shape ty) v.0 }
    ensures { result ≡ pattern_of 128 (number (shape ty) v.0 *ℤ pos (2 ^ by)) }
{
    wide(ty, v) << by
}

// The number divided by 2 to the power of `by`, rounded down.
pub(crate) fn shift_right(ty: Ty, v: Val, by: u128) -> u128
    requires { Fits (shape ty) v.0 }
    ensures { result ≡ pattern_of 128 (floor_by (number (shape ty) v.0) by) }
{
    match ty.kind {
        Kind::UInt if by < 128 => v.0 >> by as u32,
        Kind::UInt => 0,
        Kind::SInt => shift_signed_right(signed_number(ty, v), by),
    }
}

// `x` divided by 2 to the power of `by`, rounded down: the sign is shifted in.
fn shift_signed_right(x: i128, by: u128) -> u128
    ensures { result ≡ pattern_of 128 (floor_by x by) }
{
    (x >> by.min(127) as u32).cast_unsigned()
}
