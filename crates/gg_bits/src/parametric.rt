//! Operations with parameters (FIRRTL Specification, "Primitive Operations").
ghost use Rattle.std.specs.Prelude.{◌≡◌, ◌≤◌, min, true, Ok, IsOk, IfOk};
ghost use Rattle.gg_bits.specs.Value.{pattern_of};
ghost use Rattle.gg_bits.specs.Shape.{shape, Fits};
ghost use Rattle.gg_bits.specs.inside.Shape.{shape_of};
ghost use Rattle.gg_bits.specs.ResultType.{params_const, shape_const, type_const};
ghost use Rattle.gg_bits.specs.Meaning.{meaning_const, value_const};

use crate::judge::judge_width;
use crate::ops::OpN;
use crate::patterns::{extend, fit};
use crate::shifts::{shift_left, shift_right};
use crate::types::{Bad, Kind, Ty, Val};

/// The type of the operation's result. Operands of both kinds are allowed.
///
/// # Errors
///
/// Returns `Param` if `bits` names bits that don't exist, or `head` or `tail` more bits than there are. Otherwise
/// `Width` if the result would have no bit or more than 128.
pub fn result_const(op: OpN, ty: Ty, n: u32, m: u32) -> Result<Ty, Bad>
    ensures exact { shape_of result ≡ type_const op (shape ty) n m }
    ensures ok { IfOk result (λ answer. shape answer ≡ shape_const op (shape ty) n m) }
{
    if !has_params(op, ty, n, m) {
        return Err(Bad::Param);
    }
    let (kind, width) = kind_and_width_const(op, ty, n, m);
    judge_width(kind, width)
}

/// The operation's result.
pub fn apply_const(op: OpN, ty: Ty, v: Val, n: u32, m: u32) -> Val
    requires accepted { IsOk (type_const op (shape ty) n m) }
    requires typed { Fits (shape ty) v.0 }
    ensures value { result.0 ≡ value_const op (shape ty) v.0 n m }
    ensures typed { IfOk (type_const op (shape ty) n m) (λ s. Fits s result.0) }
{
    let (_, width) = kind_and_width_const(op, ty, n, m);
    Val(pattern_const(op, width, ty, v, n, m))
}

/// The operation's result, where its type is known.
#[inline(always)]
pub fn apply_const_to(op: OpN, to: Ty, ty: Ty, v: Val, n: u32, m: u32) -> Val
    requires accepted { type_const op (shape ty) n m ≡ Ok (shape to) }
    requires typed { Fits (shape ty) v.0 }
    ensures value { result.0 ≡ value_const op (shape ty) v.0 n m }
    ensures typed { Fits (shape to) result.0 }
{
    Val(pattern_const(op, to.width, ty, v, n, m))
}

// Whether the bits that the parameters name exist.
fn has_params(op: OpN, ty: Ty, n: u32, m: u32) -> bool
    ensures { result ≡ params_const op (shape ty) n m }
{
    match op {
        OpN::Pad | OpN::Shl | OpN::Shr => true,
        OpN::Bits => m <= n && n < ty.width,
        OpN::Head | OpN::Tail => n <= ty.width,
    }
}

// The kind and the width of the result, before the width is checked. A width above 4,294,967,295 is returned as that
// number.
fn kind_and_width_const(op: OpN, ty: Ty, n: u32, m: u32) -> (Kind, u32)
    requires { params_const op (shape ty) n m ≡ true }
    ensures kind { result.0 ≡ (shape_const op (shape ty) n m).kind }
    ensures width { result.1 ≡ min (shape_const op (shape ty) n m).width 4294967295 }
{
    match op {
        OpN::Pad => (ty.kind, ty.width.max(n)),
        OpN::Shl => (ty.kind, ty.width.saturating_add(n)),
        OpN::Shr => (ty.kind, ty.width.saturating_sub(n).max(1)),
        OpN::Bits => (Kind::UInt, n - m + 1),
        OpN::Head => (Kind::UInt, n),
        OpN::Tail => (Kind::UInt, ty.width - n),
    }
}

// The pattern of the operation's meaning, in the width of its result.
#[inline(always)]
fn pattern_const(op: OpN, width: u32, ty: Ty, v: Val, n: u32, m: u32) -> u128
    requires params { params_const op (shape ty) n m ≡ true }
    requires width { width ≡ (shape_const op (shape ty) n m).width }
    requires some { 1 ≤ width }
    requires few { width ≤ 128 }
    requires typed { Fits (shape ty) v.0 }
    ensures { result ≡ pattern_of width (meaning_const op (shape ty) v.0 n m) }
{
    match op {
        OpN::Pad => extend(v, ty, width).0,
        OpN::Shl => fit(shift_left(ty, v, n), width),
        OpN::Shr => fit(shift_right(ty, v, u128::from(n)), width),
        OpN::Bits => fit(v.0 >> m, width),
        OpN::Head => v.0 >> (ty.width - n),
        OpN::Tail => fit(v.0, width),
    }
}
