//! Operations on one value (FIRRTL Specification, "Primitive Operations").
ghost use Rattle.std.specs.Prelude.{◌≡◌, ◌≤◌, neg_ℤ, Ok, IsOk, IfOk};
ghost use Rattle.gg_bits.specs.Value.{pattern_of};
ghost use Rattle.gg_bits.specs.Shape.{shape, number, Fits};
ghost use Rattle.gg_bits.specs.inside.Shape.{shape_of};
ghost use Rattle.gg_bits.specs.ResultType.{shape1, type1};
ghost use Rattle.gg_bits.specs.Meaning.{meaning1, value1};

use crate::judge::judge_width;
use crate::ops::Op1;
use crate::patterns::{bit, extend, fit, ones, wide};
use crate::types::{Bad, Kind, Ty, Val};

/// The type of the operation's result. Operands of both kinds are allowed.
///
/// # Errors
///
/// Returns `Width` if the result would have more than 128 bits.
pub fn result1(op: Op1, ty: Ty) -> Result<Ty, Bad>
    ensures exact { shape_of result ≡ type1 op (shape ty) }
    ensures ok { IfOk result (λ answer. shape answer ≡ shape1 op (shape ty)) }
{
    let (kind, width) = kind_and_width1(op, ty);
    judge_width(kind, width)
}

/// The operation's result.
pub fn apply1(op: Op1, ty: Ty, v: Val) -> Val
    requires accepted { IsOk (type1 op (shape ty)) }
    requires typed { Fits (shape ty) v.0 }
    ensures value { result.0 ≡ value1 op (shape ty) v.0 }
    ensures typed { IfOk (type1 op (shape ty)) (λ s. Fits s result.0) }
{
    let (_, width) = kind_and_width1(op, ty);
    Val(pattern1(op, width, ty, v))
}

/// The operation's result, where its type is known.
#[inline(always)]
pub fn apply1_to(op: Op1, to: Ty, ty: Ty, v: Val) -> Val
    requires accepted { type1 op (shape ty) ≡ Ok (shape to) }
    requires typed { Fits (shape ty) v.0 }
    ensures value { result.0 ≡ value1 op (shape ty) v.0 }
    ensures typed { Fits (shape to) result.0 }
{
    Val(pattern1(op, to.width, ty, v))
}

// The kind and the width of the result, before the width is checked.
fn kind_and_width1(op: Op1, ty: Ty) -> (Kind, u32)
    ensures kind { result.0 ≡ (shape1 op (shape ty)).kind }
    ensures width { result.1 ≡ (shape1 op (shape ty)).width }
    ensures small { result.1 ≤ 129 }
{
    match op {
        Op1::AsUInt | Op1::Not => (Kind::UInt, ty.width),
        Op1::AsSInt => (Kind::SInt, ty.width),
        Op1::Cvt => match ty.kind {
            Kind::UInt => (Kind::SInt, ty.width + 1),
            Kind::SInt => (Kind::SInt, ty.width),
        },
        Op1::Neg => (Kind::SInt, ty.width + 1),
        Op1::Andr | Op1::Orr | Op1::Xorr => (Kind::UInt, 1),
    }
}

// The pattern of the operation's meaning, in the width of its result.
#[inline(always)]
fn pattern1(op: Op1, width: u32, ty: Ty, v: Val) -> u128
    requires width { width ≡ (shape1 op (shape ty)).width }
    requires few { width ≤ 128 }
    requires typed { Fits (shape ty) v.0 }
    ensures { result ≡ pattern_of width (meaning1 op (shape ty) v.0) }
{
    match op {
        Op1::AsUInt | Op1::AsSInt => v.0,
        Op1::Cvt => extend(v, ty, width).0,
        Op1::Neg => fit(negate(ty, v), width),
        Op1::Not => ones(ty.width) - v.0,
        Op1::Andr => bit(v.0 == ones(ty.width)),
        Op1::Orr => bit(v.0 != 0),
        Op1::Xorr => bit(v.0.count_ones() % 2 == 1),
    }
}

// Minus the number.
fn negate(ty: Ty, v: Val) -> u128
    requires { Fits (shape ty) v.0 }
    ensures { result ≡ pattern_of 128 (neg_ℤ (number (shape ty) v.0)) }
{
    0u128.wrapping_sub(wide(ty, v))
}
