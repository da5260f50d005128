//! Operations on two values (FIRRTL Specification, "Primitive Operations").
ghost use Rattle.std.specs.Prelude.{◌≡◌, ◌+◌, ◌-◌, ◌^◌, ◌≤◌, min, true, Ok, IsOk, IfOk};
ghost use Rattle.gg_bits.specs.Value.{pattern_of};
ghost use Rattle.gg_bits.specs.Shape.{shape, Fits};
ghost use Rattle.gg_bits.specs.inside.Shape.{shape_of};
ghost use Rattle.gg_bits.specs.ResultType.{kinds2, shape2, type2};
ghost use Rattle.gg_bits.specs.Meaning.{meaning2, value2};

use crate::arithmetic::{difference, product, quotient, remainder, sum};
use crate::bitwise::{both, concatenate, differing, either};
use crate::compare::{equal, less};
use crate::judge::judge_width;
use crate::ops::Op2;
use crate::patterns::{bit, fit};
use crate::shifts::{shift_left, shift_right};
use crate::types::{Bad, Kind, Ty, Val};

/// The type of the operation's result.
///
/// # Errors
///
/// Returns `Kind` if the kinds differ. For a shift: if the amount is signed. For `validif`: if the condition is not
/// `UInt<1>`. Otherwise returns `Width` if the result would have more than 128 bits.
pub fn result2(op: Op2, ta: Ty, tb: Ty) -> Result<Ty, Bad>
    ensures exact { shape_of result ≡ type2 op (shape ta) (shape tb) }
    ensures ok { IfOk result (λ ty. shape ty ≡ shape2 op (shape ta) (shape tb)) }
{
    if !takes_kinds(op, ta, tb) {
        return Err(Bad::Kind);
    }
    let (kind, width) = kind_and_width2(op, ta, tb);
    judge_width(kind, width)
}

/// The operation's result.
pub fn apply2(op: Op2, ta: Ty, a: Val, tb: Ty, b: Val) -> Val
    requires accepted { IsOk (type2 op (shape ta) (shape tb)) }
    requires first { Fits (shape ta) a.0 }
    requires second { Fits (shape tb) b.0 }
    ensures value { result.0 ≡ value2 op (shape ta) a.0 (shape tb) b.0 }
    ensures typed { IfOk (type2 op (shape ta) (shape tb)) (λ s. Fits s result.0) }
{
    let (_, width) = kind_and_width2(op, ta, tb);
    Val(pattern2(op, width, ta, a, tb, b))
}

/// The operation's result, where its type is known.
#[inline(always)]
pub fn apply2_to(op: Op2, to: Ty, ta: Ty, a: Val, tb: Ty, b: Val) -> Val
    requires accepted { type2 op (shape ta) (shape tb) ≡ Ok (shape to) }
    requires first { Fits (shape ta) a.0 }
    requires second { Fits (shape tb) b.0 }
    ensures value { result.0 ≡ value2 op (shape ta) a.0 (shape tb) b.0 }
    ensures typed { Fits (shape to) result.0 }
{
    Val(pattern2(op, to.width, ta, a, tb, b))
}

// Whether the operation takes operands of these kinds.
fn takes_kinds(op: Op2, ta: Ty, tb: Ty) -> bool
    ensures { result ≡ kinds2 op (shape ta) (shape tb) }
{
    match op {
        Op2::Dshl | Op2::Dshr => tb.kind == Kind::UInt,
        Op2::Validif => ta.kind == Kind::UInt && ta.width == 1,
        _ => ta.kind == tb.kind,
    }
}

// The kind and the width of the result, before the width is checked. A width above 4,294,967,295 is returned as that
// number.
fn kind_and_width2(op: Op2, ta: Ty, tb: Ty) -> (Kind, u32)
    ensures kind { result.0 ≡ (shape2 op (shape ta) (shape tb)).kind }
    ensures width { result.1 ≡ min (shape2 op (shape ta) (shape tb)).width 4294967295 }
{
    match op {
        Op2::Add | Op2::Sub => (ta.kind, ta.width.max(tb.width) + 1),
        Op2::Mul => (ta.kind, ta.width + tb.width),
        Op2::Div => match ta.kind {
            Kind::UInt => (Kind::UInt, ta.width),
            Kind::SInt => (Kind::SInt, ta.width + 1),
        },
        Op2::Rem => (ta.kind, ta.width.min(tb.width)),
        Op2::Lt | Op2::Leq | Op2::Gt | Op2::Geq | Op2::Eq | Op2::Neq => (Kind::UInt, 1),
        Op2::Dshl => (ta.kind, shifted_width(ta.width, tb.width)),
        Op2::Dshr => (ta.kind, ta.width),
        Op2::And | Op2::Or | Op2::Xor => (Kind::UInt, ta.width.max(tb.width)),
        Op2::Cat => (Kind::UInt, ta.width + tb.width),
        Op2::Validif => (tb.kind, tb.width),
    }
}

/// The width after a shift to the left by an amount of `amount` bits. A width above 4,294,967,295 is returned as that
/// number.
pub fn shifted_width(width: u32, amount: u32) -> u32
    ensures { result ≡ min (width + 2 ^ amount - 1) 4294967295 }
{
    if amount < 32 {
        width.saturating_add((1 << amount) - 1)
    } else {
        u32::MAX
    }
}

// The pattern of the operation's meaning, in the width of its result.
#[inline(always)]
fn pattern2(op: Op2, width: u32, ta: Ty, a: Val, tb: Ty, b: Val) -> u128
    requires kinds { kinds2 op (shape ta) (shape tb) ≡ true }
    requires width { width ≡ (shape2 op (shape ta) (shape tb)).width }
    requires some { 1 ≤ width }
    requires few { width ≤ 128 }
    requires first { Fits (shape ta) a.0 }
    requires second { Fits (shape tb) b.0 }
    ensures { result ≡ pattern_of width (meaning2 op (shape ta) a.0 (shape tb) b.0) }
{
    match op {
        Op2::Add => fit(sum(ta, a, tb, b), width),
        Op2::Sub => fit(difference(ta, a, tb, b), width),
        Op2::Mul => fit(product(ta, a, tb, b), width),
        Op2::Div => fit(quotient(ta, a, tb, b), width),
        Op2::Rem => fit(remainder(ta, a, tb, b), width),
        Op2::Lt => bit(less(ta, a, tb, b)),
        Op2::Leq => bit(!less(tb, b, ta, a)),
        Op2::Gt => bit(less(tb, b, ta, a)),
        Op2::Geq => bit(!less(ta, a, tb, b)),
        Op2::Eq => bit(equal(ta, a, tb, b)),
        Op2::Neq => bit(!equal(ta, a, tb, b)),
        Op2::Dshl => fit(shift_left(ta, a, b.0 as u32), width),
        Op2::Dshr => fit(shift_right(ta, a, b.0), width),
        Op2::And => both(width, ta, a, tb, b),
        Op2::Or => either(width, ta, a, tb, b),
        Op2::Xor => differing(width, ta, a, tb, b),
        Op2::Cat => concatenate(ta, a, tb, b),
        Op2::Validif => b.0,
    }
}
