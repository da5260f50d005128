//! The types of operations on operands of any width (FIRRTL Specification, "Primitive Operations").
ghost use Rattle.std.specs.Prelude.{◌≡◌, ℕ, min, true};
ghost use Rattle.gg_bits.specs.Shape.{of_kind};
ghost use Rattle.gg_bits.specs.inside.Shape.{shape_of};
ghost use Rattle.gg_bits.specs.ResultType.{within, shape1, type1, kinds2, shape2, type2, params_const, shape_const, type_const, type_mux};

use gg_bits::{Bad, Kind, Op1, Op2, OpN, Ty, shifted_width};

// The type of the result of an operation on one value, or that its width is 0 or above 128.
pub(crate) fn result1(op: Op1, kind: Kind, width: u32) -> Result<Ty, Bad>
    ensures { shape_of result ≡ type1 op (of_kind kind width) }
{
    match op {
        Op1::AsUInt | Op1::Not => judged(Kind::UInt, width),
        Op1::AsSInt => judged(Kind::SInt, width),
        Op1::Cvt => match kind {
            Kind::UInt => judged(Kind::SInt, width.saturating_add(1)),
            Kind::SInt => judged(Kind::SInt, width),
        },
        Op1::Neg => judged(Kind::SInt, width.saturating_add(1)),
        Op1::Andr | Op1::Orr | Op1::Xorr => judged(Kind::UInt, 1),
    }
}

// The type of the result of an operation on two values, or what is wrong first: their kinds, then its width.
pub(crate) fn result2(op: Op2, ka: Kind, a: u32, kb: Kind, b: u32) -> Result<Ty, Bad>
    ensures { shape_of result ≡ type2 op (of_kind ka a) (of_kind kb b) }
{
    if !takes_kinds(op, ka, a, kb) {
        return Err(Bad::Kind);
    }
    match op {
        Op2::Add | Op2::Sub => judged(ka, a.max(b).saturating_add(1)),
        Op2::Mul => judged(ka, a.saturating_add(b)),
        Op2::Div => match ka {
            Kind::UInt => judged(Kind::UInt, a),
            Kind::SInt => judged(Kind::SInt, a.saturating_add(1)),
        },
        Op2::Rem => judged(ka, a.min(b)),
        Op2::Lt | Op2::Leq | Op2::Gt | Op2::Geq | Op2::Eq | Op2::Neq => judged(Kind::UInt, 1),
        Op2::Dshl => judged(ka, shifted_width(a, b)),
        Op2::Dshr => judged(ka, a),
        Op2::And | Op2::Or | Op2::Xor => judged(Kind::UInt, a.max(b)),
        Op2::Cat => judged(Kind::UInt, a.saturating_add(b)),
        Op2::Validif => judged(kb, b),
    }
}

// Whether an operation takes operands of these kinds, the first of this width.
fn takes_kinds(op: Op2, ka: Kind, a: u32, kb: Kind) -> bool
    ensures { (b : ℕ) → result ≡ kinds2 op (of_kind ka a) (of_kind kb b) }
{
    match op {
        Op2::Dshl | Op2::Dshr => kb == Kind::UInt,
        Op2::Validif => ka == Kind::UInt && a == 1,
        _ => ka == kb,
    }
}

// The type of the result of an operation with parameters, or what is wrong first: the parameters, then its width.
pub(crate) fn result_const(op: OpN, kind: Kind, width: u32, n: u32, m: u32) -> Result<Ty, Bad>
    ensures { shape_of result ≡ type_const op (of_kind kind width) n m }
{
    match op {
        OpN::Pad => judged(kind, width.max(n)),
        OpN::Shl => judged(kind, width.saturating_add(n)),
        OpN::Shr => judged(kind, width.saturating_sub(n).max(1)),
        OpN::Bits if m <= n && n < width => judged(Kind::UInt, n - m + 1),
        OpN::Head if n <= width => judged(Kind::UInt, n),
        OpN::Tail if n <= width => judged(Kind::UInt, width - n),
        OpN::Bits | OpN::Head | OpN::Tail => Err(Bad::Param),
    }
}

// The type of `mux(c, a, b)`, or what is wrong first: the kinds, then its width.
pub(crate) fn result_mux(kc: Kind, c: u32, ka: Kind, a: u32, kb: Kind, b: u32) -> Result<Ty, Bad>
    ensures { shape_of result ≡ type_mux (of_kind kc c) (of_kind ka a) (of_kind kb b) }
{
    if kc != Kind::UInt || c != 1 || ka != kb {
        return Err(Bad::Kind);
    }
    judged(ka, a.max(b))
}

// The type of this kind and width, if the width is 1 to 128. A width above 4,294,967,295 is passed as that number.
fn judged(kind: Kind, width: u32) -> Result<Ty, Bad>
    ensures { (w : ℕ) → width ≡ min w 4294967295 → shape_of result ≡ within (of_kind kind w) }
{
    if width == 0 || width > Ty::MAX_WIDTH {
        return Err(Bad::Width(width));
    }
    Ok(Ty::new(kind, width))
}
