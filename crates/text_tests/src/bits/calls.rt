//! Calls of operations, as the tables give them, and their answers.
ghost use Rattle.std.specs.Prelude.{IfSome};
ghost use Rattle.gg_bits.specs.Shape.{shape, Fits};

use gg_bits::{
    Bad, Kind, Op1, Op2, OpN, Ty, Val, apply_const, apply1, apply2, extend, mux, result_const,
    result_mux, result1, result2,
};

// A kind, a width and a pattern.
pub(crate) type Typed = (Kind, u32, u128);

// The answer of a call: the type and the pattern of its result, or the first thing that is wrong.
pub(crate) type Answer = Result<Typed, Bad>;

// A call and its answer.
pub(crate) type Row = (Call, Answer);

// A call of an operation.
#[derive(Clone, Copy)]
pub(crate) enum Call {
    // An operation on one value.
    One(Op1, Typed),
    // An operation on two values.
    Two(Op2, Typed, Typed),
    // An operation with two parameters.
    Const(OpN, Typed, u32, u32),
    // A choice of two values by a condition.
    Mux(Typed, Typed, Typed),
    // A value, extended to a width.
    Extend(Typed, u32),
}

// The type and the value of an operand, if there are such.
fn operand(a: Typed) -> Option<(Ty, Val)>
    ensures { IfSome result (λ operand. Fits (shape operand.0) operand.1.0) }
{
    let (kind, width, pattern) = a;
    if width < 1 || width > Ty::MAX_WIDTH || (width < 128 && pattern >= 1 << width) {
        return None;
    }
    Some((Ty::new(kind, width), Val(pattern)))
}

fn of_one(op: Op1, a: Typed) -> Option<Answer> {
    let (ty, x) = operand(a)?;
    let answer = match result1(op, ty) {
        Ok(of) => Ok((of.kind, of.width, apply1(op, ty, x).0)),
        Err(bad) => Err(bad),
    };
    Some(answer)
}

fn of_two(op: Op2, a: Typed, b: Typed) -> Option<Answer> {
    let (left, x) = operand(a)?;
    let (right, y) = operand(b)?;
    let answer = match result2(op, left, right) {
        Ok(of) => Ok((of.kind, of.width, apply2(op, left, x, right, y).0)),
        Err(bad) => Err(bad),
    };
    Some(answer)
}

fn of_const(op: OpN, a: Typed, n: u32, m: u32) -> Option<Answer> {
    let (ty, x) = operand(a)?;
    let answer = match result_const(op, ty, n, m) {
        Ok(of) => Ok((of.kind, of.width, apply_const(op, ty, x, n, m).0)),
        Err(bad) => Err(bad),
    };
    Some(answer)
}

fn of_mux(c: Typed, a: Typed, b: Typed) -> Option<Answer> {
    let (condition, chosen) = operand(c)?;
    let (left, x) = operand(a)?;
    let (right, y) = operand(b)?;
    let answer = match result_mux(condition, left, right) {
        Ok(of) => Ok((of.kind, of.width, mux(chosen, left, x, right, y).0)),
        Err(bad) => Err(bad),
    };
    Some(answer)
}

fn of_extend(a: Typed, width: u32) -> Option<Answer> {
    let (ty, x) = operand(a)?;
    if width < ty.width || width > Ty::MAX_WIDTH {
        return None;
    }
    Some(Ok((ty.kind, width, extend(x, ty, width).0)))
}

// The answer of a call. None if an operand doesn't fit its type.
pub(crate) fn answer(call: &Call) -> Option<Answer> {
    match *call {
        Call::One(op, a) => of_one(op, a),
        Call::Two(op, a, b) => of_two(op, a, b),
        Call::Const(op, a, n, m) => of_const(op, a, n, m),
        Call::Mux(c, a, b) => of_mux(c, a, b),
        Call::Extend(a, width) => of_extend(a, width),
    }
}
