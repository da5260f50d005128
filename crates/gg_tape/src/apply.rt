//! The values of instructions.
ghost use Rattle.std.specs.Prelude.{◌≡◌, ◌<◌, Ok, length};
ghost use Rattle.gg_bits.specs.Shape.{shape, Fits};
ghost use Rattle.gg_bits.specs.ResultType.{type1, type2, type_const, shape_mux};
ghost use Rattle.gg_bits.specs.Meaning.{value1, value2, value_const, value_mux};
ghost use Rattle.gg_flat.specs.Line.{value_at};
ghost use Rattle.gg_tape.specs.inside.Instruction.{small, IsOperand, given, CanDo};

use crate::instruction::{Instruction, Operation};
use gg_bits::{Kind, Op1, Op2, OpN, Val, apply_const_to, apply1_to, apply2_to, mux};

// An operation on one value.
#[inline(always)]
fn applied1(op: Op1, i: &Instruction, cells: &[u128]) -> u128
    requires first { IsOperand cells.now i.now.first_ty i.now.first }
    requires accepted { type1 op (small i.now.first_ty) ≡ Ok (small i.now.ty) }
    ensures value { result ≡ value1 op (small i.now.first_ty) (value_at cells.now i.now.first) }
    ensures fits { Fits (small i.now.ty) result }
{
    let a = Val(cells[i.first as usize]);
    match i.first_ty.kind {
        Kind::UInt => apply1_to(op, i.ty.ty(), i.first_ty.natural(), a).0,
        Kind::SInt => any1(op, i, a),
    }
}

// An operation on one value of either kind.
#[inline(never)]
fn any1(op: Op1, i: &Instruction, a: Val) -> u128
    requires first { Fits (small i.now.first_ty) a.0 }
    requires accepted { type1 op (small i.now.first_ty) ≡ Ok (small i.now.ty) }
    ensures value { result ≡ value1 op (small i.now.first_ty) a.0 }
    ensures fits { Fits (small i.now.ty) result }
{
    apply1_to(op, i.ty.ty(), i.first_ty.ty(), a).0
}

// An operation on two values.
#[inline(always)]
fn applied2(op: Op2, i: &Instruction, cells: &[u128]) -> u128
    requires first { IsOperand cells.now i.now.first_ty i.now.first }
    requires second { IsOperand cells.now i.now.second_ty i.now.second }
    requires accepted { type2 op (small i.now.first_ty) (small i.now.second_ty) ≡ Ok (small i.now.ty) }
    ensures value { result ≡ value2 op (small i.now.first_ty) (value_at cells.now i.now.first) (small i.now.second_ty) (value_at cells.now i.now.second) }
    ensures fits { Fits (small i.now.ty) result }
{
    let a = Val(cells[i.first as usize]);
    let b = Val(cells[i.second as usize]);
    match i.first_ty.kind {
        Kind::UInt => match i.second_ty.kind {
            Kind::UInt => natural2(op, i, a, b),
            Kind::SInt => any2(op, i, a, b),
        },
        Kind::SInt => any2(op, i, a, b),
    }
}

// An operation on two natural numbers.
#[inline(always)]
fn natural2(op: Op2, i: &Instruction, a: Val, b: Val) -> u128
    requires first { Fits (small i.now.first_ty) a.0 }
    requires second { Fits (small i.now.second_ty) b.0 }
    requires first_kind { i.now.first_ty.kind ≡ Kind.UInt }
    requires second_kind { i.now.second_ty.kind ≡ Kind.UInt }
    requires accepted { type2 op (small i.now.first_ty) (small i.now.second_ty) ≡ Ok (small i.now.ty) }
    ensures value { result ≡ value2 op (small i.now.first_ty) a.0 (small i.now.second_ty) b.0 }
    ensures fits { Fits (small i.now.ty) result }
{
    let (first, second) = (i.first_ty.natural(), i.second_ty.natural());
    apply2_to(op, i.ty.ty(), first, a, second, b).0
}

// An operation on two values of any kinds.
#[inline(never)]
fn any2(op: Op2, i: &Instruction, a: Val, b: Val) -> u128
    requires first { Fits (small i.now.first_ty) a.0 }
    requires second { Fits (small i.now.second_ty) b.0 }
    requires accepted { type2 op (small i.now.first_ty) (small i.now.second_ty) ≡ Ok (small i.now.ty) }
    ensures value { result ≡ value2 op (small i.now.first_ty) a.0 (small i.now.second_ty) b.0 }
    ensures fits { Fits (small i.now.ty) result }
{
    let (first, second) = (i.first_ty.ty(), i.second_ty.ty());
    apply2_to(op, i.ty.ty(), first, a, second, b).0
}

// An operation on one value with two parameters.
#[inline(always)]
fn applied_const(op: OpN, i: &Instruction, cells: &[u128]) -> u128
    requires first { IsOperand cells.now i.now.first_ty i.now.first }
    requires accepted { type_const op (small i.now.first_ty) i.now.second i.now.third ≡ Ok (small i.now.ty) }
    ensures value { result ≡ value_const op (small i.now.first_ty) (value_at cells.now i.now.first) i.now.second i.now.third }
    ensures fits { Fits (small i.now.ty) result }
{
    let a = Val(cells[i.first as usize]);
    match i.first_ty.kind {
        Kind::UInt => {
            let first = i.first_ty.natural();
            apply_const_to(op, i.ty.ty(), first, a, i.second, i.third).0
        }
        Kind::SInt => any_const(op, i, a),
    }
}

// An operation with two parameters on one value of either kind.
#[inline(never)]
fn any_const(op: OpN, i: &Instruction, a: Val) -> u128
    requires first { Fits (small i.now.first_ty) a.0 }
    requires accepted { type_const op (small i.now.first_ty) i.now.second i.now.third ≡ Ok (small i.now.ty) }
    ensures value { result ≡ value_const op (small i.now.first_ty) a.0 i.now.second i.now.third }
    ensures fits { Fits (small i.now.ty) result }
{
    apply_const_to(op, i.ty.ty(), i.first_ty.ty(), a, i.second, i.third).0
}

// A choice of two values.
#[inline(always)]
fn chosen(i: &Instruction, cells: &[u128]) -> u128
    requires first { IsOperand cells.now i.now.first_ty i.now.first }
    requires second { IsOperand cells.now i.now.second_ty i.now.second }
    requires known { i.now.third < length cells.now }
    requires condition { value_at cells.now i.now.third < 2 }
    requires kinds { i.now.first_ty.kind ≡ i.now.second_ty.kind }
    requires accepted { shape_mux (small i.now.first_ty) (small i.now.second_ty) ≡ small i.now.ty }
    ensures value { result ≡ value_mux (value_at cells.now i.now.third) (small i.now.first_ty) (value_at cells.now i.now.first) (small i.now.second_ty) (value_at cells.now i.now.second) }
    ensures fits { Fits (small i.now.ty) result }
{
    let c = Val(cells[i.third as usize]);
    let a = Val(cells[i.first as usize]);
    let b = Val(cells[i.second as usize]);
    let (first, second) = (i.first_ty.ty(), i.second_ty.ty());
    mux(c, first, a, second, b).0
}

// The value of an instruction.
#[inline(always)]
pub(crate) fn value_of(i: &Instruction, literals: &[u128], cells: &[u128]) -> u128
    requires { CanDo literals.now cells.now i.now i.now.operation }
    ensures value { result ≡ given literals.now cells.now i.now i.now.operation }
    ensures fits { Fits (small i.now.ty) result }
{
    match &i.operation {
        Operation::Take => cells[i.first as usize],
        Operation::Constant => literals[i.first as usize],
        Operation::Apply1(op) => applied1(*op, i, cells),
        Operation::Apply2(op) => applied2(*op, i, cells),
        Operation::ApplyConst(op) => applied_const(*op, i, cells),
        Operation::Choose => chosen(i, cells),
    }
}
