//! Instructions: each writes one cell.
use crate::small::Small;
use gg_bits::{Op1, Op2, OpN};

// The operation of an instruction.
#[derive(Clone, Copy)]
pub(crate) enum Operation {
    // It takes the value of the cell `first`.
    Take,
    // It takes the literal with the number `first`.
    Constant,
    // An operation on the cell `first`.
    Apply1(Op1),
    // An operation on the cells `first` and `second`.
    Apply2(Op2),
    // An operation on the cell `first` with the parameters `second` and `third`.
    ApplyConst(OpN),
    // `mux`: the cell `first` if the cell `third` is 1, otherwise the cell `second`.
    Choose,
}

// An instruction, which writes one cell.
#[derive(Clone, Copy)]
pub(crate) struct Instruction {
    // The operation.
    pub(crate) operation: Operation,
    // The type of the result.
    pub(crate) ty: Small,
    // The type of the first operand.
    pub(crate) first_ty: Small,
    // The type of the second operand.
    pub(crate) second_ty: Small,
    // The first number.
    pub(crate) first: u32,
    // The second number.
    pub(crate) second: u32,
    // The third number.
    pub(crate) third: u32,
    // The cell that gets the result.
    pub(crate) cell: u32,
}
