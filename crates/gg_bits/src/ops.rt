//! The primitive operations (FIRRTL Specification, "Primitive Operations"), by how many values and parameters they
//! take. Each variant is named after the specification's operation.

/// An operation on one value.
#[derive(Clone, Copy, Debug, PartialEq, Eq, Hash)]
pub enum Op1 {
    /// `asUInt`: the same bits, as a natural number.
    AsUInt,
    /// `asSInt`: the same bits, as a signed number.
    AsSInt,
    /// `cvt`: the same number, signed.
    Cvt,
    /// `neg`: minus the number.
    Neg,
    /// `not`: each bit inverted.
    Not,
    /// `andr`: whether every bit is set.
    Andr,
    /// `orr`: whether some bit is set.
    Orr,
    /// `xorr`: whether an odd count of bits is set.
    Xorr,
}

/// An operation on two values.
#[derive(Clone, Copy, Debug, PartialEq, Eq, Hash)]
pub enum Op2 {
    /// `add`: the sum.
    Add,
    /// `sub`: the difference.
    Sub,
    /// `mul`: the product.
    Mul,
    /// `div`: the quotient, cut towards zero; 0 where the divisor is 0.
    Div,
    /// `rem`: the remainder, with the dividend's sign; 0 where the divisor is 0.
    Rem,
    /// `lt`: less.
    Lt,
    /// `leq`: less or equal.
    Leq,
    /// `gt`: greater.
    Gt,
    /// `geq`: greater or equal.
    Geq,
    /// `eq`: equal.
    Eq,
    /// `neq`: not equal.
    Neq,
    /// `dshl`: the first times 2 to the power of the second.
    Dshl,
    /// `dshr`: the first divided by 2 to the power of the second, rounded down.
    Dshr,
    /// `and`: bit by bit.
    And,
    /// `or`: bit by bit.
    Or,
    /// `xor`: bit by bit.
    Xor,
    /// `cat`: the bits of the first above the bits of the second.
    Cat,
    /// `validif`: the second; the first is its condition.
    Validif,
}

/// An operation on one value with one parameter `n`, or with two, `n` and `m`.
#[derive(Clone, Copy, Debug, PartialEq, Eq, Hash)]
pub enum OpN {
    /// `pad`: the same number in at least `n` bits.
    Pad,
    /// `shl`: times 2 to the power of `n`.
    Shl,
    /// `shr`: divided by 2 to the power of `n`, rounded down.
    Shr,
    /// `bits`: the bits from `n`, the high one, down to `m`, the low one.
    Bits,
    /// `head`: the upper `n` bits.
    Head,
    /// `tail`: all but the upper `n` bits.
    Tail,
}
