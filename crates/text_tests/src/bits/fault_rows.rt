//! Operands that operations refuse.
use crate::bits::calls::Call::{Const, Mux, One, Two};
use crate::bits::calls::{Row, Typed};
use gg_bits::Bad::{self, Param, Width};
use gg_bits::Kind::{SInt, UInt};
use gg_bits::Op1::Neg;
use gg_bits::Op2::{Add, Dshl, Dshr, Mul, Validif};
use gg_bits::OpN::{Bits, Head, Pad, Shl, Tail};

const BIT: Typed = (UInt, 1, 0);

const WIDE: Typed = (UInt, 128, 0);

const SIGNED: Typed = (SInt, 128, 0);

pub(crate) static FAULTS: [Row; 16] = [
    (One(Neg, WIDE), Err(Width(129))),
    (Two(Add, BIT, SIGNED), Err(Bad::Kind)),
    (Two(Mul, WIDE, WIDE), Err(Width(256))),
    (Two(Dshl, SIGNED, BIT), Err(Width(129))),
    (Two(Dshl, BIT, WIDE), Err(Width(4_294_967_295))),
    (Two(Dshr, BIT, SIGNED), Err(Bad::Kind)),
    (Two(Validif, WIDE, BIT), Err(Bad::Kind)),
    (
        Const(Shl, WIDE, 4_294_967_295, 0),
        Err(Width(4_294_967_295)),
    ),
    (Const(Pad, BIT, 4_294_967_295, 0), Err(Width(4_294_967_295))),
    (Const(Bits, WIDE, 128, 0), Err(Param)),
    (Const(Bits, WIDE, 3, 4), Err(Param)),
    (Const(Head, BIT, 0, 0), Err(Width(0))),
    (Const(Tail, BIT, 1, 0), Err(Width(0))),
    (Const(Tail, BIT, 2, 0), Err(Param)),
    (Mux(WIDE, BIT, BIT), Err(Bad::Kind)),
    (Mux(BIT, WIDE, SIGNED), Err(Bad::Kind)),
];
