//! Comparisons, dynamic shifts and bitwise operations.
use crate::bits::calls::Call::Two;
use crate::bits::calls::Row;
use gg_bits::Kind::{SInt, UInt};
use gg_bits::Op2::{And, Cat, Dshl, Dshr, Eq, Geq, Gt, Leq, Lt, Neq, Or, Validif, Xor};

pub(crate) static COMPARISONS_SHIFTS_AND_BITS: [Row; 47] = [
    (Two(Lt, (SInt, 4, 0xf), (SInt, 64, 0x0)), Ok((UInt, 1, 0x1))),
    (
        Two(
            Lt,
            (UInt, 128, 0xffff_ffff_ffff_ffff_ffff_ffff_ffff_ffff),
            (UInt, 1, 0x1),
        ),
        Ok((UInt, 1, 0x0)),
    ),
    (
        Two(
            Lt,
            (SInt, 2, 0x2),
            (SInt, 127, 0x7fff_ffff_ffff_ffff_ffff_ffff_ffff_fffe),
        ),
        Ok((UInt, 1, 0x0)),
    ),
    (
        Two(
            Lt,
            (SInt, 128, 0x8000_0000_0000_0000_0000_0000_0000_0000),
            (SInt, 128, 0x7fff_ffff_ffff_ffff_ffff_ffff_ffff_ffff),
        ),
        Ok((UInt, 1, 0x1)),
    ),
    (
        Two(
            Lt,
            (UInt, 128, 0x8000_0000_0000_0000_0000_0000_0000_0000),
            (UInt, 128, 0x7fff_ffff_ffff_ffff_ffff_ffff_ffff_ffff),
        ),
        Ok((UInt, 1, 0x0)),
    ),
    (
        Two(Leq, (SInt, 4, 0xf), (SInt, 64, 0x0)),
        Ok((UInt, 1, 0x1)),
    ),
    (
        Two(
            Leq,
            (UInt, 128, 0xffff_ffff_ffff_ffff_ffff_ffff_ffff_ffff),
            (UInt, 1, 0x1),
        ),
        Ok((UInt, 1, 0x0)),
    ),
    (
        Two(
            Leq,
            (SInt, 2, 0x2),
            (SInt, 127, 0x7fff_ffff_ffff_ffff_ffff_ffff_ffff_fffe),
        ),
        Ok((UInt, 1, 0x1)),
    ),
    (Two(Gt, (SInt, 4, 0xf), (SInt, 64, 0x0)), Ok((UInt, 1, 0x0))),
    (
        Two(
            Gt,
            (UInt, 128, 0xffff_ffff_ffff_ffff_ffff_ffff_ffff_ffff),
            (UInt, 1, 0x1),
        ),
        Ok((UInt, 1, 0x1)),
    ),
    (
        Two(
            Gt,
            (SInt, 2, 0x2),
            (SInt, 127, 0x7fff_ffff_ffff_ffff_ffff_ffff_ffff_fffe),
        ),
        Ok((UInt, 1, 0x0)),
    ),
    (
        Two(Geq, (SInt, 4, 0xf), (SInt, 64, 0x0)),
        Ok((UInt, 1, 0x0)),
    ),
    (
        Two(
            Geq,
            (UInt, 128, 0xffff_ffff_ffff_ffff_ffff_ffff_ffff_ffff),
            (UInt, 1, 0x1),
        ),
        Ok((UInt, 1, 0x1)),
    ),
    (
        Two(
            Geq,
            (SInt, 2, 0x2),
            (SInt, 127, 0x7fff_ffff_ffff_ffff_ffff_ffff_ffff_fffe),
        ),
        Ok((UInt, 1, 0x1)),
    ),
    (
        Two(
            Geq,
            (SInt, 128, 0x8000_0000_0000_0000_0000_0000_0000_0000),
            (SInt, 128, 0x7fff_ffff_ffff_ffff_ffff_ffff_ffff_ffff),
        ),
        Ok((UInt, 1, 0x0)),
    ),
    (
        Two(
            Geq,
            (UInt, 128, 0x8000_0000_0000_0000_0000_0000_0000_0000),
            (UInt, 128, 0x7fff_ffff_ffff_ffff_ffff_ffff_ffff_ffff),
        ),
        Ok((UInt, 1, 0x1)),
    ),
    (Two(Eq, (SInt, 4, 0xf), (SInt, 64, 0x0)), Ok((UInt, 1, 0x0))),
    (
        Two(
            Eq,
            (UInt, 128, 0xffff_ffff_ffff_ffff_ffff_ffff_ffff_ffff),
            (UInt, 1, 0x1),
        ),
        Ok((UInt, 1, 0x0)),
    ),
    (
        Two(
            Eq,
            (SInt, 2, 0x2),
            (SInt, 127, 0x7fff_ffff_ffff_ffff_ffff_ffff_ffff_fffe),
        ),
        Ok((UInt, 1, 0x1)),
    ),
    (
        Two(Neq, (SInt, 4, 0xf), (SInt, 64, 0x0)),
        Ok((UInt, 1, 0x1)),
    ),
    (
        Two(
            Neq,
            (UInt, 128, 0xffff_ffff_ffff_ffff_ffff_ffff_ffff_ffff),
            (UInt, 1, 0x1),
        ),
        Ok((UInt, 1, 0x1)),
    ),
    (
        Two(
            Neq,
            (SInt, 2, 0x2),
            (SInt, 127, 0x7fff_ffff_ffff_ffff_ffff_ffff_ffff_fffe),
        ),
        Ok((UInt, 1, 0x0)),
    ),
    (
        Two(Dshl, (UInt, 1, 0x1), (UInt, 7, 0x7f)),
        Ok((UInt, 128, 0x8000_0000_0000_0000_0000_0000_0000_0000)),
    ),
    (
        Two(Dshl, (SInt, 2, 0x2), (UInt, 6, 0x3f)),
        Ok((SInt, 65, 0x1_0000_0000_0000_0000)),
    ),
    (
        Two(Dshl, (SInt, 64, 0xffff_ffff_ffff_ffff), (UInt, 6, 0x5)),
        Ok((SInt, 127, 0x7fff_ffff_ffff_ffff_ffff_ffff_ffff_ffe0)),
    ),
    (
        Two(
            Dshr,
            (SInt, 128, 0x8000_0000_0000_0000_0000_0000_0000_0000),
            (UInt, 128, 0xffff_ffff_ffff_ffff_ffff_ffff_ffff_ffff),
        ),
        Ok((SInt, 128, 0xffff_ffff_ffff_ffff_ffff_ffff_ffff_ffff)),
    ),
    (
        Two(
            Dshr,
            (SInt, 128, 0x8000_0000_0000_0000_0000_0000_0000_0000),
            (UInt, 7, 0x7f),
        ),
        Ok((SInt, 128, 0xffff_ffff_ffff_ffff_ffff_ffff_ffff_ffff)),
    ),
    (
        Two(Dshr, (SInt, 4, 0xd), (UInt, 1, 0x1)),
        Ok((SInt, 4, 0xe)),
    ),
    (
        Two(
            Dshr,
            (SInt, 127, 0x3fff_ffff_ffff_ffff_ffff_ffff_ffff_ffff),
            (UInt, 64, 0xc8),
        ),
        Ok((SInt, 127, 0x0)),
    ),
    (
        Two(
            Dshr,
            (UInt, 128, 0xffff_ffff_ffff_ffff_ffff_ffff_ffff_ffff),
            (UInt, 8, 0x80),
        ),
        Ok((UInt, 128, 0x0)),
    ),
    (
        Two(
            Dshr,
            (UInt, 128, 0xffff_ffff_ffff_ffff_ffff_ffff_ffff_ffff),
            (UInt, 7, 0x7f),
        ),
        Ok((UInt, 128, 0x1)),
    ),
    (
        Two(Dshr, (UInt, 64, 0x8000_0000_0000_0000), (UInt, 2, 0x3)),
        Ok((UInt, 64, 0x1000_0000_0000_0000)),
    ),
    (
        Two(And, (SInt, 2, 0x2), (SInt, 128, 0x5)),
        Ok((UInt, 128, 0x4)),
    ),
    (
        Two(
            And,
            (UInt, 64, 0xffff_ffff_ffff_ffff),
            (UInt, 127, 0x4000_0000_0000_0000_0000_0000_0000_0005),
        ),
        Ok((UInt, 127, 0x5)),
    ),
    (Two(And, (SInt, 1, 0x1), (SInt, 1, 0x0)), Ok((UInt, 1, 0x0))),
    (
        Two(Or, (SInt, 2, 0x2), (SInt, 128, 0x5)),
        Ok((UInt, 128, 0xffff_ffff_ffff_ffff_ffff_ffff_ffff_ffff)),
    ),
    (
        Two(
            Or,
            (UInt, 64, 0xffff_ffff_ffff_ffff),
            (UInt, 127, 0x4000_0000_0000_0000_0000_0000_0000_0005),
        ),
        Ok((UInt, 127, 0x4000_0000_0000_0000_ffff_ffff_ffff_ffff)),
    ),
    (Two(Or, (SInt, 1, 0x1), (SInt, 1, 0x0)), Ok((UInt, 1, 0x1))),
    (
        Two(Xor, (SInt, 2, 0x2), (SInt, 128, 0x5)),
        Ok((UInt, 128, 0xffff_ffff_ffff_ffff_ffff_ffff_ffff_fffb)),
    ),
    (
        Two(
            Xor,
            (UInt, 64, 0xffff_ffff_ffff_ffff),
            (UInt, 127, 0x4000_0000_0000_0000_0000_0000_0000_0005),
        ),
        Ok((UInt, 127, 0x4000_0000_0000_0000_ffff_ffff_ffff_fffa)),
    ),
    (Two(Xor, (SInt, 1, 0x1), (SInt, 1, 0x0)), Ok((UInt, 1, 0x1))),
    (
        Two(Cat, (UInt, 4, 0xa), (UInt, 8, 0x5c)),
        Ok((UInt, 12, 0xa5c)),
    ),
    (
        Two(Cat, (SInt, 1, 0x1), (SInt, 127, 0x1)),
        Ok((UInt, 128, 0x8000_0000_0000_0000_0000_0000_0000_0001)),
    ),
    (
        Two(
            Cat,
            (SInt, 64, 0x8000_0000_0000_0000),
            (SInt, 64, 0xffff_ffff_ffff_ffff),
        ),
        Ok((UInt, 128, 0x8000_0000_0000_0000_ffff_ffff_ffff_ffff)),
    ),
    (
        Two(
            Cat,
            (UInt, 127, 0x3fff_ffff_ffff_ffff_ffff_ffff_ffff_ffff),
            (UInt, 1, 0x1),
        ),
        Ok((UInt, 128, 0x7fff_ffff_ffff_ffff_ffff_ffff_ffff_ffff)),
    ),
    (
        Two(
            Validif,
            (UInt, 1, 0x0),
            (SInt, 128, 0x8000_0000_0000_0000_0000_0000_0000_0000),
        ),
        Ok((SInt, 128, 0x8000_0000_0000_0000_0000_0000_0000_0000)),
    ),
    (
        Two(Validif, (UInt, 1, 0x1), (UInt, 2, 0x3)),
        Ok((UInt, 2, 0x3)),
    ),
];
