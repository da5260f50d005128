//! Sums, products and quotients.
use crate::bits::calls::Call::Two;
use crate::bits::calls::Row;
use gg_bits::Kind::{SInt, UInt};
use gg_bits::Op2::{Add, Div, Mul, Rem, Sub};

pub(crate) static ARITHMETIC: [Row; 31] = [
    (
        Two(
            Add,
            (UInt, 127, 0x7fff_ffff_ffff_ffff_ffff_ffff_ffff_ffff),
            (UInt, 127, 0x7fff_ffff_ffff_ffff_ffff_ffff_ffff_ffff),
        ),
        Ok((UInt, 128, 0xffff_ffff_ffff_ffff_ffff_ffff_ffff_fffe)),
    ),
    (Two(Add, (UInt, 1, 0x0), (UInt, 2, 0x3)), Ok((UInt, 3, 0x3))),
    (
        Two(Add, (SInt, 64, 0x8000_0000_0000_0000), (SInt, 2, 0x3)),
        Ok((SInt, 65, 0x1_7fff_ffff_ffff_ffff)),
    ),
    (
        Two(
            Add,
            (SInt, 127, 0x4000_0000_0000_0000_0000_0000_0000_0000),
            (SInt, 127, 0x3fff_ffff_ffff_ffff_ffff_ffff_ffff_ffff),
        ),
        Ok((SInt, 128, 0xffff_ffff_ffff_ffff_ffff_ffff_ffff_ffff)),
    ),
    (
        Two(
            Add,
            (SInt, 1, 0x1),
            (SInt, 127, 0x4000_0000_0000_0000_0000_0000_0000_0000),
        ),
        Ok((SInt, 128, 0xbfff_ffff_ffff_ffff_ffff_ffff_ffff_ffff)),
    ),
    (
        Two(
            Sub,
            (UInt, 127, 0x7fff_ffff_ffff_ffff_ffff_ffff_ffff_ffff),
            (UInt, 127, 0x7fff_ffff_ffff_ffff_ffff_ffff_ffff_ffff),
        ),
        Ok((UInt, 128, 0x0)),
    ),
    (Two(Sub, (UInt, 1, 0x0), (UInt, 2, 0x3)), Ok((UInt, 3, 0x5))),
    (
        Two(Sub, (SInt, 64, 0x8000_0000_0000_0000), (SInt, 2, 0x3)),
        Ok((SInt, 65, 0x1_8000_0000_0000_0001)),
    ),
    (
        Two(
            Sub,
            (SInt, 127, 0x4000_0000_0000_0000_0000_0000_0000_0000),
            (SInt, 127, 0x3fff_ffff_ffff_ffff_ffff_ffff_ffff_ffff),
        ),
        Ok((SInt, 128, 0x8000_0000_0000_0000_0000_0000_0000_0001)),
    ),
    (
        Two(
            Sub,
            (SInt, 1, 0x1),
            (SInt, 127, 0x4000_0000_0000_0000_0000_0000_0000_0000),
        ),
        Ok((SInt, 128, 0x3fff_ffff_ffff_ffff_ffff_ffff_ffff_ffff)),
    ),
    (
        Two(
            Mul,
            (SInt, 64, 0x8000_0000_0000_0000),
            (SInt, 64, 0x8000_0000_0000_0000),
        ),
        Ok((SInt, 128, 0x4000_0000_0000_0000_0000_0000_0000_0000)),
    ),
    (
        Two(
            Mul,
            (UInt, 64, 0xffff_ffff_ffff_ffff),
            (UInt, 64, 0xffff_ffff_ffff_ffff),
        ),
        Ok((UInt, 128, 0xffff_ffff_ffff_fffe_0000_0000_0000_0001)),
    ),
    (
        Two(
            Mul,
            (SInt, 1, 0x1),
            (SInt, 127, 0x4000_0000_0000_0000_0000_0000_0000_0000),
        ),
        Ok((SInt, 128, 0x4000_0000_0000_0000_0000_0000_0000_0000)),
    ),
    (
        Two(
            Mul,
            (SInt, 127, 0x3fff_ffff_ffff_ffff_ffff_ffff_ffff_ffff),
            (SInt, 1, 0x1),
        ),
        Ok((SInt, 128, 0xc000_0000_0000_0000_0000_0000_0000_0001)),
    ),
    (Two(Mul, (UInt, 2, 0x3), (UInt, 1, 0x0)), Ok((UInt, 3, 0x0))),
    (Two(Div, (SInt, 4, 0x8), (SInt, 4, 0xf)), Ok((SInt, 5, 0x8))),
    (
        Two(Div, (SInt, 4, 0x9), (SInt, 4, 0x2)),
        Ok((SInt, 5, 0x1d)),
    ),
    (Two(Div, (SInt, 4, 0x5), (SInt, 4, 0x0)), Ok((SInt, 5, 0x0))),
    (
        Two(
            Div,
            (SInt, 127, 0x4000_0000_0000_0000_0000_0000_0000_0000),
            (SInt, 1, 0x1),
        ),
        Ok((SInt, 128, 0x4000_0000_0000_0000_0000_0000_0000_0000)),
    ),
    (
        Two(
            Div,
            (SInt, 64, 0x8000_0000_0000_0000),
            (SInt, 128, 0xffff_ffff_ffff_ffff_ffff_ffff_ffff_ffff),
        ),
        Ok((SInt, 65, 0x8000_0000_0000_0000)),
    ),
    (
        Two(
            Div,
            (SInt, 2, 0x2),
            (SInt, 128, 0x8000_0000_0000_0000_0000_0000_0000_0000),
        ),
        Ok((SInt, 3, 0x0)),
    ),
    (
        Two(
            Div,
            (UInt, 128, 0xffff_ffff_ffff_ffff_ffff_ffff_ffff_ffff),
            (UInt, 2, 0x3),
        ),
        Ok((UInt, 128, 0x5555_5555_5555_5555_5555_5555_5555_5555)),
    ),
    (
        Two(
            Div,
            (UInt, 128, 0xffff_ffff_ffff_ffff_ffff_ffff_ffff_ffff),
            (UInt, 128, 0x0),
        ),
        Ok((UInt, 128, 0x0)),
    ),
    (Two(Rem, (SInt, 4, 0x8), (SInt, 4, 0xf)), Ok((SInt, 4, 0x0))),
    (Two(Rem, (SInt, 4, 0x9), (SInt, 4, 0x2)), Ok((SInt, 4, 0xf))),
    (Two(Rem, (SInt, 4, 0x5), (SInt, 4, 0x0)), Ok((SInt, 4, 0x0))),
    (
        Two(
            Rem,
            (SInt, 128, 0x8000_0000_0000_0000_0000_0000_0000_0000),
            (SInt, 128, 0xffff_ffff_ffff_ffff_ffff_ffff_ffff_ffff),
        ),
        Ok((SInt, 128, 0x0)),
    ),
    (
        Two(
            Rem,
            (SInt, 128, 0x8000_0000_0000_0000_0000_0000_0000_0000),
            (SInt, 64, 0x7fff_ffff_ffff_ffff),
        ),
        Ok((SInt, 64, 0xffff_ffff_ffff_fffe)),
    ),
    (
        Two(Rem, (SInt, 64, 0x7), (SInt, 2, 0x2)),
        Ok((SInt, 2, 0x1)),
    ),
    (
        Two(
            Rem,
            (UInt, 128, 0xffff_ffff_ffff_ffff_ffff_ffff_ffff_ffff),
            (UInt, 64, 0x8000_0000_0000_0000),
        ),
        Ok((UInt, 64, 0x7fff_ffff_ffff_ffff)),
    ),
    (
        Two(Rem, (UInt, 1, 0x1), (UInt, 127, 0x0)),
        Ok((UInt, 1, 0x0)),
    ),
];
