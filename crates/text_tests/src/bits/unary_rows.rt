//! Operations on one value.
use crate::bits::calls::Call::One;
use crate::bits::calls::Row;
use gg_bits::Kind::{SInt, UInt};
use gg_bits::Op1::{Andr, AsSInt, AsUInt, Cvt, Neg, Not, Orr, Xorr};

pub(crate) static ONE_VALUE: [Row; 53] = [
    (One(AsUInt, (UInt, 1, 0x1)), Ok((UInt, 1, 0x1))),
    (One(AsUInt, (SInt, 2, 0x2)), Ok((UInt, 2, 0x2))),
    (
        One(AsUInt, (SInt, 64, 0x8000_0000_0000_0000)),
        Ok((UInt, 64, 0x8000_0000_0000_0000)),
    ),
    (
        One(
            AsUInt,
            (UInt, 127, 0x7fff_ffff_ffff_ffff_ffff_ffff_ffff_ffff),
        ),
        Ok((UInt, 127, 0x7fff_ffff_ffff_ffff_ffff_ffff_ffff_ffff)),
    ),
    (
        One(
            AsUInt,
            (SInt, 127, 0x4000_0000_0000_0000_0000_0000_0000_0000),
        ),
        Ok((UInt, 127, 0x4000_0000_0000_0000_0000_0000_0000_0000)),
    ),
    (
        One(
            AsUInt,
            (SInt, 128, 0xffff_ffff_ffff_ffff_ffff_ffff_ffff_ffff),
        ),
        Ok((UInt, 128, 0xffff_ffff_ffff_ffff_ffff_ffff_ffff_ffff)),
    ),
    (One(AsUInt, (UInt, 128, 0x0)), Ok((UInt, 128, 0x0))),
    (One(AsSInt, (UInt, 1, 0x1)), Ok((SInt, 1, 0x1))),
    (One(AsSInt, (SInt, 2, 0x2)), Ok((SInt, 2, 0x2))),
    (
        One(AsSInt, (SInt, 64, 0x8000_0000_0000_0000)),
        Ok((SInt, 64, 0x8000_0000_0000_0000)),
    ),
    (
        One(
            AsSInt,
            (UInt, 127, 0x7fff_ffff_ffff_ffff_ffff_ffff_ffff_ffff),
        ),
        Ok((SInt, 127, 0x7fff_ffff_ffff_ffff_ffff_ffff_ffff_ffff)),
    ),
    (
        One(
            AsSInt,
            (SInt, 127, 0x4000_0000_0000_0000_0000_0000_0000_0000),
        ),
        Ok((SInt, 127, 0x4000_0000_0000_0000_0000_0000_0000_0000)),
    ),
    (
        One(
            AsSInt,
            (SInt, 128, 0xffff_ffff_ffff_ffff_ffff_ffff_ffff_ffff),
        ),
        Ok((SInt, 128, 0xffff_ffff_ffff_ffff_ffff_ffff_ffff_ffff)),
    ),
    (One(AsSInt, (UInt, 128, 0x0)), Ok((SInt, 128, 0x0))),
    (One(Cvt, (UInt, 1, 0x1)), Ok((SInt, 2, 0x1))),
    (One(Cvt, (SInt, 2, 0x2)), Ok((SInt, 2, 0x2))),
    (
        One(Cvt, (SInt, 64, 0x8000_0000_0000_0000)),
        Ok((SInt, 64, 0x8000_0000_0000_0000)),
    ),
    (
        One(Cvt, (UInt, 127, 0x7fff_ffff_ffff_ffff_ffff_ffff_ffff_ffff)),
        Ok((SInt, 128, 0x7fff_ffff_ffff_ffff_ffff_ffff_ffff_ffff)),
    ),
    (
        One(Cvt, (SInt, 127, 0x4000_0000_0000_0000_0000_0000_0000_0000)),
        Ok((SInt, 127, 0x4000_0000_0000_0000_0000_0000_0000_0000)),
    ),
    (
        One(Cvt, (SInt, 128, 0xffff_ffff_ffff_ffff_ffff_ffff_ffff_ffff)),
        Ok((SInt, 128, 0xffff_ffff_ffff_ffff_ffff_ffff_ffff_ffff)),
    ),
    (One(Neg, (UInt, 1, 0x1)), Ok((SInt, 2, 0x3))),
    (One(Neg, (SInt, 2, 0x2)), Ok((SInt, 3, 0x2))),
    (
        One(Neg, (SInt, 64, 0x8000_0000_0000_0000)),
        Ok((SInt, 65, 0x8000_0000_0000_0000)),
    ),
    (
        One(Neg, (UInt, 127, 0x7fff_ffff_ffff_ffff_ffff_ffff_ffff_ffff)),
        Ok((SInt, 128, 0x8000_0000_0000_0000_0000_0000_0000_0001)),
    ),
    (
        One(Neg, (SInt, 127, 0x4000_0000_0000_0000_0000_0000_0000_0000)),
        Ok((SInt, 128, 0x4000_0000_0000_0000_0000_0000_0000_0000)),
    ),
    (One(Not, (UInt, 1, 0x1)), Ok((UInt, 1, 0x0))),
    (One(Not, (SInt, 2, 0x2)), Ok((UInt, 2, 0x1))),
    (
        One(Not, (SInt, 64, 0x8000_0000_0000_0000)),
        Ok((UInt, 64, 0x7fff_ffff_ffff_ffff)),
    ),
    (
        One(Not, (UInt, 127, 0x7fff_ffff_ffff_ffff_ffff_ffff_ffff_ffff)),
        Ok((UInt, 127, 0x0)),
    ),
    (
        One(Not, (SInt, 127, 0x4000_0000_0000_0000_0000_0000_0000_0000)),
        Ok((UInt, 127, 0x3fff_ffff_ffff_ffff_ffff_ffff_ffff_ffff)),
    ),
    (
        One(Not, (SInt, 128, 0xffff_ffff_ffff_ffff_ffff_ffff_ffff_ffff)),
        Ok((UInt, 128, 0x0)),
    ),
    (
        One(Not, (UInt, 128, 0x0)),
        Ok((UInt, 128, 0xffff_ffff_ffff_ffff_ffff_ffff_ffff_ffff)),
    ),
    (One(Andr, (UInt, 1, 0x1)), Ok((UInt, 1, 0x1))),
    (One(Andr, (SInt, 2, 0x2)), Ok((UInt, 1, 0x0))),
    (
        One(Andr, (SInt, 64, 0x8000_0000_0000_0000)),
        Ok((UInt, 1, 0x0)),
    ),
    (
        One(Andr, (UInt, 127, 0x7fff_ffff_ffff_ffff_ffff_ffff_ffff_ffff)),
        Ok((UInt, 1, 0x1)),
    ),
    (
        One(Andr, (SInt, 127, 0x4000_0000_0000_0000_0000_0000_0000_0000)),
        Ok((UInt, 1, 0x0)),
    ),
    (
        One(Andr, (SInt, 128, 0xffff_ffff_ffff_ffff_ffff_ffff_ffff_ffff)),
        Ok((UInt, 1, 0x1)),
    ),
    (One(Andr, (UInt, 128, 0x0)), Ok((UInt, 1, 0x0))),
    (One(Orr, (UInt, 1, 0x1)), Ok((UInt, 1, 0x1))),
    (One(Orr, (SInt, 2, 0x2)), Ok((UInt, 1, 0x1))),
    (
        One(Orr, (SInt, 64, 0x8000_0000_0000_0000)),
        Ok((UInt, 1, 0x1)),
    ),
    (
        One(Orr, (UInt, 127, 0x7fff_ffff_ffff_ffff_ffff_ffff_ffff_ffff)),
        Ok((UInt, 1, 0x1)),
    ),
    (
        One(Orr, (SInt, 127, 0x4000_0000_0000_0000_0000_0000_0000_0000)),
        Ok((UInt, 1, 0x1)),
    ),
    (
        One(Orr, (SInt, 128, 0xffff_ffff_ffff_ffff_ffff_ffff_ffff_ffff)),
        Ok((UInt, 1, 0x1)),
    ),
    (One(Orr, (UInt, 128, 0x0)), Ok((UInt, 1, 0x0))),
    (One(Xorr, (UInt, 1, 0x1)), Ok((UInt, 1, 0x1))),
    (One(Xorr, (SInt, 2, 0x2)), Ok((UInt, 1, 0x1))),
    (
        One(Xorr, (SInt, 64, 0x8000_0000_0000_0000)),
        Ok((UInt, 1, 0x1)),
    ),
    (
        One(Xorr, (UInt, 127, 0x7fff_ffff_ffff_ffff_ffff_ffff_ffff_ffff)),
        Ok((UInt, 1, 0x1)),
    ),
    (
        One(Xorr, (SInt, 127, 0x4000_0000_0000_0000_0000_0000_0000_0000)),
        Ok((UInt, 1, 0x1)),
    ),
    (
        One(Xorr, (SInt, 128, 0xffff_ffff_ffff_ffff_ffff_ffff_ffff_ffff)),
        Ok((UInt, 1, 0x0)),
    ),
    (One(Xorr, (UInt, 128, 0x0)), Ok((UInt, 1, 0x0))),
];
