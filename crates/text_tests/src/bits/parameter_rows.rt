//! Operations with parameters.
use crate::bits::calls::Call::Const;
use crate::bits::calls::Row;
use gg_bits::Kind::{SInt, UInt};
use gg_bits::OpN::{Bits, Head, Pad, Shl, Shr, Tail};

pub(crate) static PARAMETERS: [Row; 32] = [
    (Const(Pad, (SInt, 4, 0xd), 8, 0), Ok((SInt, 8, 0xfd))),
    (Const(Pad, (SInt, 4, 0xd), 2, 0), Ok((SInt, 4, 0xd))),
    (
        Const(Pad, (SInt, 1, 0x1), 128, 0),
        Ok((SInt, 128, 0xffff_ffff_ffff_ffff_ffff_ffff_ffff_ffff)),
    ),
    (
        Const(
            Pad,
            (UInt, 127, 0x7fff_ffff_ffff_ffff_ffff_ffff_ffff_ffff),
            128,
            0,
        ),
        Ok((UInt, 128, 0x7fff_ffff_ffff_ffff_ffff_ffff_ffff_ffff)),
    ),
    (
        Const(
            Pad,
            (SInt, 128, 0x8000_0000_0000_0000_0000_0000_0000_0000),
            0,
            0,
        ),
        Ok((SInt, 128, 0x8000_0000_0000_0000_0000_0000_0000_0000)),
    ),
    (
        Const(Shl, (UInt, 1, 0x1), 127, 0),
        Ok((UInt, 128, 0x8000_0000_0000_0000_0000_0000_0000_0000)),
    ),
    (
        Const(Shl, (SInt, 64, 0x8000_0000_0000_0000), 64, 0),
        Ok((SInt, 128, 0x8000_0000_0000_0000_0000_0000_0000_0000)),
    ),
    (
        Const(
            Shl,
            (SInt, 128, 0xffff_ffff_ffff_ffff_ffff_ffff_ffff_ffff),
            0,
            0,
        ),
        Ok((SInt, 128, 0xffff_ffff_ffff_ffff_ffff_ffff_ffff_ffff)),
    ),
    (Const(Shl, (SInt, 2, 0x2), 1, 0), Ok((SInt, 3, 0x4))),
    (Const(Shr, (SInt, 4, 0xd), 9, 0), Ok((SInt, 1, 0x1))),
    (Const(Shr, (SInt, 4, 0xd), 1, 0), Ok((SInt, 3, 0x6))),
    (
        Const(
            Shr,
            (SInt, 128, 0x8000_0000_0000_0000_0000_0000_0000_0000),
            127,
            0,
        ),
        Ok((SInt, 1, 0x1)),
    ),
    (
        Const(
            Shr,
            (SInt, 128, 0x8000_0000_0000_0000_0000_0000_0000_0000),
            128,
            0,
        ),
        Ok((SInt, 1, 0x1)),
    ),
    (
        Const(
            Shr,
            (SInt, 127, 0x3fff_ffff_ffff_ffff_ffff_ffff_ffff_ffff),
            126,
            0,
        ),
        Ok((SInt, 1, 0x0)),
    ),
    (
        Const(Shr, (SInt, 64, 0x8000_0000_0000_0000), 4_294_967_295, 0),
        Ok((SInt, 1, 0x1)),
    ),
    (
        Const(
            Shr,
            (UInt, 128, 0xffff_ffff_ffff_ffff_ffff_ffff_ffff_ffff),
            128,
            0,
        ),
        Ok((UInt, 1, 0x0)),
    ),
    (
        Const(
            Shr,
            (UInt, 128, 0xffff_ffff_ffff_ffff_ffff_ffff_ffff_ffff),
            127,
            0,
        ),
        Ok((UInt, 1, 0x1)),
    ),
    (
        Const(Shr, (UInt, 64, 0x8000_0000_0000_0000), 1, 0),
        Ok((UInt, 63, 0x4000_0000_0000_0000)),
    ),
    (Const(Shr, (UInt, 1, 0x1), 0, 0), Ok((UInt, 1, 0x1))),
    (Const(Bits, (UInt, 8, 0xa5), 5, 2), Ok((UInt, 4, 0x9))),
    (
        Const(
            Bits,
            (SInt, 128, 0x8000_0000_0000_0000_0000_0000_0000_0001),
            127,
            0,
        ),
        Ok((UInt, 128, 0x8000_0000_0000_0000_0000_0000_0000_0001)),
    ),
    (
        Const(
            Bits,
            (SInt, 128, 0x8000_0000_0000_0000_0000_0000_0000_0000),
            127,
            127,
        ),
        Ok((UInt, 1, 0x1)),
    ),
    (Const(Bits, (UInt, 1, 0x1), 0, 0), Ok((UInt, 1, 0x1))),
    (
        Const(
            Bits,
            (UInt, 127, 0x7fff_ffff_ffff_ffff_ffff_ffff_ffff_fffe),
            64,
            0,
        ),
        Ok((UInt, 65, 0x1_ffff_ffff_ffff_fffe)),
    ),
    (Const(Head, (UInt, 8, 0xa5), 3, 0), Ok((UInt, 3, 0x5))),
    (
        Const(
            Head,
            (SInt, 128, 0x8000_0000_0000_0000_0000_0000_0000_0000),
            1,
            0,
        ),
        Ok((UInt, 1, 0x1)),
    ),
    (
        Const(
            Head,
            (SInt, 128, 0xffff_ffff_ffff_ffff_ffff_ffff_ffff_fffe),
            128,
            0,
        ),
        Ok((UInt, 128, 0xffff_ffff_ffff_ffff_ffff_ffff_ffff_fffe)),
    ),
    (Const(Head, (UInt, 2, 0x2), 2, 0), Ok((UInt, 2, 0x2))),
    (Const(Tail, (UInt, 8, 0xa5), 3, 0), Ok((UInt, 5, 0x5))),
    (
        Const(
            Tail,
            (SInt, 128, 0x8000_0000_0000_0000_0000_0000_0000_0005),
            1,
            0,
        ),
        Ok((UInt, 127, 0x5)),
    ),
    (
        Const(
            Tail,
            (SInt, 128, 0xffff_ffff_ffff_ffff_ffff_ffff_ffff_fffe),
            0,
            0,
        ),
        Ok((UInt, 128, 0xffff_ffff_ffff_ffff_ffff_ffff_ffff_fffe)),
    ),
    (
        Const(
            Tail,
            (UInt, 127, 0x4000_0000_0000_0000_0000_0000_0000_0001),
            126,
            0,
        ),
        Ok((UInt, 1, 0x1)),
    ),
];
