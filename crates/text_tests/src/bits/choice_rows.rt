//! Choices by a condition, and values that are extended.
use crate::bits::calls::Call::{Extend, Mux};
use crate::bits::calls::Row;
use gg_bits::Kind::{SInt, UInt};

pub(crate) static CHOICES_AND_EXTENSIONS: [Row; 4] = [
    (
        Mux((UInt, 1, 1), (SInt, 2, 2), (SInt, 8, 5)),
        Ok((SInt, 8, 0xfe)),
    ),
    (
        Mux((UInt, 1, 0), (UInt, 128, 7), (UInt, 1, 1)),
        Ok((UInt, 128, 1)),
    ),
    (Extend((SInt, 2, 2), 128), Ok((SInt, 128, u128::MAX - 1))),
    (Extend((UInt, 2, 3), 64), Ok((UInt, 64, 3))),
];
