//! Ground types, values, and what can be wrong with an operation's operands.
ghost use Rattle.std.specs.Prelude.{◌≡◌, ◌≤◌};

use std::error::Error;
use std::fmt;

/// The kind of a ground type (FIRRTL Specification, "Ground Types"): whether its values are natural numbers, or signed
/// ones in two's complement.
#[derive(Clone, Copy, Debug, PartialEq, Eq, Hash)]
pub enum Kind {
    /// Natural numbers.
    UInt,
    /// Signed numbers, in two's complement.
    SInt,
}

/// A ground type: a kind, and a width of 1 to 128 bits.
#[derive(Clone, Copy, PartialEq, Eq, Hash)]
pub struct Ty {
    /// Whether values are signed.
    pub kind: Kind,
    /// How many bits a value has.
    pub width: u32,
    pub ghost positive: { 1 ≤ width },
    pub ghost bounded: { width ≤ 128 },
}

/// A value: the pattern of its bits, below 2 to the width of its type.
#[derive(Clone, Copy, PartialEq, Eq, Hash)]
pub struct Val(pub u128);

/// The first thing that is wrong with an operation's operands: first the kinds, then the parameters, then the width of
/// the result.
#[derive(Clone, Copy, Debug, PartialEq, Eq, Hash)]
pub enum Bad {
    /// The operands have kinds that the operation does not take.
    Kind,
    /// The result would have this width, which is 0 or above 128. A width above 4,294,967,295 is returned as that
    /// number.
    Width(u32),
    /// A parameter is out of its range.
    Param,
}

impl fmt::Display for Bad {
    ghost use Rattle.std.specs.Prelude.{Some};
    ghost use Rattle.gg_bits.specs.inside.BadText.{bad_text};

    ghost output = { λ bad. Some (bad_text bad) };

    fn fmt<W: fmt::Write>(&self, f: &mut fmt::Formatter<W>) -> fmt::Result {
        match self {
            Bad::Kind => f.write_str("an operand is of a kind that the operation does not take"),
            Bad::Width(width) => write!(f, "the result would have {width} bits"),
            Bad::Param => f.write_str("a parameter is out of range"),
        }
    }
}

impl Error for Bad {}

impl Ty {
    /// The widest type has 128 bits.
    pub const MAX_WIDTH: u32 = 128;

    /// The type of this kind and width.
    pub fn new(kind: Kind, width: u32) -> Ty
        requires positive { 1 ≤ width }
        requires bounded { width ≤ 128 }
        ensures kind { result.kind ≡ kind }
        ensures width { result.width ≡ width }
    {
        Ty { kind, width }
    }
}
