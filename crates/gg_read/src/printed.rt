//! How faults of reading are printed.
use crate::text::ReadFault;
use std::error::Error;
use std::fmt;

/// The fault, as the program prints it after `golden: circuit: `.
impl fmt::Display for ReadFault {
    ghost use Rattle.std.specs.Prelude.{Some};
    ghost use Rattle.gg_read.specs.FaultText.{fault_text};

    ghost output = { λ fault. Some (fault_text fault) };

    fn fmt<W: fmt::Write>(&self, f: &mut fmt::Formatter<W>) -> fmt::Result {
        match self {
            ReadFault::NotText => f.write_str("not text"),
            ReadFault::Syntax { line } => write!(f, "syntax line {line}"),
            ReadFault::Outside { line, word } => write!(f, "outside line {line} {word}"),
            ReadFault::TooDeep { line } => write!(f, "too deep line {line}"),
            ReadFault::NoMemory => f.write_str("out of memory"),
        }
    }
}

impl Error for ReadFault {}
