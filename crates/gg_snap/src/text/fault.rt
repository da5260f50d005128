//! Faults of a text that is read as a snapshot.
ghost use Rattle.std.specs.Prelude.{◌≡◌};
ghost use Rattle.gg_snap.specs.declared.text.fault.SnapFault.TheVariants.{NoMemory};

use std::alloc::AllocError;
use std::error::Error;
use std::fmt;

/// Why bytes are no snapshot of a circuit. The text of `S1` begins with this code. `NoMemory` has no code.
#[derive(Clone, Copy, Debug, Drop, PartialEq, Eq)]
pub enum SnapFault {
    /// S1: a line can't be in a snapshot together with the lines before it, or lines are missing.
    S1 {
        /// The first such line, counted from 1; or the number of lines and one more, if lines are missing.
        line: u64,
    },
    /// An allocation failed.
    NoMemory,
}

impl From<AllocError> for SnapFault {
    ghost from_gives = { λ _ fault. fault ≡ NoMemory };

    fn from(_error: AllocError) -> SnapFault {
        SnapFault::NoMemory
    }
}

/// The fault's code and its line, as the program is to print them after `golden: snapshot: `.
impl fmt::Display for SnapFault {
    ghost use Rattle.std.specs.Prelude.{Some};
    ghost use Rattle.gg_snap.specs.text.FaultText.{fault_words};

    ghost output = { λ fault. Some (fault_words fault) };

    fn fmt<W: fmt::Write>(&self, f: &mut fmt::Formatter<W>) -> fmt::Result {
        match self {
            SnapFault::S1 { line } => write!(f, "S1 line {line}"),
            SnapFault::NoMemory => f.write_str("out of memory"),
        }
    }
}

impl Error for SnapFault {}
