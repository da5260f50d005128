//! Why the bytes of a circuit file give no design.
use gg_read::ReadFault;
use gg_shape::Fault;
use std::alloc::AllocError;
use std::error::Error;
use std::fmt;

/// Why the bytes of a circuit file give no design.
#[derive(Debug, Drop)]
pub enum FrontFault {
    /// The fault of reading, if no circuit can be read. It is never `ReadFault::NoMemory`: that is
    /// `FrontFault::NoMemory`.
    Read(ReadFault),
    /// The first fault of the circuit: one of F1 to F16.
    Fault(Fault),
    /// An allocation failed. This implies nothing about the bytes.
    NoMemory,
}

impl From<AllocError> for FrontFault {
    ghost use Rattle.std.specs.Prelude.{◌≡◌};
    ghost use Rattle.gg_front.specs.declared.fault.FrontFault.TheVariants.{NoMemory};

    ghost from_gives = { λ error fault. fault ≡ NoMemory };

    fn from(_error: AllocError) -> FrontFault {
        FrontFault::NoMemory
    }
}

/// The fault's text, as the program prints it after `golden: circuit: `.
impl fmt::Display for FrontFault {
    ghost use Rattle.std.specs.Prelude.{Some};
    ghost use Rattle.gg_front.specs.Fault.{front_text};

    ghost output = { λ fault. Some (front_text fault) };

    fn fmt<W: fmt::Write>(&self, f: &mut fmt::Formatter<W>) -> fmt::Result {
        match self {
            FrontFault::Read(fault) => write!(f, "{fault}"),
            FrontFault::Fault(fault) => write!(f, "{fault}"),
            FrontFault::NoMemory => f.write_str("out of memory"),
        }
    }
}

impl Error for FrontFault {}
