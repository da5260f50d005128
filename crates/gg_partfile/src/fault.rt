//! What is wrong with a partition file.
ghost use Rattle.std.specs.Prelude.{◌≡◌};
ghost use Rattle.gg_partfile.specs.declared.fault.PartFault.TheVariants.{NoMemory};

use gg_bits::Name;
use std::alloc::AllocError;
use std::error::Error;
use std::fmt;

/// Why a partition file has no request. The text of a wrong key begins with the code that is given here.
#[derive(Debug, Drop)]
pub enum PartFault {
    /// P1: the value of a key has a wrong shape, or a key is unknown. It is the first key with a value of a wrong
    /// shape, in the order of the keys that a file may have, otherwise the least unknown key. It is `-` if the file
    /// isn't a JSON text, or isn't an object.
    WrongKey(Name),
    /// An allocation failed.
    NoMemory,
}

impl From<AllocError> for PartFault {
    ghost from_gives = { λ _ e. e ≡ NoMemory };

    fn from(_error: AllocError) -> PartFault {
        PartFault::NoMemory
    }
}

impl fmt::Display for PartFault {
    ghost use Rattle.std.specs.Prelude.{Some};
    ghost use Rattle.gg_partfile.specs.Fault.{fault_text};

    ghost output = { λ fault. Some (fault_text fault) };

    fn fmt<W: fmt::Write>(&self, f: &mut fmt::Formatter<W>) -> fmt::Result {
        match self {
            PartFault::WrongKey(key) => write!(f, "P1 {key}"),
            PartFault::NoMemory => f.write_str("out of memory"),
        }
    }
}

impl Error for PartFault {}
