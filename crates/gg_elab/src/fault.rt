//! Why a circuit has no flat circuit.
ghost use Rattle.std.specs.Prelude.{◌≡◌};
ghost use Rattle.gg_elab.specs.declared.fault.ElabFault.TheVariants.{NoMemory};
ghost use Rattle.gg_elab.specs.ElabText.{limit_of};

use gg_elab_sites::{Excess, Measure};
use gg_shape::{Fault, Limit};
use std::alloc::AllocError;
use std::error::Error;
use std::fmt;

/// Why the elaboration gave no flat circuit.
#[derive(Clone, Copy, Debug, PartialEq, Eq)]
pub enum ElabFault {
    /// F15: this count of the circuit is above its limit, and no earlier count is.
    TooLarge(Excess),
    /// An allocation failed.
    NoMemory,
}

impl fmt::Display for ElabFault {
    ghost use Rattle.std.specs.Prelude.{Some};
    ghost use Rattle.gg_elab.specs.inside.ElabText.{elab_text};

    ghost output = { λ fault. Some (elab_text fault) };

    fn fmt<W: fmt::Write>(&self, f: &mut fmt::Formatter<W>) -> fmt::Result {
        match self {
            ElabFault::TooLarge(excess) => {
                let limit = limit_of(excess.measure);
                let count = excess.count;
                write!(f, "{}", Fault::OverLimit { limit, count })
            }
            ElabFault::NoMemory => f.write_str("out of memory"),
        }
    }
}

impl Error for ElabFault {}

/// The name of a measure in faults.
pub fn limit_of(measure: Measure) -> Limit
    ensures { result ≡ limit_of measure }
{
    match measure {
        Measure::Depth => Limit::Depth,
        Measure::Signals => Limit::Signals,
        Measure::Memory => Limit::Memory,
        Measure::Words => Limit::Words,
        Measure::Instances => Limit::Instances,
    }
}

impl From<AllocError> for ElabFault {
    ghost from_gives = { λ error fault. fault ≡ NoMemory };

    fn from(_error: AllocError) -> ElabFault {
        ElabFault::NoMemory
    }
}
