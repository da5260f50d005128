//! Why a walk finds no order.
ghost use Rattle.std.specs.Prelude.{◌≡◌};
ghost use Rattle.gg_graph.specs.declared.fault.WalkFault.TheVariants.{NoMemory};

use std::alloc::AllocError;
use std::error::Error;
use std::fmt;

/// Why a walk found no order.
#[derive(Debug, Drop)]
pub enum WalkFault {
    /// A ring of the graph: distinct nodes, each with an edge to the next, the last to the first.
    Ring(Vec<u32>),
    /// An allocation failed.
    NoMemory,
}

impl From<AllocError> for WalkFault {
    ghost from_gives = { λ _ e. e ≡ NoMemory };

    fn from(_error: AllocError) -> WalkFault {
        WalkFault::NoMemory
    }
}

impl fmt::Display for WalkFault {
    ghost use Rattle.std.specs.Prelude.{Some};
    ghost use Rattle.gg_graph.specs.inside.Fault.{fault_text};

    ghost output = { λ fault. Some (fault_text fault) };

    fn fmt<W: fmt::Write>(&self, f: &mut fmt::Formatter<W>) -> fmt::Result {
        match self {
            WalkFault::Ring(_) => f.write_str("the graph has a ring"),
            WalkFault::NoMemory => f.write_str("out of memory"),
        }
    }
}

impl Error for WalkFault {}
