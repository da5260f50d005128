//! Why there is no namespace.
use gg_bits::Name;
use std::alloc::AllocError;

/// A name that comes twice: a module's, a name that a module declares, or a port of a memory.
#[derive(Debug, Drop)]
pub struct Repetition {
    /// The line of the later one, counted from 1.
    pub line: u64,
    /// The name.
    pub name: Name,
}

/// Why there is no namespace.
#[derive(Debug, Drop)]
pub enum NamesFault {
    /// The first name that comes twice, in the order of the text.
    Repeated(Repetition),
    /// An allocation failed, or the circuit has 4,294,967,296 modules or more.
    NoMemory,
}

impl From<AllocError> for NamesFault {
    ghost use Rattle.std.specs.Prelude.{◌≡◌};
    ghost use Rattle.gg_shape_names.specs.declared.fault.NamesFault.TheVariants.{NoMemory};

    ghost from_gives = { λ error fault. fault ≡ NoMemory };

    fn from(_error: AllocError) -> NamesFault {
        NamesFault::NoMemory
    }
}
