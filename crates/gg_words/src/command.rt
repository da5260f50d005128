//! A command, and why words aren't one.
ghost use Rattle.std.specs.Prelude.{◌≡◌};
ghost use Rattle.gg_words.specs.declared.command.WordFault.TheVariants.{NoMemory};

use clap::error::ErrorKind;
use gg_bits::Name;
use std::alloc::AllocError;

/// A command, with the names of its files and its numbers.
#[derive(Drop)]
pub enum Cmd {
    /// `run`: runs a circuit on a trace.
    Run {
        /// The circuit's file.
        circuit: Name,
        /// The partition's file.
        partition: Name,
        /// The trace's file.
        trace: Name,
        /// The capacity of channels, 1 to 4,096.
        capacity: u32,
        /// The number of workers, at most 64.
        workers: u32,
        /// Whether the circuit is run whole, without a network.
        mono: bool,
    },
    /// `replay`: prints the network of a circuit after a list of host steps.
    Replay {
        /// The circuit's file.
        circuit: Name,
        /// The partition's file.
        partition: Name,
        /// The trace's file.
        trace: Name,
        /// The steps' file.
        steps: Name,
        /// The capacity of channels, 1 to 4,096.
        capacity: u32,
    },
    /// `check`: prints the plan of a partition.
    Check {
        /// The circuit's file.
        circuit: Name,
        /// The partition's file.
        partition: Name,
        /// The capacity of channels, 1 to 4,096.
        capacity: u32,
    },
    /// `demo`: makes a circuit, a partition and a trace, runs them, and prints a summary.
    Demo {
        /// The first value of the trace.
        seed: u32,
        /// The number of stages of the circuit, 1 to 64.
        size: u32,
        /// The number of workers, at most 64.
        workers: u32,
    },
    /// `save`: runs a circuit on a trace up to a cycle, and prints a snapshot of its state there.
    Save {
        /// The circuit's file.
        circuit: Name,
        /// The partition's file.
        partition: Name,
        /// The trace's file.
        trace: Name,
        /// The cycle before which the state is saved, at most 1,000,000.
        at: u32,
        /// The capacity of channels, 1 to 4,096.
        capacity: u32,
        /// The number of workers, at most 64.
        workers: u32,
    },
    /// `resume`: runs a circuit on a trace, starting at a snapshot.
    Resume {
        /// The circuit's file.
        circuit: Name,
        /// The partition's file.
        partition: Name,
        /// The trace's file.
        trace: Name,
        /// The snapshot's file.
        snap: Name,
        /// The capacity of channels, 1 to 4,096.
        capacity: u32,
        /// The number of workers, at most 64.
        workers: u32,
    },
}

/// Why words aren't a command.
#[derive(Debug, Drop)]
pub enum WordFault {
    /// `clap` refuses them at this word: as an unknown argument, as no command, or for a value that isn't taken. It
    /// also refuses the words up to this one in this way, and no fewer.
    Unexpected(Name),
    /// `clap` refuses them with this kind, which is no kind of `Unexpected`. It is never `clap`'s kind for a failed
    /// allocation.
    Refused(ErrorKind),
    /// `clap` takes them, and this value isn't a number in its range. It is the first such value: a demo's seed before its
    /// size, or the cycle of a snapshot, then the capacity, then the workers.
    WrongNumber(Name),
    /// An allocation failed.
    NoMemory,
}

impl From<AllocError> for WordFault {
    ghost from_gives = { λ _ fault. fault ≡ NoMemory };

    fn from(_error: AllocError) -> WordFault {
        WordFault::NoMemory
    }
}
