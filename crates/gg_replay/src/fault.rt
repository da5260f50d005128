//! `ReplayFault`: why a replay ends before its last step.
ghost use Rattle.std.specs.Prelude.{◌≡◌};
ghost use Rattle.gg_replay.specs.declared.fault.ReplayFault.TheVariants.{NoMemory};

use gg_net::StepRefusal;
use std::alloc::AllocError;

/// Why a replay stops.
#[derive(Clone, Copy, Debug, PartialEq, Eq, Drop)]
pub enum ReplayFault {
    /// A step was refused.
    Refused {
        /// The step's number, counted from 1.
        step: u64,
        /// The first of the step's conditions that fails.
        cause: StepRefusal,
    },
    /// An allocation failed.
    NoMemory,
}

impl From<AllocError> for ReplayFault {
    ghost from_gives = { λ _ stop. stop ≡ NoMemory };

    fn from(_error: AllocError) -> ReplayFault {
        ReplayFault::NoMemory
    }
}
