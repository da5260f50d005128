//! Where text is written.
ghost use Rattle.std.specs.Prelude.{◌≡◌, ℕ, ◌≤◌, List, Option, OnOk, IfErr};
ghost use Rattle.std.specs.Io.KnownBytes.{append_known};
ghost use Rattle.gg_io.specs.PutFail.{HasPutCause, LeavesFront};
ghost use Rattle.gg_io.specs.declared.output.PutFail.TheVariants.{NoMemory};

use std::alloc::AllocError;
use thiserror::Error;

/// Why a put failed.
#[derive(Clone, Copy, Debug, PartialEq, Eq, Error)]
pub enum PutFail {
    /// Not all of the bytes could be written. A first part of them may have been.
    #[error("can't write")]
    Failed,
    /// An allocation failed, and nothing was written.
    #[error("out of memory")]
    NoMemory,
}

impl From<AllocError> for PutFail {
    ghost from_gives = { λ _ e. e ≡ NoMemory };

    fn from(_error: AllocError) -> PutFail {
        PutFail::NoMemory
    }
}

/// Writes text, put by put.
pub trait Sink {
    // What was written so far, where it is known.
    ghost written: { Self → Option (List ℕ) };

    // How many puts failed.
    ghost faults: { Self → ℕ };

    // How many puts returned `NoMemory`.
    ghost refused: { Self → ℕ };

    /// Writes `bytes` after what was written before, which stays.
    ///
    /// # Errors
    ///
    /// Returns `Failed` if not all of them can be written; a first part may have been. Returns `NoMemory` if an allocation
    /// fails.
    fn put(&mut self, bytes: &[u8]) -> Result<(), PutFail>
        ensures whole { OnOk result (written self.new ≡ append_known (written self.old) bytes.now) }
        ensures caused { IfErr result (HasPutCause
            (faults self.old) (faults self.new) (refused self.old) (refused self.new)) }
        ensures front { IfErr result (LeavesFront (written self.old) (written self.new) bytes.now) }
        ensures faults_stay_or_rise { faults self.old ≤ faults self.new }
        ensures refused_stay_or_rise { refused self.old ≤ refused self.new };
}
