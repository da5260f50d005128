//! Where files come from.
ghost use Rattle.std.specs.Prelude.{◌≡◌, ℕ, ◌-◌, ◌^◌, ◌<◌, ◌≤◌, List, IfOk, IfErr, length};
ghost use Rattle.gg_io.specs.Told.{Told, CanHold};
ghost use Rattle.gg_io.specs.LoadFail.{HasLoadCause};
ghost use Rattle.gg_io.specs.declared.files.LoadFail.TheVariants.{NoMemory};

use std::alloc::{AllocError, Global};
use thiserror::Error;

/// Why a load failed.
#[derive(Clone, Copy, Debug, PartialEq, Eq, Error)]
pub enum LoadFail {
    /// The file couldn't be read, or there is no such file.
    #[error("the file can't be read")]
    Failed,
    /// The file is longer than the limit. `taken` bytes were read to find out: one more than the limit.
    #[error("the file is longer than its limit: {taken} bytes were read")]
    TooLong {
        /// How many bytes were read.
        taken: u64,
    },
    /// An allocation failed.
    #[error("out of memory")]
    NoMemory,
}

impl From<AllocError> for LoadFail {
    ghost from_gives = { λ _ e. e ≡ NoMemory };

    fn from(_error: AllocError) -> LoadFail {
        LoadFail::NoMemory
    }
}

/// Files by name.
pub trait Shelf {
    // What is known of the file of a name. The name is given by its bytes.
    ghost files: { Self → List ℕ → Told };

    // A count for each name. It rises when a load of the file of this name fails.
    ghost faults: { Self → List ℕ → ℕ };

    // The same for a load that finds a file longer than the limit.
    ghost cuts: { Self → List ℕ → ℕ };

    /// Returns the bytes of the file `name`, at most `limit` of them. A missing file is a fault. In every case the
    /// shelf's files stay the same, and only its counts may rise.
    ///
    /// # Errors
    ///
    /// Returns `Failed` if the file is missing or can't be read, `TooLong` if it is longer than `limit`, and `NoMemory` if an
    /// allocation fails.
    fn load(&mut self, alloc: Global, name: &str, limit: u64) -> Result<Vec<u8>, LoadFail>
        ensures within { IfOk result (λ file. length file.items ≤ limit) }
        ensures whole { IfOk result (λ file. CanHold (files self.old name.now) file.items) }
        ensures caused { IfErr result (HasLoadCause (files self.old name.now) limit
            (faults self.old name.now) (faults self.new name.now) (cuts self.old name.now) (cuts self.new name.now)) }
        ensures files_stay { files self.new ≡ files self.old }
        ensures faults_stay_or_rise { (other : List ℕ) → faults self.old other ≤ faults self.new other }
        ensures cuts_stay_or_rise { (other : List ℕ) → cuts self.old other ≤ cuts self.new other };
}
