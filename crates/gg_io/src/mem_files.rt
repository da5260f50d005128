//! Files in memory.
ghost use Rattle.std.specs.Prelude.{◌≡◌, ◌≢◌, ℕ, List, Some, OnOk, OnErr};
ghost use Rattle.gg_io.specs.inside.Memory.{bytes_under};

use std::alloc::{AllocError, Global};
use std::collections::BTreeMap;

/// The files of a shelf in memory, by name.
pub type MemFiles = BTreeMap<String, Vec<u8>>;

/// Adds a file with these bytes under `name`, and replaces an earlier one.
///
/// # Errors
///
/// Returns `AllocError` if an allocation fails. The files stay as they were.
pub fn hold(files: &mut MemFiles, alloc: Global, name: &str, bytes: &[u8]) -> Result<(), AllocError>
    ensures held { OnOk result (bytes_under files.new name.now ≡ Some bytes.now) }
    ensures others { OnOk result ((other : List ℕ) → other ≢ name.now → bytes_under files.new other ≡ bytes_under files.old other) }
    ensures err { OnErr result ((other : List ℕ) → bytes_under files.new other ≡ bytes_under files.old other) }
{
    let key = String::from_str(alloc, name)?;
    let value = Vec::from_slice(alloc, bytes)?;
    files.insert(key, value)?;
    Ok(())
}
