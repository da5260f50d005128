//! The lines of the summary.
ghost use Rattle.std.specs.Prelude.{◌≡◌, IfOk, string_bytes};
ghost use Rattle.gg_rows.specs.SummaryText.{fold_line, last_line, network_line, size_line};

use crate::digits::eight_digits;
use std::alloc::{AllocError, Global};

/// The line with a demo's seed, its size and its number of cycles.
///
/// # Errors
///
/// Returns `AllocError` if an allocation fails.
pub fn size_line(alloc: Global, seed: u32, size: u32) -> Result<String, AllocError>
    ensures { IfOk result (λ line. string_bytes line ≡ size_line seed size) }
{
    let cycles = 4 * u64::from(size);
    format!(in alloc; "demo seed {seed} size {size} cycles {cycles}\n")
}

/// The line of the network: its number of machines, of channels, and of the steps from its opening to its end.
///
/// # Errors
///
/// Returns `AllocError` if an allocation fails.
pub fn network_line(
    alloc: Global,
    machines: u64,
    channels: u64,
    steps: u64,
) -> Result<String, AllocError>
    ensures { IfOk result (λ line. string_bytes line ≡ network_line machines channels steps) }
{
    format!(in alloc; "machines {machines} channels {channels} steps {steps}\n")
}

/// The line of the values of y and z in the last row.
///
/// # Errors
///
/// Returns `AllocError` if an allocation fails.
pub fn last_line(alloc: Global, y: u128, z: u128) -> Result<String, AllocError>
    ensures { IfOk result (λ line. string_bytes line ≡ last_line y z) }
{
    let y = eight_digits(alloc, y)?;
    let z = eight_digits(alloc, z)?;
    format!(in alloc; "last {y} {z}\n")
}

/// The line of the exclusive or of all values of y, and of z.
///
/// # Errors
///
/// Returns `AllocError` if an allocation fails.
pub fn fold_line(alloc: Global, y: u128, z: u128) -> Result<String, AllocError>
    ensures { IfOk result (λ line. string_bytes line ≡ fold_line y z) }
{
    let y = eight_digits(alloc, y)?;
    let z = eight_digits(alloc, z)?;
    format!(in alloc; "fold {y} {z}\n")
}
