//! Lists of numbers.
ghost use Rattle.std.specs.Prelude.{◌≡◌, ℕ, ◌<◌, if◌then◌else◌, bytes_eq, length, replicate, IfOk};
ghost use Rattle.gg_flat.specs.Line.{value_at};
ghost use Rattle.gg_flat_tree.specs.Tree.{path_at};

use gg_bits::Name;
use gg_flat::Piece;
use std::alloc::{AllocError, Global};

/// A list with `count` copies of a number.
///
/// # Errors
///
/// Returns `AllocError` if an allocation fails.
pub fn filled(alloc: Global, count: usize, number: u32) -> Result<Vec<u32>, AllocError>
    ensures { IfOk result (λ filled. filled.items ≡ replicate count number) }
{
    vec![in alloc; number; count]
}

/// Writes a number into a table by signals, at the signal with this path, if there is one.
pub fn set_named(piece: &Piece, path: &Name, number: u32, table: &mut Vec<u32>)
    requires { length table.old.items ≡ length piece.now.signals }
    ensures count { length table.new.items ≡ length table.old.items }
    ensures set { (s : ℕ) → s < length piece.now.signals → value_at table.new.items s ≡ (if bytes_eq path.now (path_at piece.now.paths s) then number else value_at table.old.items s) }
{
    // for the invariant only
    let _ = piece.signal_count();
    match piece.find(path) {
        Some(signal) => table[signal as usize] = number,
        None => {}
    }
}
