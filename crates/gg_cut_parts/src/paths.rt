//! The paths of signals.
ghost use Rattle.std.specs.Prelude.{◌≡◌, IfOk};
ghost use Rattle.gg_flat_tree.specs.Tree.{path_at};

use gg_bits::Name;
use gg_flat::Piece;
use std::alloc::{AllocError, Global};

/// The path of a signal; the empty path if there is none.
///
/// # Errors
///
/// Returns `AllocError` if an allocation fails.
pub fn signal_name(alloc: Global, piece: &Piece, signal: u32) -> Result<Name, AllocError>
    ensures { IfOk result (λ name. name ≡ path_at piece.now.paths signal) }
{
    match piece.path(signal) {
        Some(path) => path.clone(),
        None => Name::from_str(alloc, ""),
    }
}
