//! Marks on the signals with some names.
ghost use Rattle.std.specs.Prelude.{◌≡◌, ℕ, ◌<◌, ◌||◌, length, bytes_eq, IfOk};
ghost use Rattle.gg_flat_tree.specs.Tree.{path_at};
ghost use Rattle.gg_order.specs.Marks.{is_marked};
ghost use Rattle.gg_cut_plan.specs.Listed.{is_among};

use gg_bits::Name;
use gg_cut_plan::unmarked;
use gg_flat::Piece;
use std::alloc::{AllocError, Global};

/// Marks on the signals with paths among these names.
///
/// # Errors
///
/// Returns `AllocError` if an allocation fails.
pub fn piped_of(alloc: Global, piece: &Piece, names: &[Name]) -> Result<Vec<bool>, AllocError>
    ensures count { IfOk result (λ marks. length marks.items ≡ length piece.now.signals) }
    ensures marks { IfOk result (λ marks. (s : ℕ) → s < length piece.now.signals → is_marked marks.items s ≡ is_among names.now (path_at piece.now.paths s)) }
{
    let mut marks = unmarked(alloc, piece.signal_count())?;
    for name in names {
        mark_named(&mut marks, piece, name);
    }
    Ok(marks)
}

// Marks the signal with a path, if there is one.
fn mark_named(marks: &mut [bool], piece: &Piece, name: &Name)
    requires count { length marks.old ≡ length piece.now.signals }
    ensures count { length marks.new ≡ length marks.old }
    ensures marks { (s : ℕ) → s < length piece.now.signals → is_marked marks.new s ≡ (is_marked marks.old s || bytes_eq (path_at piece.now.paths s) name.now) }
{
    // for the invariant only
    let _ = piece.signal_count();
    match piece.find(name) {
        Some(signal) => marks[signal as usize] = true,
        None => {}
    }
}
