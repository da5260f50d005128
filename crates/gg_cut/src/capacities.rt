//! The capacities of channels, by their signals.
ghost use Rattle.std.specs.Prelude.{◌≡◌, ℕ, ◌<◌, ◌^◌, length, All, IfOk};
ghost use Rattle.gg_flat.specs.Line.{value_at};
ghost use Rattle.gg_flat_tree.specs.Tree.{path_at};
ghost use Rattle.gg_cut_plan.specs.Channels.{capacity_of};

use gg_bits::Name;
use gg_cut_split::{filled, set_named};
use gg_flat::Piece;
use std::alloc::{AllocError, Global};

// The capacity of a channel of each signal: the request's for the signal's path, otherwise the default.
//
// # Errors
//
// Returns `AllocError` if an allocation fails.
pub(crate) fn capacity_table(
    alloc: Global,
    piece: &Piece,
    capacities: &[(Name, u64)],
    default: u32,
) -> Result<Vec<u32>, AllocError>
    requires { All (λ pair. pair.1 < 2 ^ 32) capacities.now }
    ensures count { IfOk result (λ table. length table.items ≡ length piece.now.signals) }
    ensures capacities { IfOk result (λ table. (s : ℕ) → s < length piece.now.signals → value_at table.items s ≡ capacity_of capacities.now default (path_at piece.now.paths s)) }
{
    let mut table = filled(alloc, piece.signal_count(), default)?;
    for step in 0..capacities.len() {
        let pair = &capacities[capacities.len() - 1 - step];
        set_named(piece, &pair.0, pair.1 as u32, &mut table);
    }
    Ok(table)
}
