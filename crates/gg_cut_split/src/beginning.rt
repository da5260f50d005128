//! What a split begins with, and what is needed to find the owners.
ghost use Rattle.std.specs.Prelude.{IfOk};
ghost use Rattle.gg_cut_split.specs.inside.Beginning.{IsBeginning, IsWhole};

use crate::channels::channels;
use crate::ends::Ends;
use crate::tables::signal_owners;
use gg_cut_plan::{Listed, Wire, owners_of};
use gg_flat::Piece;
use gg_flat_tree::Tree;
use gg_partfile::BridgeEntry;
use std::alloc::{AllocError, Global};

// What is split: a circuit with its tree and an order, what is listed of it, and the machines at its ports with bridges by these entries.
#[derive(Clone, Copy)]
pub(crate) struct Whole<'a> {
    pub(crate) piece: &'a Piece,
    pub(crate) tree: &'a Tree,
    pub(crate) order: &'a [u32],
    pub(crate) listed: &'a Listed,
    pub(crate) entries: &'a [BridgeEntry],
    pub(crate) ends: &'a Ends,
}

// The machine of each instance, the machine of each signal by its instance, and the channels.
#[derive(Drop)]
pub(crate) struct Beginning {
    pub(crate) owners: Vec<u32>,
    pub(crate) holders: Vec<u32>,
    pub(crate) wires: Vec<Wire>,
}

// What a split of this begins with.
//
// # Errors
//
// Returns `AllocError` if an allocation fails.
pub(crate) fn begin(alloc: Global, whole: &Whole) -> Result<Beginning, AllocError>
    requires { IsWhole whole.now }
    ensures { IfOk result (λ beginning. IsBeginning whole.now beginning) }
{
    let piece = whole.piece;
    let tree = whole.tree;
    let listed = whole.listed;
    let numbering = &whole.ends.numbering;
    let units = listed.units.as_slice();
    let owners = owners_of(alloc, tree, numbering, units)?;
    let holders = signal_owners(alloc, tree, numbering, units, piece.signals().len())?;
    let wires = channels(alloc, whole, &owners, &holders)?;
    Ok(Beginning {
        owners,
        holders,
        wires,
    })
}
