//! The machines of signals and of memories, and the channels between machines.
ghost use Rattle.std.specs.Prelude.{◌≡◌, ℕ, ◌<◌, length, IfOk};
ghost use Rattle.gg_flat.specs.Line.{value_at};
ghost use Rattle.gg_part.specs.KeepsToTree.{KeepsToTree};
ghost use Rattle.gg_cut_plan.specs.Listed.{owner_of, memory_owner};
ghost use Rattle.gg_cut_plan.specs.Channels.{wires_of};
ghost use Rattle.gg_cut_plan.specs.Plan.{IsInner};
ghost use Rattle.gg_cut_split.specs.inside.Apart.{AreApart};
ghost use Rattle.gg_cut_split.specs.inside.Beginning.{IsWhole};
ghost use Rattle.gg_cut_split.specs.inside.Ends.{AreEndsOf};

use crate::beginning::{Beginning, Whole, begin};
use crate::ends::Ends;
use crate::tables::memory_owners;
use gg_bits::{Ids, Items};
use gg_cut_plan::{Listed, Wire};
use gg_order::Design;
use gg_partfile::BridgeEntry;
use std::alloc::{AllocError, Global};

/// The channels of a cut, and the owners of its signals and memories.
pub struct Owned {
    /// The channels, before any is routed.
    pub wires: Items<Wire>,
    /// The machine of each signal that no channel carries, by its instance.
    pub signals: Ids,
    /// The machine of each memory, by its place in the tree.
    pub memories: Ids,
}

impl Drop for Owned {
    fn drop(self) {
        let Self {
            wires,
            signals,
            memories,
        } = self;
        drop(wires);
        drop(signals);
        drop(memories);
    }
}

/// The channels of a cut with bridges by these entries, and the owners of its signals and memories. What is listed is apart.
///
/// # Errors
///
/// Returns `AllocError` if an allocation fails.
pub fn owned_of(
    alloc: Global,
    design: &Design,
    listed: &Listed,
    entries: &[BridgeEntry],
    ends: &Ends,
) -> Result<Owned, AllocError>
    requires keeps { KeepsToTree design.now.circuit design.now.tree }
    requires apart { AreApart design.now.tree listed.now }
    requires ends { AreEndsOf design.now.circuit design.now.tree listed.now entries.now ends.now }
    ensures wires { IfOk result (λ found. found.wires ≡ wires_of design.now.circuit design.now.tree listed.now entries.now) }
    ensures count { IfOk result (λ found. length found.signals ≡ length design.now.circuit.signals) }
    ensures signals { IfOk result (λ found. (s : ℕ) → s < length design.now.circuit.signals → IsInner found.wires s → value_at found.signals s ≡ owner_of design.now.circuit design.now.tree listed.now s) }
    ensures memories { IfOk result (λ found. (place : ℕ) → place < length design.now.tree.memories → value_at found.memories place ≡ memory_owner design.now.tree listed.now place) }
{
    // for the invariant only
    let _ = design.piece().signal_count();
    let whole = Whole {
        piece: design.piece(),
        tree: design.tree(),
        order: design.order(),
        listed,
        entries,
        ends,
    };
    let found = owned_in(alloc, &whole)?;
    Ok(found)
}

// `owned_of` for a circuit with its tree and an order.
fn owned_in(alloc: Global, whole: &Whole) -> Result<Owned, AllocError>
    requires { IsWhole whole.now }
    ensures wires { IfOk result (λ found. found.wires ≡ wires_of whole.now.piece.now whole.now.tree.now whole.now.listed.now whole.now.entries.now) }
    ensures count { IfOk result (λ found. length found.signals ≡ length whole.now.piece.now.signals) }
    ensures signals { IfOk result (λ found. (s : ℕ) → s < length whole.now.piece.now.signals → IsInner found.wires s
        → value_at found.signals s ≡ owner_of whole.now.piece.now whole.now.tree.now whole.now.listed.now s) }
    ensures memories { IfOk result (λ found. (place : ℕ) → place < length whole.now.tree.now.memories → value_at found.memories place ≡ memory_owner whole.now.tree.now whole.now.listed.now place) }
{
    let beginning = begin(alloc, whole)?;
    let memories = memory_owners(
        alloc,
        whole.tree,
        &whole.ends.numbering,
        whole.listed,
        &beginning.owners,
    )?;
    let Beginning {
        owners,
        holders,
        wires,
    } = beginning;
    drop(owners);
    Ok(Owned {
        wires: Items::from(wires),
        signals: Ids::from(holders),
        memories: Ids::from(memories),
    })
}
