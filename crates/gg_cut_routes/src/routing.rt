//! The channels of a cut with direct channels.
ghost use Rattle.std.specs.Prelude.{◌≡◌, length, IfOk};
ghost use Rattle.gg_part.specs.KeepsToTree.{KeepsToTree};
ghost use Rattle.gg_order.specs.Marks.{is_marked};
ghost use Rattle.gg_cut_plan.specs.Channels.{wires_of};
ghost use Rattle.gg_cut_plan.specs.Ports.{ports_of};
ghost use Rattle.gg_cut_plan.specs.inside.Ports.{counts_of};
ghost use Rattle.gg_cut_split.specs.inside.Apart.{AreApart};
ghost use Rattle.gg_cut_split.specs.inside.IsShare.{AreShares};
ghost use Rattle.gg_cut_plan.specs.Direct.{hub_of, routes};
ghost use Rattle.gg_cut_routes.specs.inside.Routes.{AreRoutes};
ghost use Rattle.gg_cut_routes.specs.inside.Routable.{CanRoute, IsRouting, MarksGone};

use crate::gone::gone_of;
use crate::laws::channels_routed;
use crate::names::{names_of, push_stops};
use crate::origins::origins_of;
use crate::routed::routed_of;
use crate::sides::{made_of, routed_sides};
use crate::straight::straight_of;
use gg_bits::Items;
use gg_cut_plan::{Listed, Numbering, Wire, marks_of};
use gg_cut_split::{Split, channels_once};
use gg_flat::Piece;
use gg_flat_tree::Tree;
use gg_order::Design;
use gg_partfile::BridgeEntry;
use std::alloc::{AllocError, Global};

/// The channels of a cut, and what leaves the plan.
pub struct Channels {
    /// The channels that are left, in their order. A direct channel has its origin's producer, and is given by the origin.
    pub wires: Items<Wire>,
    /// For each signal of the circuit whether it leaves: an in-channel of the hub that is only copied, or a copy of one.
    pub gone: Items<bool>,
}

impl Drop for Channels {
    fn drop(self) {
        let Self { wires, gone } = self;
        drop(wires);
        drop(gone);
    }
}

/// The channels of a cut and what leaves. `split` has the channels before and what each machine has, and `piped` marks the signals of piped channels.
/// If `direct` is false, all channels stay as they are.
///
/// # Errors
///
/// Returns `AllocError` if an allocation fails.
pub fn routes(
    alloc: Global,
    design: &Design,
    _listed: &Listed,
    _entries: &[BridgeEntry],
    split: &Split,
    numbering: Numbering,
    piped: &[bool],
    direct: bool,
) -> Result<Channels, AllocError>
    requires keeps { KeepsToTree design.now.circuit design.now.tree }
    requires apart { AreApart design.now.tree _listed.now }
    requires wires { split.now.wires ≡ wires_of design.now.circuit design.now.tree _listed.now _entries.now }
    requires shares { AreShares design.now _listed.now _entries.now split.now.shares }
    requires numbers { numbering ≡ counts_of _listed.now (ports_of design.now.circuit design.now.tree _listed.now _entries.now) }
    requires piped { length piped.now ≡ length design.now.circuit.signals }
    ensures wires { IfOk result (λ found. found.wires ≡ routes (hub_of design.now.circuit design.now.tree _listed.now (is_marked piped.now) _entries.now direct)) }
    ensures gone { IfOk result (λ found. MarksGone (hub_of design.now.circuit design.now.tree _listed.now (is_marked piped.now) _entries.now direct) found.gone) }
    ensures sound { AreRoutes design.now _listed.now _entries.now (hub_of design.now.circuit design.now.tree _listed.now (is_marked piped.now) _entries.now direct) }
{
    channels_routed();
    channels_once();
    let hub = &split.shares.as_slice()[0];
    let channels = routes_of(
        alloc,
        design.piece(),
        design.tree(),
        design.order(),
        _listed,
        _entries,
        split.wires.as_slice(),
        hub.globals.as_slice(),
        hub.memories.as_slice(),
        numbering,
        piped,
        direct,
    )?;
    Ok(channels)
}

// The channels of a cut and what leaves, from the channels before and what the hub has.
fn routes_of(
    alloc: Global,
    piece: &Piece,
    tree: &Tree,
    order: &[u32],
    _listed: &Listed,
    _entries: &[BridgeEntry],
    wires: &[Wire],
    globals: &[u32],
    memories: &[u32],
    numbering: Numbering,
    piped: &[bool],
    direct: bool,
) -> Result<Channels, AllocError>
    requires can { CanRoute piece.now tree.now order.now _listed.now _entries.now wires.now globals.now memories.now }
    requires numbers { numbering ≡ counts_of _listed.now (ports_of piece.now tree.now _listed.now _entries.now) }
    requires piped { length piped.now ≡ length piece.now.signals }
    ensures { IfOk result (λ found. IsRouting (hub_of piece.now tree.now _listed.now (is_marked piped.now) _entries.now direct) found.wires found.gone) }
{
    let count = piece.signal_count();
    let sides = routed_sides(alloc, count, wires, globals)?;
    let made = made_of(alloc, &sides, globals)?;
    let origins = origins_of(alloc, piece, order, &sides, piped)?;
    let mut names = names_of(alloc, piece, &made, memories)?;
    push_stops(&mut names, tree)?;
    let named = marks_of(alloc, count, &names)?;
    let straight = straight_of(
        alloc, piece, numbering, wires, &sides, &origins, &named, direct,
    )?;
    let gone = gone_of(alloc, piece, &sides, &made, memories, &origins, &straight)?;
    let routed = routed_of(alloc, wires, &sides, &straight, &gone)?;
    Ok(Channels {
        wires: Items::from(routed),
        gone: Items::from(gone),
    })
}
