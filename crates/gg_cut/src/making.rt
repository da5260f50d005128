//! `Making`: what the machines of a plan are made from.
ghost use Rattle.std.specs.Prelude.{◌≡◌, ◌==◌, if◌then◌else◌, filter, slice_index_or, IfOk};
ghost use Rattle.gg_cut_split.specs.declared.share.Share.{Share};
ghost use Rattle.gg_cut_routes.specs.inside.Share.{stays_by};
ghost use Rattle.gg_cut_parts.specs.inside.Draft.{IsDraft};

use gg_cut_machines::Places;
use gg_cut_parts::{Domains, Draft};
use gg_cut_routes::staying;
use gg_cut_split::Share;
use std::alloc::{AllocError, Global};

// What the machines of a plan are made from: the draft, what each machine has by its number, what clocks they follow, and what stays of the hub's
// signals.
#[derive(Clone, Copy)]
pub(crate) struct Making<'s, 'a> {
    pub(crate) draft: &'s Draft<'a>,
    pub(crate) places: &'s Places,
    pub(crate) domains: &'s Domains,
    pub(crate) hub: &'s [u32],
}

// What stays of the hub's signals by the routed channels.
//
// # Errors
//
// Returns `AllocError` if an allocation fails.
pub(crate) fn hub_signals(alloc: Global, draft: &Draft) -> Result<Vec<u32>, AllocError>
    requires { IsDraft draft.now }
    ensures { (any : Share) → IfOk result (λ hub. hub.items ≡ filter (stays_by draft.now.routed.wires draft.now.routed.gone) (slice_index_or draft.now.split.shares 0 any).globals) }
{
    // for the invariant only
    let _ = draft.design.order();
    let shares = draft.split.shares.as_slice();
    let first = &shares[0];
    let hub = staying(
        alloc,
        draft.wires(),
        draft.routed.gone.as_slice(),
        draft.design.piece().signal_count(),
        first.globals.as_slice(),
    )?;
    Ok(hub)
}

// The signals of a machine by the routed channels, from what it had before: what stays of the hub's, and all of each other machine.
pub(crate) fn kept_signals<'s>(hub: &'s [u32], before: &'s Share, number: usize) -> &'s [u32]
    ensures { result.now ≡ (if number == 0 then hub.now else before.now.globals) }
{
    if number == 0 {
        hub
    } else {
        before.globals.as_slice()
    }
}
