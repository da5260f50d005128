//! The channels of a plan, and what stays of the hub's signals.
ghost use Rattle.std.specs.Prelude.{◌≡◌, ℕ, ◌<◌, ◌&&◌, [], not, length, filter, All, IfOk};
ghost use Rattle.gg_part.specs.KeepsToTree.{KeepsToTree};
ghost use Rattle.gg_order.specs.Marks.{is_marked};
ghost use Rattle.gg_cut_plan.specs.Channels.{wires_of};
ghost use Rattle.gg_cut_plan.specs.Direct.{plan_hub, plan_wires, is_gone};
ghost use Rattle.gg_cut_plan.specs.Listed.{listed_of};
ghost use Rattle.gg_cut_split.specs.inside.Ends.{AreEndsOf};
ghost use Rattle.gg_cut_split.specs.inside.Apart.{AreApart};
ghost use Rattle.gg_cut_split.specs.inside.IsShare.{AreShares};
ghost use Rattle.gg_cut_routes.specs.inside.Routes.{AreRoutes};
ghost use Rattle.gg_cut_routes.specs.inside.Share.{is_past_hub, past_hub, stays_by};

use crate::laws::channels_routed;
use crate::lists::push_if;
use crate::piped::piped_of;
use crate::routing::{Channels, routes};
use gg_cut_plan::{Listed, Wire, marks_of};
use gg_cut_split::{Ends, Split};
use gg_order::Design;
use gg_partfile::Request;
use std::alloc::{AllocError, Global};

/// The channels of the plan of a request that lists this, and what leaves. `ends` has the machines at the ports of the top, and `split` the channels
/// before and what each machine has. If the request has no direct channels, all channels stay as they are.
///
/// # Errors
///
/// Returns `AllocError` if an allocation fails.
pub fn plan_routes(
    alloc: Global,
    design: &Design,
    request: &Request,
    listed: &Listed,
    ends: &Ends,
    split: &Split,
) -> Result<Channels, AllocError>
    requires keeps { KeepsToTree design.now.circuit design.now.tree }
    requires listed { listed.now ≡ listed_of design.now.tree request.now }
    requires apart { AreApart design.now.tree listed.now }
    requires ends { AreEndsOf design.now.circuit design.now.tree listed.now request.now.bridges ends.now }
    requires wires { split.now.wires ≡ wires_of design.now.circuit design.now.tree listed.now request.now.bridges }
    requires shares { AreShares design.now listed.now request.now.bridges split.now.shares }
    ensures wires { IfOk result (λ found. found.wires ≡ plan_wires design.now.circuit design.now.tree request.now) }
    ensures gone { IfOk result (λ found. (s : ℕ) → s < length design.now.circuit.signals → is_marked found.gone s ≡ is_gone (plan_hub design.now.circuit design.now.tree request.now) s) }
    ensures sound { IfOk result (λ found. AreRoutes design.now listed.now request.now.bridges (plan_hub design.now.circuit design.now.tree request.now)) }
{
    channels_routed();
    // for the invariant only
    let _ = design.order();
    let piped = piped_of(alloc, design.piece(), request.pipe.as_slice())?;
    let channels = routes(
        alloc,
        design,
        listed,
        request.bridges.as_slice(),
        split,
        ends.numbering,
        &piped,
        request.direct,
    )?;
    Ok(channels)
}

/// What stays of these signals of the hub, in their order. `wires` are the channels after the routing, `gone` marks what leaves, and `count` is the
/// number of all signals.
///
/// # Errors
///
/// Returns `AllocError` if an allocation fails.
pub fn staying(
    alloc: Global,
    wires: &[Wire],
    gone: &[bool],
    count: usize,
    globals: &[u32],
) -> Result<Vec<u32>, AllocError>
    requires wires { All (λ w. w.signal < count) wires.now }
    requires known { All (λ s. s < count) globals.now }
    ensures { IfOk result (λ staying. staying.items ≡ filter (stays_by wires.now gone.now) globals.now) }
{
    let passing = past_hub(alloc, wires)?;
    let marks = marks_of(alloc, count, &passing)?;
    let past = marks.as_slice();
    let mut staying = Vec::new(alloc);
    for signal in globals {
        push_if(&mut staying, *signal, stays(gone, past, *signal))?;
    }
    Ok(staying)
}

// The signals of the channels that pass the hub.
fn past_hub(alloc: Global, wires: &[Wire]) -> Result<Vec<u32>, AllocError>
    ensures { IfOk result (λ past. past.items ≡ past_hub wires.now) }
{
    let mut past = Vec::new(alloc);
    for place in 0..wires.len() {
        let wire = wires[place];
        push_if(&mut past, wire.signal, is_past_hub(wire))?;
    }
    Ok(past)
}

// Whether the hub is at no end of a channel.
fn is_past_hub(wire: Wire) -> bool
    ensures { result ≡ is_past_hub wire }
{
    wire.producer != 0 && wire.consumer != 0
}

// Whether a signal is neither gone nor carried past the hub.
fn stays(gone: &[bool], past: &[bool], signal: u32) -> bool
    ensures { result ≡ (not (is_marked gone.now signal) && not (is_marked past.now signal)) }
{
    !marked(gone, signal) && !marked(past, signal)
}

// Whether a signal is marked.
fn marked(marks: &[bool], signal: u32) -> bool
    ensures { result ≡ is_marked marks.now signal }
{
    match marks.get(signal as usize) {
        Some(mark) => *mark,
        None => false,
    }
}
