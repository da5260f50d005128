//! `snapshot`, `restore`: from a network to a snapshot, and back.
ghost use Rattle.std.specs.Prelude.{◌≡◌, ℕ, List, IfOk};
ghost use Rattle.gg_flat.specs.Run.{Start};
ghost use Rattle.gg_cut_reference.specs.Made.{AllHeld, IsFresh, plan_reference};
ghost use Rattle.gg_snap.specs.inside.Whole.{CanBegin};
ghost use Rattle.gg_snap.specs.Whole.{HasEnded, last_state};
ghost use Rattle.gg_snap.specs.inside.StatesHeld.{BeginsIn};

use crate::gathering::gather;
use crate::pipes::tokens_of;
use crate::text::Snap;
use gg_bridge::Bridge;
use gg_build::{Begin, Node, build_from};
use gg_cut_plan::Plan;
use gg_net::{Net, Streams};
use gg_order::Design;
use gg_trace::Trace;
use std::alloc::{AllocError, Global};

/// The snapshot of a plan's network at the end of its run: the cycle there, and the state of the reference circuit. `plan` is a plan of `design`
/// without bridges, and `reference` has the reference circuit of the plan.
///
/// # Errors
///
/// Returns `AllocError` if an allocation fails, or if a bridge's host has one of the machines, because a bridge doesn't give its state. The network
/// that gg_build makes for a plan without bridges has no such host.
pub fn snapshot<'a, B: Bridge + Send + Drop, Z: Streams>(
    alloc: Global,
    net: &Net<Node<'_, B>, Z>,
    plan: &Plan,
    design: &Design,
    reference: &'a Design,
    cycle: u64,
) -> Result<Snap<'a>, AllocError>
    requires ended { (start : Start) × (columns : List (List ℕ))
        × (ended : HasEnded plan.now design.now start columns cycle Z.flow net.now)
        × (reference.now.circuit ≡ plan_reference ended.run.design ended.run.request) }
    requires fresh { IsFresh design.now.circuit }
    requires held { AllHeld design.now.circuit }
    ensures design { IfOk result (λ snap. snap.design ≡ reference.now) }
    ensures cycle { IfOk result (λ snap. snap.cycle ≡ cycle) }
    ensures state { IfOk result (λ snap. (start : Start) (columns : List (List ℕ)) (ended : HasEnded plan.now design.now start columns cycle Z.flow net.now) → snap.state ≡ last_state ended.run) }
{
    net.kept();
    net.within_limits();
    let state = gather(alloc, net, plan, design.piece())?;
    Ok(Snap::new(reference, cycle, state))
}

/// Builds the network of a plan that begins with a snapshot's cycle and state. `plan` is a plan of `design` without bridges, and the snapshot is one
/// of the reference circuit of the plan. The sources give the columns of a trace, starting at the snapshot's cycle, which should be at most the
/// number of the trace's rows.
///
/// Allocates all the memory that the network will use.
///
/// # Errors
///
/// Returns `AllocError` if an allocation fails.
pub fn restore<'p, B: Bridge + Send + Drop, Z: Streams>(
    alloc: Global,
    plan: &'p Plan,
    design: &Design,
    trace: &Trace,
    snap: Snap<'_>,
) -> Result<Net<Node<'p, B>, Z>, AllocError>
    requires { (start : Start) × CanBegin plan.now design.now snap.cycle snap.state start trace.now.columns trace.now.rows Z.flow }
    ensures { IfOk result (λ net. BeginsIn plan.now design.now snap.entry.cycle snap.entry.state trace.now.columns trace.now.rows Z.flow net) }
{
    let piece = design.piece();
    let signals = piece.signal_count();
    let held = piece.registers().len();
    let cycle = snap.cycle();
    let state = snap.into_state();
    let channels = plan.channels.as_slice();
    let tokens = tokens_of(alloc, channels, signals, held, state.registers())?;
    let begin = Begin {
        cycle,
        state: Some(state),
        tokens,
    };
    let net = build_from::<B, Z>(alloc, plan, trace, &begin, Vec::new(alloc))?;
    Ok(net)
}
