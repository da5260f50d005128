//! `draft_of`: the draft of a request without a fault.
ghost use Rattle.std.specs.Prelude.{◌≡◌, ◌<◌, ◌^◌, length, map, None, All, IfOk};
ghost use Rattle.gg_part.specs.KeepsToTree.{KeepsToTree};
ghost use Rattle.gg_flat.specs.WellFormed.{IsWellFormed};
ghost use Rattle.gg_cut_plan.specs.Direct.{plan_wires};
ghost use Rattle.gg_cut_plan.specs.Fault.{IsSmall, Tells, entry_faults, first_fault, first_fault_with};
ghost use Rattle.gg_bits.specs.Lists.{first_of};
ghost use Rattle.gg_cut_plan.specs.Held.{AreHeldOnce};
ghost use Rattle.gg_cut_plan.specs.Listed.{listed_of};
ghost use Rattle.gg_cut_parts.specs.inside.Draft.{IsDraft};
ghost use Rattle.gg_cut.specs.Made.{IsCapacity};

use gg_cut_parts::Draft;
use gg_cut_plan::{CutFault, Listed, Models, Wire};
use gg_cut_routes::plan_routes;
use gg_cut_rules::{judge_bridges, judge_channels, judge_clocks, judge_entries, judge_pipes};
use gg_cut_split::{ends_of, listed_apart, split};
use gg_order::Design;
use gg_partfile::Request;
use std::alloc::{AllocError, Global};

// The draft of a cut, if the request has no fault.
//
// # Errors
//
// Returns the request's first fault (gg_cut_plan's `first_fault_with`), exactly if it has one, or `NoMemory` if an allocation
// fails, or if the cut would have 2^32 machines.
pub(crate) fn draft_of<'a>(
    alloc: Global,
    design: &'a Design,
    request: &'a Request,
    default_capacity: u32,
    models: &'a Models,
) -> Result<Draft<'a>, CutFault>
    requires small { IsSmall request.now }
    requires capacity { IsCapacity default_capacity }
    requires keeps { KeepsToTree design.now.circuit design.now.tree }
    requires held { AreHeldOnce design.now.circuit }
    requires models { All (λ model. IsWellFormed model.1) models.now }
    ensures told { Tells (first_fault_with design.now models.now request.now) result }
    ensures draft { IfOk result (λ draft. IsDraft draft) }
    ensures design { IfOk result (λ draft. draft.design.now ≡ design.now) }
    ensures request { IfOk result (λ draft. draft.request.now ≡ request.now) }
    ensures models { IfOk result (λ draft. draft.models.now ≡ models.now) }
    ensures capacity { IfOk result (λ draft. draft.default_capacity ≡ default_capacity) }
{
    let listed = judge_entries(alloc, design, request)?;
    listed_apart();
    let entries = request.bridges.as_slice();
    let ends = ends_of(alloc, design, &listed, entries)?;
    let split = split(alloc, design, &listed, entries, &ends)?;
    let routed = plan_routes(alloc, design, request, &listed, &ends, &split)?;
    judge_routed(alloc, design, request, &listed, routed.wires.as_slice())?;
    judge_bridges(alloc, design.piece(), design.tree(), models, request)?;
    Ok(Draft {
        design,
        request,
        models,
        default_capacity,
        listed,
        ends,
        split,
        routed,
    })
}

// Checks the channels, the pipes and the clocks of a plan. The entries of its request have no fault.
fn judge_routed(
    alloc: Global,
    design: &Design,
    request: &Request,
    listed: &Listed,
    wires: &[Wire],
) -> Result<(), CutFault>
    requires small { IsSmall request.now }
    requires entries { first_of (entry_faults design.now.tree request.now) ≡ None }
    requires listed { listed.now ≡ listed_of design.now.tree request.now }
    requires units { length listed.now.units < 2 ^ 32 }
    requires memories { length listed.now.memories < 2 ^ 32 }
    requires wires { wires.now ≡ plan_wires design.now.circuit design.now.tree request.now }
    requires known { All (λ w. w.signal < length design.now.circuit.signals) wires.now }
    ensures { Tells (first_fault design.now request.now) result }
{
    let signals = all_signals(alloc, wires)?;
    judge_channels(alloc, design.piece(), request, listed, &signals)?;
    judge_pipes(alloc, design.piece(), request, &signals)?;
    judge_clocks(alloc, design.tree(), request)
}

// The signals that the consumers of channels take.
fn all_signals(alloc: Global, wires: &[Wire]) -> Result<Vec<u32>, AllocError>
    ensures { IfOk result (λ signals. signals.items ≡ map (λ w. w.signal) wires.now) }
{
    let mut signals = Vec::new(alloc);
    for wire in wires {
        signals.push(wire.signal)?;
    }
    Ok(signals)
}
