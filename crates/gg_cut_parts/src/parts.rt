//! The parts of the circuit that the machines run.
ghost use Rattle.std.specs.Prelude.{◌≡◌, ◌<◌, length, All, AllPairs, IfOk};
ghost use Rattle.gg_cut_plan.specs.Plan.{signals_of, givens_of};
ghost use Rattle.gg_cut_parts.specs.inside.Draft.{IsMachineDraft, IsDraftPart, IsUnitTimed};

use crate::machine_draft::MachineDraft;
use gg_cut_plan::Wire;
use gg_part::{Part, part_in_order, part_of};
use std::alloc::{AllocError, Global};

/// The part of a machine.
///
/// # Errors
///
/// Returns `AllocError` if an allocation fails.
pub fn cut_part(alloc: Global, machine: &MachineDraft) -> Result<Part, AllocError>
    requires machine { IsMachineDraft machine.now }
    ensures part { IfOk result (λ part. IsDraftPart machine.now.draft.now machine.now.number part) }
    ensures ascend { IfOk result (λ part. AllPairs (λ a b. a < b) part.memories) }
    ensures timed { IfOk result (λ part. IsUnitTimed machine.now part) }
{
    let draft = machine.draft;
    // for the invariant only
    let _ = draft.design.order();
    part_in_order();
    let ins = signals(alloc, draft.wires(), machine.ins)?;
    let outs = givens(alloc, draft.wires(), machine.outs)?;
    let part = part_of(
        alloc,
        draft.design.piece(),
        machine.domains.clocks(&draft.listed, machine.number),
        machine.domains.clocking(&draft.listed, machine.number),
        machine.globals,
        &ins,
        &outs,
        machine.memories,
    )?;
    Ok(part)
}

// The signals of channels, as their consumers take them.
fn signals(alloc: Global, wires: &[Wire], channels: &[u32]) -> Result<Vec<u32>, AllocError>
    requires { All (λ channel. channel < length wires.now) channels.now }
    ensures { IfOk result (λ signals. signals.items ≡ signals_of wires.now channels.now) }
{
    let mut signals = Vec::new(alloc);
    for channel in channels {
        signals.push(wires[*channel as usize].signal)?;
    }
    Ok(signals)
}

// The signals that give the channels' values in their producers.
//
// # Errors
//
// Returns `AllocError` if an allocation fails.
pub(crate) fn givens(
    alloc: Global,
    wires: &[Wire],
    channels: &[u32],
) -> Result<Vec<u32>, AllocError>
    requires { All (λ channel. channel < length wires.now) channels.now }
    ensures { IfOk result (λ givens. givens.items ≡ givens_of wires.now channels.now) }
{
    let mut givens = Vec::new(alloc);
    for channel in channels {
        givens.push(wires[*channel as usize].given)?;
    }
    Ok(givens)
}
