//! The plan of a cut, and what its channels need.
ghost use Rattle.std.specs.Prelude.{◌≡◌, ◌<◌, ◌≤◌, length, All, IfOk, slice_index_or};
ghost use Rattle.gg_bits.specs.Limits.{capacity_limit};
ghost use Rattle.gg_cut_plan.specs.declared.plan.Channel.{Channel};
ghost use Rattle.gg_part.specs.KeepsToTree.{KeepsToTree};
ghost use Rattle.gg_cut_plan.specs.Clocks.{ratios_of};
ghost use Rattle.gg_cut_plan.specs.Held.{AreHeldOnce};
ghost use Rattle.gg_flat.specs.WellFormed.{IsWellFormed};
ghost use Rattle.gg_cut_plan.specs.Fault.{IsSmall, Tells, first_fault_with};
ghost use Rattle.gg_cut_plan.specs.Plan.{IsPlan};
ghost use Rattle.gg_cut_parts.specs.inside.Draft.{IsDraft};
ghost use Rattle.gg_cut.specs.inside.Drafted.{AreDraftChannels, AreDraftMachines};
ghost use Rattle.gg_cut.specs.Made.{IsCapacity};

use crate::channels::channels_of;
use crate::judged::draft_of;
use crate::machines::machines_of;
use crate::needs::needs_table;
use gg_bits::Items;
use gg_clocks::Ratio;
use gg_cut_parts::Draft;
use gg_cut_plan::{Channel, CutFault, Machine, Models, Plan};
use gg_cut_rules::clock_ratios;
use gg_order::Design;
use gg_part::part_formed;
use gg_partfile::Request;
use std::alloc::{AllocError, Global};

/// The plan of a design and a request. The design's circuit keeps to its tree and has each register held once. `default_capacity` is the capacity of
/// the channels that the request doesn't name. Each channel's capacity is from 1 to 4,096. `models` has the models of bridges that are known.
///
/// # Errors
///
/// Returns the request's first fault (gg_cut_plan's `first_fault_with`), exactly if it has one, or `NoMemory` if an allocation fails, or if the plan
/// would have 2^32 machines.
///
/// # Examples
///
/// ```
/// // The top has the input x, the output y and the instance a. In a, a register is between the input i and the output o.
/// // a.i is x, and y is a.o. The request has only the unit a, and no direct channels.
/// let plan = cut(alloc, &design, &request, 2, &models)?;
/// // Machines: 0 hub:, 1 a, 2 in:x, 3 out:y.
/// // Channels: 0 x from in:x to hub:, 1 a.i from hub: to a, 2 a.o from a to hub:, 3 y from hub: to out:y.
/// deps(&plan, 1); // [0]: a.i needs x
/// deps(&plan, 2); // []: the register gives a.o
/// deps(&plan, 3); // [2]: y needs a.o
/// ```
pub fn cut(
    alloc: Global,
    design: &Design,
    request: &Request,
    default_capacity: u32,
    models: &Models,
) -> Result<Plan, CutFault>
    requires small { IsSmall request.now }
    requires keeps { KeepsToTree design.now.circuit design.now.tree }
    requires held { AreHeldOnce design.now.circuit }
    requires some { 0 < default_capacity }
    requires bounded { default_capacity ≤ capacity_limit }
    requires models { All (λ model. IsWellFormed model.1) models.now }
    ensures told { Tells (first_fault_with design.now models.now request.now) result }
    ensures plan { IfOk result (λ plan. IsPlan design.now request.now models.now default_capacity plan) }
    ensures capacities { IfOk result (λ plan. All (λ channel. IsCapacity channel.capacity) plan.channels) }
{
    let draft = draft_of(alloc, design, request, default_capacity, models)?;
    let plan = plan_by(alloc, draft)?;
    Ok(plan)
}

// The plan of a draft.
fn plan_by(alloc: Global, draft: Draft) -> Result<Plan, AllocError>
    requires { IsDraft draft }
    ensures plan { IfOk result (λ plan. IsPlan draft.entry.design.now draft.entry.request.now draft.entry.models.now draft.entry.default_capacity plan) }
    ensures capacities { IfOk result (λ plan. All (λ channel. IsCapacity channel.capacity) plan.channels) }
{
    let ratios = ratios_for(alloc, &draft)?;
    let machines = machines_of(alloc, &draft)?;
    let channels = channels_for(alloc, &draft, &machines)?;
    Ok(Plan {
        machines: Items::from(machines),
        channels: Items::from(channels),
        listed: draft.into_listed(),
        ratios: Items::from(ratios),
    })
}

// The ratios of the circuit's clocks.
fn ratios_for(alloc: Global, draft: &Draft) -> Result<Vec<Ratio>, AllocError>
    requires { IsDraft draft.now }
    ensures { IfOk result (λ ratios. ratios.items ≡ ratios_of draft.now.design.now.tree draft.now.request.now) }
{
    clock_ratios(alloc, draft.design.tree(), draft.request.clocks.as_slice())
}

// The channels between these machines.
fn channels_for(
    alloc: Global,
    draft: &Draft,
    machines: &[Machine],
) -> Result<Vec<Channel>, AllocError>
    requires draft { IsDraft draft.now }
    requires machines { AreDraftMachines draft.now machines.now }
    ensures { IfOk result (λ channels. AreDraftChannels draft.now machines.now channels.items) }
{
    // for the invariant only
    let _ = draft.design.piece();
    part_formed();
    let wires = draft.wires();
    let mut table = needs_table(alloc, wires, machines)?;
    let channels = channels_of(alloc, draft, wires, &mut table)?;
    Ok(channels)
}

/// The channels that a channel of a plan needs in a cycle, ascending. Its producer has to take a token of each of
/// them before it gives one.
pub fn deps(plan: &Plan, channel: u32) -> &[u32]
    requires { channel < length plan.now.channels }
    ensures { (any : Channel) → result.now ≡ (slice_index_or plan.now.channels channel any).needs }
{
    plan.channels.as_slice()[channel as usize].needs.as_slice()
}
