//! The machines of a plan.
ghost use Rattle.std.specs.Prelude.{◌≡◌, ℕ, ◌+◌, ◌<◌, [], length, slice_index_or, IfOk, OnOk};
ghost use Rattle.gg_flat.specs.Line.{value_at};
ghost use Rattle.gg_flat_tree.specs.Tree.{path_at};
ghost use Rattle.gg_cut_plan.specs.Alike.{AreAlike};
ghost use Rattle.gg_cut_plan.specs.Hosts.{leader};
ghost use Rattle.gg_cut_plan.specs.Machines.{first_source};
ghost use Rattle.gg_cut_plan.specs.Ports.{first_bridge};
ghost use Rattle.gg_cut_plan.specs.declared.plan.Body.TheVariants.{Bridge};
ghost use Rattle.gg_cut_split.specs.inside.Again.{IsUnitAgain};
ghost use Rattle.gg_cut_parts.specs.inside.Draft.{IsDraft, IsMachineDraft};
ghost use Rattle.gg_cut_machines.specs.inside.Drafted.{draft_bridges, draft_end};
ghost use Rattle.gg_cut.specs.inside.Drafted.{AreDraftMachines, AreEarlier, IsDraftBody, IsMaking, IsNextBody, IsPlaced, IsUnitBody};
ghost use Rattle.gg_cut.specs.inside.Made.{HasAscending, IsTimedBody, IsTimedUnit};

use crate::making::{Making, hub_signals, kept_signals};
use gg_bits::{Ids, Name, copied};
use gg_cut_machines::{Places, bridge_body, given, places_of, taken};
use gg_cut_parts::{Draft, MachineDraft, cut_part, domains_of, moved_part};
use gg_cut_plan::{Body, BridgeBody, Machine, Role};
use gg_cut_reference::bridges_fit;
use gg_cut_split::{filled, units_stand_again};
use std::alloc::{AllocError, Global};

// The machines of a draft, by their numbers.
//
// # Errors
//
// Returns `AllocError` if an allocation fails.
pub(crate) fn machines_of(alloc: Global, draft: &Draft) -> Result<Vec<Machine>, AllocError>
    requires { IsDraft draft.now }
    ensures { IfOk result (λ machines. AreDraftMachines draft.now machines.items) }
{
    let places = places_of(alloc, draft)?;
    let domains = domains_of(alloc, draft.design, &draft.listed)?;
    let kept = hub_signals(alloc, draft)?;
    let hub: &[u32] = &kept;
    let making = Making {
        draft,
        places: &places,
        domains: &domains,
        hub,
    };
    let machines = all_machines(alloc, &making)?;
    Ok(machines)
}

// The machines, one after another.
fn all_machines(alloc: Global, making: &Making) -> Result<Vec<Machine>, AllocError>
    requires { IsMaking making.now }
    ensures { IfOk result (λ machines. AreDraftMachines making.now.draft.now machines.items) }
{
    let mut table = filled(alloc, making.draft.design.piece().signal_count(), 0)?;
    let mut machines = Vec::new(alloc);
    for number in 0..making.draft.numbering().count() {
        let body = body_at(alloc, making, number, &machines, &mut table)?;
        let made = machine_at(alloc, making.places, number, body)?;
        machines.push(made)?;
    }
    Ok(machines)
}

// A machine with its name, its host and its channels, and with this body.
fn machine_at(
    alloc: Global,
    places: &Places,
    number: usize,
    body: Body,
) -> Result<Machine, AllocError>
    requires names { number < length places.now.names.items }
    requires hosts { number < length places.now.hosts.numbers.items }
    requires ins { number < length places.now.sides.ins.items }
    requires outs { number < length places.now.sides.outs.items }
    ensures { IfOk result (λ made. IsPlaced places.now number body made) }
{
    match heading_of(alloc, places, number) {
        Ok(heading) => {
            let Heading { name, ins, outs } = heading;
            Ok(Machine {
                name,
                host: places.hosts.numbers[number],
                body,
                ins,
                outs,
            })
        }
        Err(error) => {
            drop(body);
            Err(error)
        }
    }
}

// A machine's name, and the channels that it takes and gives.
#[derive(Drop)]
struct Heading {
    name: Name,
    ins: Ids,
    outs: Ids,
}

// The name and the channels of a machine.
fn heading_of(alloc: Global, places: &Places, number: usize) -> Result<Heading, AllocError>
    requires names { number < length places.now.names.items }
    requires ins { number < length places.now.sides.ins.items }
    requires outs { number < length places.now.sides.outs.items }
    ensures name { IfOk result (λ h. h.name ≡ path_at places.now.names.items number) }
    ensures ins { IfOk result (λ h. h.ins ≡ slice_index_or places.now.sides.ins.items number []) }
    ensures outs { IfOk result (λ h. h.outs ≡ slice_index_or places.now.sides.outs.items number []) }
{
    let name = places.names[number].clone()?;
    let ins = copied(alloc, taken(places, number))?;
    let outs = copied(alloc, given(places, number))?;
    Ok(Heading { name, ins, outs })
}

// What a machine does, by its number and the earlier machines: it has a part, or is a source, a tray or a bridge. `table` has 0 for each signal,
// before and after.
fn body_at(
    alloc: Global,
    making: &Making,
    number: usize,
    machines: &[Machine],
    table: &mut Vec<u32>,
) -> Result<Body, AllocError>
    requires making { IsMaking making.now }
    requires known { number < draft_end making.now.draft.now }
    requires machines { AreEarlier making.now.draft.now making.now.domains.now number machines.now }
    requires count { length table.old.items ≡ length making.now.draft.now.design.now.circuit.signals }
    requires zero { (s : ℕ) → value_at table.old.items s ≡ 0 }
    ensures body { IfOk result (λ body. IsNextBody making.now.draft.now making.now.domains.now number machines.now body) }
    ensures count { OnOk result (length table.new.items ≡ length making.now.draft.now.design.now.circuit.signals) }
    ensures zero { OnOk result ((s : ℕ) → value_at table.new.items s ≡ 0) }
{
    match making.draft.numbering().role(number) {
        Role::Hub | Role::Unit(_) | Role::Memory(_) => part_at(alloc, making, number, machines),
        Role::Source(place) => Ok(Body::Source(place)),
        Role::Tray(_) => Ok(Body::Tray),
        Role::Bridge(place) => {
            let bridge = bridge_at(alloc, making, number, place as usize, table)?;
            Ok(Body::Bridge(bridge))
        }
    }
}

// What the bridge with a number does, by its place among the bridges. `table` has 0 for each signal, before and after.
fn bridge_at(
    alloc: Global,
    making: &Making,
    number: usize,
    place: usize,
    table: &mut Vec<u32>,
) -> Result<BridgeBody, AllocError>
    requires making { IsMaking making.now }
    requires place { place < length making.now.draft.now.request.now.bridges }
    requires number { number ≡ first_bridge (draft_bridges making.now.draft.now) + place }
    requires count { length table.old.items ≡ length making.now.draft.now.design.now.circuit.signals }
    requires zero { (s : ℕ) → value_at table.old.items s ≡ 0 }
    ensures body { IfOk result (λ bridge. IsDraftBody making.now.draft.now number (Bridge bridge)) }
    ensures count { OnOk result (length table.new.items ≡ length making.now.draft.now.design.now.circuit.signals) }
    ensures zero { OnOk result ((s : ℕ) → value_at table.new.items s ≡ 0) }
{
    let draft = making.draft;
    let piece = draft.design.piece();
    let entries = draft.request.bridges.as_slice();
    let entry = &entries[place];
    let wires = draft.wires();
    let ins = taken(making.places, number);
    let outs = given(making.places, number);
    bridges_fit();
    let body = bridge_body(alloc, piece, draft.models, entry, wires, ins, outs, table)?;
    Ok(body)
}

// What the hub, a unit or a listed memory does, by its number and the earlier machines.
fn part_at(
    alloc: Global,
    making: &Making,
    number: usize,
    machines: &[Machine],
) -> Result<Body, AllocError>
    requires making { IsMaking making.now }
    requires known { number < first_source making.now.draft.now.listed }
    requires machines { AreEarlier making.now.draft.now making.now.domains.now number machines.now }
    ensures { IfOk result (λ body. IsNextBody making.now.draft.now making.now.domains.now number machines.now body) }
{
    let draft = making.draft;
    let shares = draft.split.shares.as_slice();
    let before = &shares[number];
    // for the invariant only
    let _ = draft.design.piece();
    let _ = draft.design.order();
    let machine = MachineDraft {
        draft,
        domains: making.domains,
        ins: taken(making.places, number),
        outs: given(making.places, number),
        globals: kept_signals(making.hub, before, number),
        memories: before.memories.as_slice(),
        number,
    };
    let leaders: &[u32] = &making.places.hosts.leaders;
    part_body(alloc, &machine, machines, leaders[number])
}

// What a machine with a part does. If an earlier machine has its host, its part is that machine's, moved; `first` is the first
// machine of its host.
fn part_body(
    alloc: Global,
    machine: &MachineDraft,
    machines: &[Machine],
    first: u32,
) -> Result<Body, AllocError>
    requires machine { IsMachineDraft machine.now }
    requires machines { AreEarlier machine.now.draft.now machine.now.domains.now machine.now.number machines.now }
    requires first { first ≡ leader machine.now.draft.now.request.now.units machine.now.draft.now.request.now.share machine.now.number }
    ensures { IfOk result (λ body. IsNextBody machine.now.draft.now machine.now.domains.now machine.now.number machines.now body) }
{
    // for the invariant only
    let _ = machine.draft.design.piece();
    let _ = machine.draft.design.order();
    units_stand_again();
    if (first as usize) < machine.number {
        let leader = &machines[first as usize].body;
        moved_body(alloc, machine, leader, first as usize)
    } else {
        own_body(alloc, machine)
    }
}

// What a unit does, from what the first unit of its host does, which has the number `first`.
fn moved_body(
    alloc: Global,
    machine: &MachineDraft,
    leader: &Body,
    first: usize,
) -> Result<Body, AllocError>
    requires machine { IsMachineDraft machine.now }
    requires again { IsUnitAgain machine.now.draft.now.design.now machine.now.draft.now.listed first machine.now.number }
    requires leader { IsUnitBody machine.now first leader.now }
    ensures body { IfOk result (λ body. IsDraftBody machine.now.draft.now machine.now.number body) }
    ensures ascend { IfOk result (λ body. HasAscending body) }
    ensures timed { IfOk result (λ body. IsTimedBody machine.now.domains.now.units body) }
    ensures alike { IfOk result (λ body. AreAlike leader.now body) }
{
    match leader {
        Body::Cut(part) => {
            let moved = moved_part(alloc, machine, part, first)?;
            Ok(Body::Cut(moved))
        }
        Body::Memory(_) => unreachable!(),
        Body::Source(_) => unreachable!(),
        Body::Tray => unreachable!(),
        Body::Bridge(_) => unreachable!(),
    }
}

// What a machine with a part does that is the first of its host.
fn own_body(alloc: Global, machine: &MachineDraft) -> Result<Body, AllocError>
    requires { IsMachineDraft machine.now }
    ensures body { IfOk result (λ body. IsDraftBody machine.now.draft.now machine.now.number body) }
    ensures ascend { IfOk result (λ body. HasAscending body) }
    ensures timed { IfOk result (λ body. IsTimedUnit machine.now.draft.now.listed machine.now.domains.now.units machine.now.number body) }
{
    if machine.number <= machine.draft.listed.units.as_slice().len() {
        Ok(Body::Cut(cut_part(alloc, machine)?))
    } else {
        Ok(Body::Memory(cut_part(alloc, machine)?))
    }
}
