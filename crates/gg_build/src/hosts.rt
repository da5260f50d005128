//! The hosts of a plan's machines.
ghost use Rattle.std.specs.Prelude.{◌≡◌, ℕ, ◌<◌, ◌≤◌, [], None, Some, false, IfOk, OnOk, length, replicate, slice_index_or, map};
ghost use Rattle.gg_bits.specs.Limits.{cycle_limit, tray_rows};
ghost use Rattle.gg_flat.specs.Line.{value_at};
ghost use Rattle.gg_cut_plan.specs.declared.plan.Body.TheVariants.{Cut, Memory};
ghost use Rattle.gg_node.specs.Machine.{source_machine, tray_machine};
ghost use Rattle.gg_fame5.specs.inside.Shared as units;
ghost use Rattle.gg_build.specs.inside.Alone.{IsCutAgain};
ghost use Rattle.gg_build.specs.plan.Built.{IsUnitOf, IsMemoryOf};
ghost use Rattle.gg_build.specs.inside.Begin.{starts_of};
ghost use Rattle.gg_build.specs.inside.Bridges.{HasOwn, KeepsOthers, bridge_named};
ghost use Rattle.gg_build.specs.inside.Groups.{group_at};
ghost use Rattle.gg_build.specs.inside.Hosts.{CanAllBegin, CanBegin, IsUnitPart, IsMemoryPart, IsSourceAt, IsGroup, IsAlone, IsHost, IsHostOf, HasPorts, HaveBridges, AreAllApart, AreHosts, AreOwnHosts, IsOwnHost, AreUnits, RunUnits, body_at, kind_of};
ghost use Rattle.gg_build.specs.inside.Hosts.HostKind.{OfUnits, OfMemory, OfSource, OfTray};
ghost use Rattle.gg_build.specs.inside.Node.{machines_of};

use crate::begin::{Begin, own_state, part_of_state};
use crate::bridges::bridge_host;
use crate::node::Node;
use crate::starts::own_ratios;
use crate::units::units_of;
use gg_bits::{Name, TRAY_ROWS};
use gg_bridge::Bridge;
use gg_clocks::Ratio;
use gg_cut_parts::{own_clocks, whole_clocking};
use gg_cut_plan::{Body, Machine};
use gg_fame1::{NoMemory, Unit};
use gg_memunit::MemUnit;
use gg_node::{Source, Tray};
use gg_part::{Part, part_of};
use gg_program::Program;
use gg_trace::Trace;
use std::alloc::{AllocError, Global};
use std::collections::HashMap;

// The unit of a part, where the circuit's clocks have these ratios.
fn unit_of<'a>(
    alloc: Global,
    part: &'a Part,
    ratios: &[Ratio],
    begin: &Begin,
) -> Result<Unit<'a>, NoMemory>
    requires part { IsUnitPart part.now }
    requires begin { CanBegin (starts_of ratios.now begin.now) (Cut part.now) }
    requires cycle { begin.now.cycle ≤ cycle_limit }
    ensures { IfOk result (λ unit. IsAlone (IsUnitOf (starts_of ratios.now begin.now (Cut part.now)) part.now) (units.machines_of unit)) }
{
    let own = own_ratios(alloc, part, ratios)?;
    let state = own_state(alloc, part, begin)?;
    let program = Program::of(alloc, &part.piece)?;
    let unit = Unit::from_state(alloc, program, own.as_slice(), state, begin.cycle)?;
    Ok(unit)
}

// The host of the hub, or of a single unit.
fn unit_host<'a, B: Bridge + Drop>(
    alloc: Global,
    part: &'a Part,
    ratios: &[Ratio],
    begin: &Begin,
) -> Result<Node<'a, B>, AllocError>
    requires part { IsUnitPart part.now }
    requires begin { CanBegin (starts_of ratios.now begin.now) (Cut part.now) }
    requires cycle { begin.now.cycle ≤ cycle_limit }
    ensures host { IfOk result (λ node. IsHost (IsUnitOf (starts_of ratios.now begin.now (Cut part.now)) part.now) node) }
    ensures kind { IfOk result (λ node. kind_of node ≡ OfUnits) }
{
    match unit_of(alloc, part, ratios, begin) {
        Ok(unit) => Ok(Node::Unit(unit)),
        Err(_) => Err(AllocError),
    }
}

// The host of units with one piece. The first has this part.
fn shared_host<'a, B: Bridge + Drop>(
    alloc: Global,
    part: &'a Part,
    machines: &[Machine],
    group: &[u32],
    ratios: &[Ratio],
    begin: &Begin,
) -> Result<Node<'a, B>, AllocError>
    requires part { IsUnitPart part.now }
    requires units { AreUnits part.now.piece machines.now group.now }
    requires begin { CanAllBegin (starts_of ratios.now begin.now) machines.now group.now }
    requires cycle { begin.now.cycle ≤ cycle_limit }
    ensures units { IfOk result (λ node. RunUnits (starts_of ratios.now begin.now) machines.now group.now (machines_of node)) }
    ensures ports { IfOk result HasPorts }
    ensures kind { IfOk result (λ node. kind_of node ≡ OfUnits) }
{
    match units_of(alloc, part, machines, group, ratios, begin) {
        Ok(units) => Ok(Node::Shared(units)),
        Err(_) => Err(AllocError),
    }
}

// The host of the hub or of units.
fn cut_host<'a, B: Bridge + Drop>(
    alloc: Global,
    part: &'a Part,
    machines: &[Machine],
    group: &[u32],
    ratios: &[Ratio],
    begin: &Begin,
) -> Result<Node<'a, B>, AllocError>
    requires part { IsUnitPart part.now }
    requires first { body_at machines.now (value_at group.now 0) ≡ Cut part.now }
    requires units { AreUnits part.now.piece machines.now group.now }
    requires begin { CanAllBegin (starts_of ratios.now begin.now) machines.now group.now }
    requires cycle { begin.now.cycle ≤ cycle_limit }
    ensures units { IfOk result (λ node. RunUnits (starts_of ratios.now begin.now) machines.now group.now (machines_of node)) }
    ensures ports { IfOk result HasPorts }
    ensures kind { IfOk result (λ node. kind_of node ≡ OfUnits) }
{
    if group.len() == 1 {
        let node = unit_host(alloc, part, ratios, begin)?;
        Ok(node)
    } else {
        let node = shared_host(alloc, part, machines, group, ratios, begin)?;
        Ok(node)
    }
}

// A part of a listed memory's part, with only the memory.
fn alone_of(alloc: Global, part: &Part) -> Result<Part, AllocError>
    requires { IsMemoryPart part.now }
    ensures { IfOk result (λ alone. IsCutAgain part.now alone) }
{
    let piece = &part.piece;
    let mut globals = Vec::from_slice(alloc, piece.ins())?;
    globals.extend_from_slice(piece.outs())?;
    let memories = vec![in alloc; 0]?;
    let clocking = whole_clocking(alloc, piece)?;
    let clocks = own_clocks(alloc, piece)?;
    let alone = part_of(
        alloc,
        piece,
        clocks.as_slice(),
        &clocking,
        &globals,
        piece.ins(),
        piece.outs(),
        &memories,
    )?;
    Ok(alone)
}

// The host of a listed memory.
fn memory_host<'a, B: Bridge + Drop>(
    alloc: Global,
    part: &Part,
    ratios: &[Ratio],
    begin: &Begin,
) -> Result<Node<'a, B>, AllocError>
    requires part { IsMemoryPart part.now }
    requires begin { CanBegin (starts_of ratios.now begin.now) (Memory part.now) }
    requires cycle { begin.now.cycle ≤ cycle_limit }
    ensures host { IfOk result (λ node. IsHost (IsMemoryOf (starts_of ratios.now begin.now (Memory part.now)) part.now) node) }
    ensures kind { IfOk result (λ node. kind_of node ≡ OfMemory) }
{
    let own = own_ratios(alloc, part, ratios)?;
    let whole = own_state(alloc, part, begin)?;
    let alone = alone_of(alloc, part)?;
    let state = part_of_state(alloc, &alone, &whole)?;
    let unit = MemUnit::from_state(
        alloc,
        alone.into_piece(),
        own.as_slice(),
        state,
        begin.cycle,
    )?;
    Ok(Node::Memory(unit))
}

// The host of a source with this many outs, by its place among the top's inputs.
fn source_host<'a, B: Bridge + Drop>(
    alloc: Global,
    trace: &Trace,
    place: u32,
    outs: usize,
    cycle: u64,
) -> Result<Node<'a, B>, AllocError>
    requires { IsSourceAt trace.now.columns outs place }
    ensures host { IfOk result (λ node. IsHost (λ machine. machine ≡ source_machine (slice_index_or trace.now.columns place []) cycle (replicate outs false)) node) }
    ensures kind { IfOk result (λ node. kind_of node ≡ OfSource) }
{
    let column = trace.column(alloc, place as usize)?;
    let source = Source::from_cycle(alloc, column, outs as u32, cycle)?;
    Ok(Node::Source(source))
}

// The host of a tray.
fn tray_host<'a, B: Bridge + Drop>(alloc: Global, cycle: u64) -> Result<Node<'a, B>, AllocError>
    ensures host { IfOk result (λ node. IsHost (λ machine. machine ≡ tray_machine tray_rows cycle_limit cycle [] None) node) }
    ensures kind { IfOk result (λ node. kind_of node ≡ OfTray) }
{
    let tray = Tray::from_cycle(alloc, TRAY_ROWS, cycle)?;
    Ok(Node::Tray(tray))
}

// The host of these machines of a plan, a thread each, where the circuit's clocks have these ratios.
fn host_of<'a, B: Bridge + Drop>(
    alloc: Global,
    trace: &Trace,
    machines: &'a [Machine],
    group: &[u32],
    ratios: &[Ratio],
    begin: &Begin,
    bridges: &mut HashMap<Name, B>,
) -> Result<Node<'a, B>, AllocError>
    requires group { IsGroup (starts_of ratios.now begin.now) trace.now.columns machines.now group.now }
    requires cycle { begin.now.cycle ≤ cycle_limit }
    requires told { HasOwn B.piece B.state bridges.old (body_at machines.now (value_at group.now 0)) }
    ensures host { IfOk result (λ node. IsHostOf (starts_of ratios.now begin.now) trace.now.columns machines.now group.now node) }
    ensures own { IfOk result (IsOwnHost (λ name bridge. bridge_named bridges.old name ≡ Some bridge) (body_at machines.now (value_at group.now 0))) }
    ensures others { OnOk result (KeepsOthers (body_at machines.now (value_at group.now 0)) bridges.old bridges.new) }
{
    let number = group[0] as usize;
    let machine = &machines[number];
    match &machine.body {
        Body::Cut(part) => {
            let node = cut_host(alloc, part, machines, group, ratios, begin)?;
            Ok(node)
        }
        Body::Memory(part) => {
            let node = memory_host(alloc, part, ratios, begin)?;
            Ok(node)
        }
        Body::Source(place) => {
            let node = source_host(
                alloc,
                trace,
                *place,
                machine.outs.as_slice().len(),
                begin.cycle,
            )?;
            Ok(node)
        }
        Body::Tray => {
            let node = tray_host(alloc, begin.cycle)?;
            Ok(node)
        }
        Body::Bridge(body) => {
            let node = bridge_host(alloc, body, bridges, begin.cycle)?;
            Ok(node)
        }
    }
}

// The hosts of these groups of a plan's machines, where the circuit's clocks have these ratios. The plan's bridges are taken out of the
// table.
//
// # Errors
//
// Returns `AllocError` if an allocation fails.
pub(crate) fn hosts_of<'a, B: Bridge + Drop>(
    alloc: Global,
    trace: &Trace,
    machines: &'a [Machine],
    members: &[Vec<u32>],
    ratios: &[Ratio],
    begin: &Begin,
    bridges: &mut HashMap<Name, B>,
) -> Result<Vec<Node<'a, B>>, AllocError>
    requires cycle { begin.now.cycle ≤ cycle_limit }
    requires groups { (h : ℕ) → h < length members.now → IsGroup (starts_of ratios.now begin.now) trace.now.columns machines.now (group_at (map (λ list. list.items) members.now) h) }
    requires bridges { HaveBridges B.piece B.state bridges.old machines.now (map (λ list. list.items) members.now) 0 }
    requires apart { AreAllApart machines.now (map (λ list. list.items) members.now) }
    ensures hosts { IfOk result (λ nodes. AreHosts (starts_of ratios.now begin.now) trace.now.columns machines.now (map (λ list. list.items) members.now) (length members.now) nodes.items) }
    ensures own { IfOk result (λ nodes. AreOwnHosts bridges.old machines.now (map (λ list. list.items) members.now) (length members.now) nodes.items) }
{
    let mut nodes = Vec::new(alloc);
    for host in 0..members.len() {
        let group = &members[host];
        let node = host_of(alloc, trace, machines, group, ratios, begin, bridges)?;
        nodes.push(node)?;
    }
    Ok(nodes)
}
