//! `Placement`: the hosts of a plan's machines, and where each machine is.
ghost use Rattle.std.specs.Prelude.{◌≡◌, ◌<◌, ◌≤◌, ◌∷◌, [], ℕ, length, map, All, IfOk, slice_index_or};
ghost use Rattle.gg_bits.specs.Limits.{cycle_limit};
ghost use Rattle.gg_flat.specs.Line.{value_at};
ghost use Rattle.gg_node.specs.Machine.{machine_at};
ghost use Rattle.gg_net.specs.inside.Net.{entry_of};
ghost use Rattle.gg_build.specs.declared.node.Node as declared;
ghost use Rattle.gg_build.specs.inside.Begin.{starts_of};
ghost use Rattle.gg_build.specs.inside.Build.{HasBridges};
ghost use Rattle.gg_build.specs.inside.Hosts.{CanBuildAll, HasPorts, HaveNames, HaveOwnHosts, IsStation, AreStations, IsPlacement};
ghost use Rattle.gg_build.specs.inside.Node.{machines_of};

use crate::begin::Begin;
use crate::bridges::table_of;
use crate::groups::groups_of;
use crate::hosts::hosts_of;
use crate::node::Node;
use crate::ports::ports_of;
use gg_bits::{Ids, Items, Name, copied};
use gg_bridge::Bridge;
use gg_cut_plan::{Machine, Plan};
use gg_flat::{Memory, Piece};
use gg_net::{ServedPort, Station};
use gg_trace::Trace;
use std::alloc::{AllocError, Global};

/// The hosts of a plan's machines, and the station of each machine there.
#[derive(Drop)]
pub struct Placement<'a, B: Bridge + Drop> {
    /// The hosts, in the order of their first machines. Each has a machine.
    pub hosts: Vec<Node<'a, B>>,
    /// For each machine of the plan, in the plan's order, its host, its thread there, and its channels.
    pub stations: Vec<Station>,
}

// The only memory of a piece.
fn memory_of(piece: &Piece) -> &Memory
    requires { length piece.now.memories ≡ 1 }
    ensures { piece.now.memories ≡ result.now ∷ [] }
{
    &piece.memories()[0]
}

// The ports that each machine of a host serves in a cycle.
fn ports_at<B: Bridge + Drop>(
    alloc: Global,
    host: &Node<'_, B>,
) -> Result<Vec<ServedPort>, AllocError>
    requires { HasPorts host.now }
    ensures { IfOk result (λ ports. All (λ machine. ports.items ≡ map entry_of machine.ports) (machines_of host.now)) }
{
    match host {
        Node::Memory(unit) => {
            let ports = ports_of(alloc, memory_of(unit.piece()))?;
            Ok(ports)
        }
        Node::Unit(unit) => {
            // for the invariant only
            let _ = unit.piece();
            Ok(Vec::new(alloc))
        }
        Node::Shared(units) => {
            // for the invariant only
            let _ = units.piece();
            Ok(Vec::new(alloc))
        }
        Node::Source(source) => {
            // for the invariant only
            let _ = source.column();
            Ok(Vec::new(alloc))
        }
        Node::Tray(tray) => {
            let _ = tray;
            Ok(Vec::new(alloc))
        }
        Node::Bridge(bridge) => {
            // for the invariant only
            let _ = bridge.ins();
            Ok(Vec::new(alloc))
        }
    }
}

// The station of a machine of the plan, at a thread of a host.
fn station_of<B: Bridge + Drop>(
    alloc: Global,
    machine: &Machine,
    host: u32,
    thread: u32,
    node: &Node<'_, B>,
) -> Result<Station, AllocError>
    requires ports { HasPorts node.now }
    requires thread { thread < length (machines_of node.now) }
    ensures { IfOk result (λ station. IsStation machine.now host thread (machine_at (machines_of node.now) thread) station) }
{
    let ins = copied(alloc, machine.ins.as_slice())?;
    let outs = copied(alloc, machine.outs.as_slice())?;
    let ports = ports_at(alloc, node)?;
    Ok(Station {
        host,
        thread,
        ins,
        outs,
        ports: Items::from(ports),
    })
}

// The stations of a plan's machines, at these threads of these hosts.
fn stations_of<B: Bridge + Drop>(
    alloc: Global,
    machines: &[Machine],
    hosts: &[u32],
    threads: &[u32],
    nodes: &[Node<'_, B>],
) -> Result<Vec<Station>, AllocError>
    requires hosts { length hosts.now ≡ length machines.now }
    requires threads { length threads.now ≡ length machines.now }
    requires known { (m : ℕ) → m < length machines.now → value_at hosts.now m < length nodes.now }
    requires ports { All HasPorts nodes.now }
    requires there { (m : ℕ) (any : declared.Node B) → m < length machines.now → value_at threads.now m < length (machines_of (slice_index_or nodes.now (value_at hosts.now m) any)) }
    ensures { IfOk result (λ stations. AreStations machines.now hosts.now threads.now nodes.now (length machines.now) stations.items) }
{
    let mut stations = Vec::new(alloc);
    for number in 0..machines.len() {
        let host = hosts[number];
        let node = &nodes[host as usize];
        let machine = &machines[number];
        let station = station_of(alloc, machine, host, threads[number], node)?;
        stations.push(station)?;
    }
    Ok(stations)
}

/// The hosts of a plan's machines, and the station of each machine there. Units that the plan puts onto one host share it, a thread each.
/// Each other machine has a host of its own. The hosts are numbered in the order of their first machines. The host of a bridge's machine has the
/// bridge that is handed in with its name.
///
/// The networks of [`build`](crate::build) and [`build_from`](crate::build_from) have these hosts.
///
/// # Errors
///
/// Returns `AllocError` if an allocation fails.
pub fn placement_of<'a, B: Bridge + Drop>(
    alloc: Global,
    plan: &'a Plan,
    trace: &Trace,
    begin: &Begin,
    bridges: Vec<(Name, B)>,
) -> Result<Placement<'a, B>, AllocError>
    requires ready { CanBuildAll (starts_of plan.now.ratios begin.now) trace.now.columns plan.now.machines }
    requires cycle { begin.now.cycle ≤ cycle_limit }
    requires bridges { HasBridges B.piece B.state plan.now bridges.items }
    requires names { HaveNames plan.now.machines }
    ensures placed { IfOk result (λ placement. IsPlacement plan.now (starts_of plan.now.ratios begin.now) trace.now.columns placement.hosts.items placement.stations.items) }
    ensures own { IfOk result (λ placement. HaveOwnHosts plan.now bridges.items placement.hosts.items placement.stations.items) }
{
    let machines = plan.machines.as_slice();
    let groups = groups_of(alloc, machines)?;
    let mut table = table_of(alloc, bridges)?;
    let hosts = hosts_of(
        alloc,
        trace,
        machines,
        &groups.members,
        plan.ratios.as_slice(),
        begin,
        &mut table,
    )?;
    let stations = stations_of(alloc, machines, &groups.hosts, &groups.threads, &hosts)?;
    Ok(Placement { hosts, stations })
}
