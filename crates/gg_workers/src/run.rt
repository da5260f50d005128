//! `work`: the machines of a network are run by workers.
ghost use Rattle.std.specs.Prelude.{◌≡◌, ℕ, ◌<◌, ◌≤◌, length, map, IfOk, IfErr, Ok, true};
ghost use Rattle.gg_flat.specs.Line.{value_at};
ghost use Rattle.gg_net.specs.Network.{cycle_at, takes};
ghost use Rattle.gg_net.specs.inside.Net.{AreParts, joined};
ghost use Rattle.gg_workers.specs.inside.Opened.{IsOpened};
ghost use Rattle.gg_workers.specs.Work.{IsLater};

use crate::back::close_hosts;
use crate::links::take_counts;
use crate::opened::{Opened, open_net};
use crate::own_order::{OwnOrder, own_orders};
use crate::threads::run_assigned;
use gg_flat::Streams;
use gg_io::Gate;
use gg_link::Link;
use gg_measure::{Order, run_noted};
use gg_net::{Net, Parts};
use gg_node::Host;
use gg_workers_pass::Era;
use std::alloc::{AllocError, Global};
use std::marker::Brand;
use std::thread::Threads;

// Runs a network that is open, and closes it. Allocates nothing.
fn run_opened<R: Threads + Sync, H: Host, L: Link, Z: Streams, E: Era, G: Gate + Sync>(
    rt: &R,
    alloc: Global,
    opened: Opened<H, L, L::TakeSeat, L::PutSeat>,
    orders: &[OwnOrder],
    upto: u64,
    gate: &G,
) -> Parts<H>
    requires opened { IsOpened H.machines L.takes_from L.puts_into L.taking L.putting Z.flow E.start opened }
    requires below { upto ≤ E.start.end }
    ensures parts { AreParts Z.flow (map H.machines result.hosts.items) result.shape result.queues.items }
    ensures later { IsLater Z.flow upto E.start (joined (map H.machines result.hosts.items) result.shape result.queues.items) }
{
    let Opened {
        shape,
        queues,
        links,
        threads,
        mut linked_hosts,
        mut workers,
        takes,
        puts,
        return_lists,
    } = opened;
    run_assigned::<R, H, L, Z, E, G>(
        rt,
        &links,
        &shape.stations,
        &threads,
        &mut linked_hosts,
        &mut workers,
        orders,
        upto,
        gate,
    );
    close_hosts::<H, L, Z, E>(
        alloc,
        shape,
        &threads,
        upto,
        linked_hosts,
        takes,
        puts,
        return_lists,
        links,
        queues,
    )
}

// Runs the parts of a network up to a cycle that is within its end.
fn run_parts<R: Threads + Sync, H: Host, L: Link, Z: Streams, E: Era, G: Gate + Sync>(
    rt: &R,
    home: L::Home,
    alloc: Global,
    parts: Parts<H>,
    starts: &[u64],
    workers: u32,
    orders: &[OwnOrder],
    upto: u64,
    gate: &G,
) -> Result<Parts<H>, (Parts<H>, AllocError)>
    requires parts { AreParts Z.flow (map H.machines parts.hosts.items) parts.shape parts.queues.items }
    requires start { E.start ≡ joined (map H.machines parts.hosts.items) parts.shape parts.queues.items }
    requires starts { (length starts.now ≡ length E.start.wires) × ((c : ℕ) → c < length E.start.wires → value_at starts.now c ≡ takes E.start c) }
    requires few { (0 < workers) × (workers ≤ 64) }
    requires below { upto ≤ E.start.end }
    ensures done { IfOk result (λ p. AreParts Z.flow (map H.machines p.hosts.items) p.shape p.queues.items) }
    ensures later { IfOk result (λ p. IsLater Z.flow upto E.start (joined (map H.machines p.hosts.items) p.shape p.queues.items)) }
    ensures parts { IfErr result (λ r. AreParts Z.flow (map H.machines r.0.hosts.items) r.0.shape r.0.queues.items) }
    ensures refused { IfErr result (λ r. joined (map H.machines r.0.hosts.items) r.0.shape r.0.queues.items ≡ E.start) }
{
    match open_net::<H, L, Z, E>(home, alloc, parts, starts, workers) {
        Ok(opened) => Ok(run_opened::<R, H, L, Z, E, G>(rt, alloc, opened, orders, upto, gate)),
        Err(refused) => Err(refused),
    }
}

// Runs a network up to a cycle that is within its end, over links.
fn run_net<R: Threads + Sync, H: Host, L: Link, Z: Streams, E: Era, G: Gate + Sync>(
    rt: &R,
    home: L::Home,
    alloc: Global,
    net: Net<H, Z>,
    workers: u32,
    orders: &[OwnOrder],
    upto: u64,
    gate: &G,
) -> Result<Net<H, Z>, (Net<H, Z>, AllocError)>
    requires start { E.start ≡ net }
    requires few { (0 < workers) × (workers ≤ 64) }
    requires below { upto ≤ net.end }
    ensures later { IfOk result (λ new. IsLater Z.flow upto net new) }
    ensures refused { IfErr result (λ r. r.0 ≡ net) }
{
    let Ok(starts) = take_counts(alloc, &net) else {
        return Err((net, AllocError));
    };
    let parts = net.parts();
    match run_parts::<R, H, L, Z, E, G>(
        rt, home, alloc, parts, &starts, workers, orders, upto, gate,
    ) {
        Ok(parts) => Ok(Net::of(parts)),
        Err((parts, error)) => Err((Net::of(parts), error)),
    }
}

// Whether each machine of a network is below a cycle.
fn is_below<H: Host, Z: Streams>(net: &Net<H, Z>, upto: u64) -> bool
    ensures { result ≡ true → (m : ℕ) → m < length net.now.machines → cycle_at net.now m < upto }
{
    net.within_limits();
    for machine in 0..net.machines() {
        if net.cycle(machine as u32) >= upto {
            return false;
        }
    }
    true
}

// Runs a network up to a cycle that is within its end and that no machine has reached, without links.
fn run_whole<H: Host, Z: Streams, G: Gate>(
    net: Net<H, Z>,
    order: &Order,
    upto: u64,
    gate: &G,
) -> Net<H, Z>
    requires below { (m : ℕ) → m < length net.machines → cycle_at net m < upto }
    requires within { upto ≤ net.end }
    ensures { IsLater Z.flow upto net result }
{
    let mut net = net;
    net.kept();
    gate.pass(0, 0);
    run_noted(&mut net, order, upto);
    net.kept();
    net
}

// Runs a network up to a cycle that is within its end. One worker takes the network as a whole, if no machine has reached
// that cycle.
fn run_up<R: Threads + Sync, H: Host, L: Link, Z: Streams, G: Gate + Sync>(
    rt: &R,
    home: L::Home,
    alloc: Global,
    net: Net<H, Z>,
    workers: u32,
    order: &Order,
    upto: u64,
    gate: &G,
) -> Result<Net<H, Z>, (Net<H, Z>, AllocError)>
    requires few { (0 < workers) × (workers ≤ 64) }
    requires below { upto ≤ net.end }
    ensures later { IfOk result (λ new. IsLater Z.flow upto net new) }
    ensures refused { IfErr result (λ r. r.0 ≡ net) }
{
    if workers == 1 {
        let whole = is_below(&net, upto);
        if whole {
            return Ok(run_whole(net, order, upto, gate));
        }
    }
    let Ok(orders) = own_orders(alloc, order, net.shape(), workers) else {
        return Err((net, AllocError));
    };
    run_net::<R, H, L, Z, Brand, G>(rt, home, alloc, net, workers, &orders, upto, gate)
}

/// Runs the machines of a network by this many workers, each in a thread of its own. Host h belongs to worker h mod `workers`. Each worker goes by
/// the steps of its own machines in the order. The order may be any: without steps in it the workers only take longer. A worker ends before a turn
/// where no machine of its hosts is below cycle `upto`, or after 1,024 turns in a row without a step. After a turn without a step it lets other
/// threads go on. The machines of the network that comes back may be below `upto`. One worker runs the whole network in one turn, if no machine has
/// reached `upto`; then all machines are at `upto`. With no workers the network comes back as it was.
///
/// All memory is taken before the first step.
///
/// # Errors
///
/// Returns the network as it was, with `AllocError`, if an allocation fails.
pub fn work<R: Threads + Sync, H: Host, L: Link, Z: Streams, G: Gate + Sync>(
    rt: &R,
    home: L::Home,
    alloc: Global,
    net: Net<H, Z>,
    workers: u32,
    upto: u64,
    order: &Order,
    gate: &G,
) -> Result<Net<H, Z>, (Net<H, Z>, AllocError)>
    requires { workers ≤ 64 }
    ensures later { 0 < workers → IfOk result (λ new. IsLater Z.flow upto net new) }
    ensures none { workers ≡ 0 → result ≡ Ok net }
    ensures refused { IfErr result (λ r. r.0 ≡ net) }
{
    if workers == 0 {
        return Ok(net);
    }
    let end = net.end();
    let bound = if upto < end { upto } else { end };
    run_up::<R, H, L, Z, G>(rt, home, alloc, net, workers, order, bound, gate)
}
