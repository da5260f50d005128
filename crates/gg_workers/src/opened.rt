//! `Opened`: a network between its opening and its closing.
ghost use Rattle.std.specs.Prelude.{◌≡◌, ℕ, ◌^◌, ◌<◌, ◌≤◌, [], length, map, IfOk, IfErr};
ghost use Rattle.std.specs.Vec.{vec_capacity};
ghost use Rattle.gg_flat.specs.Line.{value_at};
ghost use Rattle.gg_net.specs.Network.{takes, frame_of};
ghost use Rattle.gg_net.specs.Kept.{Kept};
ghost use Rattle.gg_net.specs.inside.Net.{AreListed, AreParts, joined};
ghost use Rattle.gg_net.specs.inside.Stations.{machines_by, AreStationed};
ghost use Rattle.gg_workers_pass.specs.inside.Seats.{Linked, AreNew};
ghost use Rattle.gg_workers.specs.inside.Apart.{WasJoined, AreReturnLists};
ghost use Rattle.gg_workers.specs.inside.Making.{IsReserved};
ghost use Rattle.gg_workers.specs.inside.Opened.{IsOpened};

use crate::back::{ReturnLists, new_return_lists};
use crate::links::open_links;
use crate::setup::{Setup, make, reserve};
use crate::worker::{LinkedHost, Worker};
use gg_flat::Streams;
use gg_link::Link;
use gg_net::{Parts, Queue, Shape};
use gg_node::Host;
use gg_workers_pass::Era;
use std::alloc::{AllocError, Global};

// All memory that an opening takes, except the links' own. `X` are the links.
#[derive(Drop)]
struct Reserve<H, X, S, T> {
    // The memory for hosts and workers.
    setup: Setup<H, S, T>,
    // The lists for the way back.
    return_lists: ReturnLists<H, S, T>,
    // With room for the link of each channel.
    links: Vec<X>,
    // With room for the seat of each channel that puts.
    put_seats: Vec<T>,
    // With room for the seat of each channel that takes.
    take_seats: Vec<S>,
}

// A network with links in place of queues, and hosts with the seats of their machines. `X` are the links.
#[derive(Drop)]
pub(crate) struct Opened<H, X, S, T> {
    // How the machines are connected.
    pub(crate) shape: Shape,
    // The queues of the channels, without their tokens.
    pub(crate) queues: Vec<Queue>,
    // The link of each channel.
    pub(crate) links: Vec<X>,
    // The number of threads of each host.
    pub(crate) threads: Vec<u32>,
    // The hosts with the seats of their machines.
    pub(crate) linked_hosts: Vec<LinkedHost<H, S, T>>,
    // The workers, without hosts.
    pub(crate) workers: Vec<Worker<H, S, T>>,
    // As long as the channels, for the seats that take.
    pub(crate) takes: Vec<Option<S>>,
    // As long as the channels, for the seats that put.
    pub(crate) puts: Vec<Option<T>>,
    // The lists for the way back.
    pub(crate) return_lists: ReturnLists<H, S, T>,
}

// Takes the memory for the opening of a network of these hosts.
fn reserve_all<H: Host, L: Link>(
    alloc: Global,
    hosts: &[H],
    shape: &Shape,
    workers: u32,
) -> Result<Reserve<H, L, L::TakeSeat, L::PutSeat>, AllocError>
    requires stationed { AreStationed (map H.machines hosts.now) shape.now.stations.items }
    requires few { length shape.now.stations.items < 2 ^ 32 }
    ensures setup { IfOk result (λ r. IsReserved (map H.machines hosts.now) shape.now.stations.items (length shape.now.wires.items) workers r.setup) }
    ensures return_lists { IfOk result (λ r. AreReturnLists (length hosts.now) (length shape.now.wires.items) r.return_lists) }
    ensures none { IfOk result (λ r. (r.links.items ≡ []) × (r.put_seats.items ≡ []) × (r.take_seats.items ≡ [])) }
    ensures wide { IfOk result (λ r. (length shape.now.wires.items ≤ vec_capacity r.links)
        × (length shape.now.wires.items ≤ vec_capacity r.put_seats)
        × (length shape.now.wires.items ≤ vec_capacity r.take_seats)) }
{
    let channels = shape.wires.len();
    let links = Vec::with_capacity(alloc, channels)?;
    let put_seats = Vec::with_capacity(alloc, channels)?;
    let take_seats = Vec::with_capacity(alloc, channels)?;
    let return_lists = new_return_lists(alloc, hosts.len(), channels)?;
    let setup = reserve(alloc, hosts, &shape.stations, channels, workers)?;
    Ok(Reserve {
        setup,
        return_lists,
        links,
        put_seats,
        take_seats,
    })
}

// The network with its links, once they are made. Allocates nothing.
fn assemble<H: Host, L: Link, Z: Streams, E: Era>(
    alloc: Global,
    parts: Parts<H>,
    reserve: Reserve<H, L, L::TakeSeat, L::PutSeat>,
    workers: u32,
) -> Opened<H, L, L::TakeSeat, L::PutSeat>
    requires kept { Kept Z.flow E.start }
    requires stationed { AreStationed (map H.machines parts.hosts.items) parts.shape.stations.items }
    requires machines { E.start.machines ≡ machines_by (map H.machines parts.hosts.items) parts.shape.stations.items }
    requires listed { AreListed (frame_of E.start) parts.shape.stations.items }
    requires joined { WasJoined Z.flow E.start parts.shape (map (λ own. length own) (map H.machines parts.hosts.items)) }
    requires linked { Linked L.takes_from L.puts_into L.taking L.putting Z.flow E.start E.start.machines reserve.links.items reserve.put_seats.items reserve.take_seats.items parts.queues.items }
    requires all { length reserve.links.items ≡ length E.start.wires }
    requires new { AreNew L.taking L.putting E.start (length reserve.links.items) reserve.put_seats.items reserve.take_seats.items }
    requires setup { IsReserved (map H.machines parts.hosts.items) parts.shape.stations.items (length E.start.wires) workers reserve.setup }
    requires return_lists { AreReturnLists (length parts.hosts.items) (length E.start.wires) reserve.return_lists }
    requires few { (0 < workers) × (workers ≤ 64) }
    ensures { IsOpened H.machines L.takes_from L.puts_into L.taking L.putting Z.flow E.start result }
{
    let Reserve {
        mut setup,
        return_lists,
        links,
        put_seats,
        take_seats,
    } = reserve;
    let hosts = parts.hosts;
    make::<H, L, Z, E>(
        alloc,
        hosts,
        &parts.shape.stations,
        &links,
        put_seats,
        take_seats,
        &parts.queues,
        workers,
        &mut setup,
    );
    let Setup {
        threads,
        rows: _,
        takes,
        puts,
        linked_hosts,
        workers,
    } = setup;
    Opened {
        shape: parts.shape,
        queues: parts.queues,
        links,
        threads,
        linked_hosts,
        workers,
        takes,
        puts,
        return_lists,
    }
}

// Opens a network for some workers. All memory for the run is taken here. `starts` has the number of tokens that were taken from each channel.
pub(crate) fn open_net<H: Host, L: Link, Z: Streams, E: Era>(
    home: L::Home,
    alloc: Global,
    mut parts: Parts<H>,
    starts: &[u64],
    workers: u32,
) -> Result<Opened<H, L, L::TakeSeat, L::PutSeat>, (Parts<H>, AllocError)>
    requires parts { AreParts Z.flow (map H.machines parts.hosts.items) parts.shape parts.queues.items }
    requires start { E.start ≡ joined (map H.machines parts.hosts.items) parts.shape parts.queues.items }
    requires starts { (length starts.now ≡ length E.start.wires) × ((c : ℕ) → c < length E.start.wires → value_at starts.now c ≡ takes E.start c) }
    requires few { (0 < workers) × (workers ≤ 64) }
    ensures opened { IfOk result (λ o. IsOpened H.machines L.takes_from L.puts_into L.taking L.putting Z.flow E.start o) }
    ensures parts { IfErr result (λ r. AreParts Z.flow (map H.machines r.0.hosts.items) r.0.shape r.0.queues.items) }
    ensures refused { IfErr result (λ r. joined (map H.machines r.0.hosts.items) r.0.shape r.0.queues.items ≡ E.start) }
{
    let Ok(mut reserve) = reserve_all::<H, L>(alloc, &parts.hosts, &parts.shape, workers) else {
        return Err((parts, AllocError));
    };
    let linked = open_links::<H, L, Z, E>(
        home,
        alloc,
        &parts.hosts,
        &parts.shape,
        starts,
        &mut reserve.links,
        &mut reserve.put_seats,
        &mut reserve.take_seats,
        &mut parts.queues,
    );
    if let Err(error) = linked {
        return Err((parts, error));
    }
    Ok(assemble::<H, L, Z, E>(alloc, parts, reserve, workers))
}
