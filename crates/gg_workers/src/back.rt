//! Hosts that have run become the parts of a network again.
ghost use Rattle.std.specs.Prelude.{◌≡◌, ◌≤◌, [], length, map, IfOk};
ghost use Rattle.std.specs.Vec.{vec_capacity};
ghost use Rattle.gg_net.specs.Network.{frame_of};
ghost use Rattle.gg_net.specs.Kept.{Kept};
ghost use Rattle.gg_net.specs.inside.Net.{AreListed, AreParts, joined};
ghost use Rattle.gg_net.specs.inside.Stations.{machines_by};
ghost use Rattle.gg_workers_pass.specs.inside.Seats.{TakeSeatOf, PutSeatOf};
ghost use Rattle.gg_workers.specs.inside.Apart.{WereStationed, WasJoined, WereLinked, AreSeats, AreReturnLists};
ghost use Rattle.gg_workers.specs.inside.LinkedHosts.{DoneAt, AreLinkedHosts, AreNumbered};
ghost use Rattle.gg_workers.specs.Work.{IsLater};

use crate::apart::{return_all, separate};
use crate::host_seats::HostSeats;
use crate::worker::LinkedHost;
use gg_flat::Streams;
use gg_link::Link;
use gg_net::{Parts, Queue, Shape, Station};
use gg_node::Host;
use gg_workers_pass::{Era, close_all, unwrap_all};
use std::alloc::{AllocError, Global};

// The hosts in their order, without seats, and the seats by channel. `takes` and `puts` are as long as the channels.
fn take_apart<H: Host, L: Link, Z: Streams, E: Era>(
    links: &[L],
    stations: &[Station],
    _threads: &[u32],
    _upto: u64,
    linked_hosts: Vec<LinkedHost<H, L::TakeSeat, L::PutSeat>>,
    mut takes: Vec<Option<L::TakeSeat>>,
    mut puts: Vec<Option<L::PutSeat>>,
    mut rows: Vec<HostSeats<L::TakeSeat, L::PutSeat>>,
    hosts: &mut Vec<H>,
    take_seats: &mut Vec<L::TakeSeat>,
    put_seats: &mut Vec<L::PutSeat>,
)
    requires kept { Kept Z.flow E.start }
    requires listed { (length stations.now ≡ length E.start.machines) × AreListed (frame_of E.start) stations.now }
    requires stationed { WereStationed stations.now _threads.now }
    requires count { length linked_hosts.items ≡ length _threads.now }
    requires numbered { AreNumbered linked_hosts.items }
    requires linked_hosts { AreLinkedHosts H.machines _threads.now (DoneAt L.takes_from L.puts_into L.taking L.putting Z.flow E.start stations.now links.now _upto) linked_hosts.items }
    requires long { (length takes.items ≡ length E.start.wires) × (length puts.items ≡ length E.start.wires) }
    requires none { (hosts.old.items ≡ []) × (rows.items ≡ []) × (take_seats.old.items ≡ []) × (put_seats.old.items ≡ []) }
    requires room { (length linked_hosts.items ≤ vec_capacity hosts.old) × (length linked_hosts.items ≤ vec_capacity rows)
        × (length E.start.wires ≤ vec_capacity take_seats.old) × (length E.start.wires ≤ vec_capacity put_seats.old) }
    ensures hosts { hosts.new.items ≡ map (λ b. b.host) linked_hosts.items }
    ensures takes { AreSeats (TakeSeatOf L.takes_from L.puts_into L.taking L.putting Z.flow E.start links.now
        (machines_by (map H.machines (map (λ b. b.host) linked_hosts.items)) stations.now))
        (length E.start.wires) take_seats.new.items }
    ensures puts { AreSeats (PutSeatOf L.takes_from L.puts_into L.taking L.putting Z.flow E.start links.now
        (machines_by (map H.machines (map (λ b. b.host) linked_hosts.items)) stations.now))
        (length E.start.wires) put_seats.new.items }
{
    separate::<H, L::TakeSeat, L::PutSeat>(linked_hosts, hosts, &mut rows);
    return_all::<H, L, Z, E>(links, stations, hosts, rows, &mut takes, &mut puts);
    unwrap_all::<L::TakeSeat>(takes, take_seats);
    unwrap_all::<L::PutSeat>(puts, put_seats);
}

// The lists that the parts of a network move into.
#[derive(Drop)]
pub(crate) struct ReturnLists<H, S, T> {
    // The hosts, by number.
    pub(crate) hosts: Vec<H>,
    // The seats of each host's machines, by host.
    pub(crate) rows: Vec<HostSeats<S, T>>,
    // The seats that take, by channel.
    pub(crate) takes: Vec<S>,
    // The seats that put, by channel.
    pub(crate) puts: Vec<T>,
}

// Lists with room for this many hosts and channels.
pub(crate) fn new_return_lists<H: Drop, S: Drop, T: Drop>(
    alloc: Global,
    hosts: usize,
    channels: usize,
) -> Result<ReturnLists<H, S, T>, AllocError>
    ensures { IfOk result (λ return_lists. AreReturnLists hosts channels return_lists) }
{
    Ok(ReturnLists {
        hosts: Vec::with_capacity(alloc, hosts)?,
        rows: Vec::with_capacity(alloc, hosts)?,
        takes: Vec::with_capacity(alloc, channels)?,
        puts: Vec::with_capacity(alloc, channels)?,
    })
}

// Closes the links of hosts that have run: the parts of the network after the run.
pub(crate) fn close_hosts<H: Host, L: Link, Z: Streams, E: Era>(
    alloc: Global,
    shape: Shape,
    _threads: &[u32],
    _upto: u64,
    linked_hosts: Vec<LinkedHost<H, L::TakeSeat, L::PutSeat>>,
    takes: Vec<Option<L::TakeSeat>>,
    puts: Vec<Option<L::PutSeat>>,
    return_lists: ReturnLists<H, L::TakeSeat, L::PutSeat>,
    mut links: Vec<L>,
    mut queues: Vec<Queue>,
) -> Parts<H>
    requires joined { WasJoined Z.flow E.start shape _threads.now }
    requires linked { WereLinked L.takes_from L.puts_into L.taking L.putting Z.flow E.start links.items queues.items }
    requires count { length linked_hosts.items ≡ length _threads.now }
    requires numbered { AreNumbered linked_hosts.items }
    requires linked_hosts { AreLinkedHosts H.machines _threads.now (DoneAt L.takes_from L.puts_into L.taking L.putting Z.flow E.start shape.stations.items links.items _upto) linked_hosts.items }
    requires long { (length takes.items ≡ length E.start.wires) × (length puts.items ≡ length E.start.wires) }
    requires return_lists { AreReturnLists (length linked_hosts.items) (length E.start.wires) return_lists }
    ensures parts { AreParts Z.flow (map H.machines result.hosts.items) result.shape result.queues.items }
    ensures later { IsLater Z.flow _upto E.start (joined (map H.machines result.hosts.items) result.shape result.queues.items) }
{
    let ReturnLists {
        mut hosts,
        rows,
        takes: mut take_seats,
        puts: mut put_seats,
    } = return_lists;
    take_apart::<H, L, Z, E>(
        &links,
        &shape.stations,
        _threads,
        _upto,
        linked_hosts,
        takes,
        puts,
        rows,
        &mut hosts,
        &mut take_seats,
        &mut put_seats,
    );
    close_all::<H, L, Z, E>(
        alloc,
        &hosts,
        &shape.stations,
        &mut links,
        &mut put_seats,
        &mut take_seats,
        &mut queues,
    );
    Parts {
        hosts,
        shape,
        queues,
    }
}
