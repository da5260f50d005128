//! The memory for workers. It is taken first, and then the hosts get the seats of their machines.
ghost use Rattle.std.specs.Prelude.{◌≡◌, ℕ, ◌^◌, ◌<◌, ◌≤◌, [], length, map, IfOk};
ghost use Rattle.std.specs.Vec.{vec_capacity};
ghost use Rattle.gg_net.specs.Network.{frame_of};
ghost use Rattle.gg_net.specs.Kept.{Kept};
ghost use Rattle.gg_net.specs.inside.Net.{AreListed};
ghost use Rattle.gg_net.specs.inside.Stations.{machines_by, AreStationed};
ghost use Rattle.gg_workers_pass.specs.inside.Seats.{Linked, AreNew};
ghost use Rattle.gg_workers.specs.inside.LinkedHosts.{ReadyAt, AreLinkedHosts, AreNumbered};
ghost use Rattle.gg_workers.specs.inside.Assigned.{Assigning};
ghost use Rattle.gg_workers.specs.inside.Making.{AreIdle, HaveTheirSeats, IsReserved};

use crate::host_seats::{HostSeats, fill_all, reserve_seats};
use crate::worker::{LinkedHost, Worker};
use gg_flat::Streams;
use gg_link::Link;
use gg_net::{Queue, Station};
use gg_node::Host;
use gg_workers_pass::{Era, MachineSeats};
use std::alloc::{AllocError, Global};
use std::mem;

// Memory for the hosts and workers of a network, and then the hosts and workers.
#[derive(Drop)]
pub(crate) struct Setup<H, S, T> {
    // The number of threads of each host.
    pub(crate) threads: Vec<u32>,
    // The seats, by host and thread.
    pub(crate) rows: Vec<HostSeats<S, T>>,
    // The seats that take, by channel.
    pub(crate) takes: Vec<Option<S>>,
    // The seats that put, by channel.
    pub(crate) puts: Vec<Option<T>>,
    // The hosts with the seats of their machines.
    pub(crate) linked_hosts: Vec<LinkedHost<H, S, T>>,
    pub(crate) workers: Vec<Worker<H, S, T>>,
}

// The number of threads of each host.
fn thread_counts<H: Host>(alloc: Global, hosts: &[H]) -> Result<Vec<u32>, AllocError>
    ensures { IfOk result (λ counts. counts.items ≡ map (λ machines. length machines) (map H.machines hosts.now)) }
{
    let mut counts = Vec::new(alloc);
    for host in hosts {
        counts.push(host.threads())?;
    }
    Ok(counts)
}

// This many workers without hosts, each with room for all.
fn idle_workers<H: Drop, S: Drop, T: Drop>(
    alloc: Global,
    count: u32,
    hosts: usize,
) -> Result<Vec<Worker<H, S, T>>, AllocError>
    ensures { IfOk result (λ workers. AreIdle count hosts workers.items) }
{
    let mut workers = Vec::new(alloc);
    for _ in 0..count {
        let linked_hosts = Vec::with_capacity(alloc, hosts)?;
        workers.push(Worker { linked_hosts })?;
    }
    Ok(workers)
}

// Takes the memory that hosts and workers need.
//
// # Errors
//
// Returns `AllocError` if an allocation fails.
pub(crate) fn reserve<H: Host, S: Drop, T: Drop>(
    alloc: Global,
    hosts: &[H],
    stations: &[Station],
    channels: usize,
    workers: u32,
) -> Result<Setup<H, S, T>, AllocError>
    requires stationed { AreStationed (map H.machines hosts.now) stations.now }
    requires few { length stations.now < 2 ^ 32 }
    ensures { IfOk result (λ setup. IsReserved (map H.machines hosts.now) stations.now channels workers setup) }
{
    let threads = thread_counts(alloc, hosts)?;
    let takes = Vec::with_capacity(alloc, channels)?;
    let puts = Vec::with_capacity(alloc, channels)?;
    let linked_hosts = Vec::with_capacity(alloc, hosts.len())?;
    let workers = idle_workers::<H, S, T>(alloc, workers, hosts.len())?;
    let rows = reserve_seats::<H, S, T>(alloc, hosts, stations)?;
    Ok(Setup {
        threads,
        rows,
        takes,
        puts,
        linked_hosts,
        workers,
    })
}

// Takes the seats out of a row.
fn take_by_thread<S: Drop, T: Drop>(
    alloc: Global,
    row: &mut HostSeats<S, T>,
) -> Vec<MachineSeats<S, T>>
    ensures { result.items ≡ row.old.by_thread.items }
{
    mem::replace(&mut row.by_thread, Vec::new(alloc))
}

// Gives each host its number and the seats of its machines.
fn link_hosts<H: Drop, S: Drop, T: Drop>(
    alloc: Global,
    hosts: Vec<H>,
    rows: &mut Vec<HostSeats<S, T>>,
    linked_hosts: &mut Vec<LinkedHost<H, S, T>>,
)
    requires long { length rows.old.items ≡ length hosts.items }
    requires none { linked_hosts.old.items ≡ [] }
    requires room { length hosts.items ≤ vec_capacity linked_hosts.old }
    ensures { HaveTheirSeats hosts.items rows.old.items linked_hosts.new.items }
{
    for host in hosts {
        let number = linked_hosts.len();
        let by_thread = take_by_thread(alloc, &mut rows[number]);
        linked_hosts.push_reserved(LinkedHost {
            number,
            host,
            by_thread,
        });
    }
}

// Gives all hosts the seats of their machines. Allocates nothing.
pub(crate) fn make<H: Host, L: Link, Z: Streams, E: Era>(
    alloc: Global,
    hosts: Vec<H>,
    stations: &[Station],
    _links: &[L],
    put_seats: Vec<L::PutSeat>,
    take_seats: Vec<L::TakeSeat>,
    _queues: &[Queue],
    _workers: u32,
    setup: &mut Setup<H, L::TakeSeat, L::PutSeat>,
)
    requires kept { Kept Z.flow E.start }
    requires stationed { AreStationed (map H.machines hosts.items) stations.now }
    requires machines { E.start.machines ≡ machines_by (map H.machines hosts.items) stations.now }
    requires listed { AreListed (frame_of E.start) stations.now }
    requires linked { Linked L.takes_from L.puts_into L.taking L.putting Z.flow E.start E.start.machines _links.now put_seats.items take_seats.items _queues.now }
    requires all { length _links.now ≡ length E.start.wires }
    requires new { AreNew L.taking L.putting E.start (length _links.now) put_seats.items take_seats.items }
    requires setup { IsReserved (map H.machines hosts.items) stations.now (length E.start.wires) _workers setup.old }
    ensures linked_hosts { (upto : ℕ) → AreLinkedHosts H.machines setup.new.threads.items
        (ReadyAt L.takes_from L.puts_into L.taking L.putting Z.flow E.start stations.now _links.now upto)
        setup.new.linked_hosts.items }
    ensures count { length setup.new.linked_hosts.items ≡ length hosts.items }
    ensures numbered { AreNumbered setup.new.linked_hosts.items }
    ensures threads { setup.new.threads.items ≡ map (λ own. length own) (map H.machines hosts.items) }
    ensures assigning { Assigning setup.new.linked_hosts.items (length setup.new.workers.items) (length setup.new.linked_hosts.items) 0 setup.new.linked_hosts.items setup.new.workers.items }
    ensures workers { length setup.new.workers.items ≡ _workers }
    ensures lists { (length setup.new.takes.items ≡ length E.start.wires) × (length setup.new.puts.items ≡ length E.start.wires) }
{
    fill_all::<H, L::TakeSeat, L::PutSeat, E>(
        &hosts,
        stations,
        &mut setup.rows,
        take_seats,
        put_seats,
        &mut setup.takes,
        &mut setup.puts,
    );
    link_hosts(alloc, hosts, &mut setup.rows, &mut setup.linked_hosts);
}
