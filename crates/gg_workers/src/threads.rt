//! The hosts are assigned to workers, each worker runs in a thread of its own, and the hosts are collected.
ghost use Rattle.std.specs.Prelude.{◌≡◌, ℕ, ◌<◌, ◌≤◌, length, map, slice_index_or, All};
ghost use Rattle.gg_net.specs.Network.{frame_of};
ghost use Rattle.gg_net.specs.Kept.{Kept};
ghost use Rattle.gg_net.specs.inside.Net.{AreListed};
ghost use Rattle.gg_workers.specs.inside.LinkedHosts.{ReadyAt, DoneAt, AreLinkedHosts, AreNumbered};
ghost use Rattle.gg_workers.specs.inside.Assigned.{Assigning};
ghost use Rattle.gg_workers.specs.inside.Turns.{Falls};

use crate::assign::{assign_hosts, collect_hosts};
use crate::own_order::OwnOrder;
use crate::turns::run_worker;
use crate::worker::{LinkedHost, Worker};
use gg_flat::Streams;
use gg_io::Gate;
use gg_link::Link;
use gg_net::Station;
use gg_node::Host;
use gg_workers_pass::Era;
use std::thread;
use std::thread::Threads;

// Runs the workers, each in a thread of its own. Where a thread can't be started, the caller's does the work.
fn run_all<R: Threads + Sync, H: Host, L: Link, Z: Streams, E: Era, G: Gate + Sync>(
    rt: &R,
    links: &[L],
    stations: &[Station],
    threads: &[u32],
    workers: &mut [Worker<H, L::TakeSeat, L::PutSeat>],
    orders: &[OwnOrder],
    upto: u64,
    gate: &G,
)
    requires few { (0 < length workers.old) × (length workers.old ≤ 64) }
    requires kept { Kept Z.flow E.start }
    requires here { (length links.now ≡ length E.start.wires) × (upto ≤ E.start.end) }
    requires listed { (length stations.now ≡ length E.start.machines) × AreListed (frame_of E.start) stations.now }
    requires linked_hosts { All (λ w. AreLinkedHosts H.machines threads.now
        (ReadyAt L.takes_from L.puts_into L.taking L.putting Z.flow E.start stations.now links.now upto)
        w.linked_hosts.items) workers.old }
    requires falls { All (λ w. Falls (map (λ b. b.number) w.linked_hosts.items)) workers.old }
    ensures linked_hosts { (j : ℕ) (w : _) → j < length workers.old
        → AreLinkedHosts H.machines threads.now (DoneAt L.takes_from L.puts_into L.taking L.putting Z.flow E.start stations.now
        links.now upto) (slice_index_or workers.new j w).linked_hosts.items }
    ensures numbers { (j : ℕ) (w : _) → j < length workers.old
        → map (λ b. b.number) (slice_index_or workers.new j w).linked_hosts.items
        ≡ map (λ b. b.number) (slice_index_or workers.old j w).linked_hosts.items }
{
    let count = workers.len();
    let turns = |number: usize, worker: &mut Worker<H, L::TakeSeat, L::PutSeat>|
        requires { (number < 64) × Kept Z.flow E.start × (length links.now ≡ length E.start.wires) × (upto ≤ E.start.end)
            × (length stations.now ≡ length E.start.machines) × AreListed (frame_of E.start) stations.now
            × AreLinkedHosts H.machines threads.now (ReadyAt L.takes_from L.puts_into L.taking L.putting Z.flow E.start
            stations.now links.now upto) worker.now.linked_hosts.items
            × Falls (map (λ b. b.number) worker.now.linked_hosts.items) }
        ensures { AreLinkedHosts H.machines threads.entry.now
            (DoneAt L.takes_from L.puts_into L.taking L.putting Z.flow E.start stations.entry.now links.entry.now upto)
            worker.exit.now.linked_hosts.items × (map (λ b. b.number) worker.exit.now.linked_hosts.items
            ≡ map (λ b. b.number) worker.entry.now.linked_hosts.items) }
    {
        let _turns = run_worker::<H, L, Z, E, G>(
            links,
            stations,
            threads,
            &mut worker.linked_hosts,
            orders,
            upto,
            gate,
            number as u32,
        );
    };
    thread::for_each_mut(rt, workers, count, &turns);
}

// Runs the machines of these hosts by the workers, host h by worker h mod the number of workers. Each worker has its own
// order, and ends before a turn where no machine of its hosts is below `upto`, or after 1,024 turns in a row without a
// step. Allocates nothing.
pub(crate) fn run_assigned<R: Threads + Sync, H: Host, L: Link, Z: Streams, E: Era, G: Gate + Sync>(
    rt: &R,
    links: &[L],
    stations: &[Station],
    threads: &[u32],
    linked_hosts: &mut Vec<LinkedHost<H, L::TakeSeat, L::PutSeat>>,
    workers: &mut Vec<Worker<H, L::TakeSeat, L::PutSeat>>,
    orders: &[OwnOrder],
    upto: u64,
    gate: &G,
)
    requires few { (0 < length workers.old.items) × (length workers.old.items ≤ 64) }
    requires kept { Kept Z.flow E.start }
    requires here { (length links.now ≡ length E.start.wires) × (upto ≤ E.start.end) }
    requires listed { (length stations.now ≡ length E.start.machines) × AreListed (frame_of E.start) stations.now }
    requires numbered { AreNumbered linked_hosts.old.items }
    requires linked_hosts { AreLinkedHosts H.machines threads.now (ReadyAt L.takes_from L.puts_into L.taking L.putting Z.flow E.start stations.now links.now upto) linked_hosts.old.items }
    requires ready { Assigning linked_hosts.old.items (length workers.old.items) (length linked_hosts.old.items) 0 linked_hosts.old.items workers.old.items }
    ensures count { length linked_hosts.new.items ≡ length linked_hosts.old.items }
    ensures numbered { AreNumbered linked_hosts.new.items }
    ensures linked_hosts { AreLinkedHosts H.machines threads.now (DoneAt L.takes_from L.puts_into L.taking L.putting Z.flow E.start stations.now links.now upto) linked_hosts.new.items }
{
    let count = linked_hosts.len();
    assign_hosts::<H, L::TakeSeat, L::PutSeat>(linked_hosts, workers);
    run_all::<R, H, L, Z, E, G>(rt, links, stations, threads, workers, orders, upto, gate);
    collect_hosts::<H, L::TakeSeat, L::PutSeat>(workers, linked_hosts, count);
}
