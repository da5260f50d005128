//! A worker's turns. The first is one pass over all machines of its hosts. In each later turn it goes on in its own
//! order.
ghost use Rattle.std.specs.Prelude.{◌≡◌, ◌↔◌, ◌⊎◌, ℕ, ◌+◌, ◌*◌, ◌<◌, ◌≤◌, length, map, MatchBool, true};
ghost use Rattle.gg_node.specs.Machine.{machine_at};
ghost use Rattle.gg_net.specs.Network.{frame_of};
ghost use Rattle.gg_net.specs.Kept.{Kept};
ghost use Rattle.gg_net.specs.inside.Net.{AreListed};
ghost use Rattle.gg_workers.specs.inside.LinkedHosts.{ReadyAt, DoneAt, EachThread, IsLinkedHost, AreLinkedHosts, AllEnded};
ghost use Rattle.gg_workers.specs.inside.Turns.{Falls, host_steps, steps_of, machines_in, StepsTold};

use crate::looks::{Place, go_on};
use crate::own_order::{OwnEvent, OwnOrder};
use crate::worker::LinkedHost;
use gg_flat::Streams;
use gg_io::Gate;
use gg_link::Link;
use gg_net::Station;
use gg_node::Host;
use gg_workers_pass::{Era, MachineSeats, pass};
use std::{hint, thread};

// A worker ends after this many turns in a row without a step.
const IDLE_TURNS: u32 = 1024;

// Of the turns in a row without a step, each one whose number is a multiple of this is a pass over all machines.
const WAITING_TURNS: u32 = 64;

// The longest rest after a turn without a step, in waits of the processor.
const LONGEST_REST: u32 = 256;

// A pass over each machine of one host.
fn pass_threads<H: Host, L: Link, Z: Streams, E: Era>(
    links: &[L],
    stations: &[Station],
    _number: usize,
    host: &mut H,
    by_thread: &mut Vec<MachineSeats<L::TakeSeat, L::PutSeat>>,
    upto: u64,
) -> bool
    requires kept { Kept Z.flow E.start }
    requires here { (length links.now ≡ length E.start.wires) × (upto ≤ E.start.end) }
    requires listed { (length stations.now ≡ length E.start.machines) × AreListed (frame_of E.start) stations.now }
    requires by_thread { EachThread (ReadyAt L.takes_from L.puts_into L.taking L.putting Z.flow E.start stations.now links.now upto) _number (H.machines host.old) by_thread.old.items }
    ensures by_thread { EachThread (DoneAt L.takes_from L.puts_into L.taking L.putting Z.flow E.start stations.now links.now upto) _number (H.machines host.new) by_thread.new.items }
    ensures count { length by_thread.new.items ≡ length by_thread.old.items }
    ensures told { StepsTold host_steps (H.machines host.old) (H.machines host.new) result }
{
    let mut stepped = false;
    for thread in 0..by_thread.len() {
        let machine_seats = &mut by_thread[thread];
        let station = &stations[machine_seats.machine as usize];
        stepped |= pass::<H, L, Z, E>(links, station, host, machine_seats, upto);
    }
    stepped
}

fn pass_host<H: Host, L: Link, Z: Streams, E: Era>(
    links: &[L],
    stations: &[Station],
    _threads: &[u32],
    linked_host: &mut LinkedHost<H, L::TakeSeat, L::PutSeat>,
    upto: u64,
) -> bool
    requires kept { Kept Z.flow E.start }
    requires here { (length links.now ≡ length E.start.wires) × (upto ≤ E.start.end) }
    requires listed { (length stations.now ≡ length E.start.machines) × AreListed (frame_of E.start) stations.now }
    requires linked_host { IsLinkedHost H.machines _threads.now (ReadyAt L.takes_from L.puts_into L.taking L.putting Z.flow E.start stations.now links.now upto) linked_host.old }
    ensures linked_host { IsLinkedHost H.machines _threads.now (DoneAt L.takes_from L.puts_into L.taking L.putting Z.flow E.start stations.now links.now upto) linked_host.new }
    ensures number { linked_host.new.number ≡ linked_host.old.number }
    ensures told { StepsTold host_steps (H.machines linked_host.old.host) (H.machines linked_host.new.host) result }
{
    pass_threads::<H, L, Z, E>(
        links,
        stations,
        linked_host.number,
        &mut linked_host.host,
        &mut linked_host.by_thread,
        upto,
    )
}

// A pass over each machine of these hosts, from the last host, which has the least number. True if a step was done.
fn pass_all<H: Host, L: Link, Z: Streams, E: Era>(
    links: &[L],
    stations: &[Station],
    threads: &[u32],
    linked_hosts: &mut Vec<LinkedHost<H, L::TakeSeat, L::PutSeat>>,
    upto: u64,
) -> bool
    requires kept { Kept Z.flow E.start }
    requires here { (length links.now ≡ length E.start.wires) × (upto ≤ E.start.end) }
    requires listed { (length stations.now ≡ length E.start.machines) × AreListed (frame_of E.start) stations.now }
    requires linked_hosts { AreLinkedHosts H.machines threads.now (ReadyAt L.takes_from L.puts_into L.taking L.putting Z.flow E.start stations.now links.now upto) linked_hosts.old.items }
    requires falls { Falls (map (λ b. b.number) linked_hosts.old.items) }
    ensures linked_hosts { AreLinkedHosts H.machines threads.now (DoneAt L.takes_from L.puts_into L.taking L.putting Z.flow E.start stations.now links.now upto) linked_hosts.new.items }
    ensures numbers { map (λ b. b.number) linked_hosts.new.items ≡ map (λ b. b.number) linked_hosts.old.items }
    ensures told { StepsTold steps_of (machines_in H.machines linked_hosts.old.items) (machines_in H.machines linked_hosts.new.items) result }
{
    let mut stepped = false;
    for k in (0..linked_hosts.len()).rev() {
        stepped |= pass_host::<H, L, Z, E>(links, stations, threads, &mut linked_hosts[k], upto);
    }
    stepped
}

// Whether no machine of a host is below this cycle.
fn has_ended<H: Host>(host: &H, upto: u64) -> bool
    ensures { (result ≡ true) ↔ ((t : ℕ) → t < length (H.machines host.now) → upto ≤ (machine_at (H.machines host.now) t).cycle) }
{
    for thread in 0..host.threads() {
        if host.cycle(thread) < upto {
            return false;
        }
    }
    true
}

// Whether no machine of these hosts is below this cycle.
fn have_ended<H: Host, S, T>(linked_hosts: &[LinkedHost<H, S, T>], upto: u64) -> bool
    ensures { (result ≡ true) ↔ AllEnded H.machines upto linked_hosts.now }
{
    for linked_host in linked_hosts {
        if !has_ended(&linked_host.host, upto) {
            return false;
        }
    }
    true
}

// The lowest cycle that a machine of a host is in, or `least` if that is lower.
fn lowest_of<H: Host>(host: &H, least: u64) -> u64 {
    let mut lowest = least;
    for thread in 0..host.threads() {
        lowest = lowest.min(host.cycle(thread));
    }
    lowest
}

// The lowest cycle that a machine of these hosts is in.
fn lowest<H: Host, S, T>(linked_hosts: &[LinkedHost<H, S, T>]) -> u64 {
    let mut lowest = u64::MAX;
    for linked_host in linked_hosts {
        lowest = lowest_of(&linked_host.host, lowest);
    }
    lowest
}

// The events that a worker tries in its next turn, after `idle` turns in a row without a step. None if the turn is a
// pass over all its machines, as it also is if the worker has no order of its own.
fn events_after<'a>(orders: &'a [OwnOrder], worker: u32, idle: u32) -> Option<&'a [OwnEvent]> {
    if idle % WAITING_TURNS == WAITING_TURNS - 1 {
        return None;
    }
    let own = orders.get(worker as usize)?;
    if own.events.is_empty() {
        return None;
    }
    Some(own.events.as_slice())
}

// A turn of a worker after its first. True if a step was done.
fn take_turn<H: Host, L: Link, Z: Streams, E: Era>(
    links: &[L],
    stations: &[Station],
    threads: &[u32],
    linked_hosts: &mut Vec<LinkedHost<H, L::TakeSeat, L::PutSeat>>,
    events: Option<&[OwnEvent]>,
    place: &mut Place,
    upto: u64,
) -> bool
    requires kept { Kept Z.flow E.start }
    requires here { (length links.now ≡ length E.start.wires) × (upto ≤ E.start.end) }
    requires listed { (length stations.now ≡ length E.start.machines) × AreListed (frame_of E.start) stations.now }
    requires linked_hosts { AreLinkedHosts H.machines threads.now (DoneAt L.takes_from L.puts_into L.taking L.putting Z.flow E.start stations.now links.now upto) linked_hosts.old.items }
    requires falls { Falls (map (λ b. b.number) linked_hosts.old.items) }
    ensures linked_hosts { AreLinkedHosts H.machines threads.now (DoneAt L.takes_from L.puts_into L.taking L.putting Z.flow E.start stations.now links.now upto) linked_hosts.new.items }
    ensures numbers { map (λ b. b.number) linked_hosts.new.items ≡ map (λ b. b.number) linked_hosts.old.items }
    ensures told { StepsTold steps_of (machines_in H.machines linked_hosts.old.items) (machines_in H.machines linked_hosts.new.items) result }
{
    match events {
        Some(events) => {
            go_on::<H, L, Z, E>(links, stations, threads, linked_hosts, events, place, upto)
        }
        None => pass_all::<H, L, Z, E>(links, stations, threads, linked_hosts, upto),
    }
}

// Lets other threads go on, after `idle` turns in a row without a step. The more there were, the longer it takes.
fn rest(idle: u32) {
    for _ in 0..idle.min(LONGEST_REST) {
        hint::spin_loop();
    }
    thread::yield_now();
}

// The number of turns in a row without a step, after one more turn. If it had no step, other threads are let go on.
fn idle_after(stepped: bool, idle: u32) -> u32
    requires { idle < 1024 }
    ensures { MatchBool stepped (result ≡ 0) (result ≡ idle + 1) }
{
    if stepped {
        return 0;
    }
    rest(idle + 1);
    idle + 1
}

// The turns of a worker after its first, after `idle_before` turns in a row without a step. Returns the number of the
// turn that isn't made any more.
fn more_turns<H: Host, L: Link, Z: Streams, E: Era, G: Gate>(
    links: &[L],
    stations: &[Station],
    threads: &[u32],
    linked_hosts: &mut Vec<LinkedHost<H, L::TakeSeat, L::PutSeat>>,
    orders: &[OwnOrder],
    upto: u64,
    gate: &G,
    worker: u32,
    idle_before: u32,
) -> u64
    requires kept { Kept Z.flow E.start }
    requires here { (length links.now ≡ length E.start.wires) × (upto ≤ E.start.end) }
    requires listed { (length stations.now ≡ length E.start.machines) × AreListed (frame_of E.start) stations.now }
    requires linked_hosts { AreLinkedHosts H.machines threads.now (DoneAt L.takes_from L.puts_into L.taking L.putting Z.flow E.start stations.now links.now upto) linked_hosts.old.items }
    requires falls { Falls (map (λ b. b.number) linked_hosts.old.items) }
    requires idle { idle_before ≤ 1 }
    ensures linked_hosts { AreLinkedHosts H.machines threads.now (DoneAt L.takes_from L.puts_into L.taking L.putting Z.flow E.start stations.now links.now upto) linked_hosts.new.items }
    ensures numbers { map (λ b. b.number) linked_hosts.new.items ≡ map (λ b. b.number) linked_hosts.old.items }
    ensures up { steps_of (machines_in H.machines linked_hosts.old.items) ≤ steps_of (machines_in H.machines linked_hosts.new.items) }
    ensures turns { result + idle_before + 1024 * steps_of (machines_in H.machines linked_hosts.old.items) ≤ 1024 * steps_of (machines_in H.machines linked_hosts.new.items) + 1025 }
    ensures ended { AllEnded H.machines upto linked_hosts.new.items ⊎ (1024 ≤ result) }
{
    let mut place = Place::begin(lowest(linked_hosts));
    let mut idle = idle_before;
    for turn in 1..u64::MAX {
        if idle >= IDLE_TURNS {
            return turn;
        }
        let ended = have_ended(linked_hosts, upto);
        if ended {
            return turn;
        }
        gate.pass(worker, turn);
        let events = events_after(orders, worker, idle);
        let stepped = take_turn::<H, L, Z, E>(
            links,
            stations,
            threads,
            linked_hosts,
            events,
            &mut place,
            upto,
        );
        idle = idle_after(stepped, idle);
    }
    u64::MAX
}

// All turns of one worker. It ends before a turn where no machine of its hosts is below `upto`, or after 1,024 turns in a
// row without a step. Returns the number of its turns: at most 1,024 for each step, and 1,024 more.
pub(crate) fn run_worker<H: Host, L: Link, Z: Streams, E: Era, G: Gate>(
    links: &[L],
    stations: &[Station],
    threads: &[u32],
    linked_hosts: &mut Vec<LinkedHost<H, L::TakeSeat, L::PutSeat>>,
    orders: &[OwnOrder],
    upto: u64,
    gate: &G,
    worker: u32,
) -> u64
    requires kept { Kept Z.flow E.start }
    requires here { (length links.now ≡ length E.start.wires) × (upto ≤ E.start.end) }
    requires listed { (length stations.now ≡ length E.start.machines) × AreListed (frame_of E.start) stations.now }
    requires linked_hosts { AreLinkedHosts H.machines threads.now (ReadyAt L.takes_from L.puts_into L.taking L.putting Z.flow E.start stations.now links.now upto) linked_hosts.old.items }
    requires falls { Falls (map (λ b. b.number) linked_hosts.old.items) }
    ensures linked_hosts { AreLinkedHosts H.machines threads.now (DoneAt L.takes_from L.puts_into L.taking L.putting Z.flow E.start stations.now links.now upto) linked_hosts.new.items }
    ensures numbers { map (λ b. b.number) linked_hosts.new.items ≡ map (λ b. b.number) linked_hosts.old.items }
    ensures turns { result + 1024 * steps_of (machines_in H.machines linked_hosts.old.items) ≤ 1024 * (steps_of (machines_in H.machines linked_hosts.new.items) + 1) }
    ensures ended { AllEnded H.machines upto linked_hosts.new.items ⊎ (1024 ≤ result) }
{
    if have_ended(linked_hosts, upto) {
        return 0;
    }
    gate.pass(worker, 0);
    let stepped = pass_all::<H, L, Z, E>(links, stations, threads, linked_hosts, upto);
    let idle = idle_after(stepped, 0);
    more_turns::<H, L, Z, E, G>(
        links,
        stations,
        threads,
        linked_hosts,
        orders,
        upto,
        gate,
        worker,
        idle,
    )
}
