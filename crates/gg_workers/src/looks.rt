//! A worker goes on in its own order: it looks at an event until that is done.
ghost use Rattle.std.specs.Prelude.{◌≡◌, ℕ, ◌<◌, ◌≤◌, length, map, slice_set};
ghost use Rattle.gg_node.specs.Machine.{machine_at};
ghost use Rattle.gg_net.specs.Network.{frame_of, kind_at};
ghost use Rattle.gg_net.specs.Kept.{Kept};
ghost use Rattle.gg_net.specs.inside.Net.{IsListed, AreListed};
ghost use Rattle.gg_workers_pass.specs.inside.Pass.{HasSeatsAt, MachineWentOn};
ghost use Rattle.gg_workers_pass.specs.inside.Rows.{StepsDone};
ghost use Rattle.gg_workers.specs.inside.LinkedHosts.{DoneAt, EachThread, IsLinkedHost, AreLinkedHosts};
ghost use Rattle.gg_workers.specs.inside.Turns.{host_steps, steps_of, machines_in, StepsTold};

use crate::own_order::OwnEvent;
use crate::worker::LinkedHost;
use gg_flat::Streams;
use gg_link::Link;
use gg_net::{Event, Station};
use gg_node::Host;
use gg_workers_pass::{Era, MachineSeats, pass_chosen};
use std::hint;

// How often a worker looks at an event in one turn.
const LOOKS: u32 = 200;

// The result of looking at an event.
#[derive(Clone, Copy, Drop)]
pub(crate) struct Looked {
    // Whether it was done.
    pub(crate) stepped: bool,
    // Whether it is still to be done.
    pub(crate) waits: bool,
}

// Whether an event of this cycle was done before.
fn is_past<H: Host>(host: &H, station: &Station, own: &OwnEvent, cycle: u64) -> bool
    requires thread { station.now.thread < length (H.machines host.now) }
    requires ins { length station.now.ins ≡ length (machine_at (H.machines host.now) station.now.thread).latches }
    requires outs { length station.now.outs ≡ length (machine_at (H.machines host.now) station.now.thread).flags }
{
    let thread = station.thread;
    if host.cycle(thread) > cycle {
        return true;
    }
    match own.event {
        Event::Latch { channel: _ } => {
            (own.place as usize) < station.ins.as_slice().len() && host.latched(thread, own.place)
        }
        Event::Fire { channel: _ } => {
            (own.place as usize) < station.outs.as_slice().len() && host.fired(thread, own.place)
        }
        Event::Serve { machine: _, port } => host.due(thread) != Some(port),
        Event::Finish { machine: _ } => false,
    }
}

// Looks at an event of one machine until it is done. Also stops if it was done before, and after `LOOKS` looks.
fn look<H: Host, L: Link, Z: Streams, E: Era>(
    links: &[L],
    station: &Station,
    host: &mut H,
    machine_seats: &mut MachineSeats<L::TakeSeat, L::PutSeat>,
    own: &OwnEvent,
    cycle: u64,
    upto: u64,
) -> Looked
    requires kept { Kept Z.flow E.start }
    requires here { (length links.now ≡ length E.start.wires) × (machine_seats.old.machine < length E.start.machines) × (upto ≤ E.start.end) }
    requires thread { station.now.thread < length (H.machines host.old) }
    requires listed { IsListed E.start.wires machine_seats.old.machine (kind_at (frame_of E.start).kinds machine_seats.old.machine) station.now }
    requires machine_seats { HasSeatsAt L.takes_from L.puts_into L.taking L.putting Z.flow E.start links.now machine_seats.old.machine station.now (H.machines host.old) machine_seats.old }
    ensures machine { machine_seats.new.machine ≡ machine_seats.old.machine }
    ensures machine_seats { HasSeatsAt L.takes_from L.puts_into L.taking L.putting Z.flow E.start links.now machine_seats.old.machine station.now (H.machines host.new) machine_seats.new }
    ensures alone { H.machines host.new ≡ slice_set (H.machines host.old) station.now.thread (machine_at (H.machines host.new) station.now.thread) }
    ensures went_on { MachineWentOn (frame_of E.start) machine_seats.old.machine upto (machine_at (H.machines host.old) station.now.thread) (machine_at (H.machines host.new) station.now.thread) }
    ensures stepped { StepsDone (H.machines host.old) station.now.thread (H.machines host.new) result.stepped }
{
    let chosen = own.chosen();
    for _ in 0..LOOKS {
        let stepped = pass_chosen::<H, L, Z, E>(links, station, host, machine_seats, chosen, upto);
        if stepped {
            return Looked {
                stepped,
                waits: false,
            };
        }
        if is_past(host, station, own, cycle) {
            return Looked {
                stepped: false,
                waits: false,
            };
        }
        hint::spin_loop();
    }
    Looked {
        stepped: false,
        waits: true,
    }
}

// Looks at an event of one host.
fn look_threads<H: Host, L: Link, Z: Streams, E: Era>(
    links: &[L],
    stations: &[Station],
    _number: usize,
    host: &mut H,
    by_thread: &mut Vec<MachineSeats<L::TakeSeat, L::PutSeat>>,
    own: &OwnEvent,
    cycle: u64,
    upto: u64,
) -> Looked
    requires kept { Kept Z.flow E.start }
    requires here { (length links.now ≡ length E.start.wires) × (upto ≤ E.start.end) }
    requires listed { (length stations.now ≡ length E.start.machines) × AreListed (frame_of E.start) stations.now }
    requires by_thread { EachThread (DoneAt L.takes_from L.puts_into L.taking L.putting Z.flow E.start stations.now links.now upto) _number (H.machines host.old) by_thread.old.items }
    ensures by_thread { EachThread (DoneAt L.takes_from L.puts_into L.taking L.putting Z.flow E.start stations.now links.now upto) _number (H.machines host.new) by_thread.new.items }
    ensures count { length by_thread.new.items ≡ length by_thread.old.items }
    ensures told { StepsTold host_steps (H.machines host.old) (H.machines host.new) result.stepped }
{
    let thread = own.thread as usize;
    if thread >= by_thread.len() {
        return Looked {
            stepped: false,
            waits: false,
        };
    }
    let machine_seats = &mut by_thread[thread];
    let station = &stations[machine_seats.machine as usize];
    look::<H, L, Z, E>(links, station, host, machine_seats, own, cycle, upto)
}

fn look_host<H: Host, L: Link, Z: Streams, E: Era>(
    links: &[L],
    stations: &[Station],
    _threads: &[u32],
    linked_host: &mut LinkedHost<H, L::TakeSeat, L::PutSeat>,
    own: &OwnEvent,
    cycle: u64,
    upto: u64,
) -> Looked
    requires kept { Kept Z.flow E.start }
    requires here { (length links.now ≡ length E.start.wires) × (upto ≤ E.start.end) }
    requires listed { (length stations.now ≡ length E.start.machines) × AreListed (frame_of E.start) stations.now }
    requires linked_host { IsLinkedHost H.machines _threads.now (DoneAt L.takes_from L.puts_into L.taking L.putting Z.flow E.start stations.now links.now upto) linked_host.old }
    ensures linked_host { IsLinkedHost H.machines _threads.now (DoneAt L.takes_from L.puts_into L.taking L.putting Z.flow E.start stations.now links.now upto) linked_host.new }
    ensures number { linked_host.new.number ≡ linked_host.old.number }
    ensures told { StepsTold host_steps (H.machines linked_host.old.host) (H.machines linked_host.new.host) result.stepped }
{
    look_threads::<H, L, Z, E>(
        links,
        stations,
        linked_host.number,
        &mut linked_host.host,
        &mut linked_host.by_thread,
        own,
        cycle,
        upto,
    )
}

// Looks at an event of a worker's hosts. The last of them has the least number.
fn look_all<H: Host, L: Link, Z: Streams, E: Era>(
    links: &[L],
    stations: &[Station],
    threads: &[u32],
    linked_hosts: &mut Vec<LinkedHost<H, L::TakeSeat, L::PutSeat>>,
    own: &OwnEvent,
    cycle: u64,
    upto: u64,
) -> Looked
    requires kept { Kept Z.flow E.start }
    requires here { (length links.now ≡ length E.start.wires) × (upto ≤ E.start.end) }
    requires listed { (length stations.now ≡ length E.start.machines) × AreListed (frame_of E.start) stations.now }
    requires linked_hosts { AreLinkedHosts H.machines threads.now (DoneAt L.takes_from L.puts_into L.taking L.putting Z.flow E.start stations.now links.now upto) linked_hosts.old.items }
    ensures linked_hosts { AreLinkedHosts H.machines threads.now (DoneAt L.takes_from L.puts_into L.taking L.putting Z.flow E.start stations.now links.now upto) linked_hosts.new.items }
    ensures numbers { map (λ b. b.number) linked_hosts.new.items ≡ map (λ b. b.number) linked_hosts.old.items }
    ensures told { StepsTold steps_of (machines_in H.machines linked_hosts.old.items) (machines_in H.machines linked_hosts.new.items) result.stepped }
{
    let count = linked_hosts.len();
    let before = own.before as usize;
    if before >= count {
        return Looked {
            stepped: false,
            waits: false,
        };
    }
    let k = count - before - 1;
    look_host::<H, L, Z, E>(
        links,
        stations,
        threads,
        &mut linked_hosts[k],
        own,
        cycle,
        upto,
    )
}

// Where a worker goes on in its own order.
#[derive(Drop)]
pub(crate) struct Place {
    // The place of the next event.
    next: usize,
    // The cycle that the events are of.
    cycle: u64,
}

impl Place {
    // The beginning of the order, in this cycle.
    pub(crate) fn begin(cycle: u64) -> Place {
        Place { next: 0, cycle }
    }
}

// Goes on in a worker's own order, until an event waits or the order ends. True if a step was done.
pub(crate) fn go_on<H: Host, L: Link, Z: Streams, E: Era>(
    links: &[L],
    stations: &[Station],
    threads: &[u32],
    linked_hosts: &mut Vec<LinkedHost<H, L::TakeSeat, L::PutSeat>>,
    events: &[OwnEvent],
    place: &mut Place,
    upto: u64,
) -> bool
    requires kept { Kept Z.flow E.start }
    requires here { (length links.now ≡ length E.start.wires) × (upto ≤ E.start.end) }
    requires listed { (length stations.now ≡ length E.start.machines) × AreListed (frame_of E.start) stations.now }
    requires linked_hosts { AreLinkedHosts H.machines threads.now (DoneAt L.takes_from L.puts_into L.taking L.putting Z.flow E.start stations.now links.now upto) linked_hosts.old.items }
    ensures linked_hosts { AreLinkedHosts H.machines threads.now (DoneAt L.takes_from L.puts_into L.taking L.putting Z.flow E.start stations.now links.now upto) linked_hosts.new.items }
    ensures numbers { map (λ b. b.number) linked_hosts.new.items ≡ map (λ b. b.number) linked_hosts.old.items }
    ensures told { StepsTold steps_of (machines_in H.machines linked_hosts.old.items) (machines_in H.machines linked_hosts.new.items) result }
{
    let cycle = place.cycle;
    let mut stepped = false;
    for next in place.next..events.len() {
        let own = &events[next];
        let looked = look_all::<H, L, Z, E>(
            links,
            stations,
            threads,
            linked_hosts,
            own,
            cycle,
            upto,
        );
        let waits = looked.waits;
        stepped |= looked.stepped;
        if waits {
            place.next = next;
            return stepped;
        }
    }
    place.next = 0;
    place.cycle = cycle.saturating_add(1);
    stepped
}
