//! Hosts are parted from the seats of their machines, and the seats are put back to their channels.
ghost use Rattle.std.specs.Prelude.{◌≡◌, ◌≤◌, [], length, map};
ghost use Rattle.std.specs.Vec.{vec_capacity};
ghost use Rattle.gg_net.specs.Network.{frame_of};
ghost use Rattle.gg_net.specs.Kept.{Kept};
ghost use Rattle.gg_net.specs.inside.Net.{AreListed};
ghost use Rattle.gg_net.specs.inside.Stations.{machines_by};
ghost use Rattle.gg_workers_pass.specs.inside.Seats.{TakeSeatOf, PutSeatOf};
ghost use Rattle.gg_workers.specs.inside.Apart.{row_of, consumer_in, producer_in, MachineBack, HostBack, IsOwned, AreOwned, AllOwned, AllBack};

use crate::host_seats::HostSeats;
use crate::worker::LinkedHost;
use gg_flat::Streams;
use gg_link::Link;
use gg_net::Station;
use gg_node::Host;
use gg_workers_pass::{Era, MachineSeats, put_back};

// Parts hosts from the seats of their machines, both in the order of the hosts.
pub(crate) fn separate<H: Drop, S: Drop, T: Drop>(
    linked_hosts: Vec<LinkedHost<H, S, T>>,
    hosts: &mut Vec<H>,
    rows: &mut Vec<HostSeats<S, T>>,
)
    requires none { (hosts.old.items ≡ []) × (rows.old.items ≡ []) }
    requires room { (length linked_hosts.items ≤ vec_capacity hosts.old) × (length linked_hosts.items ≤ vec_capacity rows.old) }
    ensures hosts { hosts.new.items ≡ map (λ b. b.host) linked_hosts.items }
    ensures rows { rows.new.items ≡ map row_of linked_hosts.items }
{
    for linked_host in linked_hosts {
        let LinkedHost {
            number: _,
            host,
            by_thread,
        } = linked_host;
        hosts.push_reserved(host);
        rows.push_reserved(HostSeats { by_thread });
    }
}

// Puts the seats of one machine back to their channels.
fn return_machine<H: Host, L: Link, Z: Streams, E: Era>(
    _links: &[L],
    stations: &[Station],
    _hosts: &[H],
    machine_seats: MachineSeats<L::TakeSeat, L::PutSeat>,
    takes: &mut Vec<Option<L::TakeSeat>>,
    puts: &mut Vec<Option<L::PutSeat>>,
)
    requires kept { Kept Z.flow E.start }
    requires listed { (length stations.now ≡ length E.start.machines) × AreListed (frame_of E.start) stations.now }
    requires machine_seats { IsOwned L.takes_from L.puts_into L.taking L.putting Z.flow E.start _links.now (machines_by (map H.machines _hosts.now) stations.now) stations.now machine_seats }
    requires long { (length takes.old.items ≡ length E.start.wires) × (length puts.old.items ≡ length E.start.wires) }
    ensures takes { MachineBack (consumer_in E.start)
        (TakeSeatOf L.takes_from L.puts_into L.taking L.putting Z.flow E.start _links.now
        (machines_by (map H.machines _hosts.now) stations.now))
        (length E.start.wires) machine_seats.machine takes.old.items takes.new.items }
    ensures puts { MachineBack (producer_in E.start)
        (PutSeatOf L.takes_from L.puts_into L.taking L.putting Z.flow E.start _links.now
        (machines_by (map H.machines _hosts.now) stations.now))
        (length E.start.wires) machine_seats.machine puts.old.items puts.new.items }
{
    let MachineSeats {
        machine,
        takes: take_row,
        puts: put_row,
    } = machine_seats;
    let station = &stations[machine as usize];
    put_back::<L::TakeSeat>(station.ins.as_slice(), take_row, takes);
    put_back::<L::PutSeat>(station.outs.as_slice(), put_row, puts);
}

// Puts the seats of the machines of one host back to their channels.
fn return_host<H: Host, L: Link, Z: Streams, E: Era>(
    links: &[L],
    stations: &[Station],
    hosts: &[H],
    by_thread: Vec<MachineSeats<L::TakeSeat, L::PutSeat>>,
    takes: &mut Vec<Option<L::TakeSeat>>,
    puts: &mut Vec<Option<L::PutSeat>>,
)
    requires kept { Kept Z.flow E.start }
    requires listed { (length stations.now ≡ length E.start.machines) × AreListed (frame_of E.start) stations.now }
    requires by_thread { AreOwned L.takes_from L.puts_into L.taking L.putting Z.flow E.start links.now (machines_by (map H.machines hosts.now) stations.now) stations.now by_thread.items }
    requires long { (length takes.old.items ≡ length E.start.wires) × (length puts.old.items ≡ length E.start.wires) }
    ensures takes { HostBack (consumer_in E.start)
        (TakeSeatOf L.takes_from L.puts_into L.taking L.putting Z.flow E.start links.now
        (machines_by (map H.machines hosts.now) stations.now))
        (length E.start.wires) by_thread.items takes.old.items takes.new.items }
    ensures puts { HostBack (producer_in E.start)
        (PutSeatOf L.takes_from L.puts_into L.taking L.putting Z.flow E.start links.now
        (machines_by (map H.machines hosts.now) stations.now))
        (length E.start.wires) by_thread.items puts.old.items puts.new.items }
{
    for machine_seats in by_thread {
        return_machine::<H, L, Z, E>(links, stations, hosts, machine_seats, takes, puts);
    }
}

// Puts the seats of all machines back to their channels.
pub(crate) fn return_all<H: Host, L: Link, Z: Streams, E: Era>(
    links: &[L],
    stations: &[Station],
    hosts: &[H],
    rows: Vec<HostSeats<L::TakeSeat, L::PutSeat>>,
    takes: &mut Vec<Option<L::TakeSeat>>,
    puts: &mut Vec<Option<L::PutSeat>>,
)
    requires kept { Kept Z.flow E.start }
    requires listed { (length stations.now ≡ length E.start.machines) × AreListed (frame_of E.start) stations.now }
    requires rows { AllOwned L.takes_from L.puts_into L.taking L.putting Z.flow E.start links.now (machines_by (map H.machines hosts.now) stations.now) stations.now rows.items }
    requires long { (length takes.old.items ≡ length E.start.wires) × (length puts.old.items ≡ length E.start.wires) }
    ensures takes { AllBack (consumer_in E.start)
        (TakeSeatOf L.takes_from L.puts_into L.taking L.putting Z.flow E.start links.now
        (machines_by (map H.machines hosts.now) stations.now))
        (length E.start.wires) rows.items takes.old.items takes.new.items }
    ensures puts { AllBack (producer_in E.start)
        (PutSeatOf L.takes_from L.puts_into L.taking L.putting Z.flow E.start links.now
        (machines_by (map H.machines hosts.now) stations.now))
        (length E.start.wires) rows.items puts.old.items puts.new.items }
{
    for row in rows {
        return_host::<H, L, Z, E>(links, stations, hosts, row.by_thread, takes, puts);
    }
}
