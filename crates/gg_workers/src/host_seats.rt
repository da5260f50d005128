//! Lists for the seats of the machines of a network, by host and thread. They are made with room, and filled later.
ghost use Rattle.std.specs.Prelude.{◌≡◌, ℕ, ◌^◌, ◌<◌, ◌≤◌, [], length, map, slice_index_or, slice_set, IfOk};
ghost use Rattle.std.specs.Vec.{vec_capacity};
ghost use Rattle.gg_net.specs.Network.{frame_of};
ghost use Rattle.gg_net.specs.Kept.{IsWired};
ghost use Rattle.gg_net.specs.inside.Stations.{AreStationed};
ghost use Rattle.gg_net.specs.inside.Net.{AreListed};
ghost use Rattle.gg_workers_pass.specs.inside.SeatLists.{AreOnce, RowIsThere, RowTakenOut};
ghost use Rattle.gg_workers_pass.specs.declared.machine_seats.MachineSeats.{MachineSeats};
ghost use Rattle.gg_workers.specs.inside.HostSeats.{IsEmptyFor, IsFilledFor, HasPlaces, EachMachine};

use gg_net::Station;
use gg_node::Host;
use gg_workers_pass::{Era, MachineSeats, take_out, wrap_all};
use std::alloc::{AllocError, Global};

// The seats of the machines of one host.
#[derive(Drop)]
pub(crate) struct HostSeats<S, T> {
    // The seats of the machine at each thread.
    pub(crate) by_thread: Vec<MachineSeats<S, T>>,
}

// Empty lists, with room for the seats of a station.
fn empty_seats<S: Drop, T: Drop>(
    alloc: Global,
    machine: u32,
    station: &Station,
) -> Result<MachineSeats<S, T>, AllocError>
    ensures { IfOk result (λ machine_seats. IsEmptyFor machine station.now machine_seats) }
{
    let takes = Vec::with_capacity(alloc, station.ins.as_slice().len())?;
    let puts = Vec::with_capacity(alloc, station.outs.as_slice().len())?;
    Ok(MachineSeats {
        machine,
        takes,
        puts,
    })
}

// Lists without room for the seats of a host with this many threads.
fn blank_host<S: Drop, T: Drop>(alloc: Global, count: u32) -> Result<HostSeats<S, T>, AllocError>
    ensures { IfOk result (λ row. length row.by_thread.items ≡ count) }
{
    let mut by_thread = Vec::new(alloc);
    for _ in 0..count {
        by_thread.push(MachineSeats {
            machine: 0,
            takes: Vec::new(alloc),
            puts: Vec::new(alloc),
        })?;
    }
    Ok(HostSeats { by_thread })
}

// Lists without room for the seats of each of these hosts.
fn blank_hosts<H: Host, S: Drop, T: Drop>(
    alloc: Global,
    hosts: &[H],
) -> Result<Vec<HostSeats<S, T>>, AllocError>
    ensures { IfOk result (λ rows. HasPlaces (map H.machines hosts.now) rows.items) }
{
    let mut rows = Vec::new(alloc);
    for host in hosts {
        rows.push(blank_host(alloc, host.threads())?)?;
    }
    Ok(rows)
}

// Sets the seats at a thread.
fn set_seats<S: Drop, T: Drop>(
    row: &mut HostSeats<S, T>,
    thread: u32,
    machine_seats: MachineSeats<S, T>,
)
    requires { thread < length row.old.by_thread.items }
    ensures { row.new.by_thread.items ≡ slice_set row.old.by_thread.items thread machine_seats }
{
    row.by_thread[thread as usize] = machine_seats;
}

// Makes lists for each machine at these stations, with room for its seats.
//
// # Errors
//
// Returns `AllocError` if an allocation fails.
pub(crate) fn reserve_seats<H: Host, S: Drop, T: Drop>(
    alloc: Global,
    hosts: &[H],
    stations: &[Station],
) -> Result<Vec<HostSeats<S, T>>, AllocError>
    requires stationed { AreStationed (map H.machines hosts.now) stations.now }
    requires few { length stations.now < 2 ^ 32 }
    ensures places { IfOk result (λ rows. HasPlaces (map H.machines hosts.now) rows.items) }
    ensures each { IfOk result (λ rows. EachMachine IsEmptyFor stations.now 0 (length stations.now) rows.items) }
{
    let mut rows = blank_hosts::<H, S, T>(alloc, hosts)?;
    for machine in 0..stations.len() {
        let station = &stations[machine];
        let machine_seats = empty_seats(alloc, machine as u32, station)?;
        set_seats(
            &mut rows[station.host as usize],
            station.thread,
            machine_seats,
        );
    }
    Ok(rows)
}

// Moves the seats of the channels at a station into the lists of its machine.
fn fill_seats<S: Drop, T: Drop>(
    machine_seats: &mut MachineSeats<S, T>,
    station: &Station,
    takes: &mut Vec<Option<S>>,
    puts: &mut Vec<Option<T>>,
)
    requires once { AreOnce station.now.ins × AreOnce station.now.outs }
    requires there { RowIsThere station.now.ins takes.old.items × RowIsThere station.now.outs puts.old.items }
    requires empty { IsEmptyFor machine_seats.old.machine station.now machine_seats.old }
    ensures machine { machine_seats.new.machine ≡ machine_seats.old.machine }
    ensures takes { RowTakenOut station.now.ins (length station.now.ins) takes.old.items takes.new.items machine_seats.new.takes.items }
    ensures puts { RowTakenOut station.now.outs (length station.now.outs) puts.old.items puts.new.items machine_seats.new.puts.items }
{
    take_out(station.ins.as_slice(), takes, &mut machine_seats.takes);
    take_out(station.outs.as_slice(), puts, &mut machine_seats.puts);
}

// Moves the seats of the channels at a station into the lists at its thread.
fn fill_row<S: Drop, T: Drop>(
    row: &mut HostSeats<S, T>,
    _machine: usize,
    station: &Station,
    takes: &mut Vec<Option<S>>,
    puts: &mut Vec<Option<T>>,
)
    requires thread { station.now.thread < length row.old.by_thread.items }
    requires once { AreOnce station.now.ins × AreOnce station.now.outs }
    requires there { RowIsThere station.now.ins takes.old.items × RowIsThere station.now.outs puts.old.items }
    requires empty { (d : MachineSeats S T) → IsEmptyFor _machine station.now (slice_index_or row.old.by_thread.items station.now.thread d) }
    ensures { (q : MachineSeats S T) × (row.new.by_thread.items ≡ slice_set row.old.by_thread.items station.now.thread q)
        × (q.machine ≡ _machine) × RowTakenOut station.now.ins
        (length station.now.ins) takes.old.items takes.new.items q.takes.items
        × RowTakenOut station.now.outs (length station.now.outs) puts.old.items puts.new.items q.puts.items }
{
    fill_seats(
        &mut row.by_thread[station.thread as usize],
        station,
        takes,
        puts,
    );
}

// Moves the seats of all channels into the lists of their machines, by place.
pub(crate) fn fill_all<H: Host, S: Drop, T: Drop, E: Era>(
    _hosts: &[H],
    stations: &[Station],
    rows: &mut Vec<HostSeats<S, T>>,
    take_seats: Vec<S>,
    put_seats: Vec<T>,
    takes: &mut Vec<Option<S>>,
    puts: &mut Vec<Option<T>>,
)
    requires wired { IsWired (frame_of E.start) }
    requires stationed { AreStationed (map H.machines _hosts.now) stations.now }
    requires listed { AreListed (frame_of E.start) stations.now }
    requires long { (length take_seats.items ≡ length E.start.wires) × (length put_seats.items ≡ length E.start.wires) }
    requires places { HasPlaces (map H.machines _hosts.now) rows.old.items }
    requires empty { EachMachine IsEmptyFor stations.now 0 (length stations.now) rows.old.items }
    requires none { (takes.old.items ≡ []) × (puts.old.items ≡ []) }
    requires room { (length take_seats.items ≤ vec_capacity takes.old) × (length put_seats.items ≤ vec_capacity puts.old) }
    ensures places { HasPlaces (map H.machines _hosts.now) rows.new.items }
    ensures full { EachMachine (IsFilledFor take_seats.items put_seats.items) stations.now 0 (length stations.now) rows.new.items }
    ensures lists { (length takes.new.items ≡ length take_seats.items) × (length puts.new.items ≡ length put_seats.items) }
{
    wrap_all(take_seats, takes);
    wrap_all(put_seats, puts);
    for machine in 0..stations.len() {
        let station = &stations[machine];
        let row = &mut rows[station.host as usize];
        fill_row(row, machine, station, takes, puts);
    }
}
