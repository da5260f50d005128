//! A pass over one machine: a try of each of its events, or of the chosen ones.
ghost use Rattle.std.specs.Prelude.{◌≡◌, ℕ, ◌<◌, ◌≤◌, length, slice_set};
ghost use Rattle.gg_node.specs.Machine.{machine_at};
ghost use Rattle.gg_net.specs.Network.{frame_of, kind_at};
ghost use Rattle.gg_net.specs.Kept.{Kept};
ghost use Rattle.gg_net.specs.inside.Net.{IsListed};
ghost use Rattle.gg_workers_pass.specs.inside.Rows.{StepsDone};
ghost use Rattle.gg_workers_pass.specs.inside.Pass.{MachineWentOn, HasSeatsAt, ChosenDoneAt, KnownDoneAt, DoneAtFirst};

use crate::choice::Chosen;
use crate::era::Era;
use crate::machine_seats::MachineSeats;
use crate::rows::{finish_row, fire_row, latch_row, serve_row};
use gg_bits::either;
use gg_flat::Streams;
use gg_link::Link;
use gg_net::Station;
use gg_node::Host;

/// Tries the chosen events of the machine at a station of a host: latches, fires, its ports as long as one can be served,
/// and the end of its cycle. Does nothing if the machine isn't below cycle `upto`. Returns whether a step was done.
pub fn pass_chosen<H: Host, L: Link, Z: Streams, E: Era>(
    links: &[L],
    station: &Station,
    host: &mut H,
    machine_seats: &mut MachineSeats<L::TakeSeat, L::PutSeat>,
    chosen: Chosen,
    upto: u64,
) -> bool
    requires kept { Kept Z.flow E.start }
    requires here { (length links.now ≡ length E.start.wires) × (machine_seats.old.machine < length E.start.machines) × (upto ≤ E.start.end) }
    requires thread { station.now.thread < length (H.machines host.old) }
    requires listed { IsListed E.start.wires machine_seats.old.machine (kind_at (frame_of E.start).kinds machine_seats.old.machine) station.now }
    requires machine_seats { HasSeatsAt L.takes_from L.puts_into L.taking L.putting Z.flow E.start links.now machine_seats.old.machine station.now (H.machines host.old) machine_seats.old }
    ensures machine { machine_seats.new.machine ≡ machine_seats.old.machine }
    ensures machine_seats { HasSeatsAt L.takes_from L.puts_into L.taking L.putting Z.flow E.start links.now machine_seats.old.machine station.now (H.machines host.new) machine_seats.new }
    ensures alone { H.machines host.new ≡ slice_set (H.machines host.old) station.now.thread (machine_at (H.machines host.new) station.now.thread) }
    ensures went_on { MachineWentOn (frame_of E.start) machine_seats.old.machine upto (machine_at (H.machines host.old) station.now.thread) (machine_at (H.machines host.new) station.now.thread) }
    ensures done { ChosenDoneAt L.taking L.putting (frame_of E.start) upto chosen station.now (H.machines host.old) machine_seats.old (H.machines host.new) }
    ensures stepped { StepsDone (H.machines host.old) station.now.thread (H.machines host.new) result }
{
    let thread = station.thread;
    let machine = machine_seats.machine;
    if host.cycle(thread) >= upto {
        return false;
    }
    let ins = station.ins.as_slice();
    let outs = station.outs.as_slice();
    let ports = station.ports.as_slice();
    let latched = latch_row::<H, L, Z, E>(
        links,
        host,
        thread,
        machine,
        ins,
        &mut machine_seats.takes,
        chosen.first_in,
        chosen.past_in,
    );
    let fired = fire_row::<H, L, Z, E>(
        links,
        host,
        thread,
        machine,
        outs,
        &mut machine_seats.puts,
        chosen.first_out,
        chosen.past_out,
    );
    let out_count = outs.len() as u32;
    let served = serve_row::<H, Z, E>(host, thread, machine, out_count, ports, chosen.serves);
    let finished = finish_row(host, thread, ins.len() as u32, out_count, chosen.finishes);
    let passed = either(latched, fired);
    let ended = either(served, finished);
    either(passed, ended)
}

/// Tries each event of the machine at a station of a host: every latch, every fire, its ports as long as one can be
/// served, and the end of its cycle. Does nothing if the machine isn't below cycle `upto`. Returns whether a step was
/// done.
pub fn pass<H: Host, L: Link, Z: Streams, E: Era>(
    links: &[L],
    station: &Station,
    host: &mut H,
    machine_seats: &mut MachineSeats<L::TakeSeat, L::PutSeat>,
    upto: u64,
) -> bool
    requires kept { Kept Z.flow E.start }
    requires here { (length links.now ≡ length E.start.wires) × (machine_seats.old.machine < length E.start.machines) × (upto ≤ E.start.end) }
    requires thread { station.now.thread < length (H.machines host.old) }
    requires listed { IsListed E.start.wires machine_seats.old.machine (kind_at (frame_of E.start).kinds machine_seats.old.machine) station.now }
    requires machine_seats { HasSeatsAt L.takes_from L.puts_into L.taking L.putting Z.flow E.start links.now machine_seats.old.machine station.now (H.machines host.old) machine_seats.old }
    ensures machine { machine_seats.new.machine ≡ machine_seats.old.machine }
    ensures machine_seats { HasSeatsAt L.takes_from L.puts_into L.taking L.putting Z.flow E.start links.now machine_seats.old.machine station.now (H.machines host.new) machine_seats.new }
    ensures alone { H.machines host.new ≡ slice_set (H.machines host.old) station.now.thread (machine_at (H.machines host.new) station.now.thread) }
    ensures went_on { MachineWentOn (frame_of E.start) machine_seats.old.machine upto (machine_at (H.machines host.old) station.now.thread) (machine_at (H.machines host.new) station.now.thread) }
    ensures done { KnownDoneAt L.taking L.putting (frame_of E.start) upto station.now (H.machines host.old) machine_seats.old (H.machines host.new) }
    ensures first { DoneAtFirst L.taking L.putting E.start upto station.now (H.machines host.old) machine_seats.old (H.machines host.new) }
    ensures stepped { StepsDone (H.machines host.old) station.now.thread (H.machines host.new) result }
{
    pass_chosen::<H, L, Z, E>(links, station, host, machine_seats, Chosen::all(), upto)
}
