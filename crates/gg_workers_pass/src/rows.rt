//! A row of tries: some ins of one machine, some outs, or its ports as long as one can be served.
ghost use Rattle.std.specs.Prelude.{◌≡◌, ℕ, ◌^◌, ◌<◌, ◌≤◌, length, map, max, min, slice_set, true};
ghost use Rattle.gg_node.specs.Machine.{machine_at};
ghost use Rattle.gg_node.specs.inside.Step.{MayFinish};
ghost use Rattle.gg_net.specs.Network.{frame_of};
ghost use Rattle.gg_net.specs.inside.Net.{entry_of};
ghost use Rattle.gg_net.specs.Kept.{MachineAt, Kept};
ghost use Rattle.gg_net.specs.inside.Parted.{takes_by, enters_by};
ghost use Rattle.gg_workers_pass.specs.inside.Tries.{FinishIsDue, FinishTriedIf};
ghost use Rattle.gg_workers_pass.specs.inside.Rows.{SeatsByPlace, LatchesTried, AreIns, FiresTried, AreOuts, ServesTried, NoneServes, StepsDone};

use crate::era::Era;
use crate::tries::{try_finish, try_fire, try_latch, try_serve};
use gg_bits::either;
use gg_flat::Streams;
use gg_link::Link;
use gg_net::ServedPort;
use gg_node::Host;

// Tries each in of a machine once, from one place to before another. Returns whether any token was latched.
pub(crate) fn latch_row<H: Host, L: Link, Z: Streams, E: Era>(
    links: &[L],
    host: &mut H,
    thread: u32,
    _machine: u32,
    ins: &[u32],
    seats: &mut Vec<L::TakeSeat>,
    first: u32,
    past: u32,
) -> bool
    requires kept { Kept Z.flow E.start }
    requires here { (length links.now ≡ length E.start.wires) × (_machine < length E.start.machines) }
    requires thread { thread < length (H.machines host.old) }
    requires below { (machine_at (H.machines host.old) thread).cycle < E.start.end }
    requires ins { AreIns E.start _machine (machine_at (H.machines host.old) thread) ins.now × (length ins.now < 2 ^ 32) }
    requires own { MachineAt Z.flow (frame_of E.start) _machine (machine_at (H.machines host.old) thread) }
    requires placed { SeatsByPlace L.takes_from L.taking Z.flow E.start (takes_by (frame_of E.start) (machine_at (H.machines host.old) thread)) links.now ins.now seats.old.items }
    ensures tried { LatchesTried L.takes_from L.taking Z.flow E.start _machine links.now ins.now first (max first (min past (length ins.now)))
        (machine_at (H.machines host.old) thread) seats.old.items (machine_at (H.machines host.new) thread) seats.new.items }
    ensures alone { H.machines host.new ≡ slice_set (H.machines host.old) thread (machine_at (H.machines host.new) thread) }
    ensures done { StepsDone (H.machines host.old) thread (H.machines host.new) result }
{
    let end = past.min(ins.len() as u32);
    let mut stepped = false;
    for place in first..end {
        let channel = ins[place as usize] as usize;
        let seat = &mut seats[place as usize];
        let latched = try_latch::<H, L>(&links[channel], host, thread, place, seat);
        stepped = either(stepped, latched);
    }
    stepped
}

// Tries each out of a machine once, from one place to before another. Returns whether any token was given.
pub(crate) fn fire_row<H: Host, L: Link, Z: Streams, E: Era>(
    links: &[L],
    host: &mut H,
    thread: u32,
    _machine: u32,
    outs: &[u32],
    seats: &mut Vec<L::PutSeat>,
    first: u32,
    past: u32,
) -> bool
    requires kept { Kept Z.flow E.start }
    requires here { (length links.now ≡ length E.start.wires) × (_machine < length E.start.machines) }
    requires thread { thread < length (H.machines host.old) }
    requires below { (machine_at (H.machines host.old) thread).cycle < E.start.end }
    requires outs { AreOuts E.start _machine (machine_at (H.machines host.old) thread) outs.now × (length outs.now < 2 ^ 32) }
    requires own { MachineAt Z.flow (frame_of E.start) _machine (machine_at (H.machines host.old) thread) }
    requires placed { SeatsByPlace L.puts_into L.putting Z.flow E.start (enters_by (frame_of E.start) (machine_at (H.machines host.old) thread)) links.now outs.now seats.old.items }
    ensures tried { FiresTried L.puts_into L.putting Z.flow E.start _machine links.now outs.now first (max first (min past (length outs.now)))
        (machine_at (H.machines host.old) thread) seats.old.items (machine_at (H.machines host.new) thread) seats.new.items }
    ensures alone { H.machines host.new ≡ slice_set (H.machines host.old) thread (machine_at (H.machines host.new) thread) }
    ensures done { StepsDone (H.machines host.old) thread (H.machines host.new) result }
{
    let end = past.min(outs.len() as u32);
    let mut stepped = false;
    for place in first..end {
        let channel = outs[place as usize] as usize;
        let seat = &mut seats[place as usize];
        let fired = try_fire::<H, L>(&links[channel], host, thread, place, seat);
        stepped = either(stepped, fired);
    }
    stepped
}

// Serves the ports of a machine in their order, as long as that can be done. Returns whether any was served.
pub(crate) fn serve_all<H: Host, Z: Streams, E: Era>(
    host: &mut H,
    thread: u32,
    _machine: u32,
    outs: u32,
    ports: &[ServedPort],
) -> bool
    requires kept { Kept Z.flow E.start }
    requires here { _machine < length E.start.machines }
    requires thread { thread < length (H.machines host.old) }
    requires below { (machine_at (H.machines host.old) thread).cycle < E.start.end }
    requires outs { outs ≡ length (machine_at (H.machines host.old) thread).flags }
    requires ports { ports.now ≡ map entry_of (machine_at (H.machines host.old) thread).ports }
    requires own { MachineAt Z.flow (frame_of E.start) _machine (machine_at (H.machines host.old) thread) }
    ensures tried { ServesTried Z.flow E.start _machine (machine_at (H.machines host.old) thread) (machine_at (H.machines host.new) thread) }
    ensures none { NoneServes (machine_at (H.machines host.new) thread) }
    ensures alone { H.machines host.new ≡ slice_set (H.machines host.old) thread (machine_at (H.machines host.new) thread) }
    ensures done { StepsDone (H.machines host.old) thread (H.machines host.new) result }
{
    let mut stepped = false;
    while try_serve(host, thread, outs, ports) {
        stepped = true;
    }
    stepped
}

// Serves the ports of a machine as `serve_all` does, if they are to be served.
pub(crate) fn serve_row<H: Host, Z: Streams, E: Era>(
    host: &mut H,
    thread: u32,
    machine: u32,
    outs: u32,
    ports: &[ServedPort],
    serves: bool,
) -> bool
    requires kept { Kept Z.flow E.start }
    requires here { machine < length E.start.machines }
    requires thread { thread < length (H.machines host.old) }
    requires below { (machine_at (H.machines host.old) thread).cycle < E.start.end }
    requires outs { outs ≡ length (machine_at (H.machines host.old) thread).flags }
    requires ports { ports.now ≡ map entry_of (machine_at (H.machines host.old) thread).ports }
    requires own { MachineAt Z.flow (frame_of E.start) machine (machine_at (H.machines host.old) thread) }
    ensures tried { ServesTried Z.flow E.start machine (machine_at (H.machines host.old) thread) (machine_at (H.machines host.new) thread) }
    ensures none { serves ≡ true → NoneServes (machine_at (H.machines host.new) thread) }
    ensures alone { H.machines host.new ≡ slice_set (H.machines host.old) thread (machine_at (H.machines host.new) thread) }
    ensures done { StepsDone (H.machines host.old) thread (H.machines host.new) result }
{
    if !serves {
        return false;
    }
    serve_all::<H, Z, E>(host, thread, machine, outs, ports)
}

// Finishes the cycle, if it is to be finished and that can be done.
pub(crate) fn finish_row<H: Host>(
    host: &mut H,
    thread: u32,
    ins: u32,
    outs: u32,
    finishes: bool,
) -> bool
    requires thread { thread < length (H.machines host.old) }
    requires ins { ins ≡ length (machine_at (H.machines host.old) thread).latches }
    requires outs { outs ≡ length (machine_at (H.machines host.old) thread).flags }
    requires may { FinishIsDue (machine_at (H.machines host.old) thread) → MayFinish (machine_at (H.machines host.old) thread) }
    ensures { FinishTriedIf finishes (H.machines host.old) thread (H.machines host.new) result }
{
    if !finishes {
        return false;
    }
    try_finish(host, thread, ins, outs)
}
