//! The links of a network are opened, all or none.
ghost use Rattle.std.specs.Prelude.{◌≡◌, ℕ, ◌<◌, ◌≤◌, [], length, map, IfOk, MatchResult, OnOk, OnErr};
ghost use Rattle.std.specs.Vec.{vec_capacity};
ghost use Rattle.gg_flat.specs.Line.{value_at};
ghost use Rattle.gg_net.specs.Network.{takes};
ghost use Rattle.gg_net.specs.inside.Net.{AreParts, joined};
ghost use Rattle.gg_workers_pass.specs.inside.Seats.{Linked, AreNew};

use gg_flat::Streams;
use gg_link::Link;
use gg_net::{Net, Queue, Shape};
use gg_node::Host;
use gg_workers_pass::{Era, close_all, open_all};
use std::alloc::{AllocError, Global};

// The number of tokens that were taken from each channel.
pub(crate) fn take_counts<H: Host, Z: Streams>(
    alloc: Global,
    net: &Net<H, Z>,
) -> Result<Vec<u64>, AllocError>
    ensures { IfOk result (λ counts. (length counts.items ≡ length net.now.wires) × ((c : ℕ) → c < length net.now.wires → value_at counts.items c ≡ takes net.now c)) }
{
    net.within_limits();
    let mut counts = Vec::new(alloc);
    for channel in 0..net.channels() {
        counts.push(net.takes(channel as u32))?;
    }
    Ok(counts)
}

// Opens the links of all channels. If one can't be made, the links made before it are closed, and all is as before.
pub(crate) fn open_links<H: Host, L: Link, Z: Streams, E: Era>(
    home: L::Home,
    alloc: Global,
    hosts: &[H],
    shape: &Shape,
    starts: &[u64],
    links: &mut Vec<L>,
    put_seats: &mut Vec<L::PutSeat>,
    take_seats: &mut Vec<L::TakeSeat>,
    queues: &mut Vec<Queue>,
) -> Result<(), AllocError>
    requires parts { AreParts Z.flow (map H.machines hosts.now) shape.now queues.old.items }
    requires start { E.start ≡ joined (map H.machines hosts.now) shape.now queues.old.items }
    requires starts { (length starts.now ≡ length E.start.wires) × ((c : ℕ) → c < length E.start.wires → value_at starts.now c ≡ takes E.start c) }
    requires room { (length E.start.wires ≤ vec_capacity links.old) × (length E.start.wires ≤ vec_capacity put_seats.old) × (length E.start.wires ≤ vec_capacity take_seats.old) }
    requires none { (links.old.items ≡ []) × (put_seats.old.items ≡ []) × (take_seats.old.items ≡ []) }
    ensures linked { OnOk result (Linked L.takes_from L.puts_into L.taking L.putting Z.flow E.start E.start.machines links.new.items put_seats.new.items take_seats.new.items queues.new.items) }
    ensures all { OnOk result (length links.new.items ≡ length E.start.wires) }
    ensures new { OnOk result (AreNew L.taking L.putting E.start (length links.new.items) put_seats.new.items take_seats.new.items) }
    ensures parts { OnErr result (AreParts Z.flow (map H.machines hosts.now) shape.now queues.new.items) }
    ensures refused { OnErr result (joined (map H.machines hosts.now) shape.now queues.new.items ≡ E.start) }
{
    let opened = open_all::<L, Z, E>(
        home,
        alloc,
        &shape.wires,
        starts,
        links,
        put_seats,
        take_seats,
        queues,
    );
    if let Err(error) = opened {
        close_all::<H, L, Z, E>(
            alloc,
            hosts,
            &shape.stations,
            links,
            put_seats,
            take_seats,
            queues,
        );
        return Err(error);
    }
    Ok(())
}
