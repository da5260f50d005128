//! Links are opened from the queues of a network.
ghost use Rattle.std.specs.Prelude.{◌≡◌, ℕ, ◌^◌, ◌<◌, ◌≤◌, [], length, slice_set, IfOk, OnOk, MatchResult};
ghost use Rattle.std.specs.Vec.{vec_capacity};
ghost use Rattle.gg_bits.specs.Limits.{cycle_limit};
ghost use Rattle.gg_flat.specs.Line.{value_at};
ghost use Rattle.gg_link.specs.Seats.{Starts, stream_of, stream_limit};
ghost use Rattle.gg_net.specs.Network.{takes};
ghost use Rattle.gg_net.specs.Kept.{list_at, BetweenAt, Kept};
ghost use Rattle.gg_net.specs.inside.Net.{held_at};
ghost use Rattle.gg_workers_pass.specs.inside.Seats.{emptied, Linked, AreNew};

use crate::era::Era;
use gg_flat::Streams;
use gg_link::Link;
use gg_net::{Queue, Wire};
use std::alloc::{AllocError, Global};
use std::collections::VecDeque;
use std::mem;

// Makes the link of a channel. The tokens of its queue move into the link.
fn open_one<L: Link, Z: Streams>(
    home: L::Home,
    alloc: Global,
    channel: u32,
    start: u64,
    capacity: u32,
    queues: &mut Vec<Queue>,
) -> Result<(L, L::PutSeat, L::TakeSeat), AllocError>
    requires within { channel < length queues.old.items }
    requires capacity { 1 ≤ capacity }
    requires between { (n : ℕ) × BetweenAt (list_at Z.flow.lists channel) capacity start n (held_at queues.old.items channel).tokens × (n ≤ length (list_at Z.flow.lists channel)) }
    requires short { length (list_at Z.flow.lists channel) ≤ stream_limit }
    ensures seats { IfOk result (λ r. L.puts_into r.0 r.1 × L.takes_from r.0 r.2) }
    ensures put { IfOk result (λ r. Starts (L.putting r.1) (stream_of Z.flow channel start) capacity (length (held_at queues.old.items channel).tokens) 0) }
    ensures take { IfOk result (λ r. Starts (L.taking r.2) (stream_of Z.flow channel start) capacity 0 (length (held_at queues.old.items channel).tokens)) }
    ensures queues { MatchResult result (λ _. queues.new.items ≡ slice_set queues.old.items channel (emptied (held_at queues.old.items channel))) (λ _. queues.new.items ≡ queues.old.items) }
{
    let none = Queue::of(VecDeque::new(alloc));
    let mut held = mem::replace(&mut queues[channel as usize], none).into_tokens();
    let made = L::make::<Z>(home, alloc, channel, start, capacity, &mut held);
    queues[channel as usize] = Queue::of(held);
    made
}

/// Makes a link for each channel, in their order, with the tokens of its queue. `starts` has the number of tokens that
/// were taken from each channel.
///
/// # Errors
///
/// Returns `AllocError` if an allocation fails. The links that were made can be closed.
pub fn open_all<L: Link, Z: Streams, E: Era>(
    home: L::Home,
    alloc: Global,
    wires: &[Wire],
    starts: &[u64],
    links: &mut Vec<L>,
    put_seats: &mut Vec<L::PutSeat>,
    take_seats: &mut Vec<L::TakeSeat>,
    queues: &mut Vec<Queue>,
) -> Result<(), AllocError>
    requires kept { Kept Z.flow E.start }
    requires here { wires.now ≡ E.start.wires }
    requires short { (E.start.end ≤ cycle_limit) × (length wires.now < 2 ^ 32) }
    requires starts { (length starts.now ≡ length wires.now) × ((c : ℕ) → c < length wires.now → value_at starts.now c ≡ takes E.start c) }
    requires room { (length wires.now ≤ vec_capacity links.old) × (length wires.now ≤ vec_capacity put_seats.old) × (length wires.now ≤ vec_capacity take_seats.old) }
    requires none { links.old.items ≡ [] }
    requires standing { Linked L.takes_from L.puts_into L.taking L.putting Z.flow E.start E.start.machines links.old.items put_seats.old.items take_seats.old.items queues.old.items }
    ensures standing { Linked L.takes_from L.puts_into L.taking L.putting Z.flow E.start E.start.machines links.new.items put_seats.new.items take_seats.new.items queues.new.items }
    ensures new { AreNew L.taking L.putting E.start (length links.new.items) put_seats.new.items take_seats.new.items }
    ensures all { OnOk result (length links.new.items ≡ length wires.now) }
{
    for channel in 0..wires.len() {
        let (link, put, take) = open_one::<L, Z>(
            home,
            alloc,
            channel as u32,
            starts[channel],
            wires[channel].capacity,
            queues,
        )?;
        links.push_reserved(link);
        put_seats.push_reserved(put);
        take_seats.push_reserved(take);
    }
    Ok(())
}
