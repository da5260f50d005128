//! Links are closed into the queues of a network.
ghost use Rattle.std.specs.Prelude.{◌≡◌, ◌<◌, ◌≤◌, [], length, map, slice_set};
ghost use Rattle.gg_link.specs.Seats.{between, WithinCapacity};
ghost use Rattle.gg_net.specs.Kept.{Kept};
ghost use Rattle.gg_net.specs.inside.Net.{held_at};
ghost use Rattle.gg_net.specs.inside.Stations.{machines_by};
ghost use Rattle.gg_workers_pass.specs.inside.Seats.{Linked, MayStand, with_tokens};

use crate::era::Era;
use gg_flat::Streams;
use gg_link::Link;
use gg_net::{Queue, Station};
use gg_node::Host;
use std::alloc::Global;
use std::collections::VecDeque;
use std::mem;

// Closes a link. The tokens that are left in it move into the queue.
fn close_one<L: Link>(
    alloc: Global,
    link: L,
    put: L::PutSeat,
    take: L::TakeSeat,
    channel: usize,
    queues: &mut Vec<Queue>,
)
    requires within { channel < length queues.old.items }
    requires seats { L.puts_into link put × L.takes_from link take }
    requires empty { (held_at queues.old.items channel).tokens ≡ [] }
    requires room { (L.putting put).capacity ≤ (held_at queues.old.items channel).room }
    ensures counts { WithinCapacity (L.putting put) (L.taking take) }
    ensures queues { queues.new.items ≡ slice_set queues.old.items channel (with_tokens (held_at queues.old.items channel) (between (L.putting put) (L.taking take))) }
{
    let none = Queue::of(VecDeque::new(alloc));
    let mut held = mem::replace(&mut queues[channel], none).into_tokens();
    link.close(put, take, &mut held);
    queues[channel] = Queue::of(held);
}

/// Closes all links, the last first. Each queue then holds the tokens between the counts of the machines at these
/// stations.
pub fn close_all<H: Host, L: Link, Z: Streams, E: Era>(
    alloc: Global,
    _hosts: &[H],
    _stations: &[Station],
    links: &mut Vec<L>,
    put_seats: &mut Vec<L::PutSeat>,
    take_seats: &mut Vec<L::TakeSeat>,
    queues: &mut Vec<Queue>,
)
    requires kept { Kept Z.flow E.start }
    requires owned { MayStand Z.flow E.start (machines_by (map H.machines _hosts.now) _stations.now) }
    requires standing { Linked L.takes_from L.puts_into L.taking L.putting Z.flow E.start
        (machines_by (map H.machines _hosts.now) _stations.now) links.old.items put_seats.old.items take_seats.old.items
        queues.old.items }
    ensures standing { Linked L.takes_from L.puts_into L.taking L.putting Z.flow E.start (machines_by (map H.machines _hosts.now) _stations.now) [] [] [] queues.new.items }
{
    while let Some(link) = links.pop() {
        let Some(put) = put_seats.pop() else {
            unreachable!()
        };
        let Some(take) = take_seats.pop() else {
            unreachable!()
        };
        close_one::<L>(alloc, link, put, take, links.len(), queues);
    }
}
