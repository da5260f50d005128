//! The ports of a memory: what they need, and the order of their service.
ghost use Rattle.std.specs.Prelude.{◌≡◌, ◌+◌, ◌<◌, ◌^◌, length, slice_get};
ghost use Rattle.gg_flat.specs.Memory.{LooksAmong};
ghost use Rattle.gg_node.specs.Machine.{first_empty};
ghost use Rattle.gg_node.specs.inside.Machine.{port_number};
ghost use Rattle.gg_memunit.specs.MemoryUnit.{needs_by, ports_by};
ghost use Rattle.gg_memunit.specs.inside.MemoryUnit.{count_by, number_by};

use gg_flat::{Latency, Reader, UnderWrite, Writer};
use gg_node::first_empty;

// The first in that the data of a reader needs and that has no token yet, if there is one.
pub(crate) fn first_missing(
    latches: &[Option<u128>],
    latency: Latency,
    reader: Reader,
) -> Option<u32>
    requires { LooksAmong (length latches.now) reader }
    ensures { result ≡ first_empty latches.now (needs_by latency reader) }
{
    match latency {
        Latency::Zero => first_empty(latches, &[reader.addr, reader.en]),
        Latency::One(_) => None,
    }
}

// The number of ports.
pub(crate) fn all(readers: &[Reader], writers: &[Writer]) -> u32
    requires { length readers.now + length writers.now < 2 ^ 32 }
    ensures { result ≡ length readers.now + length writers.now }
{
    (readers.len() + writers.len()) as u32
}

// The number of ports that are served in a cycle.
pub(crate) fn count(latency: Latency, readers: &[Reader], writers: &[Writer]) -> u32
    requires { length readers.now + length writers.now < 2 ^ 32 }
    ensures { result ≡ length (ports_by latency readers.now writers.now) }
{
    match latency {
        Latency::Zero => writers.len() as u32,
        Latency::One(_) => (readers.len() + writers.len()) as u32,
    }
}

#[tactic(auto, using(crate::proofs::PortLemmas::number_at, crate::proofs::PortLemmas::count_ports, crate::proofs::PortLemmas::none_past))]
// The number of the port that is due after `served` ports were served, if one is left.
pub(crate) fn due_after(
    latency: Latency,
    readers: &[Reader],
    writers: &[Writer],
    served: u32,
) -> Option<u32>
    requires { length readers.now + length writers.now < 2 ^ 32 }
    ensures { result ≡ port_number (slice_get (ports_by latency readers.now writers.now) served) }
{
    if served >= count(latency, readers, writers) {
        return None;
    }
    let (r, w) = (readers.len() as u32, writers.len() as u32);
    Some(number(latency, r, w, served))
}

// The number of the port at a place of the order, for a memory with this many readers and writers.
fn number(latency: Latency, readers: u32, writers: u32, place: u32) -> u32
    requires few { readers + writers < 2 ^ 32 }
    requires place { place < count_by latency readers writers }
    ensures { result ≡ number_by latency readers writers place }
{
    match latency {
        Latency::Zero => readers + place,
        Latency::One(UnderWrite::Old | UnderWrite::Undefined) => place,
        Latency::One(UnderWrite::New) => {
            if place < writers {
                readers + place
            } else {
                place - writers
            }
        }
    }
}
