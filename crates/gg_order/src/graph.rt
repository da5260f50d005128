//! A flat circuit as a directed graph: from each signal an edge leads to each signal that it reads.
ghost use Rattle.std.specs.Prelude.{◌≡◌, ℕ, ◌<◌, ◌⊎◌, length, take, IfSome, IfNone};
ghost use Rattle.gg_flat.specs.Reads.{Names, NamesSignal};
ghost use Rattle.gg_order.specs.inside.Places.{NamesBelow};

use gg_flat::{Driver, Node, Op, Piece};
use gg_graph::{Graph, Target};
use std::marker::Model;

// The dependencies of a well-formed circuit's signals. A contract sees the circuit.
#[derive(Drop)]
pub(crate) struct Dependencies<'a> {
    pub(crate) piece: &'a Piece,
}

impl<'a> Model for Dependencies<'a> {
    ghost use Rattle.gg_flat.specs.Circuit.{FlatCircuit};
    ghost use Rattle.gg_flat.specs.WellFormed.{IsWellFormed};

    ghost Value = { FlatCircuit };

    ghost view = { λ graph. graph.piece.now };

    ghost invariant = { λ graph. IsWellFormed graph.piece.now };
}

impl<'a> Graph for Dependencies<'a> {
    ghost use Rattle.std.specs.Prelude.{length};
    ghost use Rattle.gg_flat.specs.Reads.{Reads};
    ghost use Rattle.gg_order.specs.inside.Places.{ReadsBelow, none_below_first};

    ghost nodes = { λ graph. length graph.signals };

    ghost edge = { λ graph. Reads graph };

    ghost edge_below = { λ graph. ReadsBelow graph };

    ghost none_below_first = { λ graph. none_below_first graph };

    fn node_count(&self) -> u32 {
        self.piece.signal_count() as u32
    }

    fn target(&self, node: u32, place: usize) -> Option<Target> {
        next_named(&self.piece.signals()[node as usize].driver, place)
    }
}

// The first signal that a driver names at this place or later.
fn next_named(driver: &Driver, place: usize) -> Option<Target>
    ensures named { IfSome result (λ found. NamesSignal driver.now found.node) }
    ensures onward { IfSome result (λ found. place < found.next) }
    ensures first { IfSome result (λ found. (t : ℕ) → NamesBelow driver.now found.next t → NamesBelow driver.now place t ⊎ (t ≡ found.node)) }
    ensures none { IfNone result ((t : ℕ) → NamesSignal driver.now t → NamesBelow driver.now place t) }
{
    match driver {
        Driver::Computed(line) => next_reference(line.as_slice(), place),
        Driver::MemoryWord(_, _, addr, en) => next_field(*addr, *en, place),
        Driver::Input(_) | Driver::Held(_) | Driver::ReadRegister(_, _) => None,
    }
}

// The first of an address and an enable at this place or later.
fn next_field(addr: u32, en: u32, place: usize) -> Option<Target>
    ensures named { IfSome result (λ found. (addr ≡ found.node) ⊎ (en ≡ found.node)) }
    ensures onward { IfSome result (λ found. place < found.next) }
    ensures first { IfSome result (λ found. (t : ℕ) → ((0 < found.next) × (addr ≡ t)) ⊎ ((1 < found.next) × (en ≡ t)) → (((0 < place) × (addr ≡ t)) ⊎ ((1 < place) × (en ≡ t))) ⊎ (t ≡ found.node)) }
    ensures none { IfNone result ((t : ℕ) → (addr ≡ t) ⊎ (en ≡ t) → ((0 < place) × (addr ≡ t)) ⊎ ((1 < place) × (en ≡ t))) }
{
    match place {
        0 => Some(Target {
            node: addr,
            next: 1,
        }),
        1 => Some(Target { node: en, next: 2 }),
        _ => None,
    }
}

// The first signal that a node refers to at this place or later.
fn next_reference(nodes: &[Node], place: usize) -> Option<Target>
    ensures named { IfSome result (λ found. Names nodes.now found.node) }
    ensures onward { IfSome result (λ found. place < found.next) }
    ensures first { IfSome result (λ found. (t : ℕ) → Names (take found.next nodes.now) t → Names (take place nodes.now) t ⊎ (t ≡ found.node)) }
    ensures none { IfNone result ((t : ℕ) → Names nodes.now t → Names (take place nodes.now) t) }
{
    for i in place..nodes.len() {
        if let Op::Ref(signal) = nodes[i].op {
            return Some(Target {
                node: signal,
                next: i + 1,
            });
        }
    }
    None
}
