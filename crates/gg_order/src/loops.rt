//! A loop as it is reported: it begins with the signal that has the least path.
ghost use Rattle.std.specs.Prelude.{◌≡◌, ℕ, ◌<◌, length, MatchBool};
ghost use Rattle.gg_flat.specs.Circuit.{FlatCircuit};
ghost use Rattle.gg_flat.specs.Line.{value_at};
ghost use Rattle.gg_flat.specs.Reads.{Reads};
ghost use Rattle.gg_flat_tree.specs.Tree.{path_at};
ghost use Rattle.gg_flat.specs.WellFormed.{IsWellFormed};
ghost use Rattle.gg_graph.specs.Graph.{IsRing};
ghost use Rattle.gg_order.specs.Loop.{IsBefore, IsToldLoop};

use gg_bits::{Ids, Name};
use gg_flat::Piece;

// The loop of a ring of signals, turned so that it begins with the signal that has the least path.
pub(crate) fn told(piece: &Piece, ring: Vec<u32>) -> Ids
    requires formed { IsWellFormed piece.now }
    requires ring { IsRing (Reads piece.now) (length piece.now.signals) ring.items }
    ensures { IsToldLoop piece.now result }
{
    let mut ring = ring;
    let first = least_place(piece, ring.as_slice());
    ring.rotate_left(first);
    Ids::from(ring)
}

// The place of the signal that has the least path.
fn least_place(piece: &Piece, signals: &[u32]) -> usize
    requires formed { IsWellFormed piece.now }
    requires known { (i : ℕ) → i < length signals.now → value_at signals.now i < length piece.now.signals }
    requires some { 0 < length signals.now }
    ensures within { result < length signals.now }
    ensures least { (i : ℕ) → i < length signals.now → ¬ IsBefore (path_at piece.now.paths (value_at signals.now i)) (path_at piece.now.paths (value_at signals.now result)) }
{
    let mut least = 0;
    for i in 1..signals.len() {
        if is_before(piece, signals[i], signals[least]) {
            least = i;
        }
    }
    least
}

// Whether a signal's path comes before another's.
fn is_before(piece: &Piece, signal: u32, other: u32) -> bool
    requires formed { IsWellFormed piece.now }
    requires signal { signal < length piece.now.signals }
    requires other { other < length piece.now.signals }
    ensures { MatchBool result (IsBefore (path_at piece.now.paths signal) (path_at piece.now.paths other)) (¬ IsBefore (path_at piece.now.paths signal) (path_at piece.now.paths other)) }
{
    path_of(piece, signal).cmp(path_of(piece, other)).is_lt()
}

// The path of a signal.
fn path_of<'a>(piece: &'a Piece, signal: u32) -> &'a Name
    requires formed { IsWellFormed piece.now }
    requires signal { signal < length piece.now.signals }
    ensures { result.now ≡ path_at piece.now.paths signal }
{
    match piece.path(signal) {
        Some(path) => path,
        None => unreachable!(),
    }
}
