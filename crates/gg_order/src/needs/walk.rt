//! The signals that the out-signals of a group reach: one pass over the signals, from the last to the first.
ghost use Rattle.std.specs.Prelude.{◌≡◌, ℕ, ◌<◌, ◌≤◌, length, replicate, IfOk, All};
ghost use Rattle.gg_flat.specs.WellFormed.{IsWellFormed};
ghost use Rattle.gg_flat.specs.InOrder.{IsInOrder};
ghost use Rattle.gg_order.specs.inside.Walk.{AreOwn, AreReached, HandsOn};

use crate::needs::marks::{add_driver, add_mark, one_mark};
use gg_flat::Piece;
use std::alloc::{AllocError, Global};

// For each signal, the set of those out-signals of a group that reach it.
pub(crate) fn reached(alloc: Global, piece: &Piece, group: &[u32]) -> Result<Vec<u128>, AllocError>
    requires formed { IsWellFormed piece.now }
    requires ordered { IsInOrder piece.now }
    requires known { All (λ s. s < length piece.now.signals) group.now }
    requires few { length group.now ≤ 128 }
    ensures { IfOk result (λ marks. AreReached piece.now group.now marks.items) }
{
    let mut marks = no_marks(alloc, piece.signals().len())?;
    mark_reached(&mut marks, piece, group);
    Ok(marks)
}

// No mark on any signal.
fn no_marks(alloc: Global, count: usize) -> Result<Vec<u128>, AllocError>
    ensures { IfOk result (λ marks. marks.items ≡ replicate count 0) }
{
    vec![in alloc; 0; count]
}

// Marks the signals that the out-signals of a group reach. At first nothing is marked.
fn mark_reached(marks: &mut [u128], piece: &Piece, group: &[u32])
    requires formed { IsWellFormed piece.now }
    requires ordered { IsInOrder piece.now }
    requires known { All (λ s. s < length piece.now.signals) group.now }
    requires few { length group.now ≤ 128 }
    requires none { marks.old ≡ replicate (length piece.now.signals) 0 }
    ensures { AreReached piece.now group.now marks.new }
{
    mark_outs(marks, group);
    hand_down(marks, piece, group);
}

// Sets the own mark of each out-signal of a group.
fn mark_outs(marks: &mut [u128], group: &[u32])
    requires known { All (λ s. s < length marks.old) group.now }
    requires few { length group.now ≤ 128 }
    requires none { marks.old ≡ replicate (length marks.old) 0 }
    ensures { AreOwn group.now (length marks.old) (length group.now) marks.new }
{
    for place in 0..group.len() {
        add_mark(marks, group[place], one_mark(place));
    }
}

// Passes the marks on, from the last signal to the first.
fn hand_down(marks: &mut [u128], piece: &Piece, _group: &[u32])
    requires formed { IsWellFormed piece.now }
    requires ordered { IsInOrder piece.now }
    requires known { All (λ s. s < length piece.now.signals) _group.now }
    requires own { AreOwn _group.now (length piece.now.signals) (length _group.now) marks.old }
    ensures { AreReached piece.now _group.now marks.new }
{
    let count = piece.signals().len();
    for done in 0..count {
        hand_on(marks, piece, count - 1 - done);
    }
}

// Passes a signal's marks on to the signals that it reads.
fn hand_on(marks: &mut [u128], piece: &Piece, signal: usize)
    requires formed { IsWellFormed piece.now }
    requires known { signal < length piece.now.signals }
    requires count { length marks.old ≡ length piece.now.signals }
    ensures { HandsOn piece.now signal marks.old marks.new }
{
    let own = marks[signal];
    if own != 0 {
        add_driver(marks, &piece.signals()[signal].driver, own);
    }
}
