//! `needs_of`: the in-signals that each out-signal of a piece needs.
ghost use Rattle.std.specs.Prelude.{◌≡◌, ℕ, ◌<◌, ◌≤◌, length, IfOk, OnOk};
ghost use Rattle.gg_flat.specs.declared.piece.Driver.TheVariants.{Input};
ghost use Rattle.gg_flat.specs.Circuit.{driver_at};
ghost use Rattle.gg_flat.specs.WellFormed.{IsWellFormed};
ghost use Rattle.gg_flat.specs.InOrder.{IsInOrder};
ghost use Rattle.gg_order.specs.needs.Needs.{AreNeedsOfOuts};
ghost use Rattle.gg_order.specs.inside.Walk.{AreMarkedIns};
ghost use Rattle.gg_order.specs.inside.NeedsMarks.{marks_of, any_marks};
ghost use Rattle.gg_order.specs.inside.Groups.{AreNeedsSoFar};

use crate::needs::groups::group_from;
use crate::needs::marks::has_mark;
use crate::needs::walk::reached;
use gg_bits::Ids;
use gg_flat::{Driver, Piece};
use std::alloc::{AllocError, Global};

/// For each out-signal, in port order, the places of exactly the in-signals that it needs, ascending.
///
/// The piece is well formed, and each signal reads only earlier signals.
///
/// # Errors
///
/// Returns `AllocError` if an allocation fails.
pub fn needs_of(alloc: Global, piece: &Piece) -> Result<Vec<Ids>, AllocError>
    requires formed { IsWellFormed piece.now }
    requires ordered { IsInOrder piece.now }
    ensures { IfOk result (λ needs. AreNeedsOfOuts piece.now needs.items) }
{
    let mut needs = Vec::new(alloc);
    while needs.len() < piece.outs().len() {
        add_group(alloc, piece, &mut needs)?;
    }
    Ok(needs)
}

// Adds the needs of the out-signals of the next group.
fn add_group(alloc: Global, piece: &Piece, needs: &mut Vec<Ids>) -> Result<(), AllocError>
    requires formed { IsWellFormed piece.now }
    requires ordered { IsInOrder piece.now }
    requires some { length needs.old.items < length piece.now.outs }
    requires so_far { AreNeedsSoFar piece.now needs.old.items }
    ensures more { OnOk result (length needs.old.items < length needs.new.items) }
    ensures so_far { OnOk result (AreNeedsSoFar piece.now needs.new.items) }
{
    let first = needs.len();
    let group = group_from(piece.outs(), first);
    let marks = reached(alloc, piece, group)?;
    let touched = touched_ins(alloc, piece, &marks)?;
    for place in 0..group.len() {
        let own = marked_ins(alloc, piece, &marks, &touched, place)?;
        needs.push(own)?;
    }
    Ok(())
}

// The places of the in-signals with a mark.
fn touched_ins(alloc: Global, piece: &Piece, marks: &[u128]) -> Result<Vec<u32>, AllocError>
    requires formed { IsWellFormed piece.now }
    requires count { length marks.now ≡ length piece.now.signals }
    ensures { IfOk result (λ touched. AreMarkedIns piece.now (any_marks marks.now) (length piece.now.ins) touched.items) }
{
    let mut touched = Vec::new(alloc);
    for signal in piece.ins() {
        if marks[*signal as usize] > 0 {
            touched.push(place_of(piece, *signal))?;
        }
    }
    Ok(touched)
}

// The places of the in-signals with the mark of the out-signal at this place of its group, among those with a mark.
fn marked_ins(
    alloc: Global,
    piece: &Piece,
    marks: &[u128],
    touched: &[u32],
    place: usize,
) -> Result<Ids, AllocError>
    requires formed { IsWellFormed piece.now }
    requires count { length marks.now ≡ length piece.now.signals }
    requires touched { AreMarkedIns piece.now (any_marks marks.now) (length piece.now.ins) touched.now }
    requires known { place < 128 }
    ensures { IfOk result (λ ins. AreMarkedIns piece.now (marks_of place marks.now) (length piece.now.ins) ins) }
{
    let mut ins = Vec::new(alloc);
    for each in touched {
        let signal = piece.ins()[*each as usize];
        if has_mark(marks[signal as usize], place) {
            ins.push(*each)?;
        }
    }
    Ok(Ids::from(ins))
}

// The place of an in-signal, which is in its driver.
fn place_of(piece: &Piece, signal: u32) -> u32
    requires { signal < length piece.now.signals }
    ensures { (place : ℕ) → driver_at piece.now signal ≡ Input place → result ≡ place }
{
    match &piece.signals()[signal as usize].driver {
        Driver::Input(place) => *place,
        _ => 0,
    }
}
