//! What each signal is to the hub.
ghost use Rattle.std.specs.Prelude.{◌≡◌, ℕ, ◌<◌, ◌==◌, List, if◌then◌else◌, length, filter, replicate, All, IfOk};
ghost use Rattle.std.specs.List.{list_any};
ghost use Rattle.gg_cut_routes.specs.declared.sides.Side.TheVariants.{Other, Own};
ghost use Rattle.gg_cut_routes.specs.inside.Tables.{side_at, side_by, is_makers, AreSides};

use crate::lists::push_if;
use gg_cut_plan::Wire;
use std::alloc::{AllocError, Global};

// What a signal is to the hub.
#[derive(Clone, Copy, PartialEq, Eq)]
pub(crate) enum Side {
    // The hub doesn't have it.
    Other,
    // The hub makes it, and no channel carries it.
    Own,
    // The hub gives it on a channel.
    Out,
    // The hub takes it from this machine.
    In(u32),
}

// What each signal is to the hub, by the channels and the signals that the hub has.
//
// # Errors
//
// Returns `AllocError` if an allocation fails.
pub(crate) fn routed_sides(
    alloc: Global,
    count: usize,
    wires: &[Wire],
    globals: &[u32],
) -> Result<Vec<Side>, AllocError>
    requires wires { All (λ w. w.signal < count) wires.now }
    requires globals { All (λ s. s < count) globals.now }
    ensures count { IfOk result (λ sides. length sides.items ≡ count) }
    ensures sides { IfOk result (λ sides. AreSides wires.now globals.now sides.items) }
{
    let mut sides = others(alloc, count)?;
    put_globals(globals, &mut sides);
    put_wires(wires, &mut sides);
    Ok(sides)
}

// A list with `count` times `Other`.
fn others(alloc: Global, count: usize) -> Result<Vec<Side>, AllocError>
    ensures { IfOk result (λ sides. sides.items ≡ replicate count Other) }
{
    let mut sides = Vec::new(alloc);
    for _ in 0..count {
        sides.push(Side::Other)?;
    }
    Ok(sides)
}

// Makes these signals the hub's own. At first none is.
fn put_globals(globals: &[u32], sides: &mut Vec<Side>)
    requires known { All (λ s. s < length sides.old.items) globals.now }
    requires none { (s : ℕ) → side_at sides.old.items s ≡ Other }
    ensures count { length sides.new.items ≡ length sides.old.items }
    ensures sides { (s : ℕ) → side_at sides.new.items s ≡ (if list_any (λ t. s == t) globals.now then Own else Other) }
{
    for signal in globals {
        sides[*signal as usize] = Side::Own;
    }
}

// Sets what the signals of these channels are to the hub.
fn put_wires(wires: &[Wire], sides: &mut Vec<Side>)
    requires known { All (λ w. w.signal < length sides.old.items) wires.now }
    ensures count { length sides.new.items ≡ length sides.old.items }
    ensures sides { (globals : List ℕ) → ((s : ℕ) → side_at sides.old.items s ≡ (if list_any (λ t. s == t) globals then Own else Other)) → AreSides wires.now globals sides.new.items }
{
    for place in 0..wires.len() {
        let wire = wires[place];
        let side = side_of(&wire, sides[wire.signal as usize]);
        sides[wire.signal as usize] = side;
    }
}

// What a signal is by a channel that carries it.
fn side_of(wire: &Wire, before: Side) -> Side
    ensures { result ≡ side_by wire.now before }
{
    if wire.consumer == 0 {
        Side::In(wire.producer)
    } else if wire.producer == 0 {
        Side::Out
    } else {
        before
    }
}

// The signals that the hub makes, among these that it has.
//
// # Errors
//
// Returns `AllocError` if an allocation fails.
pub(crate) fn made_of(
    alloc: Global,
    sides: &[Side],
    globals: &[u32],
) -> Result<Vec<u32>, AllocError>
    requires { All (λ s. s < length sides.now) globals.now }
    ensures { IfOk result (λ made. made.items ≡ filter (λ s. is_makers (side_at sides.now s)) globals.now) }
{
    let mut made = Vec::new(alloc);
    for signal in globals {
        push_if(&mut made, *signal, is_makers(sides[*signal as usize]))?;
    }
    Ok(made)
}

// Whether the hub makes a signal of this side.
fn is_makers(side: Side) -> bool
    ensures { result ≡ is_makers side }
{
    match side {
        Side::Own | Side::Out => true,
        Side::Other | Side::In(_) => false,
    }
}
