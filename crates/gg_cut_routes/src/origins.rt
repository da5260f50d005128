//! The origins of copies.
ghost use Rattle.std.specs.Prelude.{◌≡◌, ℕ, ◌<◌, None, length, IfOk, IfSome};
ghost use Rattle.gg_flat.specs.Order.{IsOrder};
ghost use Rattle.gg_flat.specs.WellFormed.{IsWellFormed};
ghost use Rattle.gg_order.specs.Marks.{is_marked};
ghost use Rattle.gg_cut_plan.specs.Direct.{Hub, bare_op, bare_line, bare_of, if_wide, copied};
ghost use Rattle.gg_cut_routes.specs.inside.Tables.{side_at, entry_at, AreKnown, origin_beyond, origin_by, IsSeen, AreOrigins};

use crate::sides::Side;
use gg_flat::{Driver, Node, Op, Piece};
use std::alloc::{AllocError, Global};

// The origin of each signal that is an in-channel of the hub or a copy of one. `sides` has what each signal is to the hub, and
// `barred` marks the signals that are no origins.
//
// # Errors
//
// Returns `AllocError` if an allocation fails.
pub(crate) fn origins_of(
    alloc: Global,
    piece: &Piece,
    order: &[u32],
    sides: &[Side],
    barred: &[bool],
) -> Result<Vec<Option<u32>>, AllocError>
    requires formed { IsWellFormed piece.now }
    requires ordered { IsOrder piece.now order.now }
    requires sides { length sides.now ≡ length piece.now.signals }
    requires barred { length barred.now ≡ length piece.now.signals }
    ensures count { IfOk result (λ origins. length origins.items ≡ length piece.now.signals) }
    ensures known { IfOk result (λ origins. AreKnown (length piece.now.signals) origins.items) }
    ensures origins { IfOk result (λ origins. (hub : Hub) → IsSeen hub piece.now sides.now barred.now → AreOrigins hub origins.items) }
{
    let mut origins = nones(alloc, piece.signal_count())?;
    fill_origins(piece, order, sides, barred, &mut origins);
    Ok(origins)
}

// A list with `count` times none.
//
// # Errors
//
// Returns `AllocError` if an allocation fails.
pub(crate) fn nones(alloc: Global, count: usize) -> Result<Vec<Option<u32>>, AllocError>
    ensures count { IfOk result (λ nones. length nones.items ≡ count) }
    ensures none { IfOk result (λ nones. (s : ℕ) → entry_at nones.items s ≡ None) }
{
    let mut nones = Vec::new(alloc);
    for _ in 0..count {
        nones.push(None)?;
    }
    Ok(nones)
}

// Gives each signal its origin, along the order. At first no signal has one.
fn fill_origins(
    piece: &Piece,
    order: &[u32],
    sides: &[Side],
    barred: &[bool],
    origins: &mut Vec<Option<u32>>,
)
    requires formed { IsWellFormed piece.now }
    requires ordered { IsOrder piece.now order.now }
    requires sides { length sides.now ≡ length piece.now.signals }
    requires barred { length barred.now ≡ length piece.now.signals }
    requires count { length origins.old.items ≡ length piece.now.signals }
    requires none { (s : ℕ) → entry_at origins.old.items s ≡ None }
    ensures count { length origins.new.items ≡ length origins.old.items }
    ensures known { AreKnown (length piece.now.signals) origins.new.items }
    ensures origins { (hub : Hub) → IsSeen hub piece.now sides.now barred.now → AreOrigins hub origins.new.items }
{
    for place in 0..order.len() {
        let signal = order[place];
        let origin = origin_of(piece, sides, barred, origins, signal);
        origins[signal as usize] = origin;
    }
}

// The origin of a signal, from the origins of the signals before it.
fn origin_of(
    piece: &Piece,
    sides: &[Side],
    barred: &[bool],
    origins: &Vec<Option<u32>>,
    signal: u32,
) -> Option<u32>
    requires formed { IsWellFormed piece.now }
    requires known { signal < length piece.now.signals }
    requires sides { length sides.now ≡ length piece.now.signals }
    requires barred { length barred.now ≡ length piece.now.signals }
    requires count { length origins.now.items ≡ length piece.now.signals }
    ensures { result ≡ origin_by (side_at sides.now signal) (is_marked barred.now signal) signal (origin_beyond piece.now origins.now.items signal) }
{
    match sides[signal as usize] {
        Side::In(_) => {
            if barred[signal as usize] {
                None
            } else {
                Some(signal)
            }
        }
        Side::Own => origin_beyond(piece, origins, signal),
        Side::Out | Side::Other => None,
    }
}

// The origin of what a signal is a copy of.
pub(crate) fn origin_beyond(piece: &Piece, origins: &[Option<u32>], signal: u32) -> Option<u32>
    requires formed { IsWellFormed piece.now }
    requires known { signal < length piece.now.signals }
    requires count { length origins.now ≡ length piece.now.signals }
    ensures { result ≡ origin_beyond piece.now origins.now signal }
{
    match copied(piece, signal) {
        Some(next) => origins[next as usize],
        None => None,
    }
}

// The signal that a signal is a copy of, by the signal's driver and by their widths.
fn copied(piece: &Piece, signal: u32) -> Option<u32>
    requires formed { IsWellFormed piece.now }
    requires known { signal < length piece.now.signals }
    ensures copied { result ≡ copied piece.now signal }
    ensures known { IfSome result (λ next. next < length piece.now.signals) }
{
    match bare_of(&piece.signals()[signal as usize].driver) {
        Some(next) => if_wide(piece, signal, next),
        None => None,
    }
}

// A signal, if it is as wide as the signal that refers to it.
fn if_wide(piece: &Piece, signal: u32, next: u32) -> Option<u32>
    requires signal { signal < length piece.now.signals }
    requires next { next < length piece.now.signals }
    ensures wide { result ≡ if_wide piece.now signal (Some next) }
    ensures known { IfSome result (λ found. found < length piece.now.signals) }
{
    let signals = piece.signals();
    if signals[next as usize].ty.width == signals[signal as usize].ty.width {
        Some(next)
    } else {
        None
    }
}

// The signal that a driver refers to, if the driver is a bare reference.
fn bare_of(driver: &Driver) -> Option<u32>
    ensures { result ≡ bare_of driver.now }
{
    match driver {
        Driver::Computed(line) => bare_line(line.as_slice()),
        Driver::Input(_)
        | Driver::Held(_)
        | Driver::MemoryWord(_, _, _, _)
        | Driver::ReadRegister(_, _) => None,
    }
}

// The signal that a line refers to, if the line is a bare reference.
fn bare_line(line: &[Node]) -> Option<u32>
    ensures { result ≡ bare_line line.now }
{
    match line {
        [node] => bare_op(node.op),
        _ => None,
    }
}

// The signal that a node refers to.
fn bare_op(op: Op) -> Option<u32>
    ensures { result ≡ bare_op op }
{
    match op {
        Op::Ref(signal) => Some(signal),
        Op::Literal(_)
        | Op::One(_, _)
        | Op::Two(_, _, _)
        | Op::Fix(_, _, _, _)
        | Op::Mux(_, _, _) => None,
    }
}
