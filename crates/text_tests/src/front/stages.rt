//! Circuits as texts through the calls inside `front`, one after another up to the first that refuses. This shows that
//! `gg_shape::shape` and `gg_types::types` accept a circuit, and name a fault: `front` calls `shaped` and `typed` in
//! their place, and a body that answers `NoMemory` always meets their contracts.
ghost use Rattle.gg_flat.specs.WellFormed.{IsWellFormed};
ghost use Rattle.gg_shape.specs.Judged.{IsShaped};

use super::calls::Row;
use super::circuits::{COUNTER, LOOP, PAIR, STORE};
use super::sources::Source::{Chain, Edited};
use gg_ast::Circuit;
use gg_elab::flatten;
use gg_flat::Piece;
use gg_order::{OrderFault, order};
use gg_shape::shape;
use gg_types::Typed;
use gg_types_rules::types;
use std::alloc::{AllocError, Global};

// Adds the answers of the calls on a circuit that was read: `shape` and the calls after it.
pub(crate) fn tell_shape(
    out: &mut String,
    alloc: Global,
    circuit: &Circuit,
) -> Result<(), AllocError> {
    match shape(alloc, circuit) {
        Ok(()) => tell_types(out, alloc, circuit),
        Err(fault) => write!(out, "shape: {fault}"),
    }
}

// Adds the answers of `types` and the calls after it.
fn tell_types(out: &mut String, alloc: Global, circuit: &Circuit) -> Result<(), AllocError>
    requires { IsShaped circuit.now }
{
    match types(alloc, circuit) {
        Ok(typed) => tell_flat(out, alloc, &typed),
        Err(fault) => write!(out, "types: {fault}"),
    }
}

// Adds the answers of `flatten` and the calls after it.
fn tell_flat(out: &mut String, alloc: Global, typed: &Typed) -> Result<(), AllocError> {
    match flatten(alloc, typed) {
        Ok((piece, _)) => tell_order(out, alloc, &piece),
        Err(fault) => write!(out, "flatten: {fault}"),
    }
}

// Adds the answer of `order`: the numbers of signals of the flat circuit and of its order, or the paths of a loop.
fn tell_order(out: &mut String, alloc: Global, piece: &Piece) -> Result<(), AllocError>
    requires { IsWellFormed piece.now }
{
    let signals = piece.signal_count();
    match order(alloc, piece) {
        Ok(found) => write!(out, "{signals} signals {} in order", found.as_slice().len()),
        Err(OrderFault::Loop(found)) => put_paths(out, piece, found.as_slice()),
        Err(OrderFault::NoMemory) => out.push_str("order: out of memory"),
    }
}

// Adds the paths of a loop.
fn put_paths(out: &mut String, piece: &Piece, signals: &[u32]) -> Result<(), AllocError> {
    out.push_str("loop:")?;
    for signal in signals {
        match piece.path(*signal) {
            Some(path) => write!(out, " {path}")?,
            None => out.push_str(" no signal")?,
        }
    }
    Ok(())
}

// Circuits with a line changed, and a chain that is too deep. Signals are counted by hand: of `STORE` three ports of
// the top without its clock's, three of `Store`, three fields of the reader and four of the writer without `clk`.
pub(crate) static STAGES: [Row; 14] = [
    (Edited(COUNTER, 0, ""), "4 signals 4 in order"),
    (Edited(STORE, 0, ""), "13 signals 13 in order"),
    (
        Edited(COUNTER, 10, "out <= c\nstop(clock, reset, 1)"),
        "5 signals 5 in order",
    ),
    (Edited(COUNTER, 9, "node n add(c, c)"), "syntax line 9"),
    (Edited(COUNTER, 10, "skip"), "shape: F5 line 5 out"),
    (
        Edited(STORE, 28, "inst s of Stor"),
        "shape: F3 line 28 Stor",
    ),
    (Edited(STORE, 9, "depth => 0"), "shape: F8 line 7 depth"),
    (Edited(COUNTER, 11, "c <= n"), "types: F13 line 11 9 8"),
    (Edited(STORE, 30, "s.at <= v"), "types: F13 line 30 8 2"),
    (
        Edited(COUNTER, 10, "out <= c\nstop(clock, c, 1)"),
        "types: F9 line 11 stop",
    ),
    (
        Edited(STORE, 9, "depth => 65537"),
        "flatten: F15 memory 65537",
    ),
    (Chain(33, 1, ""), "flatten: F15 depth 33"),
    (
        Edited(LOOP, 0, ""),
        "loop: c.a p.e p.b c.d c.m.r.data c.m.r.addr",
    ),
    (Edited(PAIR, 23, "a.k <= a.q"), "loop: a.k a.q"),
];
