//! The reference simulator: evaluates a flat circuit cycle by cycle, along an order of evaluation.
//!
//! `Mono::cycle` makes one cycle: a base tick, where each clock has an edge if its ratio has one there. The values of
//! the signals are settled in the simulator's state. The outputs are taken from these values, and the state afterwards
//! is the next state by them and by the edges. It allocates nothing. No other outputs and no other next state make such
//! a cycle, since a design's circuit has an order. Therefore n cycles from a start, whether the opening or another, are
//! the circuit's one run from it (`run_begins`, `run_continues`).
//!
//! `is_well_formed` returns true exactly if a flat circuit is well formed (gg_flat's `IsWellFormed`). It doesn't
//! allocate.
#![tactic(auto)]

mod check;
mod check_clocks;
mod check_memory;
mod laws;
mod mono;

pub use check::is_well_formed;
pub use laws::{run_begins, run_continues};
pub use mono::{Mono, NoMemory};
