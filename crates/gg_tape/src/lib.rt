//! Tapes: the lines of a flat circuit as one list of instructions, in an order of evaluation.
//!
//! A line is a list of nodes, and each line has its list for itself. A [`Tape`] is made of a circuit once. It has the
//! operations of all lines one after another, first those of the signals, in their order, and then those of the
//! registers, and a table of the literals. A cycle therefore reads memory forward. Nothing is left out, folded or
//! shared: each operation of each line is done, and a reference is read where it is used. The crate promises:
//!
//! - `Tape::of` returns the tape of a well-formed circuit and a list of its signals (`IsTape`);
//! - `Tape::value` returns the value of a signal's driver (gg_flat's `driver_value`), and `Tape::settle` makes the
//!   settled values of a cycle (gg_flat's `Settled`);
//! - `Tape::advance` makes the next state of such a cycle (gg_flat's `next_state`).
//!
//! [`Cells`] are the values of the signals, followed by scratch space. Only `Tape::of`, `Tape::whole`, `Cells::of` and
//! `Cells::new` allocate.
#![tactic(auto)]

mod apply;
mod cells;
mod code;
mod instruction;
mod registers;
mod run;
mod small;
mod tape;
mod taped;
mod tell;
mod types;

pub use cells::Cells;
pub use tape::Tape;
