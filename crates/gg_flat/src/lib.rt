//! Flat circuits: their definition, and what they do.
//!
//! A flat circuit has signals, each with a path, a type and one driver. It has registers, memories, the signals that it
//! gets from outside (in-signals) and the signals that it gives to the outside (out-signals). The definitions of
//! `specs/` say when it is well formed, which signals read which, which values of all signals are settled in a cycle,
//! the state after a cycle, and what a run is. They use no order of evaluation. gg_refsim checks whether a circuit is
//! well formed, gg_order works out cycles and runs and has their laws, and gg_flat_tree has the trees of instances.
//!
//! A `Piece` is a flat circuit, built signal by signal; `Piece::copy` returns an equal one. `in_ports` and `out_ports`
//! return its ports. gg_tape works out the values of lines.
//!
//! A `Renames`, such as `Lists`, maps signals, registers and memories to other numbers. `renamed_driver`,
//! `renamed_register` and `renamed_memory` return a driver, a register and a memory under these numbers
//! (`specs/Renaming`).
#![tactic(auto)]

mod line;
mod memory;
mod piece;
mod ports;
mod renamed;
mod renames;
mod streams;

pub use line::{Line, Node, Op, op_of, type_of};
pub use memory::{Latency, Memory, Reader, Readers, UnderWrite, Writer, Writers, address_width};
pub use piece::{Driver, Piece, Register, Reset, Signal};
pub use ports::{Port, Ports};
pub use renamed::{
    renamed_driver, renamed_memory, renamed_reader, renamed_register, renamed_writer,
};
pub use renames::{Lists, Renames, number_at};
pub use streams::Streams;
