//! Parts of a flat circuit.
//!
//! A part has some of the signals, registers and memories of a flat circuit, with numbers of its own (`IsPart` in
//! `specs/Part`). The signals that it gets from outside are its in-signals. The crate promises:
//!
//! - `part_of` builds the part for a choice (`IsChoice` in `specs/inside/Choice`). Its signals, in-signals, out-signals
//!   and memories are in the chosen order. It has clocks of its own. Each follows a clock of the circuit, if any, and
//!   the registers and ports of the part follow the part's clocks (`AreTimed` in `specs/inside/Clocking`);
//! - a part of a run is a run of the part, and each clock of the part has the ratio of the clock that it follows
//!   (`part_runs`);
//! - a part of a well-formed circuit is well formed (`part_formed`);
//! - if the part's signals are listed along an order of the whole circuit, their numbers are an order of the part
//!   (`part_in_order`);
//! - if all that a part has occurs in the circuit again under other numbers, the part is a part there too
//!   (`part_moves`, `StandsAgain`).
//!
//! What occurs again is the same except for its numbers (gg_flat's `Renaming`). The tree of instances has the places
//! where things occur again: a circuit keeps to its tree (`KeepsToTree`) if the tree is one of the circuit, the circuit
//! keeps to its scopes, and instances of one module are copies of each other (`HasCopies`).
//!
//! `part_of` takes time and memory for the signals, registers and memories of the whole circuit, and of the part.
#![tactic(auto)]

mod build;
mod frame;
mod laws;
mod moved;
mod numbers;
mod part;
mod rename;

pub use build::part_of;
pub use laws::{part_formed, part_in_order, part_runs};
pub use moved::part_moves;
pub use part::{Clocking, Part};
