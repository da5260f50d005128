//! The static faults of a circuit's shape: names, references, connections, rings of modules, memories' fields (FIRRTL
//! Specification, "Circuits and Modules", "Statements", "Namespaces", "Flows", "Instances", "Memories").
//!
//! `shape` returns Ok exactly if a circuit has no fault of F1 to F8, and otherwise one of the least number: for F1 to
//! F6 and F8 the first in the order of the text, for F7 any ring (`AnswersShape`). Modules that the top doesn't reach
//! are checked too. `shaped` also returns the namespace that it made, so that names are collected only once.
//!
//! A fault prints as its text: its code and its data. The faults F9 to F16, of higher crates, are declared here too.
//!
//! Time and memory are linear in the circuit.
#![tactic(auto)]

mod check;
mod connected;
mod connections;
mod fault;
mod memories;
mod references;
mod rings;
mod text;
mod unconnected;

pub use check::{ShapeFault, shape, shaped};
pub use fault::{CheckFault, Fault, Limit, MemoryKey, Word};
