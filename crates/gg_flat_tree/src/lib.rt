//! The instances of a flat circuit, as a tree.
//!
//! `Tree` keeps the instances of a flat circuit, its stops, and the names that have no signal there. It also keeps
//! clocks: the Clock input of its instance that each register, port of a memory and stop follows, and the Clock input
//! of the parent that each Clock input of an instance follows. `IsTree` defines when it is the tree of a circuit,
//! `IsScoped` when the circuit keeps to its scopes, and `IsClocked` when the circuit has the clocks of the tree. The
//! code that fills a `Tree` must prove these. `Tree::top_clocks` returns the clock of the circuit that each Clock input
//! follows. `Tree::copy` returns an equal tree.
#![tactic(auto)]

mod tree;
mod tree_clocks;

pub use tree::{ClockNumbers, Instance, InstancePort, MemoryInstance, StopInstance, Tree};
pub use tree_clocks::{clock_at, clocks_at};
