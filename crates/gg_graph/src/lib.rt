//! A depth-first walk over a directed graph: an order of its nodes, or a ring.
//!
//! An order has each node once, after all its targets (`IsOrderOf`). A ring is a cycle of the graph: distinct nodes,
//! each with an edge to the next, the last to the first (`IsRing`). The crate promises, of each graph (`Graph`):
//!
//! - `walk` returns an order exactly if the graph has no ring, and otherwise one of its rings, or `NoMemory`;
//! - a graph that has an order has no ring (`no_ring`).
//!
//! A walk looks up each target of a node at most twice, so its time is linear in nodes and targets. It keeps its path
//! in a list, so a long chain of nodes needs no stack.
#![tactic(auto)]

mod descent;
mod fault;
mod nodes;
mod scan;
mod state;

pub use descent::walk;
pub use fault::WalkFault;
pub use nodes::{Graph, Target, no_ring};
