//! The elaboration: from a circuit to its flat circuit and the tree of its instances.
//!
//! The crate promises of `flatten`:
//!
//! - the flat circuit that it returns is the circuit's (`IsFlat`), and is well formed; each of its registers is held by
//!   exactly one signal;
//! - the tree that it returns is a tree of the flat circuit (`IsTree`), and the flat circuit keeps to the tree's scopes
//!   (`IsScoped`);
//! - it refuses a circuit exactly if a count is above its limit, with the first such count (`Tells` of gg_bits).
//!
//! A circuit without faults of types has a flat circuit (`each_has_flat`).
#![tactic(auto)]

mod build;
mod elaborate;
mod expression;
mod fault;
mod laws;
mod lines;
mod lookup;
mod ports;
mod scope;
mod site;

pub use elaborate::flatten;
pub use fault::{ElabFault, limit_of};
pub use laws::each_has_flat;
