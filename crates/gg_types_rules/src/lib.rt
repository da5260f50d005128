//! The first fault of a circuit's types, by the definitions of gg_types.
//!
//! `types` returns Ok exactly if a circuit has no fault of F9 to F14, and otherwise the first such fault in the order of the
//! text. All modules are checked, whether the top reaches them or not. `typed` does the same for a namespace that was already
//! made. What they return is a gg_types `Typed`.
#![tactic(auto)]

mod circuit;
mod clocks;
mod expression;
mod fields;
mod inputs;
mod known;
mod lookup;
mod module;
mod places;
mod results;
mod statement;

pub use circuit::{TypeFault, typed, types};
