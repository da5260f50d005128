//! Dataflow units: a piece of a cut circuit as a machine of its own.
//!
//! A [`Unit`] runs the program of a piece, including its memories. It gives the token of an out as soon as the ins that
//! the out needs have their tokens. When it finishes a cycle it empties its latches and clears its flags. It is a
//! [`Shared`] with one thread. The crate promises:
//!
//! - each step of a unit changes its machine as the definitions of gg_node say;
//! - `Unit::token_once` counts the assignments that it evaluates. Outs that depend on the same signal share its value of
//!   the cycle, so between two finishes no assignment is evaluated twice.
//!
//! Only `with_clocks` and `from_state` allocate.
#![tactic(auto)]

mod unit;

pub use gg_program::NoMemory;
pub use unit::Unit;
