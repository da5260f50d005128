//! Machines and their hosts: what a host has to do at each step.
//!
//! A machine is a part of a circuit that runs separately. In each cycle it takes a token for each in and gives a token
//! for each out, as soon as the ins that the out needs have their tokens. Then it finishes the cycle. The definitions
//! in `specs/` say what a machine is, which value is the token of an out, which state is the next, when each step may
//! be done, and how it changes the machine. A [`Host`] holds the machines of its threads. Each call changes one of them
//! as the definitions say, and no other. The crate promises:
//!
//! - [`Source`] is a machine that gives the values of a column, one in each cycle, at each of its outs;
//! - [`Tray`] is a machine that keeps the last values that it gets, one in each cycle, and returns them by their
//!   cycles;
//! - [`empty_latches`], [`clear_flags`], [`first_empty`] and [`clean`] are what hosts need for latches and flags.
//!
//! Only `Source::forked`, `Tray::new`, `from_cycle` of both, `empty_latches` and `clear_flags` allocate.
#![tactic(auto)]

mod host;
mod latches;
mod source;
mod tray;

pub use host::Host;
pub use latches::{clean, clear_flags, empty_latches, first_empty};
pub use source::Source;
pub use tray::Tray;
