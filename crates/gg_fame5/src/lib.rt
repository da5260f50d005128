//! Several equal units on one host: a program and one set of slots, and for each thread a machine of its own.
//!
//! A [`Shared`] runs the program of a piece for several threads. Each thread has a state, latches, flags and a cycle of
//! its own, and its own ratios of clocks. Its outs are chosen among the program's outs, some perhaps several times. The
//! slots hold one thread at a time. They are cleared when a token, a fire or a finish turns to another thread. A latch
//! of a thread that doesn't have the turn leaves them as they are. The crate promises:
//!
//! - each step of a thread changes its machine as the definitions of gg_node say, and leaves every other thread's
//!   machine as it was;
//! - `Shared::token_once` returns an out's token and counts the assignments that it evaluates. These and the
//!   assignments that have still to be evaluated afterwards (`unset_of`) are no more than had to be evaluated before,
//!   and exactly as many if the thread had the turn.
//!   What the out reaches is done then, and if it was done before, nothing is evaluated. `latch`, `token` and `fire`
//!   leave `unset_of` of their thread no higher.
//!
//! Only `with_clocks` and `from_state` allocate.
#![tactic(auto)]

mod lane;
mod opening;
mod shared;

pub use gg_program::NoMemory;
pub use shared::Shared;
