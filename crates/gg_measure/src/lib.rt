//! The measure of a network, a step that may be done, and the ways from one network to another.
//!
//! The crate promises, of all networks with gg_net's invariant `Kept`:
//!
//! - counts are allowed and have begun, in gg_net's sense for layouts that can run ([`nets_are_allowed`]);
//! - from a network before its first cycle steps lead to a network with given counts exactly if the counts are allowed
//!   and have begun, and it is the one network with these counts ([`reached_exactly`], [`made_by_counts`]);
//! - from any network steps lead to each network with counts that are nowhere lower ([`steps_up`]);
//! - the same steps in two orders lead to one network ([`one_end`]);
//! - a step lowers the measure by one, and a list of steps can be lengthened exactly if it has fewer steps than the measure at its start
//!   ([`steps_fall`]); the measure is 0 exactly if all machines are at the end ([`none_left`]);
//! - a list of steps that can't be lengthened ends with all machines at the end, each queue as long as it opened, and
//!   the last values of its channel in each tray ([`steps_end_so`]);
//! - [`left`] returns the measure, and [`possible`] a step that may be done, as long as there is one;
//! - [`run_to`] brings all machines to a cycle by steps of machines below it, and no count further. [`run_to_end`] brings them to the end. [`run_by`]
//!   does the same as calls of `run_to` for one cycle after another, by an [`Order`] of the steps of a cycle. [`run_noted`] goes by an order that
//!   [`note_cycle`] has noted.
//!
//! Only [`Order::new`] allocates: room for the steps of a cycle.
#![tactic(auto)]

mod laws;
mod order;
mod pass;
mod run;
mod tells;
mod try_event;
mod turn;

pub use laws::{
    made_by_counts, nets_are_allowed, none_left, one_end, reached_exactly, steps_end_so,
    steps_fall, steps_up,
};
pub use order::Order;
pub use run::{note_cycle, run_by, run_noted, run_to, run_to_end};
pub use tells::{left, possible};
