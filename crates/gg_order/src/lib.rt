//! Orders of evaluation of a flat circuit, and combinational loops.
//!
//! An order has every signal once, each after all that it reads (gg_flat's `IsOrder`). A combinational loop is a list
//! of distinct signals: each reads the next, and the last reads the first (gg_flat's `IsLoop`). For each well-formed
//! flat circuit the crate promises:
//!
//! - `order` returns an order exactly if the circuit has no combinational loop. Otherwise it returns such a loop,
//!   beginning with the signal that has the least path by bytes (`IsToldLoop`). It may return `NoMemory` instead;
//! - a circuit without a combinational loop has an order, and `found_order` is one (`orders_are_found`);
//! - a `Design` is a well-formed flat circuit, with a tree of instances and an order of it.
//!
//! The time that `order` takes is linear in the numbers of signals and nodes.
//!
//! `runs` has the states, the settled cycles and the runs of flat circuits, `needs` the in-signals that each out-signal
//! depends on.
#![tactic(auto)]

mod design;
mod fault;
mod graph;
mod laws;
mod loops;
mod needs;
mod ordering;
mod runs;

pub use design::Design;
pub use fault::OrderFault;
pub use laws::orders_are_found;
pub use needs::needs_of;
pub use ordering::{Order, order};
pub use runs::{
    Bank, State, all_served, depends_on_reached, no_loop, one_served, room_of, run_once,
    runs_along, runs_on, runs_split, settled_once, settles_along, states_typed, ticks,
    values_agree, zeros,
};
