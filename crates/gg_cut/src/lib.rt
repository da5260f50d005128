//! The plan of a cut: from a design and a request to the machines with their pieces and the channels with their
//! needs.
//!
//! gg_cut_plan's `IsPlan` defines what a plan is. The crate promises:
//!
//! - `cut` returns the plan of a design, a request and the models of bridges that are known exactly if the request has no fault, otherwise its first
//!   fault. Each channel's capacity is from 1 to 4,096. The channels are what gg_cut_plan's `specs/Direct` leaves;
//! - `deps` returns the channels that a channel of a plan needs. It allocates nothing.
//!
//! `draft_of` (`judged`) checks the request and makes gg_cut_parts' `Draft`. gg_cut_split numbers the machines, and each is made once
//! (`machines`).
//!
//! `cut` takes the time of gg_cut_split, gg_cut_routes, gg_part, gg_order and gg_cut_machines, and otherwise linear time.
//!
//! `existence` has the law that each request without a fault has a plan.
#![tactic(auto)]

mod build;
mod capacities;
mod channels;
mod existence;
mod judged;
mod machines;
mod making;
mod needs;

pub use build::{cut, deps};
pub use existence::each_has_plan;
