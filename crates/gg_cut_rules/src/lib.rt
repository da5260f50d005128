//! The first fault of a request for a cut, by the definitions of gg_cut_plan.
//!
//! The crate promises:
//!
//! - `judge_entries` returns what a request lists exactly if its entries have no fault, otherwise their first fault. With the signals of the plan's
//!   channels, `judge_channels` returns the first fault of the capacities and of the numbers of units and of channels, and `judge_pipes` the first
//!   fault of the pipes. `judge_clocks` returns the first fault of the clocks. The four together return `first_fault`. With the models that are
//!   known, `judge_bridges` returns the first fault of the bridges, and the five together return `first_fault_with`;
//! - `clock_ratios` returns the ratios of the circuit's clocks.
#![tactic(auto)]

mod bridges;
mod capacities;
mod clocks;
mod counterparts;
mod entries;
mod overlap;
mod paths;
mod pipes;
mod signals;
mod verdict;

pub use bridges::judge_bridges;
pub use clocks::clock_ratios;
pub use verdict::{judge_channels, judge_clocks, judge_entries, judge_pipes};
