//! What a request for a cut lists, which faults it may have, and what the plan of a cut is.
//!
//! A request lists instances (units), lists of units that share a host, memories, capacities of channels, channels that are
//! pipes, and ratios of clocks, and says whether channels are direct. The definitions in `specs/` say:
//!
//! - what a request lists, by places in the tree of instances (Listed);
//! - which ratios the clocks of the circuit have (Clocks);
//! - which faults it has, and in what order they are reported (Fault);
//! - which machines there are, and what their numbers are (Machines), and which of them have the ports of the top (Ports);
//! - which channels there are, and between which machines (Channels); which of them are direct, and what leaves the hub (Direct);
//! - who shares a host (Hosts);
//! - what the plan is: the machines with their pieces, the channels and their needs (Plan).
//!
//! The crate promises:
//!
//! - `part_ratios` returns the ratios of clocks that follow a circuit's clocks, and `stop_ratios` the ratios of the clocks that stops follow;
//! - a [`Numbering`] returns the number of each machine, and what the machine with a number is;
//! - `owners_of` gives each instance its machine: the unit that the instance is in, otherwise the hub;
//! - the channels carry exactly the signals that they are counted and named by (`channels_agree`).
//!
//! gg_cut_rules finds the first fault of a request.
#![tactic(auto)]

mod fault;
mod laws;
mod listed;
mod marks;
mod models;
mod numbering;
mod owners;
mod plan;
mod ratios;
mod wires;

pub use fault::CutFault;
pub use laws::channels_agree;
pub use listed::Listed;
pub use marks::{marks_of, unmarked};
pub use models::Models;
pub use numbering::{Numbering, Role};
pub use owners::{owners_of, parent_of};
pub use plan::{Body, BridgeBody, Channel, Machine, Plan};
pub use ratios::{part_ratios, stop_ratios};
pub use wires::Wire;
