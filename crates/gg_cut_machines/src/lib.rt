//! What the machines of a plan have besides their parts: names, hosts, channels, and what bridges do.
//!
//! The numbers of the machines are those of gg_cut_plan's `specs/Machines`, which a draft has. The crate promises:
//!
//! - `places_of` gives each machine's name and host, and the channels that it takes and gives;
//! - `bridge_body` makes what a bridge does.
//!
//! The time is linear, with one exception: to find the hosts each entry of `share` is compared with the units, at most 256.
#![tactic(auto)]

mod bridges;
mod hosts;
mod names;
mod places;

pub use bridges::bridge_body;
pub use hosts::Hosts;
pub use places::{Places, given, places_of, taken};
