//! A request without a fault has a plan.
//!
//! `cut` of gg_cut computes the plan of a request, or returns `NoMemory`. Its contract by itself doesn't say that there is a plan. The law says it:
//!
//! - `each_has_plan`: a design that keeps to its tree and has each register held once has a plan for each request without a fault.
//!
//! The plan is made from the definitions: the signals and memories of each machine, its part, the machines with their hosts, the
//! channels, and what each channel needs.

mod laws;

pub use laws::each_has_plan;
