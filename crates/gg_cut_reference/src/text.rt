//! The text of a cut: a line for each machine, and one for each channel with what it needs.
//!
//! The definitions in `specs/` say:
//!
//! - what a channel needs in the circuit, without a plan, and how a line looks (CheckText);
//! - what the text of a plan is (PlanText);
//! - which designs have the same text (Alike).
//!
//! This module promises:
//!
//! - `machine_line` and `channel_line` give the line of a machine and of a channel of a plan;
//! - each channel of a plan needs in the plan exactly what it needs in the circuit (`needs_are_told`);
//! - the text of a plan is the text of its cut (`plan_is_told`);
//! - for all designs that are alike, a request has one first fault (`one_fault`), and its cut has one text
//!   (`one_text`).

mod laws;
mod lines;
mod names;
mod needs;

pub use laws::{needs_are_told, one_fault, one_text, plan_is_told};
pub use lines::{channel_line, machine_line};
