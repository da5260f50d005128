//! Pipe channels of a cut: the reference circuit, and what each machine computes by its run.
//!
//! The reference circuit (`plan_reference` in `specs/Made`) is the design's circuit with a register for each channel that a
//! request lists under `pipe`. The channel's consumer sees the register, and so the channel's value a cycle later. Its functions are laws:
//! they compute nothing. They say:
//!
//! - the reference circuit is well formed and has an order of evaluation ([`reference_formed`]), has the design's outputs
//!   ([`outputs_kept`]), and is the design's circuit where there is no pipe ([`nothing_piped`]);
//! - in a run of it each machine computes what its part has ([`parts_follow`]), and each channel carries what its producer
//!   gives ([`channels_follow`], [`sources_follow`]);
//! - it depends only on the pipes of a request, not on units, memories or direct channels ([`one_reference`]).
//!
//! `fitting` has laws of bridges: names of machines, and entries that fit. `whole` has the reference circuit with the
//! models of the bridges in it. `text` writes the text of a cut.
#![tactic(auto)]

mod fitting;
mod laws;
mod text;
mod whole;

pub use fitting::{
    bridge_ports, bridges_attach, bridges_fit, bridges_known, machines_named, open_ports,
};
pub use laws::{
    channels_follow, nothing_piped, one_reference, outputs_kept, parts_follow, reference_formed,
    sources_follow,
};
pub use text::{channel_line, machine_line, needs_are_told, one_fault, one_text, plan_is_told};
pub use whole::{
    bridges_stand, circuit_has_ports, circuit_is_formed, circuit_runs, starts_are_typed, zeros_stay,
};
