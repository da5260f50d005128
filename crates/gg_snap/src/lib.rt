//! Snapshots of a plan's network.
//!
//! A snapshot has the state of a circuit before a cycle. The circuit is the reference circuit of a plan (gg_cut_reference): the design's circuit with
//! a register for each pipe. Therefore it doesn't depend on units, hosts or capacities. The crate promises:
//!
//! - [`snapshot`] gathers the state of the reference circuit from a network at the end of its run: from each machine its part, and from the
//!   queue of each channel with a pipe the pipe's token. It is the state of the run after the network's last cycle. The plan has no
//!   bridges;
//! - [`restore`] builds the network of a plan without bridges that begins with a snapshot's cycle and state: each machine with its part, and
//!   each channel with a pipe with the pipe's token;
//! - the reference circuit of a plan can be saved ([`plans_can_save`]), and a snapshot's text has all of its state ([`plans_are_whole`]).
//!
//! Both take time linear in the plan, its pieces, the state and the trace.
//!
//! `text` writes and reads snapshots as texts.
#![tactic(auto)]

mod gathering;
mod laws;
mod pipes;
mod snaps;
mod text;

pub use laws::{networks_hold_states, plans_are_whole, plans_can_save, plans_have_all};
pub use snaps::{restore, snapshot};
pub use text::{Snap, SnapFault, StateDraft, one_snapshot, read_snap, snap_text, trees_can_save};
