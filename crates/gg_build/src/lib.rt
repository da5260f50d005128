//! The network of a plan, before its first cycle.
//!
//! A plan (gg_cut_plan) names machines and channels. A network (gg_net) has hosts with machines, and channels with queues.
//! The crate promises:
//!
//! - [`build`] builds the network of a plan for an input trace (`IsOpeningFrom` in `specs/Build`). It has each machine of the plan before its first
//!   cycle, and the plan's channels at the ins and outs where the machines list them. Each queue is empty, except for the token 0 of a piped channel.
//!   There is a cycle to do for each row of the trace. The hub and the units run their parts of the circuit, and need exactly what they depend on.
//!   Each listed memory is a machine of its own, and its ports are served one by one. Each clock of a unit or of a listed memory has the ratio of the
//!   circuit's clock that it follows. A source gives the column of its top input. A tray keeps the last 1,024 values (`TRAY_ROWS` of gg_bits). A
//!   source or a unit has an out for each channel that it gives, also where it gives one signal on several channels. The machine of a bridge has the
//!   bridge that is handed in with its name, with its ports in the order of the machine's channels.
//! - [`build_from`] builds the network that begins with any cycle, with any state of the reference circuit (`IsOpeningFrom`): each unit and each
//!   listed memory with its part of the state, each bridge with zeros, and each piped channel with its token of a [`Begin`].
//! - [`placement_of`] makes the hosts of these networks, and returns the host and the thread of each machine (`IsPlacement` in `specs/inside/Hosts`):
//!   two machines have one host exactly if they have one in the plan, no host is without a machine, and the hosts are numbered in the order of their
//!   first machines.
//! - A [`Node`] is a host of such machines, of any kind. It passes each call on to that host. [`Node::value`] returns
//!   the value of a cycle that a tray keeps.
//!
//! Units that the plan puts onto one host share it: they have one piece, so it has one program, and a thread for each of them, with the ratios of its
//! own clocks. Each other machine has a host of its own. Except for the programs of units (gg_program), time and memory are linear in the plan, its
//! pieces, the trace and the bridges.
//!
//! `plan` has laws of the network of a plan: it is wired, has no ring, and is solved by a run of the circuit that it
//! computes.
#![tactic(auto)]

mod begin;
mod bridges;
mod groups;
mod hosts;
mod node;
mod opening;
mod placement;
mod plan;
mod ports;
mod starts;
mod units;
mod wires;

pub use begin::Begin;
pub use node::Node;
pub use opening::{build, build_from};
pub use placement::{Placement, placement_of};
pub use plan::{
    all_begin_with_zeros, bridge_is_attached, columns_solve, machines_are_opening,
    memory_is_chosen, one_layout, plan_has_layout, plan_has_no_ring, plan_is_listed,
    plan_is_solved, plan_is_sound, plan_is_wired, plan_is_within, ports_are_named,
    source_has_column, unit_is_ordered,
};
