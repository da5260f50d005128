//! Facts about the network of a plan: it is wired, has no ring, and is solved by a run of the circuit that it computes.
//!
//! A plan (`IsPlan` of gg_cut_plan) names machines and channels. Its network (`specs/Built`) has a machine for each of the plan's machines, before
//! its first step, and the plan's channels between them, and some of these may be direct. A run begins with a start: a cycle, a state of the
//! reference circuit of gg_cut_reference, and the ratios of the circuit's clocks. The reference circuit has a register for each pipe; without pipes
//! it is the design's circuit. Each machine begins in its part of the state, with the ratios of its own clocks, and a bridge's model with zeros. A
//! channel with a pipe opens with the token that the pipe's register holds, the others open empty. Therefore the network computes the reference
//! circuit with the models of the bridges in it, which is gg_cut_reference's circuit. Without bridges it is the reference circuit. Its functions are
//! laws: they compute nothing. For the plan of a design and of a request without a fault, and for such machines, it promises:
//! request without a fault, and for such machines, it promises:
//!
//! - a machine has an in or an out for each channel that the plan lists for it, and the channel is connected there
//!   (`plan_is_listed`);
//! - the network is wired: each in and each out has exactly one channel, and the ins that outs need and ports read
//!   exist (`plan_is_wired`);
//! - there is no ring among the needs of channels (`plan_has_no_ring`);
//! - the columns of that circuit's run from the start solve the network, with the rows of each machine in that run (`plan_is_solved`). A pipe has its
//!   column a cycle later, after its token. Therefore the network is sound, as `Net::new` of gg_net requires (`plan_is_sound`). It is within the
//!   limits (`plan_is_within`). The columns solve the plan too, by what each machine answers (`columns_solve`);
//! - the ports that a machine serves are among its ports (`ports_are_named`), and the machines are before their first
//!   step (`machines_are_opening`);
//! - at cycle 0, with zeros, the machines begin with zeros and the pipes with the token 0 (`all_begin_with_zeros`);
//! - the machines can be built: a unit's signals are in an order of evaluation (`unit_is_ordered`), a source has a column and gives it on at least
//!   one channel (`source_has_column`), a listed memory's part can be cut once more to leave only the memory (`memory_is_chosen`), and a bridge's
//!   machine has a model and ports that a host can run (`bridge_is_attached`);
//! - the network has the layout of its cut (`specs/CutLayout`), and its ins and outs are in the order of their channels
//!   (`plan_has_layout`); designs that are alike have the same layout (`one_layout`).
//!
//! The steps of the network depend only on the layout and on counts (gg_net). The layout comes from the circuit: from a design, a request, a default
//! capacity and a number of cycles. It has for each channel its ends, its capacity and its needs in the circuit, and for each machine the ports that
//! are served.
//!
//! Why there is no ring: an out needs an in if the out's signal reaches the in's signal by a path of reads in the machine's piece. The piece is a
//! part of the circuit, so the path is also a path of the circuit. Therefore the in's signal comes before the out's signal in the order of
//! evaluation. The two signals differ, because no machine takes a signal that it gives. The producer gives the in's channel by the in's signal
//! itself, or the in's signal is a copy of the producer's and comes after it. A bridge's outs need nothing, so a bridge makes no ring.
//!
//! Why the run solves the network: the first signals of its rows are a run of the reference circuit, and the later signals of each model are a run of
//! the model. A machine's part is a part of the reference circuit. It sees the pipe in place of a piped channel that it takes. The rows of a part in
//! a run are a run of the part, on the columns of its own in-signals. A memory with all its ports served is in its next state. The signal that gives
//! a channel and the channel's own signal have one value in each row. A channel's consumer sees that value in the same row, or in the next one if the
//! channel is piped. Two units with one piece have clocks that may follow different clocks of the circuit; each has the ratios of the clocks that its
//! own follow.

mod alone;
mod bodies;
mod laws;
mod layout;
mod solved;

pub use alone::memory_is_chosen;
pub use bodies::{bridge_is_attached, source_has_column, unit_is_ordered};
pub use laws::{
    all_begin_with_zeros, columns_solve, machines_are_opening, plan_has_no_ring, plan_is_listed,
    plan_is_wired, ports_are_named,
};
pub use layout::{one_layout, plan_has_layout};
pub use solved::{plan_is_solved, plan_is_sound, plan_is_within};
