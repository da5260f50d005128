//! The network: machines connected by channels, and its steps.
//!
//! The machines of a network pass one another a token for each cycle, through channels with a queue of bounded length.
//! An event does one thing with one machine: a token goes into a latch (`Latch`) or into a queue (`Fire`), a port of a
//! memory is served (`Serve`), or a cycle is finished (`Finish`). The crate promises:
//!
//! - [`Net::step`] does an event exactly if its conditions hold. It then changes the network as the definitions in
//!   `specs/` say. Otherwise it returns the first condition that fails, and the network stays as it was. [`Net::test`]
//!   returns what `step` would return.
//! - After any events in any order, a network agrees with its lists of values ([`Net::kept`]). Each queue is the part
//!   of the channel's list that has entered and wasn't taken. The tokens that have entered are the tokens put, and the
//!   token that the channel may open with. Each latch contains its channel's value of the cycle. Each machine is in the
//!   state of its own run. A tray has kept the last values of its channel ([`trays_tell`]).
//! - [`Net::new`] builds the network before its first cycle. The flow of values contains this cycle and the states.
//!   [`Net::parts`] takes a network apart, and [`Net::of`] puts the parts together to the same network again.
//! - While a machine has cycles left, some event may be done ([`goes_on`]).
//! - An event that may be done can be done, in one way only, and isn't refused ([`goes_once`]). A refusal has one cause
//!   ([`refused_once`]). A network is determined by its counts ([`counted_once`]).
//! - The other calls return facts about a network, as the definitions say. Only `Net::new` and [`Queue::new`] allocate.
//!   The other calls look at one machine at most, with its ins, outs and ports.
//!
//! The flow of values is part of the type of a network ([`Streams`]). No code reads it.
//!
//! `markings` has the steps without values: markings, counts, and a measure that each step lowers.
#![tactic(auto)]

mod below;
mod event;
mod judge;
mod laws;
mod located;
mod markings;
mod net;
mod parts;
mod queue;
mod shape;
mod step;
mod tells;
mod waits;

pub use event::{Event, StepRefusal};
pub use gg_flat::Streams;
pub use laws::{counted_once, goes_on, goes_once, refused_once, trays_tell};
pub use markings::{
    counts_by_marking, each_has_layout, ends_so, goes_by_marking, keeps_allowed, leads_up,
    one_marking_by_counts, opens_allowed, opens_with_marking, puts_by_step, reached_by_counts,
    replays_while_left, steps_by_marking, steps_keep,
};
pub use net::Net;
pub use parts::Parts;
pub use queue::Queue;
pub use shape::{ServedPort, Shape, Station, Wire};
pub use waits::{first_missing, first_unfired, first_unlatched};
