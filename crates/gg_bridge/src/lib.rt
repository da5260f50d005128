//! Bridges: boxed models in the host's own code, which answer a cycle's outputs with the next cycle's inputs.
//!
//! A [`Bridge`] keeps to a flat circuit, its model, and is in a state of it. In a cycle it says the values of the model's out-signals in that state,
//! and its answer to what it sees is the model's next state. The crate promises:
//!
//! - a boxed bridge is a bridge;
//! - an [`Echo`] is a bridge that says what it saw in the cycle before;
//! - a [`Watcher`] is a bridge that drives nothing, and hands the value of one output in each cycle to a [`Watch`]. Whoever writes one has nothing to
//!   prove of it;
//! - a [`Hosted`] bridge is a machine, the only one of its host. Its piece is the model with its ports in another order. Each of its outs may give
//!   its token before any in has one;
//! - [`join`] makes a design with a bridge's model at its ports, which are given by their names. It takes
//!   memory and time in proportion to the design, the model and the names.
//!
//! A model is a flat circuit that says how something outside of a circuit behaves (`IsModel` in `specs/Model`). A circuit joined with a model has the
//! model's signals after its own. Each in-signal of the model is a copy of a signal that is seen, and each input that is driven is a copy of an
//! out-signal of the model (`joined` in `specs/Joined`). The crate promises:
//!
//! - a circuit with the models of several bridges is well formed ([`joined_all_formed`]) and has an order of evaluation ([`joined_all_ordered`]), and
//!   a run of it is a run of the circuit, and one of each model on what its bridge sees ([`joined_all_runs`]). It is enough to check each bridge at
//!   the circuit's own ports ([`bridges_join`]);
//! - the same for one model, and that circuit and model are parts of the circuit with the model ([`joined_parts`], [`joined_formed`],
//!   [`joined_ordered`], [`joined_runs`]);
//! - a state of the circuit and states of the models make a state of the circuit with the models, and zeros its zeros
//!   ([`joined_is_state`], [`joined_all_states`]);
//! - [`places_of`] makes a table of the first place of each number in a list, which [`place_at`] reads.
#![tactic(auto)]

mod bridge;
mod designs;
mod echo;
mod hosted;
mod joining;
mod laws;
mod numbers;
mod ports;
mod watcher;

pub use bridge::Bridge;
pub use echo::Echo;
pub use hosted::Hosted;
pub use laws::{
    bridges_join, joined_all_formed, joined_all_ordered, joined_all_runs, joined_all_states,
    joined_formed, joined_is_state, joined_ordered, joined_parts, joined_runs,
};
pub use numbers::{place_at, places_of};
pub use ports::join;
pub use watcher::{Watch, Watcher};
