//! Programs: what a unit of a cut circuit computes, output by output.
//!
//! A [`Program`] is a well-formed circuit in an order of evaluation, with its tape and the needs of each out-signal. [`Slots`]
//! hold the values of one cycle. A signal is done if its value of this cycle is in its place. An input is put into
//! its place, and a signal that is done isn't evaluated again. [`Steps`] count the evaluations. The crate promises:
//!
//! - `Program::needs` lists exactly the in-signals that the out-signal reaches by a path of reads;
//! - `Program::cone_once` returns the out-signal's value in every settled row of the state with the needed inputs. It depends on no other input
//!   (`one_cone_value`). Afterwards the signals are done that were done before or that the out-signal reaches, and no others unless all inputs were
//!   put. The steps, together with the signals that have still to be evaluated (`unset`), are exactly as many as had to be evaluated before. If all that
//!   it reaches was done, no step is taken;
//! - `Program::next_once` goes to the next state by the settled values with the inputs that were put. It takes `unset`
//!   steps. Afterwards no signal is done;
//! - `run_cone` and `run_next` are the same without a count.
//!
//! Only `Program::of` and `Program::slots` allocate.
#![tactic(auto)]

mod ascend;
mod evaluate;
mod laws;
mod program;
mod search;
mod slots;
mod steps;

pub use laws::one_cone_value;
pub use program::{NoMemory, Program};
pub use slots::Slots;
pub use steps::Steps;
