//! Steps files, and the text of the cause of a refused step.
//!
//! A steps file lists the steps of a network, one on each line. This module promises:
//!
//! - [`read_steps`] returns the step of each line, or None for a line that isn't a step. It refuses no file. A line is
//!   a step exactly if it spells that step ([`steps_are_spelt`]). If all names can be used in a line, each step has a
//!   line ([`steps_have_lines`]).
//! - [`cause_text`] returns the exact text of a cause, with the names of the channels and ports.
//! - [`StepNames`] has the names of channels, machines and ports. If several names equal a word, it names the first.
//!
//! Any call that allocates may return `AllocError`. The time to read a file grows with its length and not with the
//! number of names.

mod cause;
mod laws;
mod naming;
mod steps;
mod table;
mod words;

pub use cause::cause_text;
pub use laws::{steps_are_spelt, steps_have_lines};
pub use naming::StepNames;
pub use steps::read_steps;
