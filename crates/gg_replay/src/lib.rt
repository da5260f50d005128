//! Replays: the steps of a file, done one after another, with a log of the tokens.
//!
//! - [`replay`] does a list of steps of a network in their order. It ends with the network that they lead to, or stops
//!   at the first step that is refused, with the step's number, counted from 1, and its cause. The network is then as
//!   it was after the steps before that one, and no later step is done. A step that isn't an event is refused as a
//!   stranger.
//! - A [`Log`] has for each channel the tokens that have entered it, in their order: the token that it opens with, if
//!   there is one, and the tokens put. It is right if for each channel these are the values of the channel's list that
//!   have entered it. If the log is right before the steps, it is right after them, also if a step is refused. Before
//!   the first cycle the channels' opening log is right, if the flow begins with cycle 0 ([`opens_with_first_tokens`]).
//! - [`channel_line`] returns the exact line of a channel: its name, its counts and its tokens.
//!
//! Any call that allocates may return `AllocError` or `ReplayFault::NoMemory`.
//!
//! `steps_file` reads steps files, and writes the cause of a refused step.
#![tactic(auto)]

mod fault;
mod laws;
mod line;
mod log;
mod steps;
mod steps_file;

pub use fault::ReplayFault;
pub use laws::opens_with_first_tokens;
pub use line::channel_line;
pub use log::Log;
pub use steps::replay;
pub use steps_file::{StepNames, cause_text, read_steps, steps_are_spelt, steps_have_lines};
