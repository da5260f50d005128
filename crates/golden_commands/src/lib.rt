//! The commands of golden: their definitions, their files, and the texts that they print.
//!
//! `specs/` has all definitions of golden: which file is accepted and what is reported for another, the text of each command and when it is right,
//! the order of a command's files, and what a call promises (`Promised`). golden's commands meet them.
//!
//! - Read: `read_case` reads a circuit and a partition and returns the design with its cut, a [`Case`]; `read_fed` reads a trace too and
//!   returns a [`Fed`]. Both load one file after another, and return what is reported for the first one that is refused. `models_of` gives
//!   the models of the bridges that are handed in.
//! - Worked with: [`Tools`] are what a command works with, apart from its files, its output and the bridges.
//! - Reference: `reference_of` makes the circuit with a register for each pipe. `shown_ports` are the outputs that no bridge sees.
//! - Printed: `print_run` prints a run by the simulator, and `print_fed` from the network of the cut. `replay_net` does steps on that
//!   network and prints the tokens of each channel. `print_plan` prints the machines and the channels of a cut.
//! - Handed in: `hand_in` adds a bridge to a list that can be handed in.
//! - Reported: `end_at_words`, `end_at_snap` and `end_few` make the reports for words and for snapshots.
#![tactic(auto)]

mod bridges;
mod case;
mod checking;
mod handed;
mod naming;
mod network;
mod partition;
mod ports;
mod printing;
mod reading;
mod snaps;
mod tools;
mod whole;
mod windows;
mod words;

pub use bridges::{HandFault, MOST_SIGNALS, hand_in};
pub use case::{Case, Fed, FedWords, read_case, read_fed};
pub use checking::print_plan;
pub use handed::models_of;
pub use naming::names_of;
pub use network::replay_net;
pub use partition::{Cut, cut_request, request_of};
pub use ports::shown_ports;
pub use printing::print_run;
pub use reading::inputs_of;
pub use snaps::{end_at_snap, end_few};
pub use tools::Tools;
pub use whole::reference_of;
pub use windows::print_fed;
pub use words::end_at_words;
