//! The rows of a run, from the network of a plan.
//!
//! A tray keeps only the last values that it gets. Therefore a network is run a window of cycles at a time. After each window its rows are read and
//! handed over to a [`Rows`]. The crate promises:
//!
//! - [`window_end`] returns where the next window ends: 1,024 cycles later, or at the end;
//! - [`run_window`] runs a network up to the end of a window, by workers first and then by steps in the order of the network. All machines are then
//!   there, and no count is past it;
//! - [`tray_value`] returns the value of a cycle that a tray keeps: its channel's value in that cycle;
//! - [`trays_of`] returns the trays of a plan;
//! - [`output_values`] returns the values of the circuit's out-signals in a cycle, from the network of a plan. They are the values in the run of the
//!   plan's circuit (the reference circuit with the models of the bridges);
//! - host steps bring these values to the trays, and bring no others there, whatever steps are done ([`trays_keep_rows`]);
//! - [`run_rows`] runs a network and hands over its rows, one after another, until one is the last. The rows are from the run of the plan's circuit,
//!   and host steps bring them to the trays. It is the one loop over windows;
//! - [`RowPrinter`] writes a row, and goes on unless a stop acts in it. With it [`print_net`] prints the run of a plan's network, and [`print_from`]
//!   a run from any start. The text is the run of the plan's circuit, up to the row of the first cycle where a stop acts;
//! - [`run_to_stop`] runs a network to its end, and returns the first cycle where a stop ends the run;
//! - [`sum_net`] counts the network of a plan and the steps from its opening to its end, runs it, and folds its rows;
//! - [`put_summary`] writes the four lines of a demo's summary, one piece each.
//!
//! A demo is a circuit of 1 to 64 stages in a row, a partition that makes a unit of each stage, and a trace of pseudo-random
//! numbers, all made from a seed and a size. The definitions in `specs/` say what each text is, byte by byte:
//!
//! - the circuit (CircuitText), the partition (PartitionText) and the trace (TraceText);
//! - the four lines of the summary (SummaryText).
//!
//! The crate promises that `circuit_text`, `partition_text` and `trace_text` return these texts, and that `size_line`, `network_line`, `last_line`
//! and `fold_line` return the lines. A [`Fold`] takes the rows one after another, and keeps the values of the last two lines.
#![tactic(auto)]

mod circuit;
mod digits;
mod effort;
mod fold;
mod laws;
mod lines;
mod partition;
mod printer;
mod printing;
mod rows;
mod run;
mod stopping;
mod summary;
mod sums;
mod taking;
mod trace;
mod trays;
mod window;

pub use circuit::circuit_text;
pub use fold::Fold;
pub use laws::{
    openings_are_kept, openings_are_nets, steps_keep_nets, trays_keep_rows, windows_are_kept,
};
pub use lines::put_summary;
pub use partition::partition_text;
pub use printer::RowPrinter;
pub use printing::{print_from, print_net};
pub use rows::{output_values, tray_value};
pub use run::run_rows;
pub use stopping::run_to_stop;
pub use summary::{fold_line, last_line, network_line, size_line};
pub use sums::{Sums, sum_net};
pub use taking::Rows;
pub use trace::trace_text;
pub use trays::{Trays, trays_of};
pub use window::{run_window, window_end};
