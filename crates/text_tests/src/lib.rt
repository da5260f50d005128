//! Tests of crates that read or write texts and files, of the operations of gg_bits, and of the walk over graphs. They show what no contract says:
//! with ample memory there is an answer, and the answers are as worked out by hand.
//!
//! - `bits`: the operations of gg_bits, by tables;
//! - `front`: the lexer, the reader and the front end;
//! - `traces`, `ports`, `step_files`, `partitions`, `snaps`: the other texts;
//! - `shelves`, `sinks`, `fakes`: files and streams of gg_io;
//! - `walks`: gg_graph.
#![tactic(auto)]

#[cfg(test)]
mod bits;
#[cfg(test)]
mod fakes;
#[cfg(test)]
mod front;
#[cfg(test)]
mod partitions;
#[cfg(test)]
mod ports;
#[cfg(test)]
mod shelves;
#[cfg(test)]
mod sinks;
#[cfg(test)]
mod snaps;
#[cfg(test)]
mod step_files;
#[cfg(test)]
mod traces;
#[cfg(test)]
mod walks;
