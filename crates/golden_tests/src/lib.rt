//! Tests of the public call `golden_with`, with five echoes, files and sinks in memory: which words are a command, what each command prints, and
//! which circuits, partitions, traces, steps and snapshots are refused, up to the limits. Expected texts are worked by hand from docs/FORMATS.md,
//! unless a table says otherwise.
//!
//! - `tables`: rows, as texts, by topic. A row is a call, the files that it is lent, and how it ends; [`rows`] describes how it is written. One loop
//!   goes over all of them, because each further test function makes the proof longer.
//! - `demos`, `large`, `windows`: calls on texts that a function makes: all sizes of `demo`, files at the limits, runs of more cycles than a tray
//!   keeps values.
//! - `failures`, `outputs`: calls with each load and each put failing in turn.
//! - `counted`: how often a bridge is called;
//! - `passes`: which windows of a run have workers;
//! - `workers`: two workers that meet.
#![tactic(auto)]

#[cfg(test)]
mod calls;
#[cfg(test)]
mod counted;
#[cfg(test)]
mod demos;
#[cfg(test)]
mod failures;
#[cfg(test)]
mod large;
#[cfg(test)]
mod outputs;
#[cfg(test)]
mod passes;
#[cfg(test)]
mod row;
#[cfg(test)]
mod rows;
#[cfg(test)]
mod tables;
#[cfg(test)]
mod texts;
#[cfg(test)]
mod ways;
#[cfg(test)]
mod windows;
#[cfg(test)]
mod workers;
