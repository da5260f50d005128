//! Tests of networks, from their cut to their end, and of the crates around them: each public call succeeds with ample memory, and circuits do what was
//! worked out by hand, which no contract says. Circuits, partitions and traces are texts.
//!
//! - `networks`, with `direct`, `pipes` and `sharing`: networks that begin at cycle 0;
//! - `circuits`: simulators, parts and needs, units, clocks, trays, logs of a replay, and networks that begin at a later cycle;
//! - `bridges`, `links`, `workers`: gg_bridge, the links between threads, and gg_workers;
//! - `cases`, `texts`, `reading`, `built`, `tries`, `meeting`: what they share.
//!
//! A row of a table is a circuit and its expected results. The rows of `networks` and `workers` are texts, because a table of many slices makes the
//! proof of its test long. One loop goes over all tables of a kind, because each further test function makes the proof longer.
//!
//! A value of a design, a piece, a plan or a network makes a proof long: it is dropped once for each way out of the function that owns it. Therefore
//! a function that owns one has a single way out, and all others take references. The type of a plan's hosts makes a proof long too: what looks at a
//! network takes any [`TestHost`](crate::built::TestHost).
#![tactic(auto)]

#[cfg(test)]
mod bridges;
#[cfg(test)]
mod built;
#[cfg(test)]
mod cases;
#[cfg(test)]
mod circuits;
#[cfg(test)]
mod direct;
#[cfg(test)]
mod links;
#[cfg(test)]
mod measures;
#[cfg(test)]
mod meeting;
#[cfg(test)]
mod networks;
#[cfg(test)]
mod notes;
#[cfg(test)]
mod orders;
#[cfg(test)]
mod pipes;
#[cfg(test)]
mod reading;
#[cfg(test)]
mod refusals;
#[cfg(test)]
mod sharing;
#[cfg(test)]
mod tables;
#[cfg(test)]
mod texts;
#[cfg(test)]
mod tries;
#[cfg(test)]
mod workers;
