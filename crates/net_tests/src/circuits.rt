//! Tests around a network: simulators, parts and needs, units and the steps of their tokens, clocks, trays, logs of a replay, and networks that
//! begin at a later cycle.

mod begins;
mod clocks;
mod logs;
mod models;
mod pieces;
mod simulators;
mod tables;
mod tokens;
mod trays;
