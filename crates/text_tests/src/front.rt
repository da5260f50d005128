//! Tests of the lexer, the reader and the front end, on texts worked by hand from docs/FORMATS.md. Each is a table of texts, and a call on each of
//! them:
//!
//! - `lines`: the tokens of a line;
//! - `reading`: the circuit that is read from a text, or the fault of reading;
//! - `fronts`: the answers of `front`, on circuits with a line changed and on circuits at the limits;
//! - `stages`: the answers of the calls inside `front`, one after another. They show that `gg_shape::shape` and `gg_types::types` accept a circuit
//!   and name a fault. No other code calls these two.

mod calls;
mod circuits;
mod fronts;
mod lines;
mod reading;
mod sources;
mod stages;
mod tables;
