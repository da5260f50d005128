//! Rational clocks: the base ticks where a clock has an edge.
//!
//! A ratio says how often: in `m` of `d` base ticks, where `1 <= m <= d <= 65535`. The clock has an edge at tick `b`
//! exactly where the whole part of `(b + 1) * m / d` exceeds the whole part of `b * m / d` (`edge` in `specs/Clock` of
//! gg_flat). The crate promises:
//!
//! - `Ratio::new` returns a ratio exactly if its numbers are in that range;
//! - `Ratio::edge` returns whether there is an edge at a tick, and `Ratio::edges_before` how many of the ticks before
//!   it have one (`edge_count`, which counts them one by one);
//! - each `Ticker::tick` returns whether the next tick has an edge, starting at tick 0;
//! - a [`Timing`] goes from tick to tick, starting at any, and has the edges of several clocks in it.
//!
//! Only `Timing::new` allocates.
#![tactic(auto)]

mod ratio;
mod ticker;
mod timing;

pub use ratio::Ratio;
pub use ticker::Ticker;
pub use timing::{Ratios, Timing};
