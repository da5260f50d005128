//! Tests of gg_workers. They show what no contract says: `work` does its work if memory is ample, and two workers run at the same time. The networks
//! come from circuits as texts.

mod beside;
mod optional_host;
mod runs;
mod tables;
