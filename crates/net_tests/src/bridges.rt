//! Tests of gg_bridge: with ample memory its calls have an answer, which no contract says.

mod memory;
