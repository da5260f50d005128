//! Tests of gg_snap: texts that were worked out by hand, for circuits as texts. They show what no contract says: with ample memory there is an
//! answer, and the line of the fault is as found by hand.

mod circuits;
mod telling;
mod texts;
