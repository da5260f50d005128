//! Two workers run at the same time, with queues, and go on after their first turn.
use crate::meeting::Meeting;
use crate::workers::runs::{Row, is_expected};
use gg_ruled::Ruled;
use std::alloc::Global;
use std::sync::Wait;
use std::thread::Threads;

// A run of the two units, for two cycles. Of its 42 steps at least the source's is done. In its first turn a worker does at most one cycle of a
// machine, so each begins a second turn.
const RUN: Row = (0, 2, 2, 0, 41);

// Two units that feed each other in one cycle.
const BOTH: &str = r#"
circuit pair
trace | cycle x | 0 0f | 1 81
on {"units":["a","b"]}
keeps 11 83
"#;

// Whether that run with queues, at this gate, ends as expected.
fn meets<R: Threads + Wait + Copy + Send + Sync>(rt: R, alloc: Global, gate: &Meeting) -> bool {
    is_expected::<R, Ruled<R>, Meeting>(&rt, rt, alloc, BOTH, RUN, gate)
}

#[test]
fn two_workers_meet_and_go_on(rt: HostRuntime) {
    let gate = Meeting::new();
    let is_right = meets(rt, rt.alloc(), &gate) && gate.has_met() && gate.has_gone_on();
    assert!(rt; is_right);
}
