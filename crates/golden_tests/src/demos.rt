//! The command `demo` at each size.
use crate::calls::{Answer, ask};
use std::alloc::{AllocError, Global};
use std::collections::BTreeMap;
use std::process::Abort;
use std::thread::Threads;

// The demo of this size, with these options.
fn demo_of<R: Threads + Sync>(
    rt: &R,
    alloc: Global,
    size: u32,
    options: &str,
) -> Result<Answer, AllocError> {
    let line = format!(in alloc; "golden demo 5 {size}{options}")?;
    ask(rt, alloc, line.as_str(), BTreeMap::new(alloc))
}

// Whether the demo of this size is done, with the same text without workers and with two.
fn is_done<R: Threads + Sync>(rt: &R, alloc: Global, size: u32) -> Result<bool, AllocError> {
    let alone = demo_of(rt, alloc, size, "")?;
    let worked = demo_of(rt, alloc, size, " --workers 2")?;
    Ok(alone.status == 0 && worked.status == 0 && alone.out.as_slice() == worked.out.as_slice())
}

// Checks the demos of these sizes, up to the last.
fn check_demos<R: Threads + Sync + Abort>(rt: &R, alloc: Global, first: u32, last: u32) {
    for size in first..last.saturating_add(1) {
        let is_right = is_done(rt, alloc, size) == Ok(true);
        assert!(rt; is_right, "size {size}");
    }
}

// All sizes, in three tests that take about as long.
#[test]
fn demos_of_small_sizes(rt: HostRuntime) {
    check_demos(&rt, rt.alloc(), 1, 45);
}

#[test]
fn demos_of_middle_sizes(rt: HostRuntime) {
    check_demos(&rt, rt.alloc(), 46, 56);
}

#[test]
fn demos_of_large_sizes(rt: HostRuntime) {
    check_demos(&rt, rt.alloc(), 57, 64);
}
