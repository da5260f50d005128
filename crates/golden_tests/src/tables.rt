//! The tests of all rows, and their texts.

mod bridge_faults;
mod bridges;
mod circuit_faults;
mod circuits;
mod clocks;
mod commands;
mod cuts;
mod demos;
mod failures;
pub(crate) mod named;
mod partitions;
pub(crate) mod printing;
pub(crate) mod refused;
mod snap_faults;
mod snaps;
mod step_faults;
mod steps;
mod stops;
mod traces;
mod workers;

use crate::rows::check_rows;
use std::test::Fail;

#[test]
fn circuits_run(rt: HostRuntime) -> Result<(), Fail> {
    let alloc = rt.alloc();
    check_rows(&rt, alloc, "RUNS", circuits::RUNS)?;
    check_rows(&rt, alloc, "WHOLE", circuits::WHOLE)?;
    check_rows(&rt, alloc, "CUT", circuits::CUT)
}

#[test]
fn circuits_are_refused(rt: HostRuntime) -> Result<(), Fail> {
    check_rows(&rt, rt.alloc(), "circuit_faults", circuit_faults::ROWS)
}

#[test]
fn traces_are_refused(rt: HostRuntime) -> Result<(), Fail> {
    check_rows(&rt, rt.alloc(), "traces", traces::ROWS)
}

#[test]
fn words_are_a_command_or_refused(rt: HostRuntime) -> Result<(), Fail> {
    check_rows(&rt, rt.alloc(), "commands", commands::ROWS)
}

#[test]
fn demos_print_a_summary(rt: HostRuntime) -> Result<(), Fail> {
    check_rows(&rt, rt.alloc(), "demos", demos::ROWS)
}

#[test]
fn files_and_outputs_fail(rt: HostRuntime) -> Result<(), Fail> {
    check_rows(&rt, rt.alloc(), "failures", failures::ROWS)
}

#[test]
fn cuts_are_printed(rt: HostRuntime) -> Result<(), Fail> {
    let alloc = rt.alloc();
    check_rows(&rt, alloc, "UNIT_CUTS", cuts::UNIT_CUTS)?;
    check_rows(&rt, alloc, "HOST_CUTS", cuts::HOST_CUTS)?;
    check_rows(&rt, alloc, "ORDER_CUTS", cuts::ORDER_CUTS)?;
    check_rows(&rt, alloc, "ROUTED", cuts::ROUTED)?;
    check_rows(&rt, alloc, "CUT_FAULTS", cuts::CUT_FAULTS)
}

#[test]
fn partitions_run_or_are_refused(rt: HostRuntime) -> Result<(), Fail> {
    check_rows(&rt, rt.alloc(), "partitions", partitions::ROWS)
}

#[test]
fn steps_are_done(rt: HostRuntime) -> Result<(), Fail> {
    let alloc = rt.alloc();
    check_rows(&rt, alloc, "COUNTER_STEPS", steps::COUNTER_STEPS)?;
    check_rows(&rt, alloc, "STEPS_DONE", steps::STEPS_DONE)
}

#[test]
fn steps_are_refused(rt: HostRuntime) -> Result<(), Fail> {
    check_rows(&rt, rt.alloc(), "step_faults", step_faults::ROWS)
}

#[test]
fn bridges_run(rt: HostRuntime) -> Result<(), Fail> {
    let alloc = rt.alloc();
    check_rows(&rt, alloc, "BRIDGED", bridges::BRIDGED)?;
    check_rows(&rt, alloc, "BRIDGED_WAYS", bridges::BRIDGED_WAYS)?;
    check_rows(&rt, alloc, "BRIDGED_CUTS", bridges::BRIDGED_CUTS)?;
    check_rows(&rt, alloc, "BRIDGED_STEPS", bridges::BRIDGED_STEPS)?;
    check_rows(&rt, alloc, "BRIDGED_TRACES", bridges::BRIDGED_TRACES)?;
    check_rows(&rt, alloc, "BRIDGES_UNSAVED", bridges::BRIDGES_UNSAVED)
}

#[test]
fn bridges_are_refused(rt: HostRuntime) -> Result<(), Fail> {
    check_rows(&rt, rt.alloc(), "bridge_faults", bridge_faults::ROWS)
}

#[test]
fn clocks_have_ratios(rt: HostRuntime) -> Result<(), Fail> {
    let alloc = rt.alloc();
    check_rows(&rt, alloc, "CLOCKED", clocks::CLOCKED)?;
    check_rows(&rt, alloc, "CLOCK_CUTS", clocks::CLOCK_CUTS)?;
    check_rows(&rt, alloc, "HANDSHAKES", clocks::HANDSHAKES)?;
    check_rows(&rt, alloc, "CLOCK_FAULTS", clocks::CLOCK_FAULTS)?;
    check_rows(
        &rt,
        alloc,
        "SERVED_WITHOUT_AN_EDGE",
        clocks::SERVED_WITHOUT_AN_EDGE,
    )
}

#[test]
fn stops_end_a_run(rt: HostRuntime) -> Result<(), Fail> {
    check_rows(&rt, rt.alloc(), "stops", stops::ROWS)
}

#[test]
fn workers_run(rt: HostRuntime) -> Result<(), Fail> {
    check_rows(&rt, rt.alloc(), "workers", workers::ROWS)
}

#[test]
fn runs_are_saved_and_resumed(rt: HostRuntime) -> Result<(), Fail> {
    let alloc = rt.alloc();
    check_rows(&rt, alloc, "SAVED", snaps::SAVED)?;
    check_rows(&rt, alloc, "SAVED_STOPS", snaps::SAVED_STOPS)?;
    check_rows(&rt, alloc, "RESUMED", snaps::RESUMED)?;
    check_rows(&rt, alloc, "MOVED", snaps::MOVED)?;
    check_rows(&rt, alloc, "MOVED_CLOCKS", snaps::MOVED_CLOCKS)
}

#[test]
fn snapshots_are_refused(rt: HostRuntime) -> Result<(), Fail> {
    check_rows(&rt, rt.alloc(), "snap_faults", snap_faults::ROWS)
}
