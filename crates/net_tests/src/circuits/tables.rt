//! The tests.
use crate::circuits::begins::check_begins;
use crate::circuits::clocks::goes_in_two_of_three;
use crate::circuits::logs::{check_lines, has_first_token};
use crate::circuits::models::{copies_a_tree, keeps_a_model};
use crate::circuits::pieces::{passes, toggles};
use crate::circuits::simulators::check_simulators;
use crate::circuits::tokens::takes_two_steps;
use crate::circuits::trays::keeps_the_last_two;
use std::process::Abort;

#[test]
fn networks_begin_later(rt: HostRuntime) {
    check_begins(&rt, rt.alloc());
}

// Fails the test if this doesn't hold, and shows `about`.
fn check(rt: &impl Abort, holds: bool, about: &str) {
    assert!(rt; holds, "{about}");
}

#[test]
fn circuits_are_simulated_and_calls_succeed(rt: HostRuntime) {
    let alloc = rt.alloc();
    check_simulators(&rt, alloc);
    check_lines(&rt, alloc);
    check(&rt, has_first_token(alloc) == Ok(true), "a log");
    check(&rt, goes_in_two_of_three(), "a clock of ratio 2/3");
    check(&rt, keeps_the_last_two(alloc) == Ok(true), "a tray");
    check(&rt, keeps_a_model(alloc), "models");
    check(&rt, copies_a_tree(alloc), "a tree");
    check(&rt, toggles(alloc), "a register that toggles");
    check(&rt, passes(alloc), "an output that waits for its input");
    check(&rt, takes_two_steps(alloc), "the tokens of a unit");
}
