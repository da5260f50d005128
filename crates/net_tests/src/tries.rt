//! What is tried on networks of a plan.
ghost use Rattle.gg_build.specs.inside.Build.{IsToRun, NeedsNone};

use crate::built::{TestHost, build_alone};
use crate::measures::end_alike;
use crate::networks::{Case, runs};
use crate::notes::Notes;
use crate::orders::{Way, is_noted};
use crate::refusals::is_refused;
use gg_cut_plan::Plan;
use gg_net::{Net, Streams};
use gg_trace::Trace;
use std::alloc::Global;

// What is tried on a network that is before its first cycle, maybe next to another of the same plan.
#[derive(Clone, Copy)]
pub(crate) enum Try<'a> {
    // It runs by the steps of the case.
    Steps,
    // The two end alike, in two orders of steps.
    Alike,
    // A step is refused, and the two then end alike.
    Refusal(&'a str),
    // It runs to its end in a way, and its hosts note their calls.
    Calls(Way, &'a Notes),
}

// Whether two networks of a plan are as expected.
fn holds<H: TestHost, Z: Streams>(
    alloc: Global,
    mut one: Net<H, Z>,
    mut other: Net<H, Z>,
    case: &Case<'_>,
    what: &Try<'_>,
) -> bool {
    match what {
        Try::Steps => runs(one, case),
        Try::Alike => end_alike(&mut one, &mut other, case),
        Try::Refusal(refusal) => is_refused(alloc, &mut one, &mut other, case, refusal),
        Try::Calls(way, notes) => is_noted(alloc, one, *way, notes),
    }
}

// Whether the networks of a plan are as expected.
pub(crate) fn is_tried<Z: Streams>(
    alloc: Global,
    plan: &Plan,
    inputs: &Trace,
    case: &Case<'_>,
    what: &Try<'_>,
) -> bool
    requires run { IsToRun plan.now inputs.now.columns inputs.now.rows Z.flow }
    requires alone { NeedsNone plan.now }
{
    match build_alone::<Z>(alloc, plan, inputs) {
        Ok(one) => match build_alone::<Z>(alloc, plan, inputs) {
            Ok(other) => holds(alloc, one, other, case, what),
            Err(_) => false,
        },
        Err(_) => false,
    }
}
