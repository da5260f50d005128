//! gg_net: steps that are refused, and runs that go on after them.
ghost use Rattle.gg_build.specs.inside.Build.{IsToRun, NeedsNone};

use crate::built::TestHost;
use crate::measures::run_alike;
use crate::networks::{Case, event_of, goes_once};
use crate::tries::{Try, is_tried};
use gg_cut_plan::Plan;
use gg_net::{Net, StepRefusal, Streams};
use gg_node::Host;
use gg_trace::Trace;
use std::alloc::Global;

// Whether a step is refused for this cause.
fn is_cause(alloc: Global, found: Option<StepRefusal>, cause: &str) -> bool {
    let Some(found) = found else {
        return false;
    };
    match format!(in alloc; "{found:?}") {
        Ok(text) => text.as_str() == cause,
        Err(_) => false,
    }
}

// Whether a step is refused, maybe after others, for this cause. It is tested, and then tried twice.
fn refuses<H: Host, Z: Streams>(alloc: Global, net: &mut Net<H, Z>, refusal: &str) -> bool {
    let Some((what, cause)) = refusal.split_once(": ") else {
        return false;
    };
    let (step, before) = what.split_once(" behind ").unwrap_or((what, ""));
    let event = event_of(step);
    goes_once(net, before)
        && is_cause(alloc, net.test(event).err(), cause)
        && is_cause(alloc, net.step(event).err(), cause)
        && is_cause(alloc, net.step(event).err(), cause)
}

// Whether a step is refused, and the two networks of a plan then end alike.
pub(crate) fn is_refused<H: TestHost, Z: Streams>(
    alloc: Global,
    one: &mut Net<H, Z>,
    other: &mut Net<H, Z>,
    case: &Case<'_>,
    refusal: &str,
) -> bool {
    refuses(alloc, one, refusal) && run_alike(one, other, case)
}

// Whether each refusal of a case comes, and the network of a plan then runs to the end of an undisturbed run.
pub(crate) fn are_refused<Z: Streams>(
    alloc: Global,
    plan: &Plan,
    inputs: &Trace,
    case: &Case<'_>,
) -> bool
    requires run { IsToRun plan.now inputs.now.columns inputs.now.rows Z.flow }
    requires alone { NeedsNone plan.now }
{
    for line in case.text.lines() {
        if let Some(refusal) = line.strip_prefix("refuses ") {
            if !is_tried::<Z>(alloc, plan, inputs, case, &Try::Refusal(refusal)) {
                return false;
            }
        }
    }
    true
}
