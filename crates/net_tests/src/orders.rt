//! gg_measure: the order of the steps of `run_to_end`, `run_to` and `run_by`, as the hosts of a network see it.
ghost use Rattle.gg_build.specs.inside.Build.{IsToRun, NeedsNone};

use crate::built::may_go_to;
use crate::cases::field;
use crate::measures::run_by_order;
use crate::networks::Case;
use crate::notes::{Notes, Noting, noting_hosts};
use crate::tries::{Try, is_tried};
use gg_cut_plan::Plan;
use gg_measure::{run_to, run_to_end};
use gg_net::{Net, Parts, Streams};
use gg_node::Host;
use gg_trace::Trace;
use std::alloc::{AllocError, Global};

// How a network is run to its end.
#[derive(Clone, Copy)]
pub(crate) enum Way {
    AtOnce,
    ByCycles,
    // By an order that is noted in the first cycle.
    ByOrder,
}

// The network with hosts that note their calls.
fn with_notes<'a, H: Host, Z: Streams>(
    alloc: Global,
    net: Net<H, Z>,
    notes: &'a Notes,
) -> Result<Net<Noting<'a, H>, Z>, AllocError> {
    let Parts {
        hosts,
        shape,
        queues,
    } = net.parts();
    let hosts = noting_hosts(alloc, hosts, notes)?;
    Ok(Net::of(Parts {
        hosts,
        shape,
        queues,
    }))
}

// Brings a network to one cycle after another, up to its end.
fn run_cycles<H: Host, Z: Streams>(net: &mut Net<H, Z>) -> bool {
    for cycle in 0..net.end() {
        let next = cycle.saturating_add(1);
        if !may_go_to(net, next) {
            return false;
        }
        run_to(net, next);
    }
    true
}

// Runs a network to its end. Returns whether there was memory.
fn go<H: Host, Z: Streams>(net: &mut Net<H, Z>, way: Way) -> bool {
    match way {
        Way::AtOnce => {
            run_to_end(net);
            true
        }
        Way::ByCycles => run_cycles(net),
        Way::ByOrder => run_by_order(net),
    }
}

// Runs a network to its end, and notes the calls. Returns whether there was memory.
pub(crate) fn is_noted<H: Host, Z: Streams>(
    alloc: Global,
    net: Net<H, Z>,
    way: Way,
    notes: &Notes,
) -> bool {
    match with_notes::<H, Z>(alloc, net, notes) {
        Ok(mut net) => go(&mut net, way),
        Err(_) => false,
    }
}

// Whether the network of a plan begins its run with the calls of the case: a word for each, with the number of the host; `L` for a token that is
// taken, `F` for one that is given, `S` for an access, `E` for the end of a cycle; and the place of the in or the out, or the number of the
// port. Without calls in the case any run is right.
pub(crate) fn is_in_order<Z: Streams>(
    alloc: Global,
    plan: &Plan,
    inputs: &Trace,
    case: &Case<'_>,
) -> bool
    requires run { IsToRun plan.now inputs.now.columns inputs.now.rows Z.flow }
    requires alone { NeedsNone plan.now }
{
    let calls = field(case.text, "calls ");
    if calls.is_empty() {
        return true;
    }
    match Notes::new(alloc) {
        Ok(notes) => {
            let what = Try::Calls(Way::AtOnce, &notes);
            is_tried::<Z>(alloc, plan, inputs, case, &what) && notes.behind(0, calls).is_some()
        }
        Err(_) => false,
    }
}

// Whether the calls are the calls of the case in each of its cycles.
fn are_cycles(notes: &Notes, case: &Case<'_>) -> bool {
    let each = field(case.text, "each ");
    let mut count: u64 = 0;
    for _ in 0..case.end {
        let Some(behind) = notes.behind(count, each) else {
            return false;
        };
        count = behind;
    }
    count == notes.count()
}

// Whether the network of a plan has the calls of the case in each of its cycles, if it is run in a way.
fn is_each<Z: Streams>(
    alloc: Global,
    plan: &Plan,
    inputs: &Trace,
    case: &Case<'_>,
    way: Way,
) -> bool
    requires run { IsToRun plan.now inputs.now.columns inputs.now.rows Z.flow }
    requires alone { NeedsNone plan.now }
{
    match Notes::new(alloc) {
        Ok(notes) => {
            let what = Try::Calls(way, &notes);
            is_tried::<Z>(alloc, plan, inputs, case, &what) && are_cycles(&notes, case)
        }
        Err(_) => false,
    }
}

// Whether the network of a plan has the calls of the case in each of its cycles, cycle by cycle and by an order. Without calls in the case any are right.
pub(crate) fn is_each_alike<Z: Streams>(
    alloc: Global,
    plan: &Plan,
    inputs: &Trace,
    case: &Case<'_>,
) -> bool
    requires run { IsToRun plan.now inputs.now.columns inputs.now.rows Z.flow }
    requires alone { NeedsNone plan.now }
{
    if field(case.text, "each ").is_empty() {
        return true;
    }
    is_each::<Z>(alloc, plan, inputs, case, Way::ByCycles)
        && is_each::<Z>(alloc, plan, inputs, case, Way::ByOrder)
}
