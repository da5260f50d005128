//! Runs of a network by workers. Besides the lines in cases.rt, a case has a line `run` for each run from the opening, with the five numbers of a
//! row, and a line `beside` if there is also a host without threads.
ghost use Rattle.std.specs.Prelude.{◌≡◌, []};
ghost use Rattle.gg_build.specs.inside.Build.{IsToRun, NeedsNone};
ghost use Rattle.gg_cut_plan.specs.Fault.{IsSmall};
ghost use Rattle.gg_flat.specs.Run.{IsColumns};
ghost use Rattle.gg_part.specs.KeepsToTree.{KeepsToTree};
ghost use Rattle.gg_cut_plan.specs.Held.{AreHeldOnce};
ghost use Rattle.gg_cut_reference.specs.whole.Whole.{HasFreeFronts};

use crate::built::{TestHost, build_alone, keeps, may_go_to};
use crate::cases::{circuit_of, field, trace_of};
use crate::reading::{design_of, inputs_of, request_of};
use crate::workers::optional_host::{OptionalHost, beside_none};
use gg_bridge::Echo;
use gg_build::Node;
use gg_cut::cut;
use gg_cut_plan::{Models, Plan};
use gg_io::Gate;
use gg_link::Link;
use gg_measure::{Order, left, run_by, run_to_end};
use gg_net::{Net, Streams};
use gg_node::Host;
use gg_order::Design;
use gg_partfile::Request;
use gg_trace::Trace;
use gg_workers::work;
use std::alloc::Global;
use std::marker::Brand;
use std::thread::Threads;

// A run by workers, and its expected result: the cycle that the network is brought to before the run, by an order that the workers then go by and
// that is empty for cycle 0, the workers, the cycle that they step its machines up to, and how many steps are left after it, at least and at most.
pub(crate) type Row = (u64, u32, u64, u64, u64);

// The five numbers of a run.
pub(crate) fn row_of(line: &str) -> Option<Row> {
    let mut numbers = line.split(' ');
    Some((
        numbers.next()?.parse::<u64>().ok()?,
        numbers.next()?.parse::<u32>().ok()?,
        numbers.next()?.parse::<u64>().ok()?,
        numbers.next()?.parse::<u64>().ok()?,
        numbers.next()?.parse::<u64>().ok()?,
    ))
}

// Brings a network to a cycle, if that lies before it. Returns the order that was noted on the way; it is empty if the network was there.
fn bring<H: Host, Z: Streams>(alloc: Global, net: &mut Net<H, Z>, cycle: u64) -> Order {
    let mut order = match Order::new(alloc, net) {
        Ok(order) => order,
        Err(_) => Order::none(alloc),
    };
    if may_go_to(net, cycle) {
        run_by(net, &mut order, cycle);
    }
    order
}

// Whether a network is as expected after a run, and at its end.
fn ends<H: TestHost, Z: Streams>(net: &mut Net<H, Z>, case: &str, row: Row) -> bool {
    let (_, _, _, least, most) = row;
    let rest = left(net);
    run_to_end(net);
    least <= rest && rest <= most && left(net) == 0 && keeps(net, field(case, "keeps "))
}

// Whether the run of a network by an order ends as expected.
fn ends_by<R: Threads + Sync, L: Link, H: TestHost, Z: Streams, G: Gate + Sync>(
    rt: &R,
    home: L::Home,
    alloc: Global,
    net: Net<H, Z>,
    order: &Order,
    case: &str,
    row: Row,
    gate: &G,
) -> bool {
    let (_, workers, upto, _, _) = row;
    let workers = workers.min(64);
    match work::<R, H, L, Z, G>(rt, home, alloc, net, workers, upto, order, gate) {
        Ok(mut net) => ends(&mut net, case, row),
        Err(_) => false,
    }
}

// Whether the run of a network that is before its first cycle ends as expected.
fn goes<R: Threads + Sync, L: Link, H: TestHost, Z: Streams, G: Gate + Sync>(
    rt: &R,
    home: L::Home,
    alloc: Global,
    mut net: Net<H, Z>,
    case: &str,
    row: Row,
    gate: &G,
) -> bool {
    let order = bring(alloc, &mut net, row.0);
    if field(case, "beside ").is_empty() {
        return ends_by::<R, L, H, Z, G>(rt, home, alloc, net, &order, case, row, gate);
    }
    match beside_none(alloc, net) {
        Ok(net) => {
            ends_by::<R, L, OptionalHost<H>, Z, G>(rt, home, alloc, net, &order, case, row, gate)
        }
        Err(_) => false,
    }
}

// The text of a case. It is a struct, because a function with a `&str` can't have what it computes picked by its caller.
#[derive(Clone, Copy)]
struct Case<'a> {
    text: &'a str,
}

// Whether a run of the network of a plan without bridges ends as expected. The caller picks what it computes, by the design and the request.
fn is_plan_run<R: Threads + Sync, L: Link, Z: Streams, G: Gate + Sync>(
    rt: &R,
    home: L::Home,
    alloc: Global,
    _design: &Design,
    _request: &Request,
    _models: &Models,
    plan: &Plan,
    inputs: &Trace,
    case: &Case,
    row: Row,
    gate: &G,
) -> bool
    requires run { IsToRun plan.now inputs.now.columns inputs.now.rows Z.flow }
    requires alone { NeedsNone plan.now }
{
    match build_alone::<Z>(alloc, plan, inputs) {
        Ok(net) => goes::<R, L, Node<'_, Echo>, Z, G>(rt, home, alloc, net, case.text, row, gate),
        Err(_) => false,
    }
}

// Whether a run of the network of a design and a request without bridges ends as expected. Its channels have capacity 1.
fn is_planned<R: Threads + Sync, L: Link, G: Gate + Sync>(
    rt: &R,
    home: L::Home,
    alloc: Global,
    design: &Design,
    request: &Request,
    inputs: &Trace,
    case: &str,
    row: Row,
    gate: &G,
) -> bool
    requires small { IsSmall request.now }
    requires keeps { KeepsToTree design.now.circuit design.now.tree }
    requires held { AreHeldOnce design.now.circuit }
    requires free { HasFreeFronts design.now.circuit }
    requires fed { IsColumns design.now.circuit inputs.now.rows inputs.now.columns }
    requires alone { request.now.bridges ≡ [] }
{
    // for the invariant only
    let _ = design.order();
    let _ = design.piece();
    let _ = inputs.rows();
    let models = Models::new(alloc);
    match cut(alloc, design, request, 1, &models) {
        Ok(plan) => {
            let case = Case { text: case };
            is_plan_run::<R, L, Brand, G>(
                rt, home, alloc, design, request, &models, &plan, inputs, &case, row, gate,
            )
        }
        Err(fault) => {
            drop(fault);
            false
        }
    }
}

// Whether a run of the network of a design and a request ends as expected, where the request has to have no bridges.
fn is_cut<R: Threads + Sync, L: Link, G: Gate + Sync>(
    rt: &R,
    home: L::Home,
    alloc: Global,
    design: &Design,
    request: &Request,
    inputs: &Trace,
    case: &str,
    row: Row,
    gate: &G,
) -> bool
    requires small { IsSmall request.now }
    requires keeps { KeepsToTree design.now.circuit design.now.tree }
    requires held { AreHeldOnce design.now.circuit }
    requires free { HasFreeFronts design.now.circuit }
    requires fed { IsColumns design.now.circuit inputs.now.rows inputs.now.columns }
{
    if !request.bridges.as_slice().is_empty() {
        return false;
    }
    is_planned::<R, L, G>(rt, home, alloc, design, request, inputs, case, row, gate)
}

// Whether a run of the network of a design ends as expected on a trace.
fn is_fed<R: Threads + Sync, L: Link, G: Gate + Sync>(
    rt: &R,
    home: L::Home,
    alloc: Global,
    design: &Design,
    trace: &str,
    case: &str,
    row: Row,
    gate: &G,
) -> bool
    requires keeps { KeepsToTree design.now.circuit design.now.tree }
    requires held { AreHeldOnce design.now.circuit }
    requires free { HasFreeFronts design.now.circuit }
{
    match request_of(alloc, field(case, "on ")) {
        Some(request) => match inputs_of(alloc, design, trace) {
            Some(inputs) => {
                is_cut::<R, L, G>(rt, home, alloc, design, &request, &inputs, case, row, gate)
            }
            None => false,
        },
        None => false,
    }
}

// Whether a run of the network of a circuit ends as expected on a trace.
fn is_network<R: Threads + Sync, L: Link, G: Gate + Sync>(
    rt: &R,
    home: L::Home,
    alloc: Global,
    circuit: &str,
    trace: &str,
    case: &str,
    row: Row,
    gate: &G,
) -> bool {
    match design_of(alloc, circuit) {
        Some(design) => is_fed::<R, L, G>(rt, home, alloc, &design, trace, case, row, gate),
        None => false,
    }
}

// Whether a run of the network of a case ends as expected. False, too, if an allocation fails.
pub(crate) fn is_expected<R: Threads + Sync, L: Link, G: Gate + Sync>(
    rt: &R,
    home: L::Home,
    alloc: Global,
    case: &str,
    row: Row,
    gate: &G,
) -> bool {
    match circuit_of(alloc, case) {
        Ok(circuit) => match trace_of(alloc, case) {
            Ok(trace) => {
                let (circuit, trace) = (circuit.as_str(), trace.as_str());
                is_network::<R, L, G>(rt, home, alloc, circuit, trace, case, row, gate)
            }
            Err(_) => false,
        },
        Err(_) => false,
    }
}
