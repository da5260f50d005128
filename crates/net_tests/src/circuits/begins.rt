//! gg_build: networks that begin at a later cycle, with the state that the design has there.
ghost use Rattle.std.specs.Prelude.{◌≡◌, ◌<◌, ◌≤◌, [], None, Some, IfOk};
ghost use Rattle.gg_build.specs.inside.Build.{IsToBegin, NeedsNone};
ghost use Rattle.gg_cut_plan.specs.Fault.{IsSmall, first_fault_with};
ghost use Rattle.gg_cut_plan.specs.Held.{AreHeldOnce};
ghost use Rattle.gg_cut_plan.specs.Plan.{IsPlan};
ghost use Rattle.gg_flat.specs.Run.{IsColumns};
ghost use Rattle.gg_flat.specs.State.{IsState};
ghost use Rattle.gg_part.specs.KeepsToTree.{KeepsToTree};
ghost use Rattle.gg_cut_reference.specs.whole.Whole.{HasFreeFronts};

use crate::built::TestHost;
use crate::reading::{design_of, inputs_of, request_of};
use crate::texts::{DEEP, DEEP_TRACE};
use gg_bridge::Echo;
use gg_build::{Begin, build_from};
use gg_clocks::{Ratio, Timing};
use gg_cut::cut;
use gg_cut_plan::{Models, Plan};
use gg_measure::run_to_end;
use gg_net::{Net, Streams};
use gg_order::{Design, State};
use gg_partfile::Request;
use gg_tape::{Cells, Tape};
use gg_trace::Trace;
use std::alloc::{AllocError, Global};
use std::marker::Brand;
use std::process::Abort;

// Advances the state of a design by a cycle of a trace.
fn advance(
    alloc: Global,
    design: &Design,
    ratios: &[Ratio],
    inputs: &Trace,
    cycle: u64,
    state: &mut State,
) -> Result<(), AllocError>
    requires typed { IsState design.now.circuit state.old }
    requires fed { IsColumns design.now.circuit inputs.now.rows inputs.now.columns }
    requires within { cycle < inputs.now.rows }
    ensures { IsState design.now.circuit state.new }
{
    // for the invariant only: the limit on rows
    let _ = inputs.rows();
    let piece = design.piece();
    let timing = Timing::new(alloc, ratios, cycle)?;
    let tape = Tape::of(alloc, piece, design.order())?;
    let mut cells = Cells::of(alloc, piece)?;
    let row = inputs.row(cycle);
    tape.settle(piece, state, row, &mut cells);
    tape.advance(piece, state, timing.edges(), &mut cells);
    Ok(())
}

// The state of a design after two cycles of a trace.
fn state_after_two(
    alloc: Global,
    design: &Design,
    ratios: &[Ratio],
    inputs: &Trace,
) -> Result<State, AllocError>
    requires fed { IsColumns design.now.circuit inputs.now.rows inputs.now.columns }
    requires within { 2 ≤ inputs.now.rows }
    ensures { IfOk result (λ state. IsState design.now.circuit state) }
{
    let mut state = State::new(alloc, design.piece())?;
    advance(alloc, design, ratios, inputs, 0, &mut state)?;
    advance(alloc, design, ratios, inputs, 1, &mut state)?;
    Ok(state)
}

// Cycle 2 in this state, without pipes.
fn begin_in(alloc: Global, state: State) -> Begin
    ensures cycle { result.cycle ≡ 2 }
    ensures state { result.state ≡ Some state }
    ensures tokens { result.tokens.items ≡ [] }
{
    Begin {
        cycle: 2,
        state: Some(state),
        tokens: Vec::new(alloc),
    }
}

// Whether the last machine is a tray that keeps these values, starting at cycle 2, and none of a cycle before.
fn keeps_from_two<H: TestHost, Z: Streams>(net: &Net<H, Z>, outputs: &[u128]) -> bool {
    net.within_limits();
    let machines = net.machines();
    if machines == 0 {
        return false;
    }
    let tray = net.host((machines - 1) as u32);
    for (cycle, output) in outputs.iter().enumerate() {
        let kept = if cycle < 2 { None } else { Some(*output) };
        if tray.kept(cycle as u64) != kept {
            return false;
        }
    }
    tray.kept(outputs.len() as u64).is_none()
}

// Whether a network begins at cycle 2 and then gives these outputs.
fn gives_from_two<H: TestHost, Z: Streams>(mut net: Net<H, Z>, outputs: &[u128]) -> bool {
    let begins = 0 < net.machines() && net.cycle(0) == 2;
    run_to_end(&mut net);
    begins && keeps_from_two(&net, outputs)
}

// Whether the network of a plan gives these outputs from there. The caller picks what it computes, by the design and the request.
fn is_built_from<Z: Streams>(
    alloc: Global,
    _design: &Design,
    _request: &Request,
    _models: &Models,
    plan: &Plan,
    inputs: &Trace,
    begin: &Begin,
    outputs: &[u128],
) -> bool
    requires run { IsToBegin plan.now begin.now inputs.now.columns inputs.now.rows Z.flow }
    requires alone { NeedsNone plan.now }
{
    let bridges = Vec::new(alloc);
    match build_from::<Echo, Z>(alloc, plan, inputs, begin, bridges) {
        Ok(net) => gives_from_two(net, outputs),
        Err(_) => false,
    }
}

// Whether the network of a plan without bridges gives these outputs, starting at cycle 2.
fn is_begun(
    alloc: Global,
    design: &Design,
    request: &Request,
    models: &Models,
    plan: &Plan,
    inputs: &Trace,
    outputs: &[u128],
) -> bool
    requires keeps { KeepsToTree design.now.circuit design.now.tree }
    requires held { AreHeldOnce design.now.circuit }
    requires free { HasFreeFronts design.now.circuit }
    requires fed { IsColumns design.now.circuit inputs.now.rows inputs.now.columns }
    requires faultless { first_fault_with design.now models.now request.now ≡ None }
    requires planned { IsPlan design.now request.now models.now 1 plan.now }
    requires plain { request.now.pipe ≡ [] }
    requires alone { request.now.bridges ≡ [] }
    requires none { models.now ≡ [] }
    requires within { 2 ≤ inputs.now.rows }
{
    // for the invariant only
    let _ = design.order();
    let _ = design.piece();
    let _ = inputs.rows();
    match state_after_two(alloc, design, plan.ratios.as_slice(), inputs) {
        Ok(state) => {
            let begin = begin_in(alloc, state);
            is_built_from::<Brand>(
                alloc, design, request, models, plan, inputs, &begin, outputs,
            )
        }
        Err(_) => false,
    }
}

// Whether the network of a design and a request without pipes and bridges gives these outputs, starting at cycle 2.
fn is_cut_from(
    alloc: Global,
    design: &Design,
    request: &Request,
    inputs: &Trace,
    outputs: &[u128],
) -> bool
    requires small { IsSmall request.now }
    requires keeps { KeepsToTree design.now.circuit design.now.tree }
    requires held { AreHeldOnce design.now.circuit }
    requires free { HasFreeFronts design.now.circuit }
    requires fed { IsColumns design.now.circuit inputs.now.rows inputs.now.columns }
{
    if !request.pipe.as_slice().is_empty() || inputs.rows() < 2 {
        return false;
    }
    if !request.bridges.as_slice().is_empty() {
        return false;
    }
    let models = Models::new(alloc);
    match cut(alloc, design, request, 1, &models) {
        Ok(plan) => is_begun(alloc, design, request, &models, &plan, inputs, outputs),
        Err(fault) => {
            drop(fault);
            false
        }
    }
}

// Whether the network of a design and a partition gives these outputs, starting at cycle 2 of a trace.
fn is_fed_from(
    alloc: Global,
    design: &Design,
    partition: &str,
    trace: &str,
    outputs: &[u128],
) -> bool
    requires keeps { KeepsToTree design.now.circuit design.now.tree }
    requires held { AreHeldOnce design.now.circuit }
    requires free { HasFreeFronts design.now.circuit }
{
    match request_of(alloc, partition) {
        Some(request) => match inputs_of(alloc, design, trace) {
            Some(inputs) => is_cut_from(alloc, design, &request, &inputs, outputs),
            None => false,
        },
        None => false,
    }
}

// Whether the network of a circuit and a partition gives these outputs, starting at cycle 2 of a trace.
fn is_right(alloc: Global, circuit: &str, partition: &str, trace: &str, outputs: &[u128]) -> bool {
    match design_of(alloc, circuit) {
        Some(design) => is_fed_from(alloc, &design, partition, trace, outputs),
        None => false,
    }
}

// Partitions of two instances, each with a register of one clock and a memory of the other. One clock has an edge in two of three ticks. Both
// instances are units on one host; or one is a unit, the memory of the other is a machine of its own, and the hub has its register: first the memory
// with the clock of each tick, and then the memory with the other clock.
static PARTITIONS: [&str; 3] = [
    "{\"units\":[\"u\",\"v\"],\"share\":[[\"u\",\"v\"]],\"clocks\":{\"c2\":[2,3]}}",
    "{\"units\":[\"v\"],\"memories\":[\"u.mid.leaf.m\"],\"clocks\":{\"c2\":[2,3]}}",
    "{\"units\":[\"u\"],\"memories\":[\"v.mid.leaf.m\"],\"clocks\":{\"c2\":[2,3]}}",
];

// Checks that each network that begins at cycle 2 has the outputs of the whole run from there. A failure names the partition.
pub(crate) fn check_begins(rt: &impl Abort, alloc: Global) {
    for partition in &PARTITIONS {
        let outputs = [0, 0xfe, 0x11ef, 0x6f8, 0x9275];
        let holds = is_right(alloc, DEEP, partition, DEEP_TRACE, &outputs);
        assert!(rt; holds, "begins: {partition}");
    }
}
