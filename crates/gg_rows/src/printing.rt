//! `print_net`, `print_from`: the run of the reference circuit of a plan is printed from the plan's network.
ghost use Rattle.std.specs.Prelude.{◌≡◌, ◌+◌, ◌≤◌, IfOk, length};
ghost use Rattle.gg_build.specs.inside.Build.{HasBridges, IsToRun};
ghost use Rattle.gg_net.specs.Network.{AllStandAt};
ghost use Rattle.gg_cut_reference.specs.whole.Whole.{plan_circuit};
ghost use Rattle.gg_io.specs.WentOn.{SinkWentOn};
ghost use Rattle.gg_rows.specs.inside.RunPrinted.{PrintsTheRest, PrintsTheRun, RestIsKept, RunIsKept};

use crate::printer::RowPrinter;
use crate::run::run_rows;
use crate::trays::{Trays, trays_of};
use gg_bits::Name;
use gg_bridge::Bridge;
use gg_build::{Node, build};
use gg_clocks::Ratio;
use gg_cut_plan::{Plan, stop_ratios};
use gg_flat::Ports;
use gg_io::{Ending, Gate, Sink, put};
use gg_net::{Net, Streams};
use gg_order::Design;
use gg_trace::{Trace, header_text};
use std::alloc::Global;
use std::thread::Threads;

/// Prints a run from a network before its first step: a header, and then the rows starting at cycle `begin`, a window at a time. The network is run
/// by this many workers, and then by steps in the order of the network. There is an out-signal for each tray. A row has the values of the first ones,
/// one for each port; the others are conditions of stops, and `stops` has the ratios of their clocks. The last row is the row of the first cycle
/// where a stop acts, if one does, and no window begins after that cycle. Host steps bring all these values to the trays of the network, and bring no
/// others there.
///
/// # Errors
///
/// Returns `Unwritten` if a put fails, and `NoMemory` if an allocation fails. What was written by then is a first part of
/// the text.
pub fn print_from<R: Threads + Sync, B: Bridge + Send + Drop, Z: Streams, K: Sink, G: Gate + Sync>(
    rt: &R,
    alloc: Global,
    net: Net<Node<'_, B>, Z>,
    begin: u64,
    trays: Trays,
    stops: &[Ratio],
    ports: &Ports,
    workers: u32,
    out: &mut K,
    gate: &G,
) -> Result<(), Ending>
    requires few { workers ≤ 64 }
    requires opening { AllStandAt begin net }
    requires within { begin ≤ net.end }
    requires trays { trays.first + trays.count ≤ length net.machines }
    requires ports { length ports.now ≤ trays.count }
    ensures prints { PrintsTheRest Z.flow net.entry begin trays.first trays.count stops.now ports.now K.Sink out.old out.new result }
    ensures kept { IfOk result (λ done. RestIsKept Z.flow net.entry begin trays.first trays.count stops.now ports.now) }
    ensures out { SinkWentOn K.Sink out.old out.new }
{
    let mut values = vec![in alloc; 0u128; trays.count]?;
    let header = header_text(alloc, ports)?;
    put(out, header.as_bytes())?;
    let printer = RowPrinter::new(alloc, ports, stops);
    run_rows::<R, B, Z, K, RowPrinter<'_>, G>(
        rt,
        alloc,
        net,
        begin,
        workers,
        trays.work,
        trays.first,
        values.as_mut_slice(),
        &printer,
        out,
        gate,
    )?;
    Ok(())
}

/// Prints the run of the circuit of a plan of the design from the plan's network: a header, and then the rows, a window at a time. The circuit is the
/// reference circuit with the models of the bridges. The network is run by this many workers, and then by steps in the order of the network. A row
/// has the values of the first out-signals, one for each port; the others are conditions of stops. The last row is the row of the first cycle where a
/// stop acts, if one does, and no window begins after that cycle. A stop acts in a cycle if its condition is one and its clock has an edge. Host
/// steps bring all these values to the trays of the plan's network, and bring no others there.
///
/// # Errors
///
/// Returns `Unwritten` if a put fails, and `NoMemory` if an allocation fails. What was written by then is a first part of
/// the text.
pub fn print_net<R: Threads + Sync, B: Bridge + Send + Drop, Z: Streams, K: Sink, G: Gate + Sync>(
    rt: &R,
    alloc: Global,
    design: &Design,
    plan: &Plan,
    inputs: &Trace,
    ports: &Ports,
    workers: u32,
    bridges: Vec<(Name, B)>,
    out: &mut K,
    gate: &G,
) -> Result<(), Ending>
    requires few { workers ≤ 64 }
    requires bridges { HasBridges B.piece B.state plan.now bridges.items }
    requires run { (run : IsToRun plan.now inputs.now.columns inputs.now.rows Z.flow) × ((run.run.design ≡ design.now) × (length ports.now ≤ length (plan_circuit run.run.design run.run.request run.run.models).outs)) }
    ensures prints { PrintsTheRun Z.flow design.now plan.now inputs.now.columns inputs.now.rows ports.now K.Sink out.old out.new result }
    ensures kept { IfOk result (λ done. RunIsKept Z.flow design.now plan.now inputs.now.columns inputs.now.rows ports.now) }
    ensures out { SinkWentOn K.Sink out.old out.new }
{
    let trays = trays_of(plan);
    let stops = stop_ratios(alloc, design.tree(), plan.ratios.as_slice())?;
    let net = build::<B, Z>(alloc, plan, inputs, bridges)?;
    net.kept();
    print_from::<R, B, Z, K, G>(
        rt,
        alloc,
        net,
        0,
        trays,
        stops.as_slice(),
        ports,
        workers,
        out,
        gate,
    )
}
