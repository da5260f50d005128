//! Printing of the run of a circuit from the network of a plan.
ghost use Rattle.std.specs.Prelude.{◌≤◌, ℕ, List, IfOk, length};
ghost use Rattle.gg_cut_reference.specs.whole.Whole.{plan_circuit};
ghost use Rattle.gg_build.specs.inside.Build.{HasBridges};
ghost use Rattle.gg_rows.specs.Printed.{AreKept, plan_stops};
ghost use Rattle.gg_rows.specs.inside.Printed.{out_columns, rows_to, text_of};
ghost use Rattle.gg_io.specs.inside.Endings.{PrintsOn};
ghost use Rattle.gg_io.specs.WentOn.{SinkWentOn};
ghost use Rattle.golden_commands.specs.Case.{IsFed};
ghost use Rattle.golden_commands.specs.inside.Case.{PrintsFedByNetwork};
ghost use Rattle.golden_commands.specs.Partition.{to_run};
ghost use Rattle.golden_commands.specs.inside.Replayed.{IsToReplay};

use crate::case::Fed;
use crate::ports::shown_ports;
use crate::tools::Tools;
use gg_bits::Name;
use gg_bridge::Bridge;
use gg_flat::Ports;
use gg_io::{Ending, Gate, Sink};
use gg_net::Streams;
use gg_rows::print_net;
use std::marker::Brand;
use std::thread::Threads;

// Prints the run of a design on a trace, from the network of the plan. Its channels carry the values of a flow.
fn print_flow<R: Threads + Sync, B: Bridge + Send + Drop, Z: Streams, K: Sink, G: Gate + Sync>(
    tools: &Tools<'_, R, G>,
    fed: &Fed,
    ports: &Ports,
    bridges: Vec<(Name, B)>,
    workers: u32,
    out: &mut K,
) -> Result<(), Ending>
    requires few { workers ≤ 64 }
    requires run { (replay : IsToReplay fed.now Z.flow) × (length ports.now ≤ length (plan_circuit replay.run.design replay.run.request replay.run.models).outs) }
    requires bridges { HasBridges B.piece B.state fed.now.case.cut.plan bridges.items }
    ensures prints { (replay : IsToReplay fed.now Z.flow)
        → PrintsOn K.Sink out.old out.new (text_of (plan_stops replay.run.design replay.run.request) (plan_circuit replay.run.design replay.run.request replay.run.models) ports.now replay.run.rows fed.now.trace.rows) result }
    ensures kept { IfOk result (λ done. (replay : IsToReplay fed.now Z.flow)
        → AreKept replay.run.design replay.run.request fed.now.case.cut.plan fed.now.trace.columns fed.now.trace.rows (rows_to (plan_stops replay.run.design replay.run.request) (plan_circuit replay.run.design replay.run.request replay.run.models) ports.now replay.run.rows fed.now.trace.rows) (out_columns (plan_circuit replay.run.design replay.run.request replay.run.models) replay.run.rows)) }
    ensures out { SinkWentOn K.Sink out.old out.new }
{
    let case = &fed.case;
    print_net::<R, B, Z, K, G>(
        tools.rt,
        tools.alloc,
        &case.design,
        &case.cut.plan,
        &fed.trace,
        ports,
        workers,
        bridges,
        out,
        tools.gate,
    )
}

/// Prints the run of a design on a trace, with its pipes, clocks and bridges, from the network of the plan: the top's outputs that no bridge sees,
/// cycle by cycle, up to the first cycle where a stop acts. The network is run by this many workers. Host steps bring the rows to its trays.
///
/// # Errors
///
/// Returns `Unwritten` if a put fails, and `NoMemory` if an allocation fails.
pub fn print_fed<R: Threads + Sync, B: Bridge + Send + Drop, K: Sink, G: Gate + Sync>(
    tools: &Tools<'_, R, G>,
    fed: &Fed,
    bridges: Vec<(Name, B)>,
    workers: u32,
    out: &mut K,
) -> Result<(), Ending>
    requires fed { (circuit : List ℕ) × (partition : List ℕ) × (trace : List ℕ) × (capacity : ℕ) × IsFed (to_run tools.now.models.now) circuit partition trace capacity fed.now }
    requires bridges { HasBridges B.piece B.state fed.now.case.cut.plan bridges.items }
    requires few { workers ≤ 64 }
    ensures prints { PrintsFedByNetwork tools.now.models.now K.Sink out.old out.new fed.now result }
    ensures out { SinkWentOn K.Sink out.old out.new }
{
    let ports = shown_ports(tools.alloc, &fed.case.design, &fed.case.cut.request)?;
    print_flow::<R, B, Brand, K, G>(tools, fed, &ports, bridges, workers, out)
}
