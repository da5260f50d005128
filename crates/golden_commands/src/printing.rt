//! Printing of the run of a circuit.
ghost use Rattle.std.specs.Prelude.{◌≡◌, ◌+◌, ◌<◌, ◌≤◌, ℕ, List, length};
ghost use Rattle.gg_bits.specs.Limits.{cycle_limit};
ghost use Rattle.gg_flat.specs.Clock.{edges_at};
ghost use Rattle.gg_flat.specs.Order.{IsOrder};
ghost use Rattle.gg_flat.specs.Run.{IsColumns, IsRunFrom, clocked_start};
ghost use Rattle.gg_flat.specs.Settled.{IsInputs};
ghost use Rattle.gg_flat.specs.State.{opening};
ghost use Rattle.gg_refsim.specs.Cycle.{Cycle};
ghost use Rattle.gg_cut_reference.specs.whole.Whole.{plan_circuit};
ghost use Rattle.gg_rows.specs.inside.Printed.{PrintsRow, text_of};
ghost use Rattle.gg_rows.specs.inside.Rows.{outputs_in};
ghost use Rattle.gg_rows.specs.inside.Taken.{Took};
ghost use Rattle.golden_commands.specs.Case.{IsFed};
ghost use Rattle.golden_commands.specs.inside.Case.{PrintsFed};
ghost use Rattle.golden_commands.specs.Partition.{to_run};
ghost use Rattle.golden_commands.specs.RunText.{IsRunBy};
ghost use Rattle.gg_io.specs.inside.Endings.{PrintsOn};
ghost use Rattle.gg_io.specs.WentOn.{SinkWentOn};

use crate::case::Fed;
use crate::ports::shown_ports;
use crate::whole::whole_of;
use gg_clocks::Ratio;
use gg_cut_plan::{Models, stop_ratios};
use gg_flat::Ports;
use gg_io::{Ending, Sink, put};
use gg_order::{Design, runs_along, settled_once};
use gg_refsim::Mono;
use gg_rows::{RowPrinter, Rows};
use gg_trace::{Trace, header_text};
use std::alloc::Global;

// Advances by one cycle, and writes its row. Returns whether to go on: no stop acts in the cycle.
fn print_row<K: Sink>(
    mono: &mut Mono<'_>,
    printer: &RowPrinter<'_>,
    cycle: u64,
    inputs: &[u128],
    outs: &mut [u128],
    out: &mut K,
) -> Result<bool, Ending>
    requires few { mono.old.cycle < cycle_limit }
    requires within { cycle ≤ cycle_limit }
    requires inputs { IsInputs mono.old.circuit inputs.now }
    requires outs { length outs.old ≡ length mono.old.circuit.outs }
    requires ports { length printer.now.ports ≤ length mono.old.circuit.outs }
    ensures circuit { mono.new.circuit ≡ mono.old.circuit }
    ensures ratios { mono.new.ratios ≡ mono.old.ratios }
    ensures count { mono.new.cycle ≡ mono.old.cycle + 1 }
    ensures cycle { Cycle (edges_at mono.old.ratios mono.old.cycle) mono.old.circuit mono.old.state inputs.now outs.new mono.new.state }
    ensures prints { PrintsRow K.Sink printer.now.stops printer.now.ports out.old cycle outs.new out.new result }
{
    mono.cycle(inputs, outs);
    printer.take(out, cycle, outs)
}

// Writes the rows of a run, after its header, up to the first one where a stop acts. Returns whether none does.
fn print_rows<K: Sink>(
    mono: &mut Mono<'_>,
    printer: &RowPrinter<'_>,
    inputs: &Trace,
    outs: &mut [u128],
    out: &mut K,
) -> Result<bool, Ending>
    requires opening { mono.old.state ≡ opening mono.old.circuit }
    requires begun { mono.old.cycle ≡ 0 }
    requires few { inputs.now.rows ≤ cycle_limit }
    requires ordered { (order : List ℕ) × IsOrder mono.old.circuit order }
    requires fed { IsColumns mono.old.circuit inputs.now.rows inputs.now.columns }
    requires outs { length outs.old ≡ length mono.old.circuit.outs }
    requires ports { length printer.now.ports ≤ length mono.old.circuit.outs }
    ensures took { (rows : List (List ℕ)) → IsRunFrom mono.old.circuit (clocked_start mono.old.circuit mono.old.ratios) inputs.now.columns inputs.now.rows rows
        → (count : ℕ) × Took (PrintsRow K.Sink printer.now.stops printer.now.ports) (outputs_in mono.old.circuit rows) 0 inputs.now.rows count out.old out.new result }
    ensures out { SinkWentOn K.Sink out.old out.new }
{
    settled_once();
    for cycle in 0..inputs.rows() {
        let goes_on = print_row(mono, printer, cycle, inputs.row(cycle), outs, out)?;
        if !goes_on {
            return Ok(false);
        }
    }
    Ok(true)
}

// Writes the header and the rows of a run. The clocks of the stops have these ratios.
fn print_all<K: Sink>(
    alloc: Global,
    mono: &mut Mono<'_>,
    stops: &[Ratio],
    ports: &Ports,
    inputs: &Trace,
    out: &mut K,
) -> Result<(), Ending>
    requires opening { mono.old.state ≡ opening mono.old.circuit }
    requires begun { mono.old.cycle ≡ 0 }
    requires few { inputs.now.rows ≤ cycle_limit }
    requires fed { IsColumns mono.old.circuit inputs.now.rows inputs.now.columns }
    requires ports { length ports.now ≤ length mono.old.circuit.outs }
    ensures prints { (rows : List (List ℕ)) → IsRunFrom mono.old.circuit (clocked_start mono.old.circuit mono.old.ratios) inputs.now.columns inputs.now.rows rows
        → PrintsOn K.Sink out.old out.new (text_of stops.now mono.old.circuit ports.now rows inputs.now.rows) result }
    ensures out { SinkWentOn K.Sink out.old out.new }
{
    let mut outs = vec![in alloc; 0u128; mono.piece().outs().len()]?;
    let header = header_text(alloc, ports)?;
    put(out, header.as_bytes())?;
    let printer = RowPrinter::new(alloc, ports, stops);
    print_rows(mono, &printer, inputs, outs.as_mut_slice(), out)?;
    Ok(())
}

// Prints the run of a design's circuit on these inputs, by the simulator: a value for each port, of the first out-signals. The clocks of the circuit
// and of the stops have these ratios.
fn print_simulated<K: Sink>(
    alloc: Global,
    design: &Design,
    ratios: &[Ratio],
    stops: &[Ratio],
    ports: &Ports,
    inputs: &Trace,
    out: &mut K,
) -> Result<(), Ending>
    requires few { inputs.now.rows ≤ cycle_limit }
    requires fed { IsColumns design.now.circuit inputs.now.rows inputs.now.columns }
    requires ports { length ports.now ≤ length design.now.circuit.outs }
    ensures prints { (rows : List (List ℕ)) × IsRunFrom design.now.circuit (clocked_start design.now.circuit ratios.now) inputs.now.columns inputs.now.rows rows
        × PrintsOn K.Sink out.old out.new (text_of stops.now design.now.circuit ports.now rows inputs.now.rows) result }
    ensures out { SinkWentOn K.Sink out.old out.new }
{
    runs_along();
    // for the invariant only
    let _ = design.order();
    let _ = design.piece();
    let mut mono = match Mono::with_clocks(alloc, design, ratios) {
        Ok(mono) => mono,
        Err(_) => return Err(Ending::NoMemory),
    };
    print_all(alloc, &mut mono, stops, ports, inputs, out)
}

// Prints the run of the circuit that a case's network computes, by the simulator: a value for each port, of the first out-signals. The
// clocks of the stops have these ratios.
fn print_whole<K: Sink>(
    alloc: Global,
    fed: &Fed,
    models: &Models,
    stops: &[Ratio],
    ports: &Ports,
    out: &mut K,
) -> Result<(), Ending>
    requires fed { (circuit : List ℕ) × (partition : List ℕ) × (trace : List ℕ) × (capacity : ℕ) × IsFed (to_run models.now) circuit partition trace capacity fed.now }
    requires ports { length ports.now ≤ length (plan_circuit fed.now.case.design fed.now.case.cut.request models.now).outs }
    ensures prints { (rows : List (List ℕ)) × IsRunBy fed.now.case.design fed.now.case.cut.request models.now fed.now.trace.columns fed.now.trace.rows rows
        × PrintsOn K.Sink out.old out.new (text_of stops.now (plan_circuit fed.now.case.design fed.now.case.cut.request models.now) ports.now rows fed.now.trace.rows) result }
    ensures out { SinkWentOn K.Sink out.old out.new }
{
    let whole = whole_of(alloc, models, &fed.case)?;
    let ratios = fed.case.cut.plan.ratios.as_slice();
    print_simulated(alloc, &whole, ratios, stops, ports, &fed.trace, out)
}

/// Prints the run of a design on a trace, by the simulator: the top's outputs that no bridge sees, cycle by cycle, up to the first cycle where a stop
/// acts. The clocks have the ratios that the request gives. If the request has pipes or bridges, the reference circuit with the bridges' models is
/// simulated.
///
/// # Errors
///
/// Returns `Unwritten` if a put fails, and `NoMemory` if an allocation fails.
pub fn print_run<K: Sink>(
    alloc: Global,
    fed: &Fed,
    models: &Models,
    out: &mut K,
) -> Result<(), Ending>
    requires fed { (circuit : List ℕ) × (partition : List ℕ) × (trace : List ℕ) × (capacity : ℕ) × IsFed (to_run models.now) circuit partition trace capacity fed.now }
    ensures prints { PrintsFed models.now K.Sink out.old out.new fed.now result }
    ensures out { SinkWentOn K.Sink out.old out.new }
{
    let case = &fed.case;
    let ports = shown_ports(alloc, &case.design, &case.cut.request)?;
    let ratios = case.cut.plan.ratios.as_slice();
    let own = stop_ratios(alloc, case.design.tree(), ratios)?;
    print_whole(alloc, fed, models, own.as_slice(), &ports, out)
}
