//! The command `demo`.
ghost use Rattle.std.specs.Prelude.{◌≡◌, ◌≤◌, ◌<◌, [], IfOk, length, true};
ghost use Rattle.gg_cut_plan.specs.Plan.{IsPlan};
ghost use Rattle.gg_rows.specs.CircuitText.{demo_circuit};
ghost use Rattle.gg_rows.specs.PartitionText.{demo_partition};
ghost use Rattle.gg_rows.specs.TraceText.{demo_cycles, demo_trace};
ghost use Rattle.gg_cut_reference.specs.whole.Whole.{plan_circuit};
ghost use Rattle.gg_build.specs.inside.Build.{NeedsNone};
ghost use Rattle.gg_front.specs.Meaning.{MeansDesign};
ghost use Rattle.gg_bits.specs.Limits.{cycle_limit};
ghost use Rattle.gg_part.specs.KeepsToTree.{KeepsToTree};
ghost use Rattle.gg_cut_plan.specs.Held.{AreHeldOnce};
ghost use Rattle.gg_cut_reference.specs.Made.{AllHeld};
ghost use Rattle.gg_rows.specs.inside.Sums.{AreSums};
ghost use Rattle.gg_trace.specs.Trace.{HaveWidths};
ghost use Rattle.gg_io.specs.Ends.{puts_of};
ghost use Rattle.gg_io.specs.inside.Endings.{PrintsOrStops};
ghost use Rattle.gg_io.specs.Order.{IsOnly};
ghost use Rattle.gg_io.specs.WentOn.{SinkWentOn};
ghost use Rattle.golden_commands.specs.Case.{IsCase, IsFed};
ghost use Rattle.golden_commands.specs.Demo.{IsDemoText, demo_capacity};
ghost use Rattle.golden_commands.specs.Partition.{Cuts, to_run};
ghost use Rattle.golden_commands.specs.inside.Replayed.{IsToReplay};
ghost use Rattle.golden_commands.specs.RunText.{FeedsOnly, fed_ports};

use gg_bits::{CIRCUIT_LIMIT, PARTITION_LIMIT};
use gg_bridge::Echo;
use gg_cut_plan::Models;
use gg_front::{front, one_meaning};
use gg_io::{Ending, Gate, Sink};
use gg_net::Streams;
use gg_order::{Design, run_once};
use gg_partfile::Request;
use gg_rows::{Sums, circuit_text, partition_text, put_summary, sum_net, trace_text};
use gg_trace::Trace;
use golden_commands::{Case, Cut, Fed, Tools, cut_request, inputs_of, request_of};
use std::alloc::{AllocError, Global};
use std::marker::Brand;
use std::thread::Threads;

// The capacity of the channels that the partition doesn't name.
const CAPACITY: u32 = 2;

// The design of a demo's circuit. An error says nothing: the texts of demos have no faults, but that isn't proved.
fn demo_design(alloc: Global, size: u32) -> Result<Design, Ending>
    requires { 0 < size }
    ensures means { IfOk result (MeansDesign (demo_circuit size)) }
    ensures keeps { IfOk result (λ design. KeepsToTree design.circuit design.tree) }
    ensures held { IfOk result (λ design. AreHeldOnce design.circuit) }
    ensures whole { IfOk result (λ design. AllHeld design.circuit) }
{
    let text = circuit_text(alloc, size)?;
    let bytes = text.as_bytes();
    if bytes.len() as u64 > CIRCUIT_LIMIT {
        return Err(Ending::NoMemory);
    }
    match front(alloc, bytes) {
        Ok(design) => Ok(design),
        Err(_) => Err(Ending::NoMemory),
    }
}

// The cut of a demo's partition.
fn demo_cut(alloc: Global, size: u32, design: &Design) -> Result<Cut, Ending>
    requires most { size ≤ 64 }
    requires keeps { KeepsToTree design.now.circuit design.now.tree }
    requires held { AreHeldOnce design.now.circuit }
    ensures cuts { IfOk result (λ cut. Cuts (to_run []) design.now (demo_partition size) cut.request) }
    ensures planned { IfOk result (λ cut. IsPlan design.now cut.request [] demo_capacity cut.plan) }
{
    let text = partition_text(alloc, size)?;
    let bytes = text.as_bytes();
    if bytes.len() as u64 > PARTITION_LIMIT {
        return Err(Ending::NoMemory);
    }
    let request = request_of(alloc, bytes)?;
    let cut = cut_request(alloc, design, request, &Models::new(alloc), CAPACITY)?;
    Ok(cut)
}

// The design and the cut of a demo.
fn demo_case(alloc: Global, size: u32) -> Result<Case, Ending>
    requires some { 0 < size }
    requires most { size ≤ 64 }
    ensures { IfOk result (IsCase (to_run []) (demo_circuit size) (demo_partition size) demo_capacity) }
{
    let design = demo_design(alloc, size)?;
    match demo_cut(alloc, size, &design) {
        Ok(cut) => {
            // for the invariant only
            let _ = design.order();
            let _ = design.piece();
            Ok(Case { design, cut })
        }
        Err(ending) => {
            drop(design);
            Err(ending)
        }
    }
}

// The trace of a demo, for the cut of its partition.
fn demo_inputs(
    alloc: Global,
    seed: u32,
    size: u32,
    design: &Design,
    request: &Request,
) -> Result<Trace, Ending>
    requires some { 0 < size }
    requires most { size ≤ 64 }
    ensures feeds { IfOk result (λ trace. FeedsOnly design.now.circuit request.now (demo_trace seed size) trace.rows trace.columns) }
    ensures most { IfOk result (λ trace. trace.rows ≤ cycle_limit) }
    ensures widths { IfOk result (λ trace. HaveWidths (fed_ports design.now.circuit request.now) trace.rows trace.columns) }
{
    let text = trace_text(alloc, seed, size)?;
    let trace = inputs_of(alloc, text.as_bytes(), design, request)?;
    // for the invariant only: the limit on rows
    let _ = trace.rows();
    Ok(trace)
}

// The meaning of the three texts of a demo. An error says nothing, as above.
fn demo_fed(alloc: Global, seed: u32, size: u32) -> Result<Fed, Ending>
    requires some { 0 < size }
    requires most { size ≤ 64 }
    ensures { IfOk result (IsFed (to_run []) (demo_circuit size) (demo_partition size) (demo_trace seed size) demo_capacity) }
{
    let case = demo_case(alloc, size)?;
    match demo_inputs(alloc, seed, size, &case.design, &case.cut.request) {
        Ok(trace) => Ok(Fed { case, trace }),
        Err(ending) => {
            drop(case);
            Err(ending)
        }
    }
}

// Whether the circuit has two out-signals, and the trace the rows of a demo.
fn is_whole(fed: &Fed, size: u32) -> bool
    ensures { result ≡ true → (2 ≤ length fed.now.case.design.circuit.outs) × (fed.now.trace.rows ≡ demo_cycles size) }
{
    let piece = fed.case.design.piece();
    piece.outs().len() >= 2 && fed.trace.rows() == 4 * u64::from(size)
}

// Runs the network of the plan, and folds its rows. Its channels carry the values of a flow.
fn sum_fed<R: Threads + Sync, Z: Streams, G: Gate + Sync>(
    tools: &Tools<'_, R, G>,
    fed: &Fed,
    workers: u32,
) -> Result<Sums, AllocError>
    requires few { workers ≤ 64 }
    requires run { (replay : IsToReplay fed.now Z.flow) × (2 ≤ length (plan_circuit replay.run.design replay.run.request replay.run.models).outs) }
    requires none { NeedsNone fed.now.case.cut.plan }
    ensures { IfOk result (λ sums. (replay : IsToReplay fed.now Z.flow) → AreSums replay.run sums) }
{
    let case = &fed.case;
    sum_net::<R, Echo, Z, G>(
        tools.rt,
        tools.alloc,
        &case.design,
        &case.cut.plan,
        &fed.trace,
        workers,
        Vec::new(tools.alloc),
        tools.gate,
    )
}

// Runs the network of a demo, and writes the summary.
fn print_demo<R: Threads + Sync, K: Sink, G: Gate + Sync>(
    tools: &Tools<'_, R, G>,
    fed: &Fed,
    seed: u32,
    size: u32,
    workers: u32,
    out: &mut K,
) -> Result<(), Ending>
    requires few { workers ≤ 64 }
    requires some { 0 < size }
    requires fed { IsFed (to_run []) (demo_circuit size) (demo_partition size) (demo_trace seed size) demo_capacity fed.now }
    ensures ended { PrintsOrStops (puts_of K.Sink out.old out.new) (IsOnly (IsDemoText seed size)) (λ said. ⊥) result }
    ensures out { SinkWentOn K.Sink out.old out.new }
{
    one_meaning();
    run_once();
    if !is_whole(fed, size) {
        return Err(Ending::NoMemory);
    }
    let sums = sum_fed::<R, Brand, G>(tools, fed, workers)?;
    put_summary(tools.alloc, seed, size, &sums, out)
}

// `demo`: makes a circuit, a partition and a trace from a seed and a number of stages, runs their network by this many
// workers and then by steps in the fixed order, and writes the summary.
//
// # Errors
//
// Returns `Unwritten` if a put fails, and `NoMemory` if an allocation fails. It would also return `NoMemory` if the texts
// were refused, which they never are; that is tested, not proved.
pub(crate) fn demo<R: Threads + Sync, K: Sink, G: Gate + Sync>(
    tools: &Tools<'_, R, G>,
    seed: u32,
    size: u32,
    workers: u32,
    out: &mut K,
) -> Result<(), Ending>
    requires few { workers ≤ 64 }
    requires some { 0 < size }
    requires most { size ≤ 64 }
    ensures ended { PrintsOrStops (puts_of K.Sink out.old out.new) (IsOnly (IsDemoText seed size)) (λ said. ⊥) result }
    ensures out { SinkWentOn K.Sink out.old out.new }
{
    match demo_fed(tools.alloc, seed, size) {
        Ok(fed) => print_demo(tools, &fed, seed, size, workers, out),
        Err(_) => Err(Ending::NoMemory),
    }
}
