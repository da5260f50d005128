//! The command `resume`.
ghost use Rattle.std.specs.Prelude.{◌≡◌, ◌-◌, ◌<◌, ◌≤◌, ℕ, ◌⊎◌, List, IfErr, IfOk, length};
ghost use Rattle.gg_cut_reference.specs.whole.Whole.{plan_circuit};
ghost use Rattle.gg_flat.specs.Run.{Start};
ghost use Rattle.gg_flat.specs.State.{IsState};
ghost use Rattle.gg_cut_reference.specs.Made.{plan_reference};
ghost use Rattle.gg_rows.specs.Printed.{plan_stops};
ghost use Rattle.gg_rows.specs.inside.Printed.{text_since};
ghost use Rattle.gg_snap.specs.inside.Whole.{CanBegin};
ghost use Rattle.gg_snap.specs.text.Known.{AreKnown, CanSave};
ghost use Rattle.gg_snap.specs.text.Standing.{IsSnap};
ghost use Rattle.gg_snap.specs.text.Table.{rows_of};
ghost use Rattle.gg_io.specs.inside.Endings.{EndedOn, IfRefused, PrintsOn, PrintsOrStops};
ghost use Rattle.gg_io.specs.Ends.{loads_of, puts_of};
ghost use Rattle.gg_io.specs.Order.{IsOnly, Load, Write};
ghost use Rattle.gg_io.specs.WentOn.{ShelfWentOn, SinkWentOn};
ghost use Rattle.gg_words.specs.Range.{IsCapacity};
ghost use Rattle.gg_words.specs.declared.command.Cmd.TheVariants.{Resume};
ghost use Rattle.golden_commands.specs.Case.{IsFed};
ghost use Rattle.golden_commands.specs.Handed.{AreHandedIn};
ghost use Rattle.golden_commands.specs.Lines.{few_rows};
ghost use Rattle.golden_commands.specs.Partition.{to_save};
ghost use Rattle.golden_commands.specs.Resumed.{CanBeResumed, IsResumedText, TellsLate, TellsNoSnap, rest_text, snap_file_for};
ghost use Rattle.golden_commands.specs.inside.Outcome.{Did};
ghost use Rattle.golden_commands.specs.inside.Runs.{TellsSnapOf, meant_by, resumed_rows};

use gg_bits::SNAP_LIMIT;
use gg_bridge::Echo;
use gg_cut_plan::stop_ratios;
use gg_flat::Ports;
use gg_front::one_meaning;
use gg_io::{Ending, Gate, Shelf, Sink, load};
use gg_net::Streams;
use gg_order::Design;
use gg_rows::{print_from, trays_of};
use gg_snap::{Snap, one_snapshot, plans_are_whole, plans_can_save, read_snap, restore};
use golden_commands::{
    Fed, FedWords, Tools, end_at_snap, end_few, read_fed, reference_of, shown_ports,
};
use std::alloc::Global;
use std::marker::Brand;
use std::thread::Threads;

// A snapshot, if its cycle is at most this number of rows.
fn within<'a>(alloc: Global, snap: Snap<'a>, rows: u64) -> Result<Snap<'a>, Ending>
    ensures same { IfOk result (λ same. same ≡ snap.entry) }
    ensures within { IfOk result (λ same. same.cycle ≤ rows) }
    ensures refused { IfErr result (IfRefused (λ said. (rows < snap.entry.cycle) × (said ≡ few_rows snap.entry.cycle rows))) }
{
    let cycle = snap.cycle();
    if rows < cycle {
        return Err(end_few(alloc, cycle, rows));
    }
    Ok(snap)
}

// The snapshot of a reference circuit from its text, if its cycle is at most this number of rows.
fn snap_in<'a>(
    alloc: Global,
    reference: &'a Design,
    rows: u64,
    bytes: Vec<u8>,
) -> Result<Snap<'a>, Ending>
    requires { CanSave reference.now.circuit reference.now.tree }
    ensures read { IfOk result (λ snap. IsSnap reference.now.circuit reference.now.tree bytes.items snap.cycle snap.state) }
    ensures known { IfOk result (λ _. AreKnown reference.now.circuit (rows_of reference.now.circuit reference.now.tree)) }
    ensures within { IfOk result (λ snap. snap.cycle ≤ rows) }
    ensures refused { IfErr result (IfRefused (TellsSnapOf reference.now rows bytes.items)) }
{
    match read_snap(alloc, reference, bytes.as_slice()) {
        Ok(snap) => within(alloc, snap, rows),
        Err(fault) => Err(end_at_snap(alloc, fault)),
    }
}

// Prints the run that begins with a snapshot, from the network of the plan. Its channels carry the values of a flow.
fn print_since<R: Threads + Sync, Z: Streams, K: Sink, G: Gate + Sync>(
    tools: &Tools<'_, R, G>,
    fed: &Fed,
    ports: &Ports,
    snap: Snap<'_>,
    workers: u32,
    out: &mut K,
) -> Result<(), Ending>
    requires few { workers ≤ 64 }
    requires run { (start : Start) × (can : CanBegin fed.now.case.cut.plan fed.now.case.design snap.cycle snap.state start
        fed.now.trace.columns fed.now.trace.rows Z.flow)
        × (length ports.now ≤ length (plan_circuit can.run.design can.run.request can.run.models).outs) }
    requires within { snap.cycle ≤ fed.now.trace.rows }
    ensures prints { (start : Start) (can : CanBegin fed.now.case.cut.plan fed.now.case.design snap.entry.cycle snap.entry.state start fed.now.trace.columns fed.now.trace.rows Z.flow)
        → PrintsOn K.Sink out.old out.new (text_since (plan_stops can.run.design can.run.request) (plan_circuit can.run.design can.run.request can.run.models) ports.now can.run.rows snap.entry.cycle (fed.now.trace.rows - snap.entry.cycle)) result }
    ensures out { SinkWentOn K.Sink out.old out.new }
{
    let design = &fed.case.design;
    let plan = &fed.case.cut.plan;
    let begin = snap.cycle();
    let alloc = tools.alloc;
    let stops = stop_ratios(alloc, design.tree(), plan.ratios.as_slice())?;
    let net = restore::<Echo, Z>(alloc, plan, design, &fed.trace, snap)?;
    net.kept();
    print_from::<R, Echo, Z, K, G>(
        tools.rt,
        alloc,
        net,
        begin,
        trays_of(plan),
        stops.as_slice(),
        ports,
        workers,
        out,
        tools.gate,
    )
}

// Prints the run that begins with a snapshot of the reference circuit: a header, and the rows starting at the snapshot's cycle.
fn print_rest<R: Threads + Sync, K: Sink, G: Gate + Sync>(
    tools: &Tools<'_, R, G>,
    fed: &Fed,
    snap: Snap<'_>,
    workers: u32,
    out: &mut K,
) -> Result<(), Ending>
    requires few { workers ≤ 64 }
    requires fed { (circuit : List ℕ) × (partition : List ℕ) × (trace : List ℕ) × (capacity : ℕ) × IsFed (to_save tools.now.models.now) circuit partition trace capacity fed.now }
    requires within { snap.cycle ≤ fed.now.trace.rows }
    requires typed { IsState (plan_reference fed.now.case.design fed.now.case.cut.request) snap.state }
    ensures prints { PrintsOn K.Sink out.old out.new (rest_text (meant_by fed.now) snap.entry.cycle (resumed_rows tools.now.models.now fed.now snap.entry.cycle snap.entry.state)) result }
    ensures out { SinkWentOn K.Sink out.old out.new }
{
    let ports = shown_ports(tools.alloc, &fed.case.design, &fed.case.cut.request)?;
    print_since::<R, Brand, K, G>(tools, fed, &ports, snap, workers, out)
}

// `resume`, after all files were loaded and all but the snapshot's were read.
fn resume_bytes<R: Threads + Sync, K: Sink, G: Gate + Sync>(
    tools: &Tools<'_, R, G>,
    fed: &Fed,
    bytes: Vec<u8>,
    workers: u32,
    out: &mut K,
) -> Result<(), Ending>
    requires few { workers ≤ 64 }
    requires fed { (circuit : List ℕ) × (partition : List ℕ) × (trace : List ℕ) × (capacity : ℕ) × IsFed (to_save tools.now.models.now) circuit partition trace capacity fed.now }
    ensures ended { (circuit partition trace : List ℕ) (capacity : ℕ) → IsFed (to_save tools.now.models.now) circuit partition trace capacity fed.now
        → PrintsOrStops (puts_of K.Sink out.old out.new) (λ text. CanBeResumed (to_save tools.now.models.now) circuit partition trace bytes.items × IsOnly (IsResumedText (to_save tools.now.models.now) circuit partition trace bytes.items) text)
        (λ said. TellsNoSnap (to_save tools.now.models.now) circuit partition trace bytes.items said ⊎ TellsLate (to_save tools.now.models.now) circuit partition trace bytes.items said) result }
    ensures out { SinkWentOn K.Sink out.old out.new }
{
    one_meaning();
    one_snapshot();
    plans_can_save();
    plans_are_whole();
    let reference = reference_of(tools.alloc, &fed.case)?;
    let snap = snap_in(tools.alloc, &reference, fed.trace.rows(), bytes)?;
    print_rest(tools, fed, snap, workers, out)
}

// `resume`, after the circuit, the partition and the trace were read.
fn resume_fed<R: Threads + Sync, S: Shelf, K: Sink, G: Gate + Sync>(
    tools: &Tools<'_, R, G>,
    fed: &Fed,
    snap: &str,
    workers: u32,
    shelf: &mut S,
    out: &mut K,
) -> Result<(), Ending>
    requires few { workers ≤ 64 }
    requires fed { (circuit : List ℕ) × (partition : List ℕ) × (trace : List ℕ) × (capacity : ℕ) × IsFed (to_save tools.now.models.now) circuit partition trace capacity fed.now }
    ensures ended { (circuit partition trace : List ℕ) (capacity : ℕ) → IsFed (to_save tools.now.models.now) circuit partition trace capacity fed.now
        → EndedOn (loads_of S.Shelf shelf.old shelf.new) (puts_of K.Sink out.old out.new) (Load (snap_file_for (to_save tools.now.models.now) circuit partition trace snap.now) (λ s. Write (IsResumedText (to_save tools.now.models.now) circuit partition trace s))) result }
    ensures shelf { ShelfWentOn S.Shelf shelf.old shelf.new }
    ensures out { SinkWentOn K.Sink out.old out.new }
{
    let bytes = load(tools.alloc, shelf, snap, SNAP_LIMIT)?;
    resume_bytes(tools, fed, bytes, workers, out)
}

// `resume`: reads the circuit, the partition, the trace and the snapshot, and writes the text of the run, which begins with the snapshot, of the
// circuit with the partition's pipes. These models of bridges are known, but the partition may have no bridge.
pub(crate) fn resume<R: Threads + Sync, S: Shelf, K: Sink, G: Gate + Sync>(
    tools: &Tools<'_, R, G>,
    words: &FedWords<'_>,
    snap: &str,
    workers: u32,
    shelf: &mut S,
    out: &mut K,
) -> Result<(), Ending>
    requires capacity { IsCapacity words.now.capacity }
    requires few { workers ≤ 64 }
    requires handed { AreHandedIn tools.now.models.now }
    ensures did { Did tools.now.models.now (Resume words.now.circuit.now words.now.partition.now words.now.trace.now snap.now words.now.capacity workers)
        (loads_of S.Shelf shelf.old shelf.new) (puts_of K.Sink out.old out.new) result }
    ensures shelf { ShelfWentOn S.Shelf shelf.old shelf.new }
    ensures out { SinkWentOn K.Sink out.old out.new }
{
    let fed = read_fed(tools.alloc, shelf, words, tools.models, true)?;
    resume_fed(tools, &fed, snap, workers, shelf, out)
}
