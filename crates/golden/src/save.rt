//! The command `save`.
ghost use Rattle.std.specs.Prelude.{◌≡◌, ◌≤◌, ℕ, List, None, IfErr, IfOk};
ghost use Rattle.gg_build.specs.Build.{run_token};
ghost use Rattle.gg_cut_plan.specs.Bridges.{Models};
ghost use Rattle.gg_build.specs.StandsAt.{StandsAt};
ghost use Rattle.gg_io.specs.inside.Endings.{IfRefused, PrintsOrStops};
ghost use Rattle.gg_io.specs.Ends.{loads_of, puts_of};
ghost use Rattle.gg_io.specs.Order.{IsOnly};
ghost use Rattle.gg_io.specs.WentOn.{ShelfWentOn, SinkWentOn};
ghost use Rattle.gg_words.specs.Range.{IsCapacity};
ghost use Rattle.gg_words.specs.declared.command.Cmd.TheVariants.{Save};
ghost use Rattle.golden_commands.specs.Case.{IsCase, IsFed};
ghost use Rattle.golden_commands.specs.Handed.{AreHandedIn};
ghost use Rattle.golden_commands.specs.Partition.{to_save};
ghost use Rattle.golden_commands.specs.inside.Replayed.{IsToReplay, fed_start};
ghost use Rattle.golden_commands.specs.inside.Runs.{FindsStop, IsUpto, TellsEarly, text_after};
ghost use Rattle.golden_commands.specs.Saved.{CanBeSaved, IsSavedText, TellsFew};
ghost use Rattle.golden_commands.specs.inside.Outcome.{Did};

use gg_bits::Name;
use gg_bridge::Echo;
use gg_build::{Node, build};
use gg_cut_plan::stop_ratios;
use gg_front::one_meaning;
use gg_io::{Ending, Gate, Shelf, Sink, put};
use gg_net::{Net, Streams};
use gg_rows::{run_to_stop, trays_of};
use gg_snap::{plans_can_save, snap_text, snapshot};
use golden_commands::{Fed, FedWords, Tools, end_few, read_fed, reference_of, shown_ports};
use std::alloc::{AllocError, Global};
use std::marker::Brand;
use std::thread::Threads;

// Runs the network of the plan to its end. Its channels carry the values of a flow. Returns the network, and the first cycle where a stop ends a run
// of this many cycles. If there is none, the network is at its end.
fn run_upto<'f, R: Threads + Sync, Z: Streams, G: Gate + Sync>(
    tools: &Tools<'_, R, G>,
    fed: &'f Fed,
    cycles: u64,
    workers: u32,
) -> Result<(Net<Node<'f, Echo>, Z>, Option<u64>), Ending>
    requires few { workers ≤ 64 }
    requires case { (models : Models) × (circuit : List ℕ) × (partition : List ℕ) × (capacity : ℕ) × IsCase (to_save models) circuit partition capacity fed.now.case }
    requires run { IsToReplay fed.now Z.flow }
    ensures first { IfOk result (λ r. (replay : IsToReplay fed.now Z.flow) → FindsStop fed.now replay cycles r.1) }
    ensures stands { IfOk result (λ r. r.1 ≡ None → (replay : IsToReplay fed.now Z.flow)
        → StandsAt fed.now.case.cut.plan (fed_start fed.now) (run_token replay.run) fed.now.trace.columns fed.now.trace.rows fed.now.trace.rows r.0) }
    ensures refused { IfErr result (λ ending. ending ≡ Ending.NoMemory) }
{
    let design = &fed.case.design;
    let plan = &fed.case.cut.plan;
    let alloc = tools.alloc;
    let ports = shown_ports(alloc, design, &fed.case.cut.request)?;
    let stops = stop_ratios(alloc, design.tree(), plan.ratios.as_slice())?;
    let net = build::<Echo, Z>(alloc, plan, &fed.trace, Vec::new(alloc))?;
    net.kept();
    run_to_stop::<R, Echo, Z, G>(
        tools.rt,
        alloc,
        net,
        trays_of(plan),
        stops.as_slice(),
        ports.as_slice().len(),
        cycles,
        workers,
        tools.gate,
    )
}

// The text of the snapshot of the reference circuit, from the plan's network at its end.
fn text_of<Z: Streams>(
    alloc: Global,
    fed: &Fed,
    net: &Net<Node<'_, Echo>, Z>,
) -> Result<Name, AllocError>
    requires case { (models : Models) × (circuit : List ℕ) × (partition : List ℕ) × (capacity : ℕ) × IsCase (to_save models) circuit partition capacity fed.now.case }
    requires run { (replay : IsToReplay fed.now Z.flow)
        × StandsAt fed.now.case.cut.plan (fed_start fed.now) (run_token replay.run) fed.now.trace.columns fed.now.trace.rows fed.now.trace.rows net.now }
    ensures { IfOk result (λ text. (replay : IsToReplay fed.now Z.flow)
        → StandsAt fed.now.case.cut.plan (fed_start fed.now) (run_token replay.run) fed.now.trace.columns fed.now.trace.rows fed.now.trace.rows net.now → text ≡ text_after fed.now replay) }
{
    plans_can_save();
    let case = &fed.case;
    let reference = reference_of(alloc, case)?;
    let cycle = fed.trace.rows();
    let snap = snapshot::<Echo, Z>(alloc, net, &case.cut.plan, &case.design, &reference, cycle)?;
    snap_text(alloc, &snap)
}

// The text of the snapshot of the run before cycle `at`, from the network of the plan. Its channels carry the values of a flow. The trace that was
// read has `cycles` rows; `fed` has the rows before that cycle.
fn text_upto<R: Threads + Sync, Z: Streams, G: Gate + Sync>(
    tools: &Tools<'_, R, G>,
    fed: &Fed,
    cycles: u64,
    at: u64,
    workers: u32,
) -> Result<Name, Ending>
    requires few { workers ≤ 64 }
    requires case { (models : Models) × (circuit : List ℕ) × (partition : List ℕ) × (capacity : ℕ) × IsCase (to_save models) circuit partition capacity fed.now.case }
    requires run { IsToReplay fed.now Z.flow }
    ensures none { IfOk result (λ text. (replay : IsToReplay fed.now Z.flow) → FindsStop fed.now replay cycles None) }
    ensures within { IfOk result (λ text. at ≤ cycles) }
    ensures text { IfOk result (λ text. (replay : IsToReplay fed.now Z.flow) → text ≡ text_after fed.now replay) }
    ensures refused { IfErr result (IfRefused (λ said. (replay : IsToReplay fed.now Z.flow) → TellsEarly fed.now replay cycles at said)) }
{
    let (net, stop) = run_upto::<R, Z, G>(tools, fed, cycles, workers)?;
    if let Some(stop) = stop {
        return Err(end_few(tools.alloc, at, stop));
    }
    if cycles < at {
        return Err(end_few(tools.alloc, at, cycles));
    }
    let text = text_of(tools.alloc, fed, &net)?;
    Ok(text)
}

// `save`, from the rows of a trace before cycle `at`. The trace has `cycles` rows.
fn save_upto<R: Threads + Sync, K: Sink, G: Gate + Sync>(
    tools: &Tools<'_, R, G>,
    fed: &Fed,
    cycles: u64,
    at: u64,
    workers: u32,
    out: &mut K,
) -> Result<(), Ending>
    requires few { workers ≤ 64 }
    requires fed { (circuit : List ℕ) × (partition : List ℕ) × (trace : List ℕ) × (capacity : ℕ) × (whole : Fed)
        × IsFed (to_save tools.now.models.now) circuit partition trace capacity whole × (cycles ≡ whole.trace.rows)
        × IsUpto whole at fed.now }
    ensures ended { (circuit partition trace : List ℕ) (capacity : ℕ) (whole : Fed) → IsFed (to_save tools.now.models.now) circuit partition trace capacity whole → cycles ≡ whole.trace.rows → IsUpto whole at fed.now
        → PrintsOrStops (puts_of K.Sink out.old out.new) (λ text. CanBeSaved (to_save tools.now.models.now) circuit partition at trace × IsOnly (IsSavedText (to_save tools.now.models.now) circuit partition at trace) text) (TellsFew (to_save tools.now.models.now) circuit partition at trace) result }
    ensures out { SinkWentOn K.Sink out.old out.new }
{
    one_meaning();
    let text = text_upto::<R, Brand, G>(tools, fed, cycles, at, workers)?;
    put(out, text.as_bytes())
}

// `save`, after the circuit, the partition and the trace were read.
fn save_fed<R: Threads + Sync, K: Sink, G: Gate + Sync>(
    tools: &Tools<'_, R, G>,
    fed: Fed,
    at: u64,
    workers: u32,
    out: &mut K,
) -> Result<(), Ending>
    requires few { workers ≤ 64 }
    requires fed { (circuit : List ℕ) × (partition : List ℕ) × (trace : List ℕ) × (capacity : ℕ) × IsFed (to_save tools.now.models.now) circuit partition trace capacity fed }
    ensures ended { (circuit partition trace : List ℕ) (capacity : ℕ) → IsFed (to_save tools.now.models.now) circuit partition trace capacity fed
        → PrintsOrStops (puts_of K.Sink out.old out.new) (λ text. CanBeSaved (to_save tools.now.models.now) circuit partition at trace × IsOnly (IsSavedText (to_save tools.now.models.now) circuit partition at trace) text) (TellsFew (to_save tools.now.models.now) circuit partition at trace) result }
    ensures out { SinkWentOn K.Sink out.old out.new }
{
    let cycles = fed.trace.rows();
    let fed = fed.upto(at.min(cycles));
    save_upto(tools, &fed, cycles, at, workers, out)
}

// `save`: reads the circuit, the partition and the trace, runs the network of the cut up to cycle `at`, and writes the snapshot of the state of the
// reference circuit before that cycle. These models of bridges are known, but the partition may have no bridge.
pub(crate) fn save<R: Threads + Sync, S: Shelf, K: Sink, G: Gate + Sync>(
    tools: &Tools<'_, R, G>,
    words: &FedWords<'_>,
    at: u32,
    workers: u32,
    shelf: &mut S,
    out: &mut K,
) -> Result<(), Ending>
    requires capacity { IsCapacity words.now.capacity }
    requires few { workers ≤ 64 }
    requires handed { AreHandedIn tools.now.models.now }
    ensures did { Did tools.now.models.now (Save words.now.circuit.now words.now.partition.now words.now.trace.now at words.now.capacity workers)
        (loads_of S.Shelf shelf.old shelf.new) (puts_of K.Sink out.old out.new) result }
    ensures shelf { ShelfWentOn S.Shelf shelf.old shelf.new }
    ensures out { SinkWentOn K.Sink out.old out.new }
{
    let fed = read_fed(tools.alloc, shelf, words, tools.models, true)?;
    save_fed(tools, fed, u64::from(at), workers, out)
}
