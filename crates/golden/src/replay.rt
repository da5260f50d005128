//! The command `replay`.
ghost use Rattle.std.specs.Prelude.{ℕ, List};
ghost use Rattle.gg_io.specs.Ends.{loads_of, puts_of};
ghost use Rattle.gg_io.specs.inside.Endings.{EndedOn, PrintsOrStops, said_by};
ghost use Rattle.gg_io.specs.Order.{Load, Write};
ghost use Rattle.gg_io.specs.WentOn.{ShelfWentOn, SinkWentOn};
ghost use Rattle.gg_words.specs.Range.{IsCapacity};
ghost use Rattle.gg_words.specs.declared.command.Cmd.TheVariants.{Replay};
ghost use Rattle.gg_build.specs.inside.Build.{HasBridges};
ghost use Rattle.golden_commands.specs.inside.Bridges.{HaveModels};
ghost use Rattle.golden_commands.specs.Case.{IsFed};
ghost use Rattle.golden_commands.specs.Handed.{AreHandedIn};
ghost use Rattle.golden_commands.specs.Partition.{to_run};
ghost use Rattle.golden_commands.specs.Replay.{IsReplayOf, steps_file_for};
ghost use Rattle.golden_commands.specs.inside.Stepped.{IsToldText, TellsToldStep, ToldBehind};
ghost use Rattle.golden_commands.specs.inside.Outcome.{Did};

use gg_bits::{Name, STEPS_LIMIT};
use gg_bridge::Bridge;
use gg_cut_plan::Models;
use gg_front::one_meaning;
use gg_io::{Ending, Shelf, Sink, load};
use gg_order::run_once;
use gg_replay::read_steps;
use golden_commands::{Fed, FedWords, names_of, read_fed, replay_net};
use std::alloc::Global;
use std::marker::Brand;

// Does the steps of a file on the network of the plan.
fn replay_bytes<K: Sink, B: Bridge + Send + Drop>(
    alloc: Global,
    fed: &Fed,
    models: &Models,
    bridges: Vec<(Name, B)>,
    steps: &[u8],
    out: &mut K,
) -> Result<(), Ending>
    requires bridges { HasBridges B.piece B.state fed.now.case.cut.plan bridges.items }
    requires fed { (circuit : List ℕ) × (partition : List ℕ) × (trace : List ℕ) × (capacity : ℕ) × IsFed (to_run models.now) circuit partition trace capacity fed.now }
    ensures ended { (circuit partition trace : List ℕ) (capacity : ℕ) → IsFed (to_run models.now) circuit partition trace capacity fed.now
        → PrintsOrStops (puts_of K.Sink out.old out.new) (IsToldText (to_run models.now) circuit partition trace capacity steps.now) (TellsToldStep (to_run models.now) circuit partition trace capacity steps.now) result }
    ensures out { SinkWentOn K.Sink out.old out.new }
{
    one_meaning();
    run_once();
    let case = &fed.case;
    let names = names_of(alloc, case.design.tree(), &case.cut.plan)?;
    let events = read_steps(alloc, &names, steps)?;
    replay_net::<B, Brand, K>(alloc, fed, models, bridges, &names, events.as_slice(), out)
}

// `replay`, after the circuit, the partition and the trace were read.
fn replay_steps<S: Shelf, K: Sink, B: Bridge + Send + Drop>(
    alloc: Global,
    fed: &Fed,
    models: &Models,
    bridges: Vec<(Name, B)>,
    steps: &str,
    shelf: &mut S,
    out: &mut K,
) -> Result<(), Ending>
    requires bridges { HasBridges B.piece B.state fed.now.case.cut.plan bridges.items }
    requires fed { (circuit : List ℕ) × (partition : List ℕ) × (trace : List ℕ) × (capacity : ℕ) × IsFed (to_run models.now) circuit partition trace capacity fed.now }
    ensures ended { (circuit partition trace : List ℕ) (capacity : ℕ) → IsFed (to_run models.now) circuit partition trace capacity fed.now
        → EndedOn (loads_of S.Shelf shelf.old shelf.new) (puts_of K.Sink out.old out.new) (Load (steps_file_for (to_run models.now) circuit partition trace capacity steps.now) (λ s. Write (IsReplayOf (to_run models.now) circuit partition trace capacity s))) result }
    ensures network { (circuit partition trace : List ℕ) (capacity : ℕ) → IsFed (to_run models.now) circuit partition trace capacity fed.now
        → ToldBehind (to_run models.now) (loads_of S.Shelf shelf.old shelf.new).files (puts_of K.Sink out.old out.new) circuit partition trace capacity steps.now (said_by result) }
    ensures shelf { ShelfWentOn S.Shelf shelf.old shelf.new }
    ensures out { SinkWentOn K.Sink out.old out.new }
{
    let bytes = load(alloc, shelf, steps, STEPS_LIMIT)?;
    replay_bytes(alloc, fed, models, bridges, bytes.as_slice(), out)
}

// `replay`: reads the circuit, the partition, the trace and the steps, does the steps on the network, and writes a line
// for each channel. `models` are the models of the bridges.
pub(crate) fn replay<S: Shelf, K: Sink, B: Bridge + Send + Drop>(
    alloc: Global,
    words: &FedWords<'_>,
    steps: &str,
    models: &Models,
    bridges: Vec<(Name, B)>,
    shelf: &mut S,
    out: &mut K,
) -> Result<(), Ending>
    requires capacity { IsCapacity words.now.capacity }
    requires handed { AreHandedIn models.now }
    requires bridges { HaveModels B.piece B.state bridges.items models.now }
    ensures did { Did models.now (Replay words.now.circuit.now words.now.partition.now words.now.trace.now steps.now words.now.capacity)
        (loads_of S.Shelf shelf.old shelf.new) (puts_of K.Sink out.old out.new) result }
    ensures shelf { ShelfWentOn S.Shelf shelf.old shelf.new }
    ensures out { SinkWentOn K.Sink out.old out.new }
{
    let fed = read_fed(alloc, shelf, words, models, false)?;
    replay_steps(alloc, &fed, models, bridges, steps, shelf, out)
}
