//! The command `check`.
ghost use Rattle.std.specs.Prelude.{ℕ, List};
ghost use Rattle.gg_words.specs.Range.{IsCapacity};
ghost use Rattle.gg_words.specs.declared.command.Cmd.TheVariants.{Check};
ghost use Rattle.golden_commands.specs.Case.{IsCase};
ghost use Rattle.golden_commands.specs.Check.{IsCutTextOf};
ghost use Rattle.golden_commands.specs.Handed.{AreHandedIn};
ghost use Rattle.golden_commands.specs.Partition.{Known};
ghost use Rattle.golden_commands.specs.inside.Outcome.{Did};
ghost use Rattle.gg_io.specs.inside.Endings.{PrintsOn};
ghost use Rattle.gg_io.specs.Order.{IsOnly};
ghost use Rattle.gg_io.specs.Ends.{loads_of, puts_of};
ghost use Rattle.gg_io.specs.WentOn.{ShelfWentOn, SinkWentOn};

use gg_cut_plan::Models;
use gg_cut_reference::{one_text, plan_is_told};
use gg_front::one_meaning;
use gg_io::{Ending, Shelf, Sink};
use golden_commands::{Case, print_plan, read_case};
use std::alloc::Global;

// Prints the cut of a case.
fn check_case<K: Sink>(alloc: Global, case: &Case, out: &mut K) -> Result<(), Ending>
    ensures prints { (known : Known) (circuit partition : List ℕ) (capacity : ℕ) → IsCase known circuit partition capacity case.now
        → (text : List ℕ) × IsOnly (IsCutTextOf circuit partition capacity) text × PrintsOn K.Sink out.old out.new text result }
    ensures out { SinkWentOn K.Sink out.old out.new }
{
    plan_is_told();
    one_meaning();
    one_text();
    print_plan(alloc, &case.cut.plan, out)
}

// `check`: reads the circuit and the partition, and writes the text of the cut. These models of bridges are known.
pub(crate) fn check<S: Shelf, K: Sink>(
    alloc: Global,
    circuit: &str,
    partition: &str,
    capacity: u32,
    models: &Models,
    shelf: &mut S,
    out: &mut K,
) -> Result<(), Ending>
    requires capacity { IsCapacity capacity }
    requires handed { AreHandedIn models.now }
    ensures did { Did models.now (Check circuit.now partition.now capacity) (loads_of S.Shelf shelf.old shelf.new) (puts_of K.Sink out.old out.new) result }
    ensures shelf { ShelfWentOn S.Shelf shelf.old shelf.new }
    ensures out { SinkWentOn K.Sink out.old out.new }
{
    let case = read_case(alloc, shelf, circuit, partition, models, false, capacity)?;
    check_case(alloc, &case, out)
}
