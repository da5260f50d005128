//! The command `run`.
ghost use Rattle.std.specs.Prelude.{◌≡◌, ◌≤◌, ℕ, List, false};
ghost use Rattle.gg_words.specs.Range.{IsCapacity};
ghost use Rattle.gg_words.specs.declared.command.Cmd.TheVariants.{Run};
ghost use Rattle.gg_build.specs.inside.Build.{HasBridges};
ghost use Rattle.golden_commands.specs.inside.Bridges.{HaveModels};
ghost use Rattle.golden_commands.specs.Handed.{AreHandedIn};
ghost use Rattle.golden_commands.specs.Partition.{to_run};
ghost use Rattle.golden_commands.specs.Case.{IsFed};
ghost use Rattle.golden_commands.specs.inside.Case.{PrintsFed, PrintsFedByNetwork};
ghost use Rattle.golden_commands.specs.inside.Outcome.{Did};
ghost use Rattle.gg_io.specs.Ends.{loads_of, puts_of};
ghost use Rattle.gg_io.specs.WentOn.{ShelfWentOn, SinkWentOn};

use gg_bits::Name;
use gg_bridge::Bridge;
use gg_front::one_meaning;
use gg_io::{Ending, Gate, Shelf, Sink};
use gg_order::run_once;
use golden_commands::{Fed, FedWords, Tools, print_fed, print_run, read_fed};
use std::thread::Threads;

// Prints the run of a design on a trace, with its pipes and bridges: by the simulator if `mono`, otherwise from the network of the cut.
fn print_text<R: Threads + Sync, B: Bridge + Send + Drop, K: Sink, G: Gate + Sync>(
    tools: &Tools<'_, R, G>,
    fed: &Fed,
    bridges: Vec<(Name, B)>,
    workers: u32,
    mono: bool,
    out: &mut K,
) -> Result<(), Ending>
    requires fed { (circuit : List ℕ) × (partition : List ℕ) × (trace : List ℕ) × (capacity : ℕ) × IsFed (to_run tools.now.models.now) circuit partition trace capacity fed.now }
    requires bridges { HasBridges B.piece B.state fed.now.case.cut.plan bridges.items }
    requires few { workers ≤ 64 }
    ensures prints { PrintsFed tools.now.models.now K.Sink out.old out.new fed.now result }
    ensures network { mono ≡ false → PrintsFedByNetwork tools.now.models.now K.Sink out.old out.new fed.now result }
    ensures out { SinkWentOn K.Sink out.old out.new }
{
    if mono {
        print_run(tools.alloc, fed, tools.models, out)
    } else {
        print_fed(tools, fed, bridges, workers, out)
    }
}

// `run`: reads the circuit, the partition and the trace, and writes the text of the run of the circuit with the partition's pipes and bridges: by the
// simulator if `mono`, otherwise from the network of the cut, which this many workers run.
pub(crate) fn run<R: Threads + Sync, S: Shelf, K: Sink, G: Gate + Sync, B: Bridge + Send + Drop>(
    tools: &Tools<'_, R, G>,
    words: &FedWords<'_>,
    workers: u32,
    mono: bool,
    bridges: Vec<(Name, B)>,
    shelf: &mut S,
    out: &mut K,
) -> Result<(), Ending>
    requires capacity { IsCapacity words.now.capacity }
    requires few { workers ≤ 64 }
    requires handed { AreHandedIn tools.now.models.now }
    requires bridges { HaveModels B.piece B.state bridges.items tools.now.models.now }
    ensures did { Did tools.now.models.now (Run words.now.circuit.now words.now.partition.now words.now.trace.now words.now.capacity workers mono)
        (loads_of S.Shelf shelf.old shelf.new) (puts_of K.Sink out.old out.new) result }
    ensures shelf { ShelfWentOn S.Shelf shelf.old shelf.new }
    ensures out { SinkWentOn K.Sink out.old out.new }
{
    one_meaning();
    run_once();
    let fed = read_fed(tools.alloc, shelf, words, tools.models, false)?;
    print_text(tools, &fed, bridges, workers, mono, out)
}
