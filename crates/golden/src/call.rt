//! The top call.
ghost use Rattle.std.specs.Prelude.{◌≡◌, []};
ghost use Rattle.gg_words.specs.Meaning.{IsCommand, texts};
ghost use Rattle.gg_words.specs.inside.Range.{AreInRange};
ghost use Rattle.gg_words.specs.declared.command.Cmd.{Cmd};
ghost use Rattle.golden_commands.specs.Bridges.{CanHandIn, models_in};
ghost use Rattle.golden_commands.specs.inside.Bridges.{HaveModels};
ghost use Rattle.golden_commands.specs.Handed.{AreHandedIn};
ghost use Rattle.golden_commands.specs.inside.Outcome.{CallEnded, Did, IsByNetwork};
ghost use Rattle.gg_io.specs.inside.Endings.{said_by};
ghost use Rattle.gg_io.specs.Ends.{Reports, loads_of, puts_of};
ghost use Rattle.golden_commands.specs.Promised.{Promised};
ghost use Rattle.gg_io.specs.WentOn.{ShelfWentOn, SinkWentOn};

use crate::check::check;
use crate::demo::demo;
use crate::laws::{refusals_are_exact, resumed_runs_go_on};
use crate::replay::replay;
use crate::resume::resume;
use crate::run::run;
use crate::save::save;
use gg_bits::Name;
use gg_bridge::Bridge;
use gg_io::{Ending, Gate, Shelf, Sink, report};
use gg_partfile::one_answer;
use gg_words::{Cmd, numbers_are_in_range, one_meaning, words};
use golden_commands::{FedWords, Tools, end_at_words, models_of};
use std::alloc::Global;
use std::thread::Threads;

// Does a command.
fn do_command<R: Threads + Sync, S: Shelf, K: Sink, G: Gate + Sync, B: Bridge + Send + Drop>(
    tools: &Tools<'_, R, G>,
    cmd: &Cmd,
    bridges: Vec<(Name, B)>,
    shelf: &mut S,
    out: &mut K,
) -> Result<(), Ending>
    requires range { AreInRange cmd.now }
    requires handed { AreHandedIn tools.now.models.now }
    requires bridges { HaveModels B.piece B.state bridges.items tools.now.models.now }
    ensures did { Did tools.now.models.now cmd.now (loads_of S.Shelf shelf.old shelf.new) (puts_of K.Sink out.old out.new) result }
    ensures shelf { ShelfWentOn S.Shelf shelf.old shelf.new }
    ensures out { SinkWentOn K.Sink out.old out.new }
{
    let alloc = tools.alloc;
    let models = tools.models;
    match cmd {
        Cmd::Run {
            circuit,
            partition,
            trace,
            capacity,
            workers,
            mono,
        } => {
            let words = FedWords::new(circuit, partition, trace, *capacity);
            run(tools, &words, *workers, *mono, bridges, shelf, out)
        }
        Cmd::Replay {
            circuit,
            partition,
            trace,
            steps,
            capacity,
        } => {
            let words = FedWords::new(circuit, partition, trace, *capacity);
            replay(alloc, &words, steps.as_str(), models, bridges, shelf, out)
        }
        Cmd::Check {
            circuit,
            partition,
            capacity,
        } => {
            let circuit = circuit.as_str();
            let partition = partition.as_str();
            check(alloc, circuit, partition, *capacity, models, shelf, out)
        }
        Cmd::Demo {
            seed,
            size,
            workers,
        } => demo(tools, *seed, *size, *workers, out),
        Cmd::Save {
            circuit,
            partition,
            trace,
            at,
            capacity,
            workers,
        } => {
            let words = FedWords::new(circuit, partition, trace, *capacity);
            save(tools, &words, *at, *workers, shelf, out)
        }
        Cmd::Resume {
            circuit,
            partition,
            trace,
            snap,
            capacity,
            workers,
        } => {
            let words = FedWords::new(circuit, partition, trace, *capacity);
            resume(tools, &words, snap.as_str(), *workers, shelf, out)
        }
    }
}

// Does a command, with bridges that are handed in.
fn do_handed<R: Threads + Sync, S: Shelf, K: Sink, G: Gate + Sync, B: Bridge + Send + Drop>(
    rt: &R,
    alloc: Global,
    cmd: &Cmd,
    bridges: Vec<(Name, B)>,
    shelf: &mut S,
    out: &mut K,
    gate: &G,
) -> Result<(), Ending>
    requires range { AreInRange cmd.now }
    requires bridges { CanHandIn B.piece B.state bridges.items }
    ensures did { Did (models_in B.piece bridges.items) cmd.now (loads_of S.Shelf shelf.old shelf.new) (puts_of K.Sink out.old out.new) result }
    ensures shelf { ShelfWentOn S.Shelf shelf.old shelf.new }
    ensures out { SinkWentOn K.Sink out.old out.new }
{
    let models = models_of(alloc, bridges.as_slice())?;
    let tools = Tools {
        rt,
        alloc,
        models: &models,
        gate,
    };
    do_command(&tools, cmd, bridges, shelf, out)
}

// Does the command of the words.
fn command<R: Threads + Sync, S: Shelf, K: Sink, G: Gate + Sync, B: Bridge + Send + Drop>(
    rt: &R,
    alloc: Global,
    given: &[String],
    bridges: Vec<(Name, B)>,
    shelf: &mut S,
    out: &mut K,
    gate: &G,
) -> Result<(), Ending>
    requires { CanHandIn B.piece B.state bridges.items }
    ensures ended { CallEnded (models_in B.piece bridges.items) (texts given.now) (loads_of S.Shelf shelf.old shelf.new) (puts_of K.Sink out.old out.new) result }
    ensures network { (asked : Cmd) → IsCommand (texts given.now) asked
        → IsByNetwork (models_in B.piece bridges.items) asked (loads_of S.Shelf shelf.old shelf.new) (puts_of K.Sink out.old out.new) (said_by result) }
    ensures shelf { ShelfWentOn S.Shelf shelf.old shelf.new }
    ensures out { SinkWentOn K.Sink out.old out.new }
{
    numbers_are_in_range();
    match words(alloc, given) {
        Ok(cmd) => do_handed(rt, alloc, &cmd, bridges, shelf, out, gate),
        Err(fault) => Err(end_at_words(alloc, &fault)),
    }
}

// Writes the line on how a command ended, if it didn't write its whole text. Returns the command's status, even if the
// line can't be written.
fn status_of<E: Sink>(ended: &Result<(), Ending>, err: &mut E) -> u8
    ensures status { result ≡ (said_by ended.now).status }
    ensures line { Reports (puts_of E.Sink err.old err.new) (said_by ended.now).line }
    ensures err { SinkWentOn E.Sink err.old err.new }
{
    match ended {
        Ok(()) => 0,
        Err(ending) => report(ending, err),
    }
}

/// A call of the program. Does the command of the words, with files from `shelf`. Writes the text to `out`, and at most one line to `err`, which the
/// usage of each command may follow. Returns the status. The first word is the program's own name. All memory comes from `alloc`: the files, one at a
/// time, what is built from them, and the lines of refusals. If an allocation fails the status is 5.
///
/// The commands:
///
/// - `run CIRCUIT PARTITION TRACE` writes the text of the run on the trace of the circuit with the partition's pipes: a header, then a row for each
///   cycle, up to the first one where a stop acts. A cycle is a base tick. Each clock has an edge in the ticks of the ratio that the partition gives
///   it, or in each tick. A stop acts if its condition is one and its clock has an edge. `run` runs the network of the cut, up to 1,024 cycles before
///   their rows are written: by its workers, each in a thread of `rt`, and then by steps in the fixed order. With `--mono` it runs the simulator.
///   Only the workers call the gate.
/// - `replay CIRCUIT PARTITION TRACE STEPS` does the steps of a file, one after another, on the network of the cut, beginning before its first cycle.
///   It writes a line for each channel, with the number of tokens that were put, the number that were taken, and the tokens that it had so far.
/// - `check CIRCUIT PARTITION` writes a line for each machine of the cut, then one for each channel.
/// - `demo SEED SIZE` makes a circuit, a partition and a trace, runs their network and writes a summary.
/// - `save CIRCUIT PARTITION TRACE AT` runs the network up to cycle AT, and writes the snapshot of the state before that cycle. It is the state of
///   the circuit with the pipes, and doesn't depend on the rest of the partition.
/// - `resume CIRCUIT PARTITION TRACE SNAP` runs the network from the cycle and the state of a snapshot. It writes the header and the rows starting at
///   that cycle, again up to the first one where a stop acts.
///
/// The statuses:
///
/// - 0: the text was written whole;
/// - 1: the circuit has a fault; nothing was written;
/// - 2: the words aren't a command; nothing was written;
/// - 3: a load failed, which the shelf counts as a fault; nothing was written;
/// - 4: a put on `out` failed, which `out` counts as a fault; a first part of the text was written;
/// - 5: an allocation failed; nothing or a first part of the text was written;
/// - 6: the partition has a fault for the circuit, which has none, or it has a bridge for `save` or `resume`; nothing was written;
/// - 7: the trace has a fault, and the files before it have none; nothing was written;
/// - 8: a file is longer than its limit; nothing was written;
/// - 9: a step of the steps file may not be done after the steps before it, and the files before it have no fault; nothing was written;
/// - 10: the run of `save` has no state before cycle AT, because a stop ends it or the trace is too short. Or the file for `resume` isn't the text of
///   a snapshot of the circuit with the pipes, or its cycle is later than the trace has rows. The files before it have no fault; nothing was written.
///
/// If the files are known and no load or put fails, the files and the words determine the status, unless it is 5.
///
/// No bridge is handed in, and so a partition with a bridge is refused.
///
/// # Examples
///
/// The words are `golden run counter.fir whole.json counter.trace`, and the shelf has these files of examples/.
///
/// ```text
/// golden(&rt, alloc, &words, &mut shelf, &mut out, &mut err, &NoGate)  // 0
/// // On `out`: "cycle out\n0 00\n1 00\n2 01\n3 02\n". On `err`: nothing.
/// ```
///
/// With only the words `golden run` the status is 2. Then nothing is on `out`, and on `err` a line with the fault and the usage.
pub fn golden<R: Threads + Sync, S: Shelf, K: Sink, E: Sink, G: Gate + Sync>(
    rt: &R,
    alloc: Global,
    words: &[String],
    shelf: &mut S,
    out: &mut K,
    err: &mut E,
    gate: &G,
) -> u8
    ensures promised { Promised [] (texts words.now) (loads_of S.Shelf shelf.old shelf.new) (puts_of K.Sink out.old out.new) (puts_of E.Sink err.old err.new) result }
    ensures shelf { ShelfWentOn S.Shelf shelf.old shelf.new }
    ensures out { SinkWentOn K.Sink out.old out.new }
    ensures err { SinkWentOn E.Sink err.old err.new }
{
    golden_with(rt, alloc, words, shelf, out, err, gate, Vec::new(alloc))
}

/// A call as of `golden`, with these bridges handed in, each with its name. A partition may list some of them, each for outputs of the circuit's top
/// that it sees and for inputs that it drives: in each cycle such an input has the value that the bridge says, and the bridge answers what it sees
/// with its next state. The trace has no columns for those inputs, and the outputs that bridges see aren't written. The text is the text of the run
/// of the circuit with the models of the bridges in it. With `--mono` the models are simulated, and no bridge is called. `save` and `resume` take
/// only a partition without bridges.
///
/// The names of the bridges differ. Each has at least one ASCII letter, digit or `_`, and no other byte. Each bridge is in the state of zeros, and
/// their models have at most 4,000,000,000 signals together. Models are copied, with memory of `alloc`. Each bridge is called by one worker at a
/// time, or dropped.
///
/// # Examples
///
/// The words are `golden run ping.fir echo.json ping.trace`, and the shelf has these files of examples/bridges/. The partition lists `echo8`, which
/// sees `send` and drives `back`. `bridges` has an `Echo` of 8 bits with this name.
///
/// ```text
/// golden_with(&rt, alloc, &words, &mut shelf, &mut out, &mut err, &NoGate, bridges)  // 0
/// // On `out`: "cycle count\n0 00\n1 01\n2 01\n3 02\n4 02\n5 03\n6 03\n7 04\n". On `err`: nothing.
/// ```
///
/// Without bridges in the list the status is 6.
pub fn golden_with<R: Threads + Sync, S: Shelf, K: Sink, E: Sink, G: Gate + Sync>(
    rt: &R,
    alloc: Global,
    words: &[String],
    shelf: &mut S,
    out: &mut K,
    err: &mut E,
    gate: &G,
    bridges: Vec<(Name, Box<dyn Bridge + Send + Drop>)>,
) -> u8
    requires bridges { CanHandIn piece state bridges.items }
    ensures promised { Promised (models_in piece bridges.items) (texts words.now) (loads_of S.Shelf shelf.old shelf.new) (puts_of K.Sink out.old out.new) (puts_of E.Sink err.old err.new) result }
    ensures shelf { ShelfWentOn S.Shelf shelf.old shelf.new }
    ensures out { SinkWentOn K.Sink out.old out.new }
    ensures err { SinkWentOn E.Sink err.old err.new }
{
    refusals_are_exact();
    resumed_runs_go_on();
    one_meaning();
    one_answer();
    let ended = command(rt, alloc, words, bridges, shelf, out, gate);
    status_of(&ended, err)
}
