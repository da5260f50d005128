//! The first files of a command: a circuit, a partition with its cut, and a trace.
ghost use Rattle.std.specs.Prelude.{◌≡◌, ◌≤◌, IfOk, IfErr};
ghost use Rattle.gg_words.specs.Range.{IsCapacity};
ghost use Rattle.golden_commands.specs.inside.Case.{CaseRead, FedRead, case_order, trace_order};
ghost use Rattle.golden_commands.specs.Commands.{asking};
ghost use Rattle.golden_commands.specs.Handed.{AreHandedIn};
ghost use Rattle.golden_commands.specs.inside.Runs.{upto};
ghost use Rattle.gg_io.specs.inside.Endings.{IfRefused, StopsBy};
ghost use Rattle.gg_io.specs.Ends.{loads_of};
ghost use Rattle.gg_io.specs.WentOn.{ShelfWentOn};

use crate::partition::{Cut, read_cut};
use crate::reading::{load_circuit, read_inputs};
use gg_bits::Name;
use gg_cut_plan::Models;
use gg_io::{Ending, Shelf};
use gg_order::Design;
use gg_trace::Trace;
use std::alloc::Global;

/// A design and a cut of it.
pub struct Case {
    /// The design.
    pub design: Design,
    /// The cut.
    pub cut: Cut,
}

impl Drop for Case {
    fn drop(self) {
        let Self { design, cut } = self;
        drop(design);
        drop(cut);
    }
}

/// A design and a cut of it, and a trace of the circuit's inputs.
pub struct Fed {
    /// The design and the cut.
    pub case: Case,
    /// The trace.
    pub trace: Trace,
}

impl Drop for Fed {
    fn drop(self) {
        let Self { case, trace } = self;
        drop(case);
        drop(trace);
    }
}

/// What the words of a command say of the first three files, and of the channels that the partition doesn't name.
#[derive(Clone, Copy)]
pub struct FedWords<'w> {
    /// The name of the circuit's file.
    pub circuit: &'w str,
    /// The name of the partition's file.
    pub partition: &'w str,
    /// The name of the trace's file.
    pub trace: &'w str,
    /// The capacity of the channels that the partition doesn't name.
    pub capacity: u32,
}

impl<'w> FedWords<'w> {
    /// These names, and this capacity.
    pub fn new(
        circuit: &'w Name,
        partition: &'w Name,
        trace: &'w Name,
        capacity: u32,
    ) -> FedWords<'w>
        ensures circuit { result.circuit.now ≡ circuit.now }
        ensures partition { result.partition.now ≡ partition.now }
        ensures trace { result.trace.now ≡ trace.now }
        ensures capacity { result.capacity ≡ capacity }
    {
        FedWords {
            circuit: circuit.as_str(),
            partition: partition.as_str(),
            trace: trace.as_str(),
            capacity,
        }
    }
}

impl Fed {
    /// The same case, with only the first rows of the trace. Does not allocate.
    pub fn upto(self, rows: u64) -> Fed
        requires { rows ≤ self.trace.rows }
        ensures { result ≡ upto rows self }
    {
        let Self { case, trace } = self;
        Fed {
            case,
            trace: trace.first_rows(rows),
        }
    }
}

/// Reads a circuit and a partition. These models of bridges are known, and `saves` is whether the command is `save` or `resume`.
///
/// # Errors
///
/// Returns what is reported for the first file that is refused: for the circuit with status 1, for the partition with
/// status 6, or that a file can't be loaded (3) or is too long (8). Returns `NoMemory` if an allocation fails.
pub fn read_case<S: Shelf>(
    alloc: Global,
    shelf: &mut S,
    circuit: &str,
    partition: &str,
    models: &Models,
    saves: bool,
    capacity: u32,
) -> Result<Case, Ending>
    requires capacity { IsCapacity capacity }
    requires handed { AreHandedIn models.now }
    ensures read { IfOk result (CaseRead (record { models = models.now; saves = saves }) (S.files shelf.old) (asking circuit.now partition.now capacity)) }
    ensures refused { IfErr result (IfRefused (StopsBy (loads_of S.Shelf shelf.old shelf.new) (case_order (record { models = models.now; saves = saves }) (asking circuit.now partition.now capacity)))) }
    ensures shelf { ShelfWentOn S.Shelf shelf.old shelf.new }
{
    let design = load_circuit(alloc, shelf, circuit)?;
    let cut = read_cut(alloc, shelf, partition, &design, models, saves, capacity)?;
    // for the invariant only
    let _ = design.order();
    let _ = design.piece();
    Ok(Case { design, cut })
}

/// Reads a circuit, a partition and a trace.
///
/// # Errors
///
/// Returns what is reported for the first file that is refused, as `read_case`, and for the trace with status 7. Returns `NoMemory` if an
/// allocation fails.
pub fn read_fed<S: Shelf>(
    alloc: Global,
    shelf: &mut S,
    words: &FedWords<'_>,
    models: &Models,
    saves: bool,
) -> Result<Fed, Ending>
    requires capacity { IsCapacity words.now.capacity }
    requires handed { AreHandedIn models.now }
    ensures read { IfOk result (FedRead (record { models = models.now; saves = saves }) (S.files shelf.old) (asking words.now.circuit.now words.now.partition.now words.now.capacity) words.now.trace.now) }
    ensures refused { IfErr result (IfRefused (StopsBy (loads_of S.Shelf shelf.old shelf.new)
        (trace_order (record { models = models.now; saves = saves })
        (asking words.now.circuit.now words.now.partition.now words.now.capacity) words.now.trace.now))) }
    ensures shelf { ShelfWentOn S.Shelf shelf.old shelf.new }
{
    let case = read_case(
        alloc,
        shelf,
        words.circuit,
        words.partition,
        models,
        saves,
        words.capacity,
    )?;
    let inputs = read_inputs(alloc, shelf, words.trace, &case.design, &case.cut.request)?;
    // for the invariant only: the limit on rows
    let _ = inputs.rows();
    Ok(Fed {
        case,
        trace: inputs,
    })
}
