//! Reading of a circuit and a trace.
ghost use Rattle.std.specs.Prelude.{◌≡◌, ◌≢◌, ℕ, List, IfOk, IfErr, string_bytes};
ghost use Rattle.gg_front.specs.Fault.{front_text};
ghost use Rattle.gg_front.specs.Meaning.{MeansDesign};
ghost use Rattle.gg_front.specs.declared.fault.FrontFault.TheVariants as front;
ghost use Rattle.gg_part.specs.KeepsToTree.{KeepsToTree};
ghost use Rattle.gg_cut_plan.specs.Held.{AreHeldOnce};
ghost use Rattle.gg_cut_reference.specs.Made.{AllHeld};
ghost use Rattle.gg_trace.specs.declared.faults.TraceFault.TheVariants.{NoMemory};
ghost use Rattle.gg_trace.specs.FaultText.{fault_words};
ghost use Rattle.gg_trace.specs.Trace.{HaveWidths};
ghost use Rattle.golden_commands.specs.Lines.{circuit_fault, trace_fault};
ghost use Rattle.gg_io.specs.Order.{CanBe};
ghost use Rattle.golden_commands.specs.Run.{TellsTraceOf, circuit_file};
ghost use Rattle.golden_commands.specs.inside.Run.{trace_file_of};
ghost use Rattle.golden_commands.specs.RunText.{FeedsOnly, fed_ports};
ghost use Rattle.gg_io.specs.inside.Endings.{IfRefused, IsRefusedBy};
ghost use Rattle.gg_io.specs.Ends.{loads_of};
ghost use Rattle.gg_io.specs.WentOn.{ShelfWentOn};

use crate::ports::fed_ports;
use gg_bits::{CIRCUIT_LIMIT, TRACE_LIMIT};
use gg_front::{FrontFault, front};
use gg_io::{Ending, Shelf, end_with, load, make_refusal};
use gg_order::Design;
use gg_partfile::Request;
use gg_trace::{Trace, TraceFault, read_trace};
use std::alloc::{AllocError, Global};

// The text of a fault of a circuit.
fn fault_text(alloc: Global, fault: &FrontFault) -> Result<String, AllocError>
    ensures { IfOk result (λ text. string_bytes text ≡ front_text fault.now) }
{
    format!(in alloc; "{fault}")
}

// The ending for a circuit with this fault of the front end.
fn end_at_circuit(alloc: Global, fault: &FrontFault) -> Ending
    ensures { IfRefused (λ said. (fault.now ≢ front.NoMemory) × (said ≡ circuit_fault (front_text fault.now))) result }
{
    if let FrontFault::NoMemory = fault {
        return Ending::NoMemory;
    }
    match fault_text(alloc, fault) {
        Ok(text) => end_with(make_refusal(alloc, 1, "golden: circuit: ", text.as_str(), "")),
        Err(_) => Ending::NoMemory,
    }
}

// The design of the circuit's file.
pub(crate) fn load_circuit<S: Shelf>(
    alloc: Global,
    shelf: &mut S,
    name: &str,
) -> Result<Design, Ending>
    ensures accepted { IfOk result (λ design. (bytes : List ℕ) × CanBe (S.files shelf.old) (circuit_file name.now) bytes × MeansDesign bytes design) }
    ensures keeps { IfOk result (λ design. KeepsToTree design.circuit design.tree) }
    ensures held { IfOk result (λ design. AreHeldOnce design.circuit) }
    ensures whole { IfOk result (λ design. AllHeld design.circuit) }
    ensures refused { IfErr result (IfRefused (IsRefusedBy (loads_of S.Shelf shelf.old shelf.new) (circuit_file name.now))) }
    ensures shelf { ShelfWentOn S.Shelf shelf.old shelf.new }
{
    let bytes = load(alloc, shelf, name, CIRCUIT_LIMIT)?;
    match front(alloc, bytes.as_slice()) {
        Ok(design) => Ok(design),
        Err(fault) => Err(end_at_circuit(alloc, &fault)),
    }
}

// The ending for a trace with this fault.
fn end_at_trace(alloc: Global, fault: TraceFault) -> Ending
    ensures { IfRefused (λ said. (fault ≢ NoMemory) × (said ≡ trace_fault (fault_words fault))) result }
{
    if let TraceFault::NoMemory = fault {
        return Ending::NoMemory;
    }
    match format!(in alloc; "{fault}") {
        Ok(text) => end_with(make_refusal(alloc, 7, "golden: trace: ", text.as_str(), "")),
        Err(_) => Ending::NoMemory,
    }
}

/// The columns that the bytes of a trace give the inputs of a circuit that no bridge of a request drives.
///
/// # Errors
///
/// Returns what is reported for the trace (status 7), or `NoMemory` if an allocation fails.
pub fn inputs_of(
    alloc: Global,
    bytes: &[u8],
    design: &Design,
    request: &Request,
) -> Result<Trace, Ending>
    ensures accepted { IfOk result (λ trace. FeedsOnly design.now.circuit request.now bytes.now trace.rows trace.columns) }
    ensures widths { IfOk result (λ trace. HaveWidths (fed_ports design.now.circuit request.now) trace.rows trace.columns) }
    ensures refused { IfErr result (IfRefused (TellsTraceOf design.now.circuit request.now bytes.now)) }
{
    let ports = fed_ports(alloc, design.piece(), request)?;
    match read_trace(alloc, &ports, bytes) {
        Ok(trace) => Ok(trace),
        Err(fault) => Err(end_at_trace(alloc, fault)),
    }
}

// The columns that the trace's file gives these inputs.
pub(crate) fn read_inputs<S: Shelf>(
    alloc: Global,
    shelf: &mut S,
    name: &str,
    design: &Design,
    request: &Request,
) -> Result<Trace, Ending>
    ensures accepted { IfOk result (λ trace. (bytes : List ℕ) × CanBe (S.files shelf.old) (trace_file_of design.now.circuit request.now name.now) bytes
        × FeedsOnly design.now.circuit request.now bytes trace.rows trace.columns) }
    ensures widths { IfOk result (λ trace. HaveWidths (fed_ports design.now.circuit request.now) trace.rows trace.columns) }
    ensures refused { IfErr result (IfRefused (IsRefusedBy (loads_of S.Shelf shelf.old shelf.new) (trace_file_of design.now.circuit request.now name.now))) }
    ensures shelf { ShelfWentOn S.Shelf shelf.old shelf.new }
{
    let bytes = load(alloc, shelf, name, TRACE_LIMIT)?;
    inputs_of(alloc, bytes.as_slice(), design, request)
}
