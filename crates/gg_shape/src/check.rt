//! `shape`: finds a fault of a circuit's shape.
ghost use Rattle.std.specs.Prelude.{◌≡◌, ◌++◌, IfOk};
ghost use Rattle.std.specs.List.{list_any};
ghost use Rattle.std.specs.Str.{bytes_eq};
ghost use Rattle.gg_shape.specs.inside.Faults.{Answers};
ghost use Rattle.gg_shape.specs.inside.Judged.{AnswersShape, AnswersFrom, reference_faults};
ghost use Rattle.gg_shape.specs.Shape.{in_modules, missing_top, repeated_names, unknown_names, second_connections, unconnected_sinks, connected_sources};

use crate::connections::{check_second, check_sources};
use crate::fault::{CheckFault, Fault};
use crate::memories::check_memories;
use crate::references::check_references;
use crate::rings::check_rings;
use crate::unconnected::check_unconnected;
use gg_ast::Circuit;
use gg_shape_names::{NamesFault, Namespace};
use std::alloc::Global;

/// The error of `shape` and `shaped`.
pub type ShapeFault = CheckFault;

/// Checks a circuit for the faults F1 to F8. Returns Ok exactly if it has none of them.
///
/// # Errors
///
/// Returns `CheckFault::F` with a fault of the least number that the circuit has: for F1 to F6 and F8 the first in the
/// order of the text, for F7 any ring. Returns `CheckFault::NoMemory` if an allocation fails or the circuit has
/// 4,294,967,296 modules or more.
pub fn shape(alloc: Global, circuit: &Circuit) -> Result<(), ShapeFault>
    ensures { AnswersShape circuit.now result }
{
    match shaped(alloc, circuit) {
        Ok(_) => Ok(()),
        Err(fault) => Err(fault),
    }
}

/// Checks a circuit as `shape` does, and returns its namespace if it has none of these faults.
///
/// # Errors
///
/// Returns the same errors as `shape`.
pub fn shaped<'a>(alloc: Global, circuit: &'a Circuit) -> Result<Namespace<'a>, ShapeFault>
    ensures answers { AnswersShape circuit.now result }
    ensures names { IfOk result (λ names. names ≡ circuit.now) }
{
    check_top(circuit)?;
    let names = namespace_of(alloc, circuit)?;
    match check_names(alloc, &names) {
        Ok(()) => Ok(names),
        Err(fault) => Err(fault),
    }
}

// Refuses a circuit if none of its modules has its name.
fn check_top(circuit: &Circuit) -> Result<(), CheckFault>
    ensures { Answers (missing_top circuit.now) result }
{
    if has_top(circuit) {
        return Ok(());
    }
    Err(CheckFault::F(Fault::MissingTop {
        name: circuit.name().clone()?,
    }))
}

// Whether a module has the circuit's name.
fn has_top(circuit: &Circuit) -> bool
    ensures { result ≡ list_any (λ m. bytes_eq circuit.now.name m.name) circuit.now.modules }
{
    for module in circuit.modules() {
        if circuit.name().as_str() == module.name().as_str() {
            return true;
        }
    }
    false
}

// The names of the circuit; fails at the first that comes twice.
fn namespace_of<'a>(alloc: Global, circuit: &'a Circuit) -> Result<Namespace<'a>, CheckFault>
    ensures answers { Answers (repeated_names circuit.now) result }
    ensures names { IfOk result (λ names. names ≡ circuit.now) }
{
    match Namespace::of(alloc, circuit) {
        Ok(names) => Ok(names),
        Err(NamesFault::Repeated(repetition)) => Err(CheckFault::F(Fault::RepeatedName {
            line: repetition.line,
            name: repetition.name,
        })),
        Err(NamesFault::NoMemory) => Err(CheckFault::NoMemory),
    }
}

// Refuses a circuit with a fault of F3 to F8.
fn check_names(alloc: Global, names: &Namespace) -> Result<(), CheckFault>
    ensures { AnswersFrom (reference_faults names.now) names.now result }
{
    check_references(alloc, names)?;
    check_connections(alloc, names)?;
    check_rings(alloc, names)?;
    check_memories(names.circuit())
}

// Refuses a circuit with a fault of F4 to F6.
fn check_connections(alloc: Global, names: &Namespace) -> Result<(), CheckFault>
    ensures { Answers (in_modules second_connections names.now ++ (in_modules unconnected_sinks names.now ++ in_modules connected_sources names.now)) result }
{
    let all = check_second(alloc, names)?;
    check_unconnected(alloc, names, all.as_slice())?;
    check_sources(alloc, names)
}
