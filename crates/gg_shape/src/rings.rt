//! F7: modules that have instances of each other in a ring.
ghost use Rattle.std.specs.Prelude.{◌≡◌, ◌<◌, ◌∷◌, ℕ, List, length, map, slice_index, IfOk};
ghost use Rattle.gg_shape_names.specs.Modules.{module_at};
ghost use Rattle.gg_shape.specs.Rings.{HasNoRing, IsRingOf, TellsRing, ring_names};
ghost use Rattle.gg_shape.specs.inside.Judged.{AnswersRing};

use crate::fault::{CheckFault, Fault};
use gg_ast::Circuit;
use gg_bits::{Name, Names};
use gg_graph::{WalkFault, walk};
use gg_shape_names::Namespace;
use std::alloc::{AllocError, Global};

// Refuses a circuit with a ring of modules; any one ring may be reported.
pub(crate) fn check_rings(alloc: Global, names: &Namespace) -> Result<(), CheckFault>
    ensures { AnswersRing names.now result }
{
    match walk(alloc, names) {
        Ok(_) => Ok(()),
        Err(WalkFault::Ring(ring)) => ring_fault(alloc, names.circuit(), ring.as_slice()),
        Err(WalkFault::NoMemory) => Err(CheckFault::NoMemory),
    }
}

// Refuses this ring.
fn ring_fault(alloc: Global, circuit: &Circuit, ring: &[u32]) -> Result<(), CheckFault>
    requires { IsRingOf circuit.now ring.now }
    ensures { AnswersRing circuit.now result }
{
    Err(CheckFault::F(Fault::ModuleRing {
        modules: names_of(alloc, circuit, ring)?,
    }))
}

// The names of the modules of a ring, the first repeated at the end.
fn names_of(alloc: Global, circuit: &Circuit, ring: &[u32]) -> Result<Names, AllocError>
    requires { (i : ℕ) → i < length ring.now → slice_index ring.now i < length circuit.now.modules }
    ensures { IfOk result (λ names. names ≡ ring_names circuit.now ring.now) }
{
    let mut names = names_at(alloc, circuit, ring)?;
    if let [first, ..] = ring {
        names.push(circuit.modules()[*first as usize].name().clone()?)?;
    }
    Ok(Names::from(names))
}

// The names of these modules.
fn names_at(alloc: Global, circuit: &Circuit, ring: &[u32]) -> Result<Vec<Name>, AllocError>
    requires { (i : ℕ) → i < length ring.now → slice_index ring.now i < length circuit.now.modules }
    ensures { IfOk result (λ names. names.items ≡ map (λ k. (module_at circuit.now.modules k).name) ring.now) }
{
    let mut names = Vec::new(alloc);
    for place in ring {
        names.push(circuit.modules()[*place as usize].name().clone()?)?;
    }
    Ok(names)
}
