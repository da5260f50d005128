//! `types`: the first fault of a circuit's types, or the circuit with its names' types.
ghost use Rattle.std.specs.Prelude.{◌≡◌, ◌<◌, ◌++◌, ◌∷◌, ℕ, List, [], IfOk, length, flat_map, take};
ghost use Rattle.gg_shape_names.specs.Modules.{module_at, Holds};
ghost use Rattle.gg_shape_names.specs.Namespace.{scope_of};
ghost use Rattle.gg_shape.specs.inside.Faults.{Answers};
ghost use Rattle.gg_shape.specs.Judged.{IsShaped};
ghost use Rattle.gg_shape.specs.Rings.{HasNoRing};
ghost use Rattle.gg_types.specs.Clocks.{leads_to_input};
ghost use Rattle.gg_types.specs.inside.Typed.{TellsOwn, TellModules, TellsClocks, TellAllClocks};
ghost use Rattle.gg_types.specs.Types.{module_type_faults, faults_of_module, type_faults};
ghost use Rattle.gg_graph.specs.inside.Graph.{IsOrderOf};
ghost use Rattle.gg_graph.specs.Graph.{IsRing};

use crate::clocks::{Traces, trace};
use crate::known::Known;
use crate::module::judge_all;
use gg_ast::{Circuit, Module};
use gg_bits::Items;
use gg_graph::{Graph, WalkFault, walk};
use gg_shape::CheckFault;
use gg_shape_names::{NamesFault, Namespace};
use gg_types::{Own, Typed};
use std::alloc::{AllocError, Global};

/// The error of `types` and `typed`.
pub type TypeFault = CheckFault;

/// Checks a circuit for the faults F9 to F14, and returns it with its names' types. The circuit must have none of the
/// faults F1 to F8: `gg_shape::shape` checks these before.
///
/// # Errors
///
/// Returns `CheckFault::F` with the first of F9 to F14 in the order of the text. Returns `CheckFault::NoMemory` if an
/// allocation fails.
pub fn types<'a>(alloc: Global, circuit: &'a Circuit) -> Result<Typed<'a>, TypeFault>
    requires shaped { IsShaped circuit.now }
    ensures answers { Answers (type_faults circuit.now) result }
    ensures circuit { IfOk result (λ t. t.circuit ≡ circuit.now) }
{
    match Namespace::of(alloc, circuit) {
        Ok(names) => typed(alloc, names),
        Err(NamesFault::Repeated(_)) => unreachable!(),
        Err(NamesFault::NoMemory) => Err(CheckFault::NoMemory),
    }
}

/// Does what `types` does, for the names of a circuit that are already collected.
///
/// # Errors
///
/// Returns `CheckFault::F` with the first of F9 to F14 in the order of the text. Returns `CheckFault::NoMemory` if an
/// allocation fails.
pub fn typed<'a>(alloc: Global, names: Namespace<'a>) -> Result<Typed<'a>, TypeFault>
    requires shaped { IsShaped names }
    ensures answers { Answers (type_faults names.entry) result }
    ensures circuit { IfOk result (λ t. t.circuit ≡ names.entry) }
{
    let Tables { own, clocks } = judge_modules(alloc, &names)?;
    let order = module_order(alloc, &names)?;
    Ok(Typed::new(names, own, clocks, order))
}

// The order of the modules, each after all that it has instances of.
fn module_order(alloc: Global, names: &Namespace) -> Result<Vec<u32>, CheckFault>
    requires free { HasNoRing names.now }
    ensures order { IfOk result (λ order. IsOrderOf (Holds names.now.modules) (length names.now.modules) order.items) }
    ensures answers { Answers [] result }
{
    match walk(alloc, names) {
        Ok(order) => Ok(order),
        Err(WalkFault::Ring(_)) => unreachable!(),
        Err(WalkFault::NoMemory) => Err(CheckFault::NoMemory),
    }
}

// For each module, by its place, the type data of its names, and the Clock inputs that they lead to.
#[derive(Drop)]
struct Tables {
    own: Vec<Items<Own>>,
    clocks: Vec<Items<Option<u32>>>,
}

// The type data of the names of one module, and the Clock inputs that they lead to.
#[derive(Drop)]
struct Judged {
    own: Vec<Own>,
    clocks: Vec<Option<u32>>,
}

// Returns what is known of the modules' names, or fails with the first fault in the order of the modules.
fn judge_modules(alloc: Global, names: &Namespace) -> Result<Tables, CheckFault>
    ensures answers { Answers (type_faults names.now) result }
    ensures own { IfOk result (λ tables. TellModules names.now.modules (length names.now.modules) tables.own.items) }
    ensures clocks { IfOk result (λ tables. TellAllClocks names.now.modules (length names.now.modules) tables.clocks.items) }
{
    let mut tables = Tables {
        own: Vec::new(alloc),
        clocks: Vec::new(alloc),
    };
    for number in 0..names.node_count() {
        let judged = judge_module(alloc, names, number)?;
        add_module(&mut tables, judged)?;
    }
    Ok(tables)
}

// Adds what is known of the names of the next module.
fn add_module(tables: &mut Tables, judged: Judged) -> Result<(), AllocError>
    ensures own { IfOk result (λ _. tables.new.own.items ≡ tables.old.own.items ++ judged.own.items ∷ []) }
    ensures clocks { IfOk result (λ _. tables.new.clocks.items ≡ tables.old.clocks.items ++ judged.clocks.items ∷ []) }
{
    let Judged { own, clocks } = judged;
    add_list(&mut tables.own, own)?;
    add_list(&mut tables.clocks, clocks)
}

// Adds a list as the last.
fn add_list<T: Drop>(lists: &mut Vec<Items<T>>, list: Vec<T>) -> Result<(), AllocError>
    ensures { IfOk result (λ _. lists.new.items ≡ lists.old.items ++ list.items ∷ []) }
{
    lists.push(Items::from(list))?;
    Ok(())
}

// Returns what is known of a module's names, or fails with its first fault.
fn judge_module(alloc: Global, names: &Namespace, number: u32) -> Result<Judged, CheckFault>
    requires { number < length names.now.modules }
    ensures answers { Answers (faults_of_module names.now.modules (module_at names.now.modules number)) result }
    ensures own { IfOk result (λ judged. TellsOwn names.now.modules (module_at names.now.modules number) judged.own.items) }
    ensures clocks { IfOk result (λ judged. TellsClocks (module_at names.now.modules number) judged.clocks.items) }
{
    let here = module_of(names, number);
    let Traces { flags, clocks } = trace(alloc, names, number)?;
    let mut known = Known {
        names,
        number,
        traced: flags,
        own: Vec::new(alloc),
    };
    judge_all(alloc, &mut known, here.ports(), here.statements())?;
    Ok(Judged {
        own: known.own,
        clocks,
    })
}

// The module at a place.
pub(crate) fn module_of<'a>(names: &Namespace<'a>, number: u32) -> &'a Module
    requires { number < length names.now.modules }
    ensures { result.now ≡ module_at names.now.modules number }
{
    &names.circuit().modules()[number as usize]
}
