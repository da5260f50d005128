//! Instances and memories by their paths, and sets of paths.
ghost use Rattle.std.specs.Prelude.{◌≡◌, ℕ, List, ◌+◌, ◌-◌, ◌<◌, ◌≤◌, ◌^◌, ◌||◌, length, bytes_eq, IfOk, IfErr};
ghost use Rattle.gg_cut_plan.specs.Listed.{is_among, place_of, is_instance_path, is_memory_path};
ghost use Rattle.gg_cut_plan.specs.declared.fault.CutFault.TheVariants.{NoMemory};

use gg_bits::{AddError, Name, Paths};
use gg_cut_plan::CutFault;
use gg_flat_tree::Tree;
use std::alloc::Global;

// The place of the instance with a path.
pub(crate) fn instance(tree: &Tree, path: &Name) -> Option<u32>
    ensures { result ≡ place_of tree.now.paths path.now }
{
    // for the invariant only
    let _ = tree.len();
    tree.find(path)
}

// The place in the tree of the memory with a path.
pub(crate) fn memory(tree: &Tree, path: &Name) -> Option<u32>
    ensures { result ≡ place_of tree.now.memory_paths path.now }
{
    // for the invariant only
    let _ = tree.memory_count();
    tree.find_memory(path)
}

// Whether a path is an instance's. The top's path isn't.
pub(crate) fn is_instance(tree: &Tree, path: &Name) -> bool
    ensures { result ≡ is_instance_path tree.now path.now }
{
    match instance(tree, path) {
        Some(place) => place > 0,
        None => false,
    }
}

// Whether a path is a memory's.
pub(crate) fn is_memory(tree: &Tree, path: &Name) -> bool
    ensures { result ≡ is_memory_path tree.now path.now }
{
    memory(tree, path).is_some()
}

// Whether a path is in a set.
pub(crate) fn has(set: &Paths, path: &Name) -> bool
    ensures { result ≡ is_among set.now path.now }
{
    match set.find(path) {
        Some(_) => true,
        None => false,
    }
}

// The paths of a list, as a set.
//
// # Errors
//
// Returns `NoMemory` if an allocation fails.
pub(crate) fn set_of(alloc: Global, paths: &[Name]) -> Result<Paths, CutFault>
    requires few { length paths.now < 2 ^ 32 }
    ensures same { IfOk result (λ set. (path : List ℕ) → is_among set path ≡ is_among paths.now path) }
    ensures err { IfErr result (λ cause. cause ≡ NoMemory) }
{
    let mut set = Paths::new(alloc);
    for path in paths {
        include(&mut set, path)?;
    }
    Ok(set)
}

// Adds a path to a set, if it isn't there yet.
fn include(set: &mut Paths, path: &Name) -> Result<(), CutFault>
    requires few { length set.old < 2 ^ 32 - 1 }
    ensures same { IfOk result (λ _. (other : List ℕ) → is_among set.new other ≡ (is_among set.old other || bytes_eq other path.now)) }
    ensures few { IfOk result (λ _. length set.new ≤ length set.old + 1) }
    ensures err { IfErr result (λ cause. cause ≡ NoMemory) }
{
    match set.add(path.clone()?) {
        Ok(()) | Err(AddError::Doubled) => Ok(()),
        Err(AddError::NoMemory) => Err(CutFault::NoMemory),
    }
}

// A copy of a path.
//
// # Errors
//
// Returns `NoMemory` if an allocation fails.
pub(crate) fn copied(path: &Name) -> Result<Name, CutFault>
    ensures copy { IfOk result (λ copy. copy ≡ path.now) }
    ensures err { IfErr result (λ cause. cause ≡ NoMemory) }
{
    Ok(path.clone()?)
}
