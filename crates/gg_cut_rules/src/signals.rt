//! What is listed, by places in the tree.
ghost use Rattle.std.specs.Prelude.{◌≡◌, [], ◌∷◌, if◌then◌else◌, ◌<◌, ◌^◌, ◌++◌, length, map, filter, OnOk, IfOk, IfErr};
ghost use Rattle.std.specs.List.{range_with_len};
ghost use Rattle.gg_flat_tree.specs.Tree.{path_at};
ghost use Rattle.gg_cut_plan.specs.Listed.{instance_of, is_among};
ghost use Rattle.gg_cut_plan.specs.declared.fault.CutFault.TheVariants.{NoMemory};

use crate::overlap::place;
use crate::paths::{has, set_of};
use gg_bits::{Name, Paths};
use gg_cut_plan::CutFault;
use gg_flat_tree::Tree;
use std::alloc::{AllocError, Global};

// The instances with these paths.
//
// # Errors
//
// Returns `AllocError` if an allocation fails.
pub(crate) fn listed_units(
    alloc: Global,
    tree: &Tree,
    units: &[Name],
) -> Result<Vec<u32>, AllocError>
    requires some { 0 < length tree.now.instances }
    ensures units { IfOk result (λ found. found.items ≡ map (instance_of tree.now) units.now) }
{
    let mut found = Vec::new(alloc);
    for path in units {
        found.push(place(tree, path))?;
    }
    Ok(found)
}

// The places of the listed memories, in the order of the tree.
//
// # Errors
//
// Returns `NoMemory` if an allocation fails.
pub(crate) fn listed_memories(
    alloc: Global,
    tree: &Tree,
    memories: &[Name],
) -> Result<Vec<u32>, CutFault>
    requires few { length memories.now < 2 ^ 32 }
    ensures memories { IfOk result (λ found. found.items ≡ filter (λ j. is_among memories.now (path_at tree.now.memory_paths j)) (range_with_len 0 (length tree.now.memories))) }
    ensures few { IfOk result (λ found. length found.items < 2 ^ 32) }
    ensures err { IfErr result (λ cause. cause ≡ NoMemory) }
{
    let set = set_of(alloc, memories)?;
    Ok(memories_in(alloc, &set, tree)?)
}

// The places of the memories with paths in a set.
fn memories_in(alloc: Global, set: &Paths, tree: &Tree) -> Result<Vec<u32>, AllocError>
    ensures memories { IfOk result (λ found. found.items ≡ filter (λ j. is_among set.now (path_at tree.now.memory_paths j)) (range_with_len 0 (length tree.now.memories))) }
    ensures few { IfOk result (λ found. length found.items < 2 ^ 32) }
{
    let mut found = Vec::new(alloc);
    for place in 0..tree.memory_count() {
        let chosen = has_memory(set, tree, place as u32);
        push_if(&mut found, place as u32, chosen)?;
    }
    Ok(found)
}

// Adds a number at the end, if it is chosen.
fn push_if(found: &mut Vec<u32>, number: u32, chosen: bool) -> Result<(), AllocError>
    ensures { OnOk result (found.new.items ≡ found.old.items ++ (if chosen then number ∷ [] else [])) }
{
    if chosen {
        found.push(number)?;
    }
    Ok(())
}

// Whether a memory's path is in a set.
fn has_memory(set: &Paths, tree: &Tree, place: u32) -> bool
    requires { place < length tree.now.memory_paths }
    ensures { result ≡ is_among set.now (path_at tree.now.memory_paths place) }
{
    match tree.memory_path(place) {
        Some(path) => has(set, path),
        None => false,
    }
}
