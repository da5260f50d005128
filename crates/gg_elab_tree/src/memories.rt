//! The memories of the tree.
ghost use Rattle.std.specs.Prelude.{List, ◌≡◌, ◌≢◌, ◌<◌, ◌++◌, ◌∷◌, [], map, flat_map, length, IfOk, OnOk, All, AllPairs, Contains};
ghost use Rattle.gg_elab_sites.specs.Sites.{module_at, sites_of};
ghost use Rattle.gg_elab_sites.specs.Clocks.{port_clock as clock_of_port};
ghost use Rattle.gg_elab_sites.specs.Flat.{flat_memories};
ghost use Rattle.gg_elab_sites.specs.IsFlat.{memory_paths};
ghost use Rattle.gg_elab_sites.specs.Known.{types_of};
ghost use Rattle.gg_elab_sites.specs.inside.Views.{IsPlaceIn, AreDigests, site_of};
ghost use Rattle.gg_flat_tree.specs.Tree.{joined as joined_text};
ghost use Rattle.gg_elab_tree.specs.IsTreeOf.{Pairwise, HeldMemory, held_memories, site_paths as paths_of_sites, memories_of};
ghost use Rattle.gg_elab_tree.specs.inside.TreeParts.{IsMemoryPart, IsHeldFor, held_at_place, with_memories};

use crate::places::{copied, place_at};
use gg_bits::{AddError, Name, Names, Paths};
use gg_elab_sites::{Digest, OwnMemory, Place, Table, joined, port_clock};
use gg_flat_tree::{ClockNumbers, MemoryInstance, Tree};
use gg_types::Typed;
use std::alloc::{AllocError, Global};

// Adds copies of names.
fn add_names(names: &mut Vec<Name>, more: &[&Name]) -> Result<(), AllocError>
    ensures { OnOk result (names.new.items ≡ names.old.items ++ map (λ n. n.now) more.now) }
{
    for name in more {
        names.reserve(1)?;
        names.push_reserved(copied(name)?);
    }
    Ok(())
}

// Adds the Clock input that each of these ports of a memory follows, in the module at a place.
fn add_port_clocks(
    alloc: Global,
    typed: &Typed,
    digests: &[Digest],
    number: u32,
    memory: &Name,
    ports: &[&Name],
    clocks: &mut Vec<Option<u32>>,
) -> Result<(), AllocError>
    requires digests { AreDigests (types_of typed.now.circuit) typed.now.circuit.modules digests.now }
    requires there { number < length typed.now.circuit.modules }
    ensures { OnOk result (clocks.new.items ≡ clocks.old.items ++ map (λ n. clock_of_port (module_at typed.now.circuit.modules number) memory.now n.now) ports.now) }
{
    for port in ports {
        let clock = port_clock(alloc, typed, digests, number, memory, port)?;
        clocks.push(clock)?;
    }
    Ok(())
}

// Adds a memory with a path that no other memory has.
fn add_memory(tree: &mut Tree, path: Name, memory: MemoryInstance) -> Result<(), AllocError>
    requires fresh { ¬ Contains tree.old.memory_paths path }
    ensures { OnOk result (tree.new ≡ record tree.old { memory_paths = tree.old.memory_paths ++ path ∷ []; memories = tree.old.memories ++ memory ∷ [] }) }
{
    if tree.memory_count() >= u32::MAX as usize {
        return Err(AllocError);
    }
    match tree.add_memory(path, memory) {
        Ok(()) => Ok(()),
        Err(AddError::Doubled) => unreachable!(),
        Err(AddError::NoMemory) => Err(AllocError),
    }
}

// A memory of a site.
fn memory(
    alloc: Global,
    typed: &Typed,
    digests: &[Digest],
    table: &Table,
    paths: &Paths,
    place: &Place,
    own: &OwnMemory,
) -> Result<MemoryInstance, AllocError>
    requires digests { AreDigests (types_of typed.now.circuit) typed.now.circuit.modules digests.now }
    requires there { place.now.number < length typed.now.circuit.modules }
    requires holder { Contains paths.now place.now.path }
    requires number { Contains table.now.memories (joined_text place.now.path own.now.name.now) }
    ensures { IfOk result (IsMemoryPart paths.now table.now.memories (module_at typed.now.circuit.modules place.now.number) place.now.path own.now) }
{
    let holder = place_at(paths, &place.path);
    let path = joined(alloc, &place.path, own.name)?;
    let memory = place_at(&table.memories, &path);
    let readers = own.bank.readers.as_slice();
    let writers = own.bank.writers.as_slice();
    let mut names = Vec::new(alloc);
    add_names(&mut names, readers)?;
    add_names(&mut names, writers)?;
    let number = place.number;
    let mut clocks: Vec<Option<u32>> = Vec::new(alloc);
    add_port_clocks(
        alloc,
        typed,
        digests,
        number,
        own.name,
        readers,
        &mut clocks,
    )?;
    add_port_clocks(
        alloc,
        typed,
        digests,
        number,
        own.name,
        writers,
        &mut clocks,
    )?;
    Ok(MemoryInstance {
        instance: holder,
        memory,
        ports: Names::from(names),
        clocks: ClockNumbers::from(clocks),
    })
}

// Adds these memories of a site.
fn add_site_memories(
    alloc: Global,
    typed: &Typed,
    digests: &[Digest],
    table: &Table,
    paths: &Paths,
    place: &Place,
    memories: &[OwnMemory],
    tree: &mut Tree,
) -> Result<(), AllocError>
    requires digests { AreDigests (types_of typed.now.circuit) typed.now.circuit.modules digests.now }
    requires there { place.now.number < length typed.now.circuit.modules }
    requires distinct { AllPairs (λ a b. a ≢ b) (tree.old.memory_paths ++ map (λ m. joined_text place.now.path m.name.now) memories.now) }
    requires holder { Contains paths.now place.now.path }
    requires numbers { All (λ own. Contains table.now.memories (joined_text place.now.path own.name.now)) memories.now }
    ensures names { OnOk result (tree.new.memory_paths ≡ tree.old.memory_paths ++ map (λ m. joined_text place.now.path m.name.now) memories.now) }
    ensures made { OnOk result ((said : List HeldMemory) → paths.now ≡ paths_of_sites typed.now.circuit
        → table.now.memories ≡ memory_paths (memories_of typed.now.circuit)
        → Pairwise (IsHeldFor typed.now.circuit) said tree.old.memories
        → Pairwise (IsHeldFor typed.now.circuit) (said
        ++ map (held_at_place typed.now.circuit.modules place.now) memories.now) tree.new.memories) }
    ensures rest { OnOk result (tree.new ≡ with_memories tree.old tree.new.memory_paths tree.new.memories) }
{
    for own in memories {
        let made = memory(alloc, typed, digests, table, paths, place, own)?;
        let path = joined(alloc, &place.path, own.name)?;
        add_memory(tree, path, made)?;
    }
    Ok(())
}

// Adds the memories of all sites.
//
// # Errors
//
// Returns `AllocError` if an allocation fails.
pub(crate) fn add_memories(
    alloc: Global,
    typed: &Typed,
    table: &Table,
    paths: &Paths,
    digests: &[Digest],
    places: &[Place],
    tree: &mut Tree,
) -> Result<(), AllocError>
    requires digests { AreDigests (types_of typed.now.circuit) typed.now.circuit.modules digests.now }
    requires within { All (IsPlaceIn typed.now.circuit.modules) places.now }
    requires sites { map site_of places.now ≡ sites_of typed.now.circuit }
    requires paths { paths.now ≡ paths_of_sites typed.now.circuit }
    requires memories { table.now.memories ≡ memory_paths (memories_of typed.now.circuit) }
    requires none { (tree.old.memory_paths ≡ []) × (tree.old.memories ≡ []) }
    requires distinct { AllPairs (λ a b. a ≢ b) (memory_paths (flat_memories typed.now.circuit.modules (map site_of places.now))) }
    ensures names { OnOk result (tree.new.memory_paths ≡ memory_paths (flat_memories typed.now.circuit.modules (map site_of places.now))) }
    ensures made { OnOk result (Pairwise (IsHeldFor typed.now.circuit) (flat_map (held_memories typed.now.circuit.modules) (map site_of places.now)) tree.new.memories) }
    ensures rest { OnOk result (tree.new ≡ with_memories tree.old tree.new.memory_paths tree.new.memories) }
{
    for place in places {
        let digest = &digests[place.number as usize];
        add_site_memories(
            alloc,
            typed,
            digests,
            table,
            paths,
            place,
            digest.memories.as_slice(),
            tree,
        )?;
    }
    Ok(())
}
