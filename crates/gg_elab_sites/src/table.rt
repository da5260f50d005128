//! The signals and memories of all sites, by their paths.
ghost use Rattle.std.specs.Prelude.{◌≡◌, ◌≢◌, ◌++◌, ◌∷◌, [], map, flat_map, length, IfOk, OnOk, All, AllPairs, Contains, ◌<◌};
ghost use Rattle.gg_bits.specs.Shape.{shape};
ghost use Rattle.gg_flat_tree.specs.Tree.{joined as joined_text};
ghost use Rattle.gg_elab_sites.specs.Flat.{flat_signals, flat_memories};
ghost use Rattle.gg_elab_sites.specs.IsFlat.{signals_of, memory_paths, number_of};
ghost use Rattle.gg_elab_sites.specs.Known.{types_of};
ghost use Rattle.gg_elab_sites.specs.inside.Views.{site_of, AreDigests, table_signals};

use crate::digest::{Digest, OwnMemory};
use crate::names::joined;
use crate::own::OwnSignal;
use crate::sites::Place;
use gg_bits::{AddError, Name, Paths, Ty};
use gg_types::Typed;
use std::alloc::{AllocError, Global};

/// The paths and types of all signals, and the paths of all memories, in order.
pub struct Table {
    pub paths: Paths,
    pub types: Vec<Ty>,
    pub memories: Paths,
}

impl Drop for Table {
    fn drop(self) {
        let Self {
            paths,
            types,
            memories,
        } = self;
        drop(paths);
        drop(types);
        drop(memories);
    }
}

/// Adds a path that isn't there yet.
///
/// # Errors
///
/// Returns `AllocError` if an allocation fails, or if there would be more than 4,294,967,295 paths.
pub fn add_path(paths: &mut Paths, path: Name) -> Result<(), AllocError>
    requires fresh { ¬ Contains paths.old path }
    ensures { OnOk result (paths.new ≡ paths.old ++ path ∷ []) }
{
    if paths.len() >= u32::MAX as usize {
        return Err(AllocError);
    }
    match paths.add(path) {
        Ok(()) => Ok(()),
        Err(AddError::Doubled) => unreachable!(),
        Err(AddError::NoMemory) => Err(AllocError),
    }
}

// Adds the signals of a site.
fn add_signals(
    alloc: Global,
    table: &mut Table,
    path: &Name,
    signals: &[OwnSignal],
) -> Result<(), AllocError>
    requires distinct { AllPairs (λ a b. a ≢ b) (table.old.paths ++ map (λ s. joined_text path.now s.name) signals.now) }
    ensures paths { OnOk result (table.new.paths ≡ table.old.paths ++ map (λ s. joined_text path.now s.name) signals.now) }
    ensures types { OnOk result (map (λ t. shape t) table.new.types.items ≡ map (λ t. shape t) table.old.types.items ++ map (λ s. shape s.ty) signals.now) }
    ensures memories { OnOk result (table.new.memories ≡ table.old.memories) }
{
    for signal in signals {
        add_path(&mut table.paths, joined(alloc, path, &signal.name)?)?;
        table.types.reserve(1)?;
        table.types.push_reserved(signal.ty);
    }
    Ok(())
}

// Adds the memories of a site.
fn add_memories(
    alloc: Global,
    table: &mut Table,
    path: &Name,
    memories: &[OwnMemory],
) -> Result<(), AllocError>
    requires distinct { AllPairs (λ a b. a ≢ b) (table.old.memories ++ map (λ m. joined_text path.now m.name.now) memories.now) }
    ensures memories { OnOk result (table.new.memories ≡ table.old.memories ++ map (λ m. joined_text path.now m.name.now) memories.now) }
    ensures paths { OnOk result (table.new.paths ≡ table.old.paths) }
    ensures types { OnOk result (table.new.types ≡ table.old.types) }
{
    for memory in memories {
        add_path(&mut table.memories, joined(alloc, path, memory.name)?)?;
    }
    Ok(())
}

/// The signals and memories of all sites. No two signals may have the same path, and no two memories.
///
/// # Errors
///
/// Returns `AllocError` if an allocation fails.
pub fn table_of(
    alloc: Global,
    _typed: &Typed,
    digests: &[Digest],
    places: &[Place],
) -> Result<Table, AllocError>
    requires digests { AreDigests (types_of _typed.now.circuit) _typed.now.circuit.modules digests.now }
    requires numbers { All (λ place. place.number < length _typed.now.circuit.modules) places.now }
    requires signals { AllPairs (λ a b. a ≢ b) (map (λ x. x.path) (flat_signals (types_of _typed.now.circuit) _typed.now.circuit.modules (map site_of places.now))) }
    requires memories { AllPairs (λ a b. a ≢ b) (memory_paths (flat_memories _typed.now.circuit.modules (map site_of places.now))) }
    ensures signals { IfOk result (λ table. table_signals table ≡ signals_of (flat_signals (types_of _typed.now.circuit) _typed.now.circuit.modules (map site_of places.now))) }
    ensures even { IfOk result (λ table. length table.types.items ≡ length table.paths) }
    ensures memories { IfOk result (λ table. table.memories ≡ memory_paths (flat_memories _typed.now.circuit.modules (map site_of places.now))) }
{
    let mut table = Table {
        paths: Paths::new(alloc),
        types: Vec::new(alloc),
        memories: Paths::new(alloc),
    };
    for place in places {
        let digest = &digests[place.number as usize];
        add_signals(alloc, &mut table, &place.path, digest.signals.as_slice())?;
        add_memories(alloc, &mut table, &place.path, digest.memories.as_slice())?;
    }
    Ok(table)
}

/// The number of a path, or 0 if it isn't one of these.
pub fn number(paths: &Paths, path: &Name) -> u32
    ensures { result ≡ number_of paths.now path.now }
{
    // for the invariant only
    let _ = paths.len();
    match paths.find(path) {
        Some(number) => number,
        None => 0,
    }
}
