//! The tree of a circuit, built.
ghost use Rattle.std.specs.Prelude.{◌≡◌, ◌≢◌, None, map, IfOk, All, AllPairs};
ghost use Rattle.gg_ast.specs.Places.{place_of};
ghost use Rattle.gg_ast.specs.Tree.{module_names};
ghost use Rattle.gg_elab_sites.specs.Sites.{sites_of};
ghost use Rattle.gg_elab_sites.specs.IsFlat.{memory_paths, top_ports};
ghost use Rattle.gg_elab_sites.specs.Known.{types_of};
ghost use Rattle.gg_elab_sites.specs.inside.Views.{IsPlaceIn, AreDigests, site_of};
ghost use Rattle.gg_elab_tree.specs.IsTreeOf.{IsTreeOf, site_paths as paths_of_sites, signal_paths, memories_of};

use crate::clocks::{add_clocks, add_register_clocks};
use crate::instances::add_instances;
use crate::memories::add_memories;
use crate::places::site_paths;
use crate::stops::add_stops;
use gg_ast::Port;
use gg_elab_sites::{Digest, Place, Table};
use gg_flat_tree::Tree;
use gg_types::Typed;
use std::alloc::{AllocError, Global};

/// The tree of a circuit: the instances of its sites with their signals, ports and memories, its stops, and the Clock
/// inputs that they follow. The table has the circuit's signals and memories, `places` its sites, and `ports` the ports
/// of its top.
///
/// # Errors
///
/// Returns `AllocError` if an allocation fails.
pub fn tree_of(
    alloc: Global,
    typed: &Typed,
    table: &Table,
    digests: &[Digest],
    places: &[Place],
    ports: &[Port],
) -> Result<Tree, AllocError>
    requires digests { AreDigests (types_of typed.now.circuit) typed.now.circuit.modules digests.now }
    requires within { All (IsPlaceIn typed.now.circuit.modules) places.now }
    requires top { (place_of typed.now.circuit.name (module_names typed.now.circuit)) ≢ None }
    requires ports { ports.now ≡ top_ports typed.now.circuit.modules (place_of typed.now.circuit.name (module_names typed.now.circuit)) }
    requires sites { map site_of places.now ≡ sites_of typed.now.circuit }
    requires signals { table.now.paths ≡ signal_paths typed.now.circuit }
    requires memories { table.now.memories ≡ memory_paths (memories_of typed.now.circuit) }
    requires sites_differ { AllPairs (λ a b. a ≢ b) (paths_of_sites typed.now.circuit) }
    requires memories_differ { AllPairs (λ a b. a ≢ b) (memory_paths (memories_of typed.now.circuit)) }
    ensures { IfOk result (IsTreeOf typed.now.circuit) }
{
    let paths = site_paths(alloc, places)?;
    let mut tree = Tree::new(alloc);
    add_instances(alloc, typed, table, &paths, digests, places, &mut tree)?;
    add_memories(alloc, typed, table, &paths, digests, places, &mut tree)?;
    add_stops(alloc, typed, table, &paths, digests, places, &mut tree)?;
    add_register_clocks(typed, digests, places, &mut tree)?;
    add_clocks(ports, &mut tree)?;
    Ok(tree)
}
