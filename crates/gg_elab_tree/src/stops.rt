//! The stops of the tree.
ghost use Rattle.std.specs.Prelude.{List, ◌≡◌, ◌<◌, ◌++◌, [], map, flat_map, length, IfOk, OnOk, All, Contains};
ghost use Rattle.gg_elab_sites.specs.Sites.{module_at, sites_of};
ghost use Rattle.gg_elab_sites.specs.Known.{types_of};
ghost use Rattle.gg_elab_sites.specs.inside.Views.{IsPlaceIn, AreDigests, site_of};
ghost use Rattle.gg_flat_tree.specs.Tree.{joined as joined_text};
ghost use Rattle.gg_elab_tree.specs.IsTreeOf.{Pairwise, HeldStop, held_stops, site_paths as paths_of_sites, signal_paths};
ghost use Rattle.gg_elab_tree.specs.inside.TreeParts.{IsStopPart, IsAskedFor, stop_at_place, with_stops};

use crate::places::place_at;
use gg_bits::Paths;
use gg_elab_sites::{Digest, OwnStop, Place, Table, clock_of, joined};
use gg_flat_tree::{StopInstance, Tree};
use gg_types::Typed;
use std::alloc::{AllocError, Global};

// A stop of a site.
fn stop(
    alloc: Global,
    typed: &Typed,
    table: &Table,
    paths: &Paths,
    place: &Place,
    own: &OwnStop,
) -> Result<StopInstance, AllocError>
    requires there { place.now.number < length typed.now.circuit.modules }
    requires holder { Contains paths.now place.now.path }
    requires signal { Contains table.now.paths (joined_text place.now.path own.now.name) }
    ensures { IfOk result (IsStopPart paths.now table.now.paths (module_at typed.now.circuit.modules place.now.number) place.now.path own.now) }
{
    let path = joined(alloc, &place.path, &own.name)?;
    Ok(StopInstance {
        instance: place_at(paths, &place.path),
        signal: place_at(&table.paths, &path),
        clock: clock_of(typed, place.number, own.clock),
    })
}

// Adds these stops of a site.
fn add_site_stops(
    alloc: Global,
    typed: &Typed,
    table: &Table,
    paths: &Paths,
    place: &Place,
    stops: &[OwnStop],
    tree: &mut Tree,
) -> Result<(), AllocError>
    requires there { place.now.number < length typed.now.circuit.modules }
    requires holder { Contains paths.now place.now.path }
    requires signals { All (λ own. Contains table.now.paths (joined_text place.now.path own.name)) stops.now }
    ensures made { OnOk result ((said : List HeldStop) → paths.now ≡ paths_of_sites typed.now.circuit
        → table.now.paths ≡ signal_paths typed.now.circuit → Pairwise (IsAskedFor typed.now.circuit) said tree.old.stops
        → Pairwise (IsAskedFor typed.now.circuit) (said ++ map (stop_at_place place.now) stops.now) tree.new.stops) }
    ensures rest { OnOk result (tree.new ≡ with_stops tree.old tree.new.stops) }
{
    for own in stops {
        let made = stop(alloc, typed, table, paths, place, own)?;
        tree.add_stop(made)?;
    }
    Ok(())
}

// Adds the stops of all sites.
//
// # Errors
//
// Returns `AllocError` if an allocation fails.
pub(crate) fn add_stops(
    alloc: Global,
    typed: &Typed,
    table: &Table,
    paths: &Paths,
    digests: &[Digest],
    places: &[Place],
    tree: &mut Tree,
) -> Result<(), AllocError>
    requires digests { AreDigests (types_of typed.now.circuit) typed.now.circuit.modules digests.now }
    requires within { All (IsPlaceIn typed.now.circuit.modules) places.now }
    requires sites { map site_of places.now ≡ sites_of typed.now.circuit }
    requires paths { paths.now ≡ paths_of_sites typed.now.circuit }
    requires signals { table.now.paths ≡ signal_paths typed.now.circuit }
    requires none { tree.old.stops ≡ [] }
    ensures made { OnOk result (Pairwise (IsAskedFor typed.now.circuit) (flat_map (held_stops typed.now.circuit.modules) (map site_of places.now)) tree.new.stops) }
    ensures rest { OnOk result (tree.new ≡ with_stops tree.old tree.new.stops) }
{
    for place in places {
        let digest = &digests[place.number as usize];
        add_site_stops(
            alloc,
            typed,
            table,
            paths,
            place,
            digest.stops.as_slice(),
            tree,
        )?;
    }
    Ok(())
}
