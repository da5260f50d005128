//! The places of paths.
ghost use Rattle.std.specs.Prelude.{◌≡◌, ◌≢◌, IfOk, AllPairs, Contains};
ghost use Rattle.gg_elab_tree.specs.IsTreeOf.{IsAt};
ghost use Rattle.gg_elab_tree.specs.inside.TreeParts.{place_paths};

use gg_bits::{Name, Paths};
use gg_elab_sites::{Place, add_path};
use std::alloc::{AllocError, Global};

// The place of a path, which is one of these.
pub(crate) fn place_at(paths: &Paths, path: &Name) -> u32
    requires there { Contains paths.now path.now }
    ensures { IsAt paths.now path.now result }
{
    // for the invariant only
    let _ = paths.len();
    let Some(place) = paths.find(path) else {
        unreachable!();
    };
    place
}

// The paths of all sites.
//
// # Errors
//
// Returns `AllocError` if an allocation fails.
pub(crate) fn site_paths(alloc: Global, places: &[Place]) -> Result<Paths, AllocError>
    requires distinct { AllPairs (λ a b. a ≢ b) (place_paths places.now) }
    ensures { IfOk result (λ paths. paths ≡ place_paths places.now) }
{
    let mut paths = Paths::new(alloc);
    for place in places {
        add_path(&mut paths, copied(&place.path)?)?;
    }
    Ok(paths)
}

// A copy of a name.
//
// # Errors
//
// Returns `AllocError` if an allocation fails.
pub(crate) fn copied(name: &Name) -> Result<Name, AllocError>
    ensures { IfOk result (λ copy. copy ≡ name.now) }
{
    name.clone()
}
