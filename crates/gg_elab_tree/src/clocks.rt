//! The clocks of the tree.
ghost use Rattle.std.specs.Prelude.{◌≡◌, ◌<◌, ◌++◌, map, flat_map, length, OnOk, All};
ghost use Rattle.gg_elab_sites.specs.Sites.{module_at};
ghost use Rattle.gg_elab_sites.specs.Flat.{flat_signals};
ghost use Rattle.gg_elab_sites.specs.Known.{types_of};
ghost use Rattle.gg_elab_sites.specs.inside.Views.{IsPlaceIn, AreDigests, cause_of, site_of};
ghost use Rattle.gg_elab_tree.specs.IsTreeOf.{clocks_held};
ghost use Rattle.gg_elab_tree.specs.inside.TreeParts.{clock_kept, with_clocks, with_register_clocks};
ghost use Rattle.gg_types.specs.Clocks.{clock_inputs};

use crate::places::copied;
use gg_ast::Port;
use gg_elab_sites::{Digest, Origin, OwnSignal, Place, clock_of};
use gg_flat_tree::Tree;
use gg_types::{Typed, is_clock_input};
use std::alloc::AllocError;

// Adds the Clock input that a signal of the module at a place follows, if the signal is a register.
fn add_kept(typed: &Typed, number: u32, origin: &Origin, tree: &mut Tree) -> Result<(), AllocError>
    requires { number < length typed.now.circuit.modules }
    ensures { OnOk result (tree.new ≡ with_register_clocks tree.old (tree.old.register_clocks ++ clock_kept (module_at typed.now.circuit.modules number) (cause_of origin.now))) }
{
    match origin {
        Origin::Kept(clock, _) => tree.add_register_clock(clock_of(typed, number, clock)),
        Origin::FromOutside
        | Origin::Connected
        | Origin::Expressed(_)
        | Origin::Answered(_, _, _, _) => Ok(()),
    }
}

// Adds the Clock inputs that the registers among these signals of the module at a place follow.
fn add_all_kept(
    typed: &Typed,
    number: u32,
    signals: &[OwnSignal],
    tree: &mut Tree,
) -> Result<(), AllocError>
    requires { number < length typed.now.circuit.modules }
    ensures { OnOk result (tree.new ≡ with_register_clocks tree.old (tree.old.register_clocks ++ flat_map (λ s. clock_kept (module_at typed.now.circuit.modules number) (cause_of s.origin)) signals.now)) }
{
    for signal in signals {
        add_kept(typed, number, &signal.origin, tree)?;
    }
    Ok(())
}

// Adds the Clock inputs that the registers of all sites follow, each of its own site.
//
// # Errors
//
// Returns `AllocError` if an allocation fails.
pub(crate) fn add_register_clocks(
    typed: &Typed,
    digests: &[Digest],
    places: &[Place],
    tree: &mut Tree,
) -> Result<(), AllocError>
    requires digests { AreDigests (types_of typed.now.circuit) typed.now.circuit.modules digests.now }
    requires within { All (IsPlaceIn typed.now.circuit.modules) places.now }
    ensures { OnOk result (tree.new ≡ with_register_clocks tree.old
        (tree.old.register_clocks ++ clocks_held (flat_signals (types_of typed.now.circuit) typed.now.circuit.modules
        (map site_of places.now)))) }
{
    for place in places {
        let digest = &digests[place.number as usize];
        add_all_kept(typed, place.number, digest.signals.as_slice(), tree)?;
    }
    Ok(())
}

// Adds the names of the Clock inputs among the ports of the top.
//
// # Errors
//
// Returns `AllocError` if an allocation fails.
pub(crate) fn add_clocks(ports: &[Port], tree: &mut Tree) -> Result<(), AllocError>
    ensures { OnOk result (tree.new ≡ with_clocks tree.old (tree.old.clocks ++ clock_inputs ports.now)) }
{
    for port in ports {
        if is_clock_input(port) {
            tree.add_clock(copied(&port.name)?)?;
        }
    }
    Ok(())
}
