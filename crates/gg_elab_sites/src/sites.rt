//! The sites of a circuit: its top and all instances below it.
ghost use Rattle.std.specs.Prelude.{◌≡◌, ◌+◌, ◌<◌, ◌^◌, ◌++◌, ◌∷◌, [], map, length, Some, OnOk, IfOk, IfSome, All};
ghost use Rattle.gg_elab_sites.specs.Sites.{sites as sites_below, all_sites, module_at, top_site};
ghost use Rattle.gg_flat_tree.specs.Clocked.{clock_at};
ghost use Rattle.gg_flat_tree.specs.Tree.{joined as joined_text};
ghost use Rattle.gg_elab_sites.specs.Clocks.{clocks_given as clocks_of_instance};
ghost use Rattle.gg_elab_sites.specs.Known.{types_of};
ghost use Rattle.gg_elab_sites.specs.inside.Views.{IsAbove, IsPlaceIn, site_of, step_of, AreDigests};

use crate::clocks::{clocks_given, top_clocks};
use crate::digest::{Digest, Instance};
use crate::names::joined;
use gg_bits::Name;
use gg_flat_tree::clocks_at;
use gg_types::Typed;
use std::alloc::{AllocError, Global};

/// The site that holds an instance: its path, the place of its module, and the name of the instance there.
pub struct Around<'a> {
    pub path: Name,
    pub number: u32,
    pub name: &'a Name,
}

impl Drop for Around<'_> {
    fn drop(self) {
        let Self {
            path,
            number: _,
            name: _,
        } = self;
        drop(path);
    }
}

/// A step from an instance to the site that holds it: the place of the module there, and the name of the instance in
/// it.
#[derive(Clone, Copy)]
pub struct Step<'a> {
    pub number: u32,
    pub name: &'a Name,
}

/// A site: its path, the place of its module and the number of sites above it. For an instance, also what holds it,
/// the place of that among the sites, and the steps to the top.
///
/// For each of its Clock inputs, in port order, it has the Clock input that it follows of what holds it, and the clock of
/// the circuit that it follows.
pub struct Place<'a> {
    pub path: Name,
    pub number: u32,
    pub depth: u32,
    pub outer: Option<Around<'a>>,
    pub parent: Option<u32>,
    pub steps: Vec<Step<'a>>,
    pub own_clocks: Vec<Option<u32>>,
    pub clocks: Vec<Option<u32>>,
}

impl Drop for Place<'_> {
    fn drop(self) {
        let Self {
            path,
            number: _,
            depth: _,
            outer,
            parent: _,
            steps,
            own_clocks,
            clocks,
        } = self;
        drop(path);
        drop(outer);
        drop(steps);
        drop(own_clocks);
        drop(clocks);
    }
}

// What is needed of a site for the instances that it holds.
pub(crate) struct Above<'a> {
    pub(crate) path: Name,
    pub(crate) number: u32,
    pub(crate) depth: u32,
    pub(crate) steps: Vec<Step<'a>>,
    pub(crate) clocks: Vec<Option<u32>>,
}

impl Drop for Above<'_> {
    fn drop(self) {
        let Self {
            path,
            number: _,
            depth: _,
            steps,
            clocks,
        } = self;
        drop(path);
        drop(steps);
        drop(clocks);
    }
}

// A step, followed by these steps.
fn steps_with<'a>(
    alloc: Global,
    step: Step<'a>,
    more: &[Step<'a>],
) -> Result<Vec<Step<'a>>, AllocError>
    ensures { IfOk result (λ steps. map step_of steps.items ≡ step_of step.entry ∷ map step_of more.now) }
{
    let mut steps = Vec::new(alloc);
    steps.push(step)?;
    for step in more {
        steps.push(*step)?;
    }
    Ok(steps)
}

// A copy of steps.
fn steps_copied<'a>(alloc: Global, steps: &[Step<'a>]) -> Result<Vec<Step<'a>>, AllocError>
    ensures { IfOk result (λ copies. map step_of copies.items ≡ map step_of steps.now) }
{
    let mut copies = Vec::new(alloc);
    for step in steps {
        copies.push(*step)?;
    }
    Ok(copies)
}

// What is needed of a site for the instances that it holds.
fn above_of<'a>(alloc: Global, here: &Place<'a>) -> Result<Above<'a>, AllocError>
    ensures { IfOk result (IsAbove here.now) }
{
    Ok(Above {
        path: here.path.clone()?,
        number: here.number,
        depth: here.depth,
        steps: steps_copied(alloc, here.steps.as_slice())?,
        clocks: here.clocks.clone()?,
    })
}

// An instance that a site holds, as a site.
fn below<'a>(
    alloc: Global,
    typed: &Typed,
    digests: &[Digest<'a>],
    above: &Above<'a>,
    parent: u32,
    instance: Instance<'a>,
) -> Result<Place<'a>, AllocError>
    requires digests { AreDigests (types_of typed.now.circuit) typed.now.circuit.modules digests.now }
    requires number { above.now.number < length typed.now.circuit.modules }
    requires instance { instance.number < length typed.now.circuit.modules }
    requires depth { above.now.depth + 1 < 2 ^ 32 }
    ensures number { IfOk result (λ place. place.number ≡ instance.entry.number) }
    ensures depth { IfOk result (λ place. place.depth ≡ above.now.depth + 1) }
    ensures around { IfOk result (λ place. IfSome place.outer (λ a. a.number ≡ above.now.number)) }
    ensures site { IfOk result (λ place. site_of place
        ≡ record {
          path = joined_text above.now.path instance.entry.name.now;
          number = instance.entry.number;
          depth = above.now.depth + 1;
          outer = Some
              (record { path = above.now.path; number = above.now.number; name = instance.entry.name.now });
          steps = record { number = above.now.number; name = instance.entry.name.now } ∷ map step_of above.now.steps.items;
        }) }
    ensures own_clocks { IfOk result (λ place. place.own_clocks.items
        ≡ clocks_of_instance (module_at typed.now.circuit.modules above.now.number) instance.entry.name.now
        (module_at typed.now.circuit.modules instance.entry.number)) }
    ensures clocks { IfOk result (λ place. place.clocks.items ≡ map (clock_at above.now.clocks.items) place.own_clocks.items) }
{
    let name = instance.name;
    let step = Step {
        number: above.number,
        name,
    };
    let body = &typed.names().circuit().modules()[instance.number as usize];
    let own_clocks = clocks_given(alloc, typed, digests, above.number, name, body)?;
    let clocks = clocks_at(alloc, above.clocks.as_slice(), own_clocks.as_slice())?;
    Ok(Place {
        path: joined(alloc, &above.path, name)?,
        number: instance.number,
        depth: above.depth + 1,
        outer: Some(Around {
            path: above.path.clone()?,
            number: above.number,
            name,
        }),
        parent: Some(parent),
        steps: steps_with(alloc, step, above.steps.as_slice())?,
        own_clocks,
        clocks,
    })
}

// Adds a site and all sites below it, down to this many levels.
fn add_site<'a>(
    alloc: Global,
    typed: &Typed,
    digests: &[Digest<'a>],
    levels: usize,
    here: Place<'a>,
    places: &mut Vec<Place<'a>>,
) -> Result<(), AllocError>
    requires digests { AreDigests (types_of typed.now.circuit) typed.now.circuit.modules digests.now }
    requires number { IsPlaceIn typed.now.circuit.modules here }
    requires depth { here.depth + levels < 2 ^ 32 }
    ensures within { OnOk result (All (IsPlaceIn typed.now.circuit.modules) places.old.items → All (IsPlaceIn typed.now.circuit.modules) places.new.items) }
    ensures sites { OnOk result (map site_of places.new.items ≡ map site_of places.old.items ++ sites_below levels typed.now.circuit.modules (site_of here.entry)) }
{
    if places.len() >= u32::MAX as usize {
        return Err(AllocError);
    }
    let parent = places.len() as u32;
    let number = here.number;
    let above = above_of(alloc, &here)?;
    places.reserve(1)?;
    places.push_reserved(here);
    if levels == 0 {
        return Ok(());
    }
    let instances = digests[number as usize].instances.as_slice();
    for instance in instances {
        let next = below(alloc, typed, digests, &above, parent, *instance)?;
        add_site(alloc, typed, digests, levels - 1, next, places)?;
    }
    Ok(())
}

// The top as a site; its module is at this place.
fn top_place<'a>(alloc: Global, typed: &Typed, top: u32) -> Result<Place<'a>, AllocError>
    requires { top < length typed.now.circuit.modules }
    ensures { IfOk result (λ place. IsPlaceIn typed.now.circuit.modules place × (site_of place ≡ top_site top)) }
{
    let body = &typed.names().circuit().modules()[top as usize];
    let clocks = top_clocks(alloc, body)?;
    Ok(Place {
        path: Name::from_str(alloc, "")?,
        number: top,
        depth: 0,
        outer: None,
        parent: None,
        steps: Vec::new(alloc),
        own_clocks: clocks.clone()?,
        clocks,
    })
}

/// The sites of a circuit with the module at this place as its top.
///
/// # Errors
///
/// Returns `AllocError` if an allocation fails, or if there would be more than 4,294,967,295 sites.
pub fn places<'a>(
    alloc: Global,
    typed: &Typed,
    digests: &[Digest<'a>],
    top: u32,
) -> Result<Vec<Place<'a>>, AllocError>
    requires few { length typed.now.circuit.modules < 2 ^ 32 }
    requires digests { AreDigests (types_of typed.now.circuit) typed.now.circuit.modules digests.now }
    requires top { top < length typed.now.circuit.modules }
    ensures within { IfOk result (λ places. All (IsPlaceIn typed.now.circuit.modules) places.items) }
    ensures sites { IfOk result (λ places. map site_of places.items ≡ all_sites typed.now.circuit.modules top) }
{
    let mut places = Vec::new(alloc);
    let here = top_place(alloc, typed, top)?;
    add_site(alloc, typed, digests, digests.len(), here, &mut places)?;
    Ok(places)
}
