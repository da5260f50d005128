//! The instances of the tree.
ghost use Rattle.std.specs.Prelude.{None, ℕ, ◌≡◌, ◌≢◌, ◌<◌, ◌≤◌, ◌+◌, ◌++◌, ◌∷◌, [], map, length, option_to_list, slice_index, IfOk, OnOk, IfSome, All, AllPairs, Contains, true};
ghost use Rattle.gg_ast.specs.Places.{place_of};
ghost use Rattle.gg_ast.specs.Tree.{module_names};
ghost use Rattle.gg_elab_sites.specs.Sites.{sites_of};
ghost use Rattle.gg_elab_sites.specs.IsFlat.{memory_paths};
ghost use Rattle.gg_elab_sites.specs.Known.{types_of};
ghost use Rattle.gg_elab_sites.specs.inside.Views.{IsPlaceIn, AreDigests, site_of};
ghost use Rattle.gg_flat_tree.specs.Tree.{joined as joined_text};
ghost use Rattle.gg_flat_tree.specs.inside.Tree.{no_tree};
ghost use Rattle.gg_elab_tree.specs.IsTreeOf.{Pairwise, AreInstances, signal_paths, memories_of};
ghost use Rattle.gg_elab_tree.specs.inside.TreeParts.{is_signal, signals_among, IsPortAt, IsNumberAt, IsHolder, place_paths, signals_to, IsInstanceAt, with_instances};

use crate::places::{copied, place_at};
use gg_ast::{Direction, Port};
use gg_bits::{AddError, Ids, Items, Name, Paths};
use gg_elab_sites::{Around, Digest, OwnMemory, Place, Table, joined};
use gg_flat_tree::{ClockNumbers, Instance, InstancePort, Tree};
use gg_types::{Typed, ground_type};
use std::alloc::{AllocError, Global};

// A number plus a count. Returns `AllocError` if the sum is 4,294,967,296 or more.
fn raised(number: u32, count: usize) -> Result<u32, AllocError>
    ensures { IfOk result (λ sum. sum ≡ number + count) }
{
    if count > (u32::MAX - number) as usize {
        return Err(AllocError);
    }
    Ok(number + count as u32)
}

// The first signal of each site, and the end of the last site's signals.
fn firsts(
    alloc: Global,
    _typed: &Typed,
    digests: &[Digest],
    places: &[Place],
) -> Result<Vec<u32>, AllocError>
    requires digests { AreDigests (types_of _typed.now.circuit) _typed.now.circuit.modules digests.now }
    requires places { All (IsPlaceIn _typed.now.circuit.modules) places.now }
    ensures count { IfOk result (λ firsts. length firsts.items ≡ length places.now + 1) }
    ensures each { IfOk result (λ firsts. (k : ℕ) → k ≤ length places.now → slice_index firsts.items k ≡ signals_to _typed.now.circuit places.now k) }
{
    let mut firsts = Vec::new(alloc);
    let mut next: u32 = 0;
    for place in places {
        firsts.reserve(1)?;
        firsts.push_reserved(next);
        next = raised(next, digests[place.number as usize].signals.len())?;
    }
    firsts.reserve(1)?;
    firsts.push_reserved(next);
    Ok(firsts)
}

// The number of sites above each site.
fn depths(alloc: Global, places: &[Place]) -> Result<Vec<u32>, AllocError>
    ensures { IfOk result (λ depths. depths.items ≡ map (λ p. p.depth) places.now) }
{
    let mut depths = Vec::new(alloc);
    for place in places {
        depths.reserve(1)?;
        depths.push_reserved(place.depth);
    }
    Ok(depths)
}

// The next site that isn't deeper than this one, or the end.
fn end_of(depths: &[u32], from: usize) -> usize
    requires { from < length depths.now }
    ensures after { from < result }
    ensures inside { result ≤ length depths.now }
    ensures deeper { (i : ℕ) → from < i → i < result → slice_index depths.now from < slice_index depths.now i }
    ensures stop { result < length depths.now → slice_index depths.now result ≤ slice_index depths.now from }
{
    let mut next = from + 1;
    while next < depths.len() && depths[next] > depths[from] {
        next += 1;
    }
    next
}

// The port of an instance with this path; none for a Clock.
fn port(
    alloc: Global,
    paths: &Paths,
    outer: &Name,
    port: &Port,
) -> Result<Option<InstancePort>, AllocError>
    requires there { is_signal port.now ≡ true → Contains paths.now (joined_text outer.now port.now.name) }
    ensures { IfOk result (λ found. Pairwise (IsPortAt paths.now outer.now) (signals_among (port.now ∷ [])) (option_to_list found)) }
{
    if ground_type(port.ty).is_none() {
        return Ok(None);
    }
    let path = joined(alloc, outer, &port.name)?;
    let signal = place_at(paths, &path);
    let is_input = match port.direction {
        Direction::Input => true,
        Direction::Output => false,
    };
    Ok(Some(InstancePort { signal, is_input }))
}

// Adds a port, if there is one.
fn add_port(found: &mut Vec<InstancePort>, port: Option<InstancePort>) -> Result<(), AllocError>
    ensures { OnOk result (found.new.items ≡ found.old.items ++ option_to_list port) }
{
    match port {
        None => Ok(()),
        Some(port) => {
            found.reserve(1)?;
            found.push_reserved(port);
            Ok(())
        }
    }
}

// The ports of an instance with this path, without Clocks.
fn ports(
    alloc: Global,
    paths: &Paths,
    outer: &Name,
    ports: &[Port],
) -> Result<Vec<InstancePort>, AllocError>
    requires there { All (λ p. Contains paths.now (joined_text outer.now p.name)) (signals_among ports.now) }
    ensures { IfOk result (λ found. Pairwise (IsPortAt paths.now outer.now) (signals_among ports.now) found.items) }
{
    let mut found = Vec::new(alloc);
    for one in ports {
        let next = port(alloc, paths, outer, one)?;
        add_port(&mut found, next)?;
    }
    Ok(found)
}

// The numbers of the memories of an instance with this path.
fn numbers(
    alloc: Global,
    paths: &Paths,
    outer: &Name,
    memories: &[OwnMemory],
) -> Result<Vec<u32>, AllocError>
    requires there { All (λ own. Contains paths.now (joined_text outer.now own.name.now)) memories.now }
    ensures { IfOk result (λ numbers. Pairwise (IsNumberAt paths.now outer.now) memories.now numbers.items) }
{
    let mut numbers = Vec::new(alloc);
    for own in memories {
        let path = joined(alloc, outer, own.name)?;
        let number = place_at(paths, &path);
        numbers.reserve(1)?;
        numbers.push_reserved(number);
    }
    Ok(numbers)
}

// The instance that holds an instance, if there is one.
fn holder(paths: &Paths, outer: &Option<Around>) -> Option<u32>
    requires there { IfSome outer.now (λ around. Contains paths.now around.path) }
    ensures { IsHolder paths.now outer.now result }
{
    match outer {
        None => None,
        Some(around) => Some(place_at(paths, &around.path)),
    }
}

// The instance of a site. Its signals and those below it are given.
fn instance(
    alloc: Global,
    table: &Table,
    paths: &Paths,
    digest: &Digest,
    module_ports: &[Port],
    place: &Place,
    first: u32,
    end: u32,
) -> Result<Instance, AllocError>
    requires holder { IfSome place.now.outer (λ around. Contains paths.now around.path) }
    requires ports { All (λ p. Contains table.now.paths (joined_text place.now.path p.name)) (signals_among module_ports.now) }
    requires memories { All (λ own. Contains table.now.memories (joined_text place.now.path own.name.now)) digest.now.memories.items }
    ensures { IfOk result (IsInstanceAt paths.now table.now.paths table.now.memories digest.now module_ports.now place.now first end) }
{
    let parent = holder(paths, &place.outer);
    let ports = ports(alloc, &table.paths, &place.path, module_ports)?;
    let memories = numbers(
        alloc,
        &table.memories,
        &place.path,
        digest.memories.as_slice(),
    )?;
    Ok(Instance {
        parent,
        module: place.number,
        first,
        end,
        ports: Items::from(ports),
        memories: Ids::from(memories),
        clocks: ClockNumbers::from(place.own_clocks.clone()?),
    })
}

// Adds an instance with a path that no other instance has.
fn add_instance(tree: &mut Tree, path: Name, instance: Instance) -> Result<(), AllocError>
    requires fresh { ¬ Contains tree.old.paths path }
    ensures { OnOk result (tree.new ≡ record tree.old { paths = tree.old.paths ++ path ∷ []; instances = tree.old.instances ++ instance ∷ [] }) }
{
    if tree.len() >= u32::MAX as usize {
        return Err(AllocError);
    }
    match tree.add(path, instance) {
        Ok(()) => Ok(()),
        Err(AddError::Doubled) => unreachable!(),
        Err(AddError::NoMemory) => Err(AllocError),
    }
}

// Adds the instances of all sites.
//
// # Errors
//
// Returns `AllocError` if an allocation fails.
pub(crate) fn add_instances(
    alloc: Global,
    typed: &Typed,
    table: &Table,
    paths: &Paths,
    digests: &[Digest],
    places: &[Place],
    tree: &mut Tree,
) -> Result<(), AllocError>
    requires digests { AreDigests (types_of typed.now.circuit) typed.now.circuit.modules digests.now }
    requires within { All (IsPlaceIn typed.now.circuit.modules) places.now }
    requires top { (place_of typed.now.circuit.name (module_names typed.now.circuit)) ≢ None }
    requires sites { map site_of places.now ≡ sites_of typed.now.circuit }
    requires paths { paths.now ≡ place_paths places.now }
    requires distinct { AllPairs (λ a b. a ≢ b) (place_paths places.now) }
    requires signals { table.now.paths ≡ signal_paths typed.now.circuit }
    requires memories { table.now.memories ≡ memory_paths (memories_of typed.now.circuit) }
    requires none { tree.old ≡ no_tree }
    ensures paths { OnOk result (tree.new.paths ≡ place_paths places.now) }
    ensures instances { OnOk result (AreInstances typed.now.circuit 0 (map site_of places.now) tree.new.instances) }
    ensures rest { OnOk result (tree.new ≡ with_instances no_tree tree.new.paths tree.new.instances) }
{
    let modules = typed.names().circuit().modules();
    let starts = firsts(alloc, typed, digests, places)?;
    let levels = depths(alloc, places)?;
    for i in 0..places.len() {
        let place = &places[i];
        let number = place.number as usize;
        let end = end_of(levels.as_slice(), i);
        let made = instance(
            alloc,
            table,
            paths,
            &digests[number],
            modules[number].ports(),
            place,
            starts[i],
            starts[end],
        )?;
        let path = copied(&place.path)?;
        add_instance(tree, path, made)?;
    }
    Ok(())
}
