//! The faults of a request's entries.
ghost use Rattle.std.specs.Prelude.{◌≡◌, [], ◌∷◌, ◌+◌, ◌-◌, ◌<◌, ◌^◌, ◌++◌, ◌==◌, Some, not, option_map, find, length, OnOk};
ghost use Rattle.gg_cut_plan.specs.Listed.{is_among};
ghost use Rattle.gg_cut_plan.specs.Fault.{IsTold, Tells, unknown_unit, unshared, unknown_memory, first_clash, same_path, repeated, other_in, other_module, module_of};
ghost use Rattle.gg_partfile.specs.Size.{entries};
ghost use Rattle.gg_cut_plan.specs.declared.fault.CutFault.TheVariants.{UnknownUnit, Doubled, OtherModule, UnknownMemory};

use crate::paths::{copied, has, instance, is_instance, is_memory, set_of};
use gg_bits::{AddError, Name, Names, Paths};
use gg_cut_plan::CutFault;
use gg_flat_tree::Tree;
use std::alloc::Global;

// Checks that each unit is an instance.
//
// # Errors
//
// Returns `UnknownUnit` with the first unit that isn't an instance, or `NoMemory` if an allocation fails.
pub(crate) fn units_exist(tree: &Tree, units: &[Name]) -> Result<(), CutFault>
    ensures { Tells (option_map UnknownUnit (unknown_unit tree.now units.now)) result }
{
    for path in units {
        if !is_instance(tree, path) {
            return Err(CutFault::UnknownUnit(path.clone()?));
        }
    }
    Ok(())
}

// Checks that each listed memory exists.
//
// # Errors
//
// Returns `UnknownMemory` with the first one that doesn't, or `NoMemory` if an allocation fails.
pub(crate) fn memories_exist(tree: &Tree, memories: &[Name]) -> Result<(), CutFault>
    ensures { Tells (option_map UnknownMemory (unknown_memory tree.now memories.now)) result }
{
    for path in memories {
        if !is_memory(tree, path) {
            return Err(CutFault::UnknownMemory(path.clone()?));
        }
    }
    Ok(())
}

// Checks that each entry of the lists is one of the units.
//
// # Errors
//
// Returns `UnknownUnit` with the first entry that isn't, or `NoMemory` if an allocation fails.
pub(crate) fn shared_are_units(
    alloc: Global,
    units: &[Name],
    share: &[Names],
) -> Result<(), CutFault>
    requires few { length units.now < 2 ^ 32 }
    ensures { Tells (option_map UnknownUnit (unshared units.now share.now)) result }
{
    let set = set_of(alloc, units)?;
    groups_are_units(&set, share)
}

// Checks that each entry of the lists is in a set.
fn groups_are_units(set: &Paths, share: &[Names]) -> Result<(), CutFault>
    ensures { Tells (option_map UnknownUnit (unshared set.now share.now)) result }
{
    for group in share {
        group_is_units(set, group.as_slice())?;
    }
    Ok(())
}

// Checks that each path is in a set.
fn group_is_units(set: &Paths, group: &[Name]) -> Result<(), CutFault>
    ensures { Tells (option_map UnknownUnit (find (λ path. not (is_among set.now path)) group.now)) result }
{
    for path in group {
        if !has(set, path) {
            return Err(CutFault::UnknownUnit(path.clone()?));
        }
    }
    Ok(())
}

// Checks that no path equals an earlier one.
//
// # Errors
//
// Returns `Doubled` with the first path that does, or `NoMemory` if an allocation fails.
pub(crate) fn none_repeated(alloc: Global, paths: &[Name]) -> Result<(), CutFault>
    requires few { length paths.now < 2 ^ 32 }
    ensures { Tells (option_map Doubled (repeated paths.now)) result }
{
    let mut seen = Paths::new(alloc);
    add_all(&mut seen, paths)
}

// Adds paths to the paths that were seen so far.
fn add_all(seen: &mut Paths, paths: &[Name]) -> Result<(), CutFault>
    requires few { length seen.old + length paths.now < 2 ^ 32 }
    ensures told { Tells (option_map Doubled (first_clash same_path seen.old paths.now)) result }
    ensures added { OnOk result (seen.new ≡ seen.old ++ paths.now) }
{
    for path in paths {
        add_one(seen, path)?;
    }
    Ok(())
}

// Adds a path to the paths that were seen so far.
fn add_one(seen: &mut Paths, path: &Name) -> Result<(), CutFault>
    requires few { length seen.old < 2 ^ 32 - 1 }
    ensures told { Tells (option_map Doubled (first_clash same_path seen.old (path.now ∷ []))) result }
    ensures added { OnOk result (seen.new ≡ seen.old ++ path.now ∷ []) }
{
    match seen.add(copied(path)?) {
        Ok(()) => Ok(()),
        Err(AddError::Doubled) => Err(doubled(path)),
        Err(AddError::NoMemory) => Err(CutFault::NoMemory),
    }
}

// The fault of a path that occurs twice.
pub(crate) fn doubled(path: &Name) -> CutFault
    ensures { IsTold (Some (Doubled path.now)) result }
{
    match path.clone() {
        Ok(path) => CutFault::Doubled(path),
        Err(_) => CutFault::NoMemory,
    }
}

// Checks that no entry of the lists equals an earlier one, of the same list or another.
//
// # Errors
//
// Returns `Doubled` with the first entry that does, or `NoMemory` if an allocation fails.
pub(crate) fn shared_once(alloc: Global, share: &[Names]) -> Result<(), CutFault>
    requires few { length (entries share.now) < 2 ^ 32 }
    ensures { Tells (option_map Doubled (repeated (entries share.now))) result }
{
    let mut seen = Paths::new(alloc);
    for group in share {
        match add_all(&mut seen, group.as_slice()) {
            Ok(()) => {}
            Err(cause) => return Err(cause),
        }
    }
    Ok(())
}

// Checks that the units of each list have the same module.
//
// # Errors
//
// Returns `OtherModule` with the first entry of a list that has another module than the list's first entry, or
// `NoMemory` if an allocation fails.
pub(crate) fn one_module_each(tree: &Tree, share: &[Names]) -> Result<(), CutFault>
    ensures { Tells (option_map OtherModule (other_module tree.now share.now)) result }
{
    for group in share {
        one_module(tree, group.as_slice())?;
    }
    Ok(())
}

// Checks that the units of a list have the same module.
fn one_module(tree: &Tree, group: &[Name]) -> Result<(), CutFault>
    ensures { Tells (option_map OtherModule (other_in tree.now group.now)) result }
{
    match group.first() {
        Some(first) => all_of_module(tree, module_of(tree, first), group),
        None => Ok(()),
    }
}

// Checks that each instance has this module.
fn all_of_module(tree: &Tree, module: u32, group: &[Name]) -> Result<(), CutFault>
    ensures { Tells (option_map OtherModule (find (λ path. not (module_of tree.now path == «module»)) group.now)) result }
{
    for path in group {
        if module_of(tree, path) != module {
            return Err(CutFault::OtherModule(path.clone()?));
        }
    }
    Ok(())
}

// The module of the instance with a path.
fn module_of(tree: &Tree, path: &Name) -> u32
    ensures { result ≡ module_of tree.now path.now }
{
    let place = match instance(tree, path) {
        Some(place) => place,
        None => 0,
    };
    match tree.instances().get(place as usize) {
        Some(instance) => instance.module,
        None => 0,
    }
}
