//! The ratios of clocks, and their faults.
ghost use Rattle.std.specs.Prelude.{◌≡◌, ℕ, List, [], ◌+◌, ◌-◌, ◌<◌, ◌^◌, Some, None, true, length, map, option_map, slice_get, IfOk};
ghost use Rattle.gg_cut_plan.specs.Clocks.{is_ratio, ratio_of, ratio_with, ratios_of};
ghost use Rattle.gg_cut_plan.specs.Fault.{Tells, unknown_clock, ratio_fault};
ghost use Rattle.gg_cut_plan.specs.inside.Named.{AreNamed};
ghost use Rattle.gg_cut_plan.specs.declared.fault.CutFault.TheVariants.{UnknownClock};

use crate::paths::{has, set_of};
use gg_bits::{AddError, Name, Paths};
use gg_clocks::Ratio;
use gg_cut_plan::CutFault;
use gg_flat_tree::Tree;
use std::alloc::{AllocError, Global};

// Checks that each name is a Clock input's of the top.
//
// # Errors
//
// Returns `UnknownClock` with the first name that isn't, or `NoMemory` if an allocation fails or the top has 4,294,967,295 Clock
// inputs or more.
pub(crate) fn clocks_exist(
    alloc: Global,
    tree: &Tree,
    clocks: &[(Name, (u64, u64))],
) -> Result<(), CutFault>
    ensures { Tells (option_map UnknownClock (unknown_clock tree.now.clocks clocks.now)) result }
{
    let names = tree.clocks();
    if names.len() >= u32::MAX as usize {
        return Err(CutFault::NoMemory);
    }
    let set = set_of(alloc, names)?;
    clocks_among(&set, clocks)
}

// Checks that each name is in a set.
fn clocks_among(set: &Paths, clocks: &[(Name, (u64, u64))]) -> Result<(), CutFault>
    ensures { Tells (option_map UnknownClock (unknown_clock set.now clocks.now)) result }
{
    for pair in clocks {
        if !has(set, &pair.0) {
            return Err(CutFault::UnknownClock(pair.0.clone()?));
        }
    }
    Ok(())
}

// Checks that each ratio has edges in at least one of its ticks and in no more than all, and that its ticks are at most 65,535.
//
// # Errors
//
// Returns `WrongRatio` with the first ratio that doesn't and its name, or `NoMemory` if an allocation fails.
pub(crate) fn ratios_in_range(clocks: &[(Name, (u64, u64))]) -> Result<(), CutFault>
    ensures { Tells (ratio_fault clocks.now) result }
{
    for pair in clocks {
        if !is_ratio(pair.1.0, pair.1.1) {
            return Err(CutFault::WrongRatio(pair.0.clone()?, pair.1.0, pair.1.1));
        }
    }
    Ok(())
}

// Whether a clock can have an edge in `m` of `d` base ticks.
fn is_ratio(m: u64, d: u64) -> bool
    ensures { result ≡ is_ratio m d }
{
    1 <= m && m <= d && d <= 65535
}

// ---- the ratios of a design's clocks

// The ratio of two numbers that are in range.
fn ratio_with(numbers: (u64, u64)) -> Ratio
    requires { is_ratio numbers.0 numbers.1 ≡ true }
    ensures { result ≡ ratio_with numbers }
{
    Ratio::new(numbers.0, numbers.1).unwrap()
}

// Adds a name with its ratio, if the name isn't there yet.
fn add_named(
    names: &mut Paths,
    ratios: &mut Vec<Ratio>,
    pair: &(Name, (u64, u64)),
) -> Result<(), AllocError>
    requires range { is_ratio pair.now.1.0 pair.now.1.1 ≡ true }
    requires few { length names.old < 2 ^ 32 - 1 }
    ensures { (clocks : List (List ℕ × (ℕ × ℕ))) (i : ℕ)
        → IfOk result (λ done. i < length clocks → slice_get clocks i ≡ Some pair.now
        → AreNamed clocks i names.old ratios.old.items → AreNamed clocks (i + 1) names.new ratios.new.items) }
{
    let ratio = ratio_with(pair.1);
    match names.add(pair.0.clone()?) {
        Ok(()) => {
            ratios.push(ratio)?;
            Ok(())
        }
        Err(AddError::Doubled) => Ok(()),
        Err(AddError::NoMemory) => Err(AllocError),
    }
}

// Collects the names of these clocks, with the ratios that are given for them.
fn add_all_named(
    names: &mut Paths,
    ratios: &mut Vec<Ratio>,
    clocks: &[(Name, (u64, u64))],
) -> Result<(), AllocError>
    requires range { ratio_fault clocks.now ≡ None }
    requires few { length clocks.now < 2 ^ 32 }
    requires none { names.old ≡ [] }
    requires empty { ratios.old.items ≡ [] }
    ensures { IfOk result (λ done. AreNamed clocks.now (length clocks.now) names.new ratios.new.items) }
{
    for pair in clocks {
        add_named(names, ratios, pair)?;
    }
    Ok(())
}

// The ratio of the clock with a name.
fn ratio_at(names: &Paths, ratios: &[Ratio], name: &Name) -> Ratio
    requires { length ratios.now ≡ length names.now }
    ensures { (clocks : List (List ℕ × (ℕ × ℕ))) → AreNamed clocks (length clocks) names.now ratios.now → result ≡ ratio_of clocks name.now }
{
    match names.find(name) {
        Some(place) => ratios[place as usize],
        None => ratio_with((1, 1)),
    }
}

/// The ratios of the circuit's clocks, in order. The ratios that the request gives are in range.
///
/// # Errors
///
/// Returns `AllocError` if an allocation fails, or if 4,294,967,295 ratios or more are given.
pub fn clock_ratios(
    alloc: Global,
    tree: &Tree,
    clocks: &[(Name, (u64, u64))],
) -> Result<Vec<Ratio>, AllocError>
    requires range { ratio_fault clocks.now ≡ None }
    ensures { IfOk result (λ ratios. ratios.items ≡ map (ratio_of clocks.now) tree.now.clocks) }
{
    if clocks.len() >= u32::MAX as usize {
        return Err(AllocError);
    }
    let mut names = Paths::new(alloc);
    let mut given = Vec::new(alloc);
    add_all_named(&mut names, &mut given, clocks)?;
    let mut ratios = Vec::new(alloc);
    for name in tree.clocks() {
        ratios.push(ratio_at(&names, given.as_slice(), name))?;
    }
    Ok(ratios)
}
