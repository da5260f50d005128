//! The checks of a request.
ghost use Rattle.std.specs.Prelude.{◌≡◌, ◌+◌, ◌<◌, ◌^◌, length, option_map, nat_lt, if◌then◌else◌, Some, None, All, IfOk, IfErr};
ghost use Rattle.gg_flat_tree.specs.Tree.{IsTree};
ghost use Rattle.gg_part.specs.KeepsToTree.{KeepsToTree};
ghost use Rattle.gg_cut_plan.specs.Listed.{listed_of};
ghost use Rattle.gg_cut_plan.specs.Fault.{IsSmall, Tells, entry_faults, channel_faults, pipe_faults, clock_faults, too_many_channels};
ghost use Rattle.gg_bits.specs.Lists.{first_of};
ghost use Rattle.gg_bits.specs.Limits.{most_units};
ghost use Rattle.gg_cut_plan.specs.declared.fault.CutFault.TheVariants.{TooManyUnits, TooManyChannels, NoMemory};

use crate::capacities::{capacities_in_range, channels_exist};
use crate::clocks::{clocks_exist, ratios_in_range};
use crate::counterparts::memories_matched;
use crate::entries::{
    memories_exist, none_repeated, one_module_each, shared_are_units, shared_once, units_exist,
};
use crate::overlap::none_overlap;
use crate::pipes::{pipes_exist, pipes_once};
use crate::signals::{listed_memories, listed_units};
use gg_bits::{Ids, MOST_CHANNELS, MOST_UNITS};
use gg_cut_plan::{CutFault, Listed, marks_of};
use gg_flat::Piece;
use gg_flat_tree::Tree;
use gg_order::Design;
use gg_partfile::Request;
use std::alloc::Global;

/// Checks the entries of a request for a design that keeps to its tree: entries that name nothing or occur twice, lists of units with different
/// modules, and memories. Returns what the request lists.
///
/// # Errors
///
/// Returns the first fault of the entries (`entry_faults` in gg_cut_plan's `specs/Fault`), exactly if they have one, or `NoMemory` if an
/// allocation fails.
pub fn judge_entries(alloc: Global, design: &Design, request: &Request) -> Result<Listed, CutFault>
    requires small { IsSmall request.now }
    requires keeps { KeepsToTree design.now.circuit design.now.tree }
    ensures told { Tells (first_of (entry_faults design.now.tree request.now)) result }
    ensures listed { IfOk result (λ listed. listed ≡ listed_of design.now.tree request.now) }
    ensures units { IfOk result (λ listed. length listed.units < 2 ^ 32) }
    ensures memories { IfOk result (λ listed. length listed.memories < 2 ^ 32) }
{
    judge_listed(alloc, design.piece(), design.tree(), request)
}

// What a request lists of a circuit with its tree, or the first fault of its entries.
fn judge_listed(
    alloc: Global,
    piece: &Piece,
    tree: &Tree,
    request: &Request,
) -> Result<Listed, CutFault>
    requires small { IsSmall request.now }
    requires fitting { IsTree piece.now tree.now }
    ensures told { Tells (first_of (entry_faults tree.now request.now)) result }
    ensures listed { IfOk result (λ listed. listed ≡ listed_of tree.now request.now) }
    ensures units { IfOk result (λ listed. length listed.units < 2 ^ 32) }
    ensures memories { IfOk result (λ listed. length listed.memories < 2 ^ 32) }
{
    check_entries(alloc, piece, tree, request)?;
    let listed = list(alloc, piece, tree, request)?;
    Ok(listed)
}

// Checks the entries: entries that name nothing, entries that occur twice, lists of units with different modules, and the memories.
fn check_entries(
    alloc: Global,
    _piece: &Piece,
    tree: &Tree,
    request: &Request,
) -> Result<(), CutFault>
    requires small { IsSmall request.now }
    requires fitting { IsTree _piece.now tree.now }
    ensures { Tells (first_of (entry_faults tree.now request.now)) result }
{
    units_exist(tree, request.units.as_slice())?;
    shared_are_units(alloc, request.units.as_slice(), request.share.as_slice())?;
    none_overlap(alloc, tree, request.units.as_slice())?;
    shared_once(alloc, request.share.as_slice())?;
    none_repeated(alloc, request.memories.as_slice())?;
    one_module_each(tree, request.share.as_slice())?;
    memories_exist(tree, request.memories.as_slice())?;
    memories_matched(alloc, request.memories.as_slice(), request.share.as_slice())?;
    Ok(())
}

// What is listed, by places in the tree.
fn list(alloc: Global, _piece: &Piece, tree: &Tree, request: &Request) -> Result<Listed, CutFault>
    requires small { IsSmall request.now }
    requires fitting { IsTree _piece.now tree.now }
    ensures listed { IfOk result (λ listed. listed ≡ listed_of tree.now request.now) }
    ensures few_units { IfOk result (λ listed. length listed.units < 2 ^ 32) }
    ensures few_memories { IfOk result (λ listed. length listed.memories < 2 ^ 32) }
    ensures err { IfErr result (λ cause. cause ≡ NoMemory) }
{
    let units = listed_units(alloc, tree, request.units.as_slice())?;
    let memories = listed_memories(alloc, tree, request.memories.as_slice())?;
    Ok(Listed {
        units: Ids::from(units),
        memories: Ids::from(memories),
    })
}

/// Checks the capacities of a request that lists this, and the numbers of units and of channels. The channels have these signals, which their
/// consumers take.
///
/// # Errors
///
/// Returns the first fault (`channel_faults` in gg_cut_plan's `specs/Fault`), exactly if there is one, or `NoMemory` if an allocation fails.
pub fn judge_channels(
    alloc: Global,
    piece: &Piece,
    request: &Request,
    listed: &Listed,
    signals: &[u32],
) -> Result<(), CutFault>
    requires known { All (λ s. s < length piece.now.signals) signals.now }
    requires units { length listed.now.units < 2 ^ 32 }
    requires memories { length listed.now.memories < 2 ^ 32 }
    ensures { Tells (first_of (channel_faults piece.now request.now listed.now signals.now)) result }
{
    let marks = marks_of(alloc, piece.signals().len(), signals)?;
    channels_exist(piece, signals, &marks, request.capacity.as_slice())?;
    capacities_in_range(request.capacity.as_slice())?;
    few_units(
        listed.units.as_slice().len() as u64,
        listed.memories.as_slice().len() as u64,
    )?;
    few_channels(signals)?;
    Ok(())
}

/// Checks the pipes of a request. The channels have these signals, which their consumers take.
///
/// # Errors
///
/// Returns the first fault (`pipe_faults` in gg_cut_plan's `specs/Fault`), exactly if there is one, or `NoMemory` if an allocation fails.
pub fn judge_pipes(
    alloc: Global,
    piece: &Piece,
    request: &Request,
    signals: &[u32],
) -> Result<(), CutFault>
    requires small { IsSmall request.now }
    requires known { All (λ s. s < length piece.now.signals) signals.now }
    ensures { Tells (first_of (pipe_faults piece.now request.now signals.now)) result }
{
    let marks = marks_of(alloc, piece.signals().len(), signals)?;
    pipes_exist(piece, signals, &marks, request.pipe.as_slice())?;
    pipes_once(alloc, request.pipe.as_slice())?;
    Ok(())
}

/// Checks the ratios of clocks that a request gives.
///
/// # Errors
///
/// Returns the first fault (`clock_faults` in gg_cut_plan's `specs/Fault`), exactly if there is one, or `NoMemory` if an allocation fails.
pub fn judge_clocks(alloc: Global, tree: &Tree, request: &Request) -> Result<(), CutFault>
    ensures { Tells (first_of (clock_faults tree.now request.now)) result }
{
    clocks_exist(alloc, tree, request.clocks.as_slice())?;
    ratios_in_range(request.clocks.as_slice())?;
    Ok(())
}

// Checks that there are at most 256 units and listed memories.
fn few_units(units: u64, memories: u64) -> Result<(), CutFault>
    requires units { units < 2 ^ 32 }
    requires memories { memories < 2 ^ 32 }
    ensures { Tells (option_map TooManyUnits (if nat_lt most_units (units + memories) then Some (units + memories) else None)) result }
{
    let count = units + memories;
    if count > MOST_UNITS {
        return Err(CutFault::TooManyUnits(count));
    }
    Ok(())
}

// Checks that there are at most 16,384 channels.
fn few_channels(signals: &[u32]) -> Result<(), CutFault>
    ensures { Tells (option_map TooManyChannels (too_many_channels signals.now)) result }
{
    let count = signals.len() as u64;
    if count > MOST_CHANNELS {
        return Err(CutFault::TooManyChannels(count));
    }
    Ok(())
}
