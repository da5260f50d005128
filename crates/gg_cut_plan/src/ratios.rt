//! The ratios of clocks that follow a circuit's clocks.
ghost use Rattle.std.specs.Prelude.{◌≡◌, IfOk, map, slice_index_or, []};
ghost use Rattle.gg_cut_plan.specs.Clocks.{every_tick, stop_clocks as clocks_of_stops, stop_ratios as ratios_of_stops};
ghost use Rattle.gg_flat_tree.specs.inside.Clocked.{AreParentsBefore};
ghost use Rattle.gg_flat_tree.specs.Clocked.{clock_at};
ghost use Rattle.gg_part.specs.PartRun.{part_ratios as ratios_of_part, ratio_at};

use gg_clocks::Ratio;
use gg_flat_tree::{ClockNumbers, StopInstance, Tree};
use std::alloc::{AllocError, Global};

// An edge in each tick.
fn every_tick() -> Ratio
    ensures { result ≡ every_tick }
{
    Ratio::new(1, 1).unwrap()
}

// The ratio of a clock of the circuit, if there is a clock.
fn ratio_at(ratios: &[Ratio], clock: Option<u32>) -> Ratio
    ensures { result ≡ ratio_at ratios.now clock }
{
    match clock {
        Some(number) => match ratios.get(number as usize) {
            Some(ratio) => *ratio,
            None => every_tick(),
        },
        None => every_tick(),
    }
}

/// The ratios of these clocks, which follow a circuit's clocks with the given ratios. Without ratios there are none, and each clock has an edge in
/// each tick.
///
/// # Errors
///
/// Returns `AllocError` if an allocation fails.
pub fn part_ratios(
    alloc: Global,
    clocks: &[Option<u32>],
    ratios: &[Ratio],
) -> Result<Vec<Ratio>, AllocError>
    ensures { IfOk result (λ own. own.items ≡ ratios_of_part clocks.now ratios.now) }
{
    let mut own = Vec::new(alloc);
    if ratios.is_empty() {
        return Ok(own);
    }
    for clock in clocks {
        own.push(ratio_at(ratios, *clock))?;
    }
    Ok(own)
}

// The clock of the circuit that a stop follows; `tops` has for each instance what its Clock inputs follow.
fn stop_clock(tops: &[ClockNumbers], stop: &StopInstance) -> Option<u32>
    ensures { result ≡ clock_at (slice_index_or tops.now stop.now.instance []) stop.now.clock }
{
    match stop.clock {
        Some(clock) => match tops.get(stop.instance as usize) {
            Some(own) => match own.as_slice().get(clock as usize) {
                Some(top) => *top,
                None => None,
            },
            None => None,
        },
        None => None,
    }
}

// The clock of the circuit that each of these stops follows.
fn clocks_of(
    alloc: Global,
    tops: &[ClockNumbers],
    stops: &[StopInstance],
) -> Result<Vec<Option<u32>>, AllocError>
    ensures { IfOk result (λ clocks. clocks.items ≡ map (λ stop. clock_at (slice_index_or tops.now stop.instance []) stop.clock) stops.now) }
{
    let mut clocks = Vec::new(alloc);
    for stop in stops {
        clocks.push(stop_clock(tops, stop))?;
    }
    Ok(clocks)
}

// The clock of the circuit that each stop follows.
fn stop_clocks(alloc: Global, tree: &Tree) -> Result<Vec<Option<u32>>, AllocError>
    requires { AreParentsBefore tree.now }
    ensures { IfOk result (λ clocks. clocks.items ≡ clocks_of_stops tree.now) }
{
    let tops = tree.top_clocks(alloc)?;
    let clocks = clocks_of(alloc, &tops, tree.stops())?;
    Ok(clocks)
}

/// The ratios of the clocks that the stops of a tree follow, in the order of the stops, where the circuit's clocks have these ratios.
///
/// # Errors
///
/// Returns `AllocError` if an allocation fails.
pub fn stop_ratios(alloc: Global, tree: &Tree, ratios: &[Ratio]) -> Result<Vec<Ratio>, AllocError>
    requires { AreParentsBefore tree.now }
    ensures { IfOk result (λ own. own.items ≡ ratios_of_stops tree.now ratios.now) }
{
    let clocks = stop_clocks(alloc, tree)?;
    part_ratios(alloc, &clocks, ratios)
}
