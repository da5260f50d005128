//! Where the machines of a plan begin.
ghost use Rattle.std.specs.Prelude.{◌≡◌, ◌<◌, length, All, IfOk};
ghost use Rattle.gg_part.specs.PartRun.{part_ratios};
ghost use Rattle.gg_build.specs.inside.Begin.{starts_of};
ghost use Rattle.gg_build.specs.inside.Hosts.{ratios_for, states_for};

use crate::begin::{Begin, own_state};
use gg_clocks::{Ratio, Ratios};
use gg_cut_plan::{Body, Machine, part_ratios};
use gg_order::State;
use gg_part::Part;
use std::alloc::{AllocError, Global};

// The ratios of a part's own clocks, where the circuit's clocks have these ratios.
//
// # Errors
//
// Returns `AllocError` if an allocation fails.
pub(crate) fn own_ratios(alloc: Global, part: &Part, ratios: &[Ratio]) -> Result<Ratios, AllocError>
    ensures { IfOk result (λ own. own ≡ part_ratios part.now.clocks ratios.now) }
{
    let own = part_ratios(alloc, part.clocks.as_slice(), ratios)?;
    Ok(Ratios::from(own))
}

// The ratios of a machine's own clocks.
fn body_ratios(
    alloc: Global,
    body: &Body,
    ratios: &[Ratio],
    _begin: &Begin,
) -> Result<Ratios, AllocError>
    ensures { IfOk result (λ own. own ≡ (starts_of ratios.now _begin.now body.now).ratios) }
{
    match body {
        Body::Cut(part) => own_ratios(alloc, part, ratios),
        Body::Memory(part) => own_ratios(alloc, part, ratios),
        Body::Source(_) | Body::Tray | Body::Bridge(_) => Ok(Ratios::from(Vec::new(alloc))),
    }
}

// The state that a machine begins with.
fn body_state(
    alloc: Global,
    body: &Body,
    _ratios: &[Ratio],
    begin: &Begin,
) -> Result<State, AllocError>
    ensures { IfOk result (λ own. own ≡ (starts_of _ratios.now begin.now body.now).state) }
{
    match body {
        Body::Cut(part) => own_state(alloc, part, begin),
        Body::Memory(part) => own_state(alloc, part, begin),
        Body::Source(_) | Body::Tray => Ok(State::of(Vec::new(alloc), Vec::new(alloc))),
        Body::Bridge(body) => State::new(alloc, &body.model),
    }
}

// For each of these machines of a plan the ratios of its own clocks, where the circuit's clocks have these ratios.
//
// # Errors
//
// Returns `AllocError` if an allocation fails.
pub(crate) fn all_ratios(
    alloc: Global,
    machines: &[Machine],
    group: &[u32],
    ratios: &[Ratio],
    begin: &Begin,
) -> Result<Vec<Ratios>, AllocError>
    requires { All (λ m. m < length machines.now) group.now }
    ensures { IfOk result (λ lists. lists.items ≡ ratios_for (starts_of ratios.now begin.now) machines.now group.now) }
{
    let mut lists = Vec::new(alloc);
    for thread in 0..group.len() {
        let number = group[thread] as usize;
        let machine = &machines[number];
        let own = body_ratios(alloc, &machine.body, ratios, begin)?;
        lists.push(own)?;
    }
    Ok(lists)
}

// For each of these machines of a plan the state that it begins with.
//
// # Errors
//
// Returns `AllocError` if an allocation fails.
pub(crate) fn all_states(
    alloc: Global,
    machines: &[Machine],
    group: &[u32],
    ratios: &[Ratio],
    begin: &Begin,
) -> Result<Vec<State>, AllocError>
    requires { All (λ m. m < length machines.now) group.now }
    ensures { IfOk result (λ states. states.items ≡ states_for (starts_of ratios.now begin.now) machines.now group.now) }
{
    let mut states = Vec::new(alloc);
    for thread in 0..group.len() {
        let number = group[thread] as usize;
        let machine = &machines[number];
        let own = body_state(alloc, &machine.body, ratios, begin)?;
        states.push(own)?;
    }
    Ok(states)
}
