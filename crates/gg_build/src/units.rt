//! Units that share a host.
ghost use Rattle.std.specs.Prelude.{◌≡◌, ◌^◌, ◌<◌, ◌≤◌, [], length, map, replicate, All, IfOk};
ghost use Rattle.gg_bits.specs.Limits.{cycle_limit};
ghost use Rattle.gg_flat.specs.Line.{value_at};
ghost use Rattle.gg_flat.specs.WellFormed.{IsWellFormed};
ghost use Rattle.gg_cut_plan.specs.Alike.{IsLike};
ghost use Rattle.gg_fame5.specs.inside.Shared as shared_units;
ghost use Rattle.gg_build.specs.inside.Begin.{starts_of};
ghost use Rattle.gg_build.specs.inside.Hosts.{IsUnitPart, AreUnits, ArePicked, ArePickedFor, ArePlaced, CanAllBegin, RunUnits};
ghost use Rattle.gg_build.specs.inside.Wires.{IsNoted};

use crate::begin::Begin;
use crate::starts::{all_ratios, all_states};
use crate::wires::note;
use gg_bits::Ids;
use gg_clocks::Ratio;
use gg_cut_plan::{Body, Machine};
use gg_fame1::NoMemory;
use gg_fame5::Shared;
use gg_flat::Piece;
use gg_part::Part;
use gg_program::Program;
use std::alloc::{AllocError, Global};

// For each out-signal of a piece its place among them, by the number of the signal.
fn out_places(alloc: Global, piece: &Piece) -> Result<Vec<u32>, AllocError>
    requires formed { IsWellFormed piece.now }
    requires few { length piece.now.outs ≤ 2 ^ 32 }
    ensures { IfOk result (λ places. IsNoted piece.now.outs (replicate (length piece.now.signals) 0) places.items) }
{
    let mut places = vec![in alloc; 0; piece.signals().len()]?;
    note(piece.outs(), &mut places);
    Ok(places)
}

// The values at these places.
fn picked(alloc: Global, values: &[u32], places: &[u32]) -> Result<Ids, AllocError>
    requires { All (λ place. place < length values.now) places.now }
    ensures { IfOk result (λ list. list ≡ map (value_at values.now) places.now) }
{
    let mut list = Vec::new(alloc);
    for place in places {
        list.push(values[*place as usize])?;
    }
    Ok(Ids::from(list))
}

// The places of a unit's out-signals, among the out-signals of a piece like its own.
fn outs_of(alloc: Global, _piece: &Piece, places: &[u32], body: &Body) -> Result<Ids, AllocError>
    requires formed { IsWellFormed _piece.now }
    requires places { IsNoted _piece.now.outs (replicate (length _piece.now.signals) 0) places.now }
    requires like { IsLike _piece.now body.now }
    ensures { IfOk result (λ outs. ArePickedFor _piece.now.outs body.now outs) }
{
    match body {
        Body::Cut(part) => {
            let outs = picked(alloc, places, part.piece.outs())?;
            Ok(outs)
        }
        Body::Memory(_) | Body::Source(_) | Body::Tray | Body::Bridge(_) => unreachable!(),
    }
}

// For each of these machines the places of its out-signals, among the out-signals of a piece.
fn all_outs(
    alloc: Global,
    piece: &Piece,
    machines: &[Machine],
    group: &[u32],
) -> Result<Vec<Ids>, AllocError>
    requires formed { IsWellFormed piece.now }
    requires few { length piece.now.outs ≤ 2 ^ 32 }
    requires units { AreUnits piece.now machines.now group.now }
    ensures { IfOk result (λ outs. ArePlaced piece.now.outs machines.now group.now (length group.now) outs.items) }
{
    let places = out_places(alloc, piece)?;
    let mut outs = Vec::new(alloc);
    for thread in 0..group.len() {
        let number = group[thread] as usize;
        let machine = &machines[number];
        let own = outs_of(alloc, piece, &places, &machine.body)?;
        outs.push(own)?;
    }
    Ok(outs)
}

// The units of these machines of a plan, a thread each. They run the piece of the first one's part, each from where it begins.
//
// # Errors
//
// Returns `NoMemory` if an allocation fails.
pub(crate) fn units_of<'a>(
    alloc: Global,
    part: &'a Part,
    machines: &[Machine],
    group: &[u32],
    ratios: &[Ratio],
    begin: &Begin,
) -> Result<Shared<'a>, NoMemory>
    requires part { IsUnitPart part.now }
    requires units { AreUnits part.now.piece machines.now group.now }
    requires begin { CanAllBegin (starts_of ratios.now begin.now) machines.now group.now }
    requires cycle { begin.now.cycle ≤ cycle_limit }
    ensures { IfOk result (λ shared. RunUnits (starts_of ratios.now begin.now) machines.now group.now (shared_units.machines_of shared)) }
{
    let outs = all_outs(alloc, &part.piece, machines, group)?;
    let own = all_ratios(alloc, machines, group, ratios, begin)?;
    let states = all_states(alloc, machines, group, ratios, begin)?;
    let program = Program::of(alloc, &part.piece)?;
    let shared = Shared::from_state(alloc, program, &outs, &own, states, begin.cycle)?;
    Ok(shared)
}
