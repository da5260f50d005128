//! The lanes and states that threads begin with.
ghost use Rattle.std.specs.Prelude.{◌≡◌, ◌<◌, ◌≤◌, ◌++◌, [], ◌∷◌, Some, All, length, replicate, slice_index_or, IfOk};
ghost use Rattle.std.specs.Vec.{vec_capacity};
ghost use Rattle.gg_bits.specs.Limits.{cycle_limit};
ghost use Rattle.gg_flat.specs.State.{IsState, opening};
ghost use Rattle.gg_fame5.specs.inside.Lane.{IsLane, started_lane};
ghost use Rattle.gg_fame5.specs.inside.Shared.{started_lanes};

use crate::lane::Lane;
use gg_bits::Ids;
use gg_clocks::Ratios;
use gg_flat::Piece;
use gg_order::State;
use gg_program::{NoMemory, Program};
use std::alloc::{AllocError, Global};

// This many states of a piece before the first cycle.
pub(crate) fn opening_states(
    alloc: Global,
    piece: &Piece,
    count: usize,
) -> Result<Vec<State>, AllocError>
    ensures states { IfOk result (λ states. states.items ≡ replicate count (opening piece.now)) }
    ensures typed { IfOk result (λ states. All (IsState piece.now) states.items) }
{
    let mut states = Vec::with_capacity(alloc, count)?;
    for _i in 0..count {
        let state = State::new(alloc, piece)?;
        states.push_reserved(state);
    }
    Ok(states)
}

// Adds the lane of the next thread, which begins in this state, with this cycle.
fn add_lane(
    alloc: Global,
    program: &Program<'_>,
    outs: &[Ids],
    ratios: &[Ratios],
    state: State,
    cycle: u64,
    lanes: &mut Vec<Lane>,
) -> Result<(), NoMemory>
    requires below { length lanes.old.items < length outs.now }
    requires ratios { length ratios.now ≡ length outs.now }
    requires known { All (All (λ out. out < length program.now.circuit.outs)) outs.now }
    requires typed { IsState program.now.circuit state }
    requires cycle { cycle ≤ cycle_limit }
    requires room { length outs.now ≤ vec_capacity lanes.old }
    ensures lanes { IfOk result (λ _. lanes.new.items ≡ lanes.old.items
        ++ started_lane program.now.circuit (Some (slice_index_or outs.now (length lanes.old.items) []))
        (slice_index_or ratios.now (length lanes.old.items) []) state cycle ∷ []) }
    ensures each { IfOk result (λ _. All (IsLane program.now.circuit) lanes.old.items → All (IsLane program.now.circuit) lanes.new.items) }
    ensures room { IfOk result (λ _. vec_capacity lanes.new ≡ vec_capacity lanes.old) }
{
    let t = lanes.len();
    let own = Ids::from(Vec::from_slice(alloc, outs[t].as_slice())?);
    let lane = Lane::new(
        alloc,
        program,
        Some(own),
        ratios[t].as_slice(),
        state,
        cycle,
    )?;
    lanes.push_reserved(lane);
    Ok(())
}

// Lanes of a program that begin in these states, one for each state, with this cycle.
pub(crate) fn lanes_of(
    alloc: Global,
    program: &Program<'_>,
    outs: &[Ids],
    ratios: &[Ratios],
    states: Vec<State>,
    cycle: u64,
) -> Result<Vec<Lane>, NoMemory>
    requires ratios { length ratios.now ≡ length outs.now }
    requires known { All (All (λ out. out < length program.now.circuit.outs)) outs.now }
    requires states { length states.items ≡ length outs.now }
    requires typed { All (IsState program.now.circuit) states.items }
    requires cycle { cycle ≤ cycle_limit }
    ensures lanes { IfOk result (λ lanes. lanes.items ≡ started_lanes program.now.circuit outs.now ratios.now states.items cycle) }
    ensures each { IfOk result (λ lanes. All (IsLane program.now.circuit) lanes.items) }
{
    let mut lanes = Vec::with_capacity(alloc, outs.len())?;
    for state in states {
        add_lane(alloc, program, outs, ratios, state, cycle, &mut lanes)?;
    }
    Ok(lanes)
}
