//! The channels of a plan.
ghost use Rattle.std.specs.Prelude.{◌≡◌, ℕ, ◌<◌, List, [], Bool, length, slice_index_or, All, IfOk};
ghost use Rattle.gg_flat.specs.Line.{value_at};
ghost use Rattle.gg_flat_tree.specs.Tree.{path_at};
ghost use Rattle.gg_order.specs.Marks.{is_marked};
ghost use Rattle.gg_cut_plan.specs.Channels.{capacity_of};
ghost use Rattle.gg_cut_plan.specs.Direct.{is_piped};
ghost use Rattle.gg_cut_plan.specs.Plan.{wire_at};
ghost use Rattle.gg_cut_parts.specs.inside.Draft.{IsDraft};
ghost use Rattle.gg_cut.specs.inside.Made.{IsWired, AreWired};

use crate::capacities::capacity_table;
use crate::needs::take_list;
use gg_bits::Ids;
use gg_cut_parts::{Draft, signal_name};
use gg_cut_plan::{Channel, Wire};
use gg_cut_routes::piped_of;
use gg_flat::Piece;
use std::alloc::{AllocError, Global};

// The channels of a draft, by their numbers, with the capacities and the pipes of the request. Their ends and their needs are given.
//
// # Errors
//
// Returns `AllocError` if an allocation fails.
pub(crate) fn channels_of(
    alloc: Global,
    draft: &Draft,
    wires: &[Wire],
    table: &mut Vec<Ids>,
) -> Result<Vec<Channel>, AllocError>
    requires draft { IsDraft draft.now }
    requires known { (c : ℕ) → c < length wires.now → (wire_at wires.now c).signal < length draft.now.design.now.circuit.signals }
    requires count { length table.old.items ≡ length wires.now }
    ensures { IfOk result (λ channels. AreWired draft.now.design.now.circuit
        (capacity_of draft.now.request.now.capacity draft.now.default_capacity)
        (is_piped draft.now.design.now.circuit draft.now.request.now) wires.now table.old.items channels.items) }
{
    let piece = draft.design.piece();
    let request = draft.request;
    let bounds = capacity_table(
        alloc,
        piece,
        request.capacity.as_slice(),
        draft.default_capacity,
    )?;
    let piped = piped_of(alloc, piece, request.pipe.as_slice())?;
    let mut channels = Vec::new(alloc);
    for number in 0..wires.len() {
        let needs = take_list(alloc, table, number);
        let channel = channel_at(alloc, piece, wires, number, &bounds, &piped, needs)?;
        channels.push(channel)?;
    }
    Ok(channels)
}

// A channel with its capacity and its pipe, from tables by signals, and its needs.
fn channel_at(
    alloc: Global,
    piece: &Piece,
    wires: &[Wire],
    number: usize,
    bounds: &[u32],
    piped: &[bool],
    needs: Ids,
) -> Result<Channel, AllocError>
    requires inside { number < length wires.now }
    requires known { (wire_at wires.now number).signal < length piece.now.signals }
    requires count { length bounds.now ≡ length piece.now.signals }
    requires marks { length piped.now ≡ length piece.now.signals }
    ensures wired { (capacity : List ℕ → ℕ) (pipe : ℕ → Bool)
        → ((s : ℕ) → s < length piece.now.signals → value_at bounds.now s ≡ capacity (path_at piece.now.paths s))
        → ((s : ℕ) → s < length piece.now.signals → is_marked piped.now s ≡ pipe s)
        → IfOk result (λ channel. IsWired piece.now capacity pipe (wire_at wires.now number) channel) }
    ensures needs { IfOk result (λ channel. channel.needs ≡ needs) }
{
    let wire = wires[number];
    Ok(Channel {
        signal: wire.signal,
        name: signal_name(alloc, piece, wire.signal)?,
        ty: piece.signals()[wire.signal as usize].ty,
        producer: wire.producer,
        consumer: wire.consumer,
        capacity: bounds[wire.signal as usize],
        pipe: piped[wire.signal as usize],
        needs,
    })
}
