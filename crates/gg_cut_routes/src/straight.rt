//! The direct channels.
ghost use Rattle.std.specs.Prelude.{◌≡◌, ◌≢◌, ◌<◌, length, All, AllPairs, IfOk};
ghost use Rattle.gg_flat.specs.WellFormed.{IsWellFormed};
ghost use Rattle.gg_cut_routes.specs.inside.Tables.{AreKnown, origin_beyond, given_by, if_given, direct_by, AreEntries};

use crate::origins::{nones, origin_beyond};
use crate::sides::Side;
use gg_cut_plan::{Numbering, Wire};
use gg_flat::Piece;
use std::alloc::{AllocError, Global};

// For the signal of each direct channel the in-channel that is given in its place. `numbering` has the machines' numbers; `named` marks what the hub names and the stops.
//
// # Errors
//
// Returns `AllocError` if an allocation fails.
pub(crate) fn straight_of(
    alloc: Global,
    piece: &Piece,
    numbering: Numbering,
    wires: &[Wire],
    sides: &[Side],
    origins: &[Option<u32>],
    named: &[bool],
    direct: bool,
) -> Result<Vec<Option<u32>>, AllocError>
    requires formed { IsWellFormed piece.now }
    requires signals { All (λ w. w.signal < length piece.now.signals) wires.now }
    requires once { AllPairs (λ v w. v.signal ≢ w.signal) wires.now }
    requires sides { length sides.now ≡ length piece.now.signals }
    requires origins { length origins.now ≡ length piece.now.signals }
    requires known { AreKnown (length piece.now.signals) origins.now }
    requires named { length named.now ≡ length piece.now.signals }
    ensures count { IfOk result (λ straight. length straight.items ≡ length piece.now.signals) }
    ensures known { IfOk result (λ straight. AreKnown (length piece.now.signals) straight.items) }
    ensures entries { IfOk result (λ straight. AreEntries (direct_by piece.now numbering sides.now origins.now named.now direct) wires.now straight.items) }
{
    let mut straight = nones(alloc, piece.signal_count())?;
    for place in 0..wires.len() {
        let wire = wires[place];
        let origin = direct_of(piece, numbering, &wire, sides, origins, named, direct);
        straight[wire.signal as usize] = origin;
    }
    Ok(straight)
}

// The in-channel that is given in place of a channel, if the channel is direct.
fn direct_of(
    piece: &Piece,
    numbering: Numbering,
    wire: &Wire,
    sides: &[Side],
    origins: &[Option<u32>],
    named: &[bool],
    direct: bool,
) -> Option<u32>
    requires formed { IsWellFormed piece.now }
    requires signal { wire.now.signal < length piece.now.signals }
    requires sides { length sides.now ≡ length piece.now.signals }
    requires origins { length origins.now ≡ length piece.now.signals }
    requires known { AreKnown (length piece.now.signals) origins.now }
    requires named { length named.now ≡ length piece.now.signals }
    ensures { result ≡ direct_by piece.now numbering sides.now origins.now named.now direct wire.now }
{
    if direct && wire.producer == 0 && !named[wire.signal as usize] {
        direct_origin(piece, numbering, sides, origins, wire.signal)
    } else {
        None
    }
}

// The origin of what a signal is a copy of, if a source or a unit gives it.
fn direct_origin(
    piece: &Piece,
    numbering: Numbering,
    sides: &[Side],
    origins: &[Option<u32>],
    signal: u32,
) -> Option<u32>
    requires formed { IsWellFormed piece.now }
    requires signal { signal < length piece.now.signals }
    requires sides { length sides.now ≡ length piece.now.signals }
    requires origins { length origins.now ≡ length piece.now.signals }
    requires known { AreKnown (length piece.now.signals) origins.now }
    ensures { result ≡ if_given numbering sides.now (origin_beyond piece.now origins.now signal) }
{
    match origin_beyond(piece, origins, signal) {
        Some(origin) => given(numbering, origin, sides[origin as usize]),
        None => None,
    }
}

// An in-channel, if a source or a unit gives it.
fn given(numbering: Numbering, signal: u32, side: Side) -> Option<u32>
    ensures { result ≡ given_by numbering signal side }
{
    match side {
        Side::In(producer) => {
            if numbering.is_silent(producer) {
                None
            } else {
                Some(signal)
            }
        }
        Side::Own | Side::Out | Side::Other => None,
    }
}
