//! `join`: a design with a bridge's model at its ports.
ghost use Rattle.std.specs.Prelude.{◌≡◌, ◌≢◌, ◌++◌, AllPairs, codes, length, map, string_bytes, IfOk};
ghost use Rattle.gg_bridge.specs.inside.Joined.{HasPlaces};
ghost use Rattle.gg_bridge.specs.Model.{IsModel};
ghost use Rattle.gg_bridge.specs.inside.Ports.{CanStand, earlier, picked, place_by};
ghost use Rattle.gg_bridge.specs.Ports.{first_called, front_of, joined_at};

use crate::designs::join_model;
use crate::{place_at, places_of};
use gg_bits::{Name, Names};
use gg_flat::Piece;
use gg_order::Design;
use std::alloc::{AllocError, Global};

// A word followed by a name.
fn behind(alloc: Global, word: &str, name: &str) -> Result<String, AllocError>
    ensures { IfOk result (λ text. string_bytes text ≡ word.now ++ name.now) }
{
    let mut text = String::from_str(alloc, word)?;
    text.push_str(name)?;
    Ok(text)
}

// The place of a signal by a table of places, if there is a signal.
fn place_by(places: &[Option<u32>], signal: Option<u32>) -> Option<u32>
    ensures { result ≡ place_by places.now signal }
{
    match signal {
        Some(signal) => place_at(places, signal),
        None => None,
    }
}

// The earlier of two places.
fn earlier(one: Option<u32>, other: Option<u32>) -> Option<u32>
    ensures { result ≡ earlier one other }
{
    match one {
        None => other,
        Some(i) => match other {
            None => Some(i),
            Some(j) => { if j < i { Some(j) } else { Some(i) } }
        },
    }
}

// The number at a place of a list; 0 if there is none.
fn picked(list: &[u32], place: Option<u32>) -> u32
    ensures { result ≡ picked list.now place }
{
    match place {
        Some(place) => match list.get(place as usize) {
            Some(number) => *number,
            None => 0,
        },
        None => 0,
    }
}

// The first of these signals with this name, by the table of their places: its path is the name, or the path of the pipe with this name; 0 if there
// is none.
fn first_called(
    piece: &Piece,
    name: &Name,
    pipe: &Name,
    places: &[Option<u32>],
    signals: &[u32],
) -> u32
    requires pipe { pipe.now ≡ codes "pipe:" ++ name.now }
    requires distinct { AllPairs (λ a b. a ≢ b) piece.now.paths }
    requires places { HasPlaces signals.now (length piece.now.paths) places.now }
    ensures { result ≡ first_called piece.now name.now signals.now }
{
    let own = place_by(places, piece.find(name));
    let piped = place_by(places, piece.find(pipe));
    picked(signals, earlier(own, piped))
}

// For each name the first of these signals with this name.
fn all_called(
    alloc: Global,
    piece: &Piece,
    signals: &[u32],
    names: &[Name],
) -> Result<Vec<u32>, AllocError>
    ensures { IfOk result (λ called. called.items ≡ map (λ name. first_called piece.now name signals.now) names.now) }
{
    if signals.len() > 4294967296 {
        return Err(AllocError);
    }
    let places = places_of(alloc, piece.signal_count(), signals)?;
    let mut called = Vec::new(alloc);
    for name in names {
        let pipe = Name::from(behind(alloc, "pipe:", name.as_str())?);
        called.push(first_called(piece, name, &pipe, &places, signals))?;
    }
    Ok(called)
}

/// The design with a bridge's model at its ports. The bridge sees the outputs `sees`, one for each in-signal of the model, and drives the inputs
/// `drives`, one for each out-signal. What is driven is no input any more, and what is seen no output. The paths of the model's signals begin with
/// `bridge:NAME.`. The tree is the design's.
///
/// An output after a pipe is called by the output's own name.
///
/// # Errors
///
/// Returns `AllocError` if an allocation fails, or if there are 4,294,967,296 signals, registers, memories or ports, or more.
pub fn join(
    alloc: Global,
    design: &Design,
    name: &str,
    model: &Piece,
    sees: &Names,
    drives: &Names,
) -> Result<Design, AllocError>
    requires can { CanStand design.now.circuit name.now model.now sees.now drives.now }
    requires model { IsModel model.now }
    ensures circuit { IfOk result (λ made. made.circuit ≡ joined_at design.now.circuit name.now model.now sees.now drives.now) }
    ensures tree { IfOk result (λ made. made.tree ≡ design.now.tree) }
{
    let piece = design.piece();
    let seen = all_called(alloc, piece, piece.outs(), sees.as_slice())?;
    let driven = all_called(alloc, piece, piece.ins(), drives.as_slice())?;
    let mut front = behind(alloc, "bridge:", name)?;
    front.push_str(".")?;
    join_model(alloc, design, front.as_str(), model, &seen, &driven)
}
