//! What leaves the plan.
ghost use Rattle.std.specs.Prelude.{◌≡◌, ℕ, ◌<◌, length, map, filter, flat_map, All, Contains, IfOk};
ghost use Rattle.std.specs.Option.{option_to_list};
ghost use Rattle.gg_flat.specs.Circuit.{driver_at};
ghost use Rattle.gg_flat_tree.specs.Scoped.{memory_fields};
ghost use Rattle.gg_flat.specs.WellFormed.{IsWellFormed};
ghost use Rattle.gg_cut_plan.specs.Direct.{driver_names};
ghost use Rattle.gg_cut_routes.specs.inside.Tables.{side_at, entry_at, AreKnown, is_kept, is_left, AreGone};

use crate::lists::{push_if, push_some};
use crate::names::names_of;
use crate::sides::Side;
use gg_cut_plan::marks_of;
use gg_flat::Piece;
use std::alloc::{AllocError, Global};

// Marks on the signals that leave: the origins of direct channels, if nothing that is kept needs them, and their copies. `made` has the signals that
// the hub makes, `memories` its memories.
//
// # Errors
//
// Returns `AllocError` if an allocation fails.
pub(crate) fn gone_of(
    alloc: Global,
    piece: &Piece,
    sides: &[Side],
    made: &[u32],
    memories: &[u32],
    origins: &[Option<u32>],
    straight: &[Option<u32>],
) -> Result<Vec<bool>, AllocError>
    requires formed { IsWellFormed piece.now }
    requires sides { length sides.now ≡ length piece.now.signals }
    requires origins { length origins.now ≡ length piece.now.signals }
    requires straight { length straight.now ≡ length piece.now.signals }
    requires known { AreKnown (length piece.now.signals) origins.now }
    requires direct { AreKnown (length piece.now.signals) straight.now }
    requires made { All (λ s. s < length piece.now.signals) made.now }
    requires memories { All (λ m. m < length piece.now.memories) memories.now }
    requires named { (s t : ℕ) → Contains made.now s → Contains (driver_names piece.now (driver_at piece.now s)) t → t < length piece.now.signals }
    requires fields { (m t : ℕ) → Contains memories.now m → Contains (memory_fields piece.now m) t → t < length piece.now.signals }
    ensures count { IfOk result (λ gone. length gone.items ≡ length piece.now.signals) }
    ensures gone { IfOk result (λ gone. AreGone piece.now sides.now made.now memories.now origins.now straight.now gone.items) }
{
    let count = piece.signal_count();
    let ends = found_in(alloc, straight, made)?;
    let left = marks_of(alloc, count, &ends)?;
    let kept = kept_of(alloc, sides, origins, straight, made)?;
    let names = names_of(alloc, piece, &kept, memories)?;
    let needs = found_in(alloc, origins, &names)?;
    let needed = marks_of(alloc, count, &needs)?;
    let gone = gone_by(alloc, origins, &left, &needed)?;
    Ok(gone)
}

// What a table has for these signals.
fn found_in(alloc: Global, table: &[Option<u32>], signals: &[u32]) -> Result<Vec<u32>, AllocError>
    requires { All (λ s. s < length table.now) signals.now }
    ensures { IfOk result (λ found. found.items ≡ flat_map (λ s. option_to_list (entry_at table.now s)) signals.now) }
{
    let mut found = Vec::new(alloc);
    for signal in signals {
        push_some(&mut found, table[*signal as usize])?;
    }
    Ok(found)
}

// The signals that are neither copies nor direct, among the signals that the hub makes.
fn kept_of(
    alloc: Global,
    sides: &[Side],
    origins: &[Option<u32>],
    straight: &[Option<u32>],
    made: &[u32],
) -> Result<Vec<u32>, AllocError>
    requires sides { All (λ s. s < length sides.now) made.now }
    requires origins { length origins.now ≡ length sides.now }
    requires straight { length straight.now ≡ length sides.now }
    ensures { IfOk result (λ kept. kept.items ≡ filter (λ s. is_kept (side_at sides.now s) (entry_at origins.now s) (entry_at straight.now s)) made.now) }
{
    let mut kept = Vec::new(alloc);
    for signal in made {
        let place = *signal as usize;
        push_if(
            &mut kept,
            *signal,
            is_kept(sides[place], origins[place], straight[place]),
        )?;
    }
    Ok(kept)
}

// Whether a signal that the hub makes is neither a copy nor direct.
fn is_kept(side: Side, origin: Option<u32>, direct: Option<u32>) -> bool
    ensures { result ≡ is_kept side origin direct }
{
    match side {
        Side::Own => origin.is_none() && direct.is_none(),
        Side::Other | Side::Out | Side::In(_) => direct.is_none(),
    }
}

// Marks on the signals with an origin that leaves.
fn gone_by(
    alloc: Global,
    origins: &[Option<u32>],
    left: &[bool],
    needed: &[bool],
) -> Result<Vec<bool>, AllocError>
    requires known { AreKnown (length left.now) origins.now }
    requires count { length needed.now ≡ length left.now }
    ensures { IfOk result (λ gone. gone.items ≡ map (is_left left.now needed.now) origins.now) }
{
    let mut gone = Vec::new(alloc);
    for place in 0..origins.len() {
        gone.push(leaves(origins, place, left, needed))?;
    }
    Ok(gone)
}

// Whether the origin of the signal at a place leaves.
fn leaves(origins: &[Option<u32>], place: usize, left: &[bool], needed: &[bool]) -> bool
    requires place { place < length origins.now }
    requires known { AreKnown (length left.now) origins.now }
    requires count { length needed.now ≡ length left.now }
    ensures { result ≡ is_left left.now needed.now (entry_at origins.now place) }
{
    match origins[place] {
        Some(origin) => left[origin as usize] && !needed[origin as usize],
        None => false,
    }
}
