//! `moved_part`: the part of a unit that shares its host, from the part of the host's first unit.
ghost use Rattle.std.specs.Prelude.{◌≡◌, ◌≢◌, ℕ, ◌<◌, ◌≤◌, ◌+◌, ◌^◌, List, length, map, IfOk, IfSome, IfNone, All, AllPairs};
ghost use Rattle.gg_flat.specs.declared.piece.Driver.TheVariants.{Held};
ghost use Rattle.gg_flat.specs.Circuit.{driver_at};
ghost use Rattle.gg_flat.specs.Line.{value_at};
ghost use Rattle.gg_part.specs.Moved.{shifted};
ghost use Rattle.gg_part.specs.Building.{AreHeld};
ghost use Rattle.gg_part.specs.inside.Clocking.{IsTimed};
ghost use Rattle.gg_part.specs.Part.{IsPart};
ghost use Rattle.gg_cut_plan.specs.Machines.{first_unit, first_memory};
ghost use Rattle.gg_cut_split.specs.inside.Again.{IsUnitAgain, unit_first};
ghost use Rattle.gg_cut_parts.specs.inside.Draft.{draft_hub, IsDraft, IsDraftPart, IsMachineDraft};
ghost use Rattle.gg_cut_parts.specs.inside.MovedPart.{IsFollower, HoldAgain, HasAgain};

use crate::draft::Draft;
use crate::lists::picked;
use crate::machine_draft::MachineDraft;
use crate::moved_piece::moved_piece;
use crate::parts::givens;
use gg_bits::{Ids, copied};
use gg_cut_split::filled;
use gg_flat::{Driver, Piece};
use gg_flat_tree::ClockNumbers;
use gg_part::Part;
use std::alloc::{AllocError, Global};

/// The part of a unit, from the part of the unit with the number `first`, which has the same with other numbers. The two pieces are one, except for
/// paths and for how their out-signals are listed.
///
/// # Errors
///
/// Returns `AllocError` if an allocation fails.
pub fn moved_part(
    alloc: Global,
    machine: &MachineDraft,
    leader: &Part,
    first: usize,
) -> Result<Part, AllocError>
    requires machine { IsMachineDraft machine.now }
    requires again { IsUnitAgain machine.now.draft.now.design.now machine.now.draft.now.listed first machine.now.number }
    requires leader { IsDraftPart machine.now.draft.now first leader.now }
    requires ascend { AllPairs (λ a b. a < b) leader.now.memories }
    requires timed { IsTimed leader.now.piece leader.now.held leader.now.memories machine.now.domains.now.units.registers machine.now.domains.now.units.ports }
    ensures { IfOk result (λ part. IsFollower machine.now.draft.now.design.now machine.now.draft.now.listed
        (draft_hub machine.now.draft.now) machine.now.domains.now.units machine.now.number leader.now part) }
{
    let draft = machine.draft;
    let whole = draft.design.piece();
    // for the invariant only
    let _ = whole.signal_count();
    let _ = draft.design.order();
    let from = first_signal(draft, first);
    let to = first_signal(draft, machine.number);
    let globals = moved_numbers(alloc, leader.globals.as_slice(), from, to)?;
    let held = held_again(alloc, whole, leader, &globals)?;
    let outs = givens(alloc, draft.wires(), machine.outs)?;
    let piece = moved_piece(alloc, whole, &leader.piece, &globals, &outs)?;
    let memories = copied(alloc, machine.memories)?;
    let own = machine.domains.clocks(&draft.listed, machine.number);
    let clocks = Vec::from_slice(alloc, own)?;
    Ok(Part {
        piece,
        globals: Ids::from(globals),
        held: Ids::from(held),
        memories,
        clocks: ClockNumbers::from(clocks),
    })
}

// The first signal of the instance that is a unit, by its machine's number.
fn first_signal(draft: &Draft, number: usize) -> u32
    requires draft { IsDraft draft.now }
    requires unit { first_unit ≤ number }
    requires below { number < first_memory draft.now.listed }
    ensures { result ≡ unit_first draft.now.design.now.tree draft.now.listed number }
{
    let unit = draft.listed.units.as_slice()[number - 1];
    draft.design.tree().instances()[unit as usize].first
}

// These numbers, moved by the distance from `from` to `to`.
fn moved_numbers(alloc: Global, numbers: &[u32], from: u32, to: u32) -> Result<Vec<u32>, AllocError>
    requires behind { All (λ s. from ≤ s) numbers.now }
    requires few { All (λ s. shifted from to s < 2 ^ 32) numbers.now }
    ensures { IfOk result (λ moved. moved.items ≡ map (shifted from to) numbers.now) }
{
    let mut moved = Vec::new(alloc);
    for number in numbers {
        moved.push(*number - from + to)?;
    }
    Ok(moved)
}

// ---- registers

// For each register of a part its counterpart in another unit. `globals` has the counterparts of the part's signals.
fn held_again(
    alloc: Global,
    whole: &Piece,
    part: &Part,
    globals: &[u32],
) -> Result<Vec<u32>, AllocError>
    requires part { IsPart whole.now part.now.piece part.now.globals part.now.held part.now.memories part.now.clocks }
    requires count { length globals.now ≡ length part.now.globals }
    requires within { All (λ s. s < length whole.now.signals) globals.now }
    ensures { IfOk result (λ held. (registers : ℕ → ℕ) (ins : List ℕ) → AreHeld whole.now part.now.globals ins part.now.held
        → ins ≡ map (value_at part.now.globals) part.now.piece.ins → HoldAgain whole.now part.now globals.now registers
        → held.items ≡ map registers part.now.held) }
{
    let mut table = filled(alloc, whole.registers().len(), 0)?;
    for place in 0..globals.len() {
        put_register(whole, part, globals, place, &mut table);
    }
    picked(alloc, &table, part.held.as_slice())
}

// Writes the register that a signal holds into the table, at the register that the part's signal at this place holds.
fn put_register(whole: &Piece, part: &Part, globals: &[u32], place: usize, table: &mut Vec<u32>)
    requires part { IsPart whole.now part.now.piece part.now.globals part.now.held part.now.memories part.now.clocks }
    requires count { length globals.now ≡ length part.now.globals }
    requires within { All (λ s. s < length whole.now.signals) globals.now }
    requires place { place < length globals.now }
    requires table { length table.old.items ≡ length whole.now.registers }
    ensures table { length table.new.items ≡ length table.old.items }
    ensures put { (registers : ℕ → ℕ) → HoldAgain whole.now part.now globals.now registers → HasAgain part.now registers table.old.items place → HasAgain part.now registers table.new.items (place + 1) }
{
    match held_by(&part.piece, place) {
        Some(own) => {
            let register = part.held.as_slice()[own as usize];
            table[register as usize] = held_or_none(whole, globals[place] as usize);
        }
        None => {}
    }
}

// The register that a signal holds, if it holds one.
fn held_by(piece: &Piece, signal: usize) -> Option<u32>
    requires { signal < length piece.now.signals }
    ensures holds { IfSome result (λ register. driver_at piece.now signal ≡ Held register) }
    ensures none { IfNone result ((register : ℕ) → driver_at piece.now signal ≢ Held register) }
{
    match &piece.signals()[signal].driver {
        Driver::Held(register) => Some(*register),
        _ => None,
    }
}

// The register that a signal holds, or 0.
fn held_or_none(piece: &Piece, signal: usize) -> u32
    requires { signal < length piece.now.signals }
    ensures { (register : ℕ) → driver_at piece.now signal ≡ Held register → result ≡ register }
{
    held_by(piece, signal).unwrap_or(0)
}
