//! `Frame`: the numbers of what a part has.
ghost use Rattle.std.specs.Prelude.{◌≡◌, ℕ, ◌<◌, ◌≤◌, List, [], length, vec_len, IfOk, IfSome, IfNone, All, Contains};
ghost use Rattle.gg_flat.specs.Circuit.{driver_at};
ghost use Rattle.gg_flat.specs.WellFormed.{IsWellFormed};
ghost use Rattle.gg_part.specs.inside.Choice.{IsChoice};
ghost use Rattle.gg_part.specs.Building.{Holds, AreHeld};
ghost use Rattle.gg_part.specs.inside.Numbers.{ArePlaces};

use crate::numbers::Numbers;
use crate::part::Part;
use gg_flat::{Driver, Lists, Piece};
use gg_flat_tree::ClockNumbers;
use std::alloc::{AllocError, Global};

// The numbers in the whole circuit of a part's signals, of its in-signals, of its registers and of its memories, and
// the clocks that the part's clocks follow.
pub(crate) struct Frame {
    pub(crate) globals: Numbers,
    pub(crate) ins: Numbers,
    pub(crate) held: Numbers,
    pub(crate) memories: Numbers,
    pub(crate) clocks: ClockNumbers,
}

impl Drop for Frame {
    fn drop(self) {
        let Self {
            globals,
            ins,
            held,
            memories,
            clocks,
        } = self;
        drop(globals);
        drop(ins);
        drop(held);
        drop(memories);
        drop(clocks);
    }
}

impl Frame {
    // The numbers of the part, by the tables of places.
    pub(crate) fn local(&self) -> Lists
        ensures signals { ArePlaces self.now.globals (length self.now.globals) result.signals.now }
        ensures registers { ArePlaces self.now.held (length self.now.held) result.registers.now }
        ensures memories { ArePlaces self.now.memories (length self.now.memories) result.memories.now }
    {
        Lists {
            signals: self.globals.places(),
            registers: self.held.places(),
            memories: self.memories.places(),
            clock: None,
        }
    }

    // The part with this frame and this piece.
    pub(crate) fn part(self, piece: Piece) -> Part
        ensures piece { result.piece ≡ piece }
        ensures globals { result.globals ≡ self.globals }
        ensures held { result.held ≡ self.held }
        ensures memories { result.memories ≡ self.memories }
        ensures clocks { result.clocks ≡ self.clocks }
    {
        let Frame {
            globals,
            ins,
            held,
            memories,
            clocks,
        } = self;
        drop(ins);
        Part {
            piece,
            globals: globals.into_ids(),
            held: held.into_ids(),
            memories: memories.into_ids(),
            clocks,
        }
    }
}

// The driver of a signal.
pub(crate) fn driver_of(whole: &Piece, signal: u32) -> &Driver
    requires { signal < length whole.now.signals }
    ensures { result.now ≡ driver_at whole.now signal }
{
    &whole.signals()[signal as usize].driver
}

// The register that a signal holds, if it holds one and doesn't come from outside.
fn register_of(whole: &Piece, ins: &Numbers, signal: u32) -> Option<u32>
    requires { signal < length whole.now.signals }
    ensures holds { IfSome result (λ register. Holds whole.now ins.now signal register) }
    ensures none { IfNone result ((register : ℕ) → ¬ Holds whole.now ins.now signal register) }
{
    if ins.find(signal).is_some() {
        return None;
    }
    match driver_of(whole, signal) {
        Driver::Held(register) => Some(*register),
        _ => None,
    }
}

// The registers that these signals hold.
fn held_by(
    alloc: Global,
    whole: &Piece,
    globals: &[u32],
    ins: &Numbers,
) -> Result<Vec<u32>, AllocError>
    requires { All (λ s. s < length whole.now.signals) globals.now }
    ensures held { IfOk result (λ held. AreHeld whole.now globals.now ins.now held.items) }
    ensures few { IfOk result (λ held. vec_len held ≤ length globals.now) }
{
    let mut held = Vec::new(alloc);
    for signal in globals {
        if let Some(register) = register_of(whole, ins, *signal) {
            held.push(register)?;
        }
    }
    Ok(held)
}

// The frame of the part with these signals and memories, and with clocks that follow these.
//
// # Errors
//
// Returns `AllocError` if an allocation fails.
pub(crate) fn frame_of(
    alloc: Global,
    whole: &Piece,
    clocks: &[Option<u32>],
    globals: &[u32],
    ins: &[u32],
    memories: &[u32],
) -> Result<Frame, AllocError>
    requires formed { IsWellFormed whole.now }
    requires chosen { IsChoice whole.now globals.now ins.now [] memories.now }
    ensures globals { IfOk result (λ frame. frame.globals ≡ globals.now) }
    ensures ins { IfOk result (λ frame. frame.ins ≡ ins.now) }
    ensures held { IfOk result (λ frame. AreHeld whole.now globals.now ins.now frame.held) }
    ensures memories { IfOk result (λ frame. frame.memories ≡ memories.now) }
    ensures clocks { IfOk result (λ frame. frame.clocks ≡ clocks.now) }
{
    let signals = whole.signal_count();
    let ins = Numbers::of(alloc, signals, ins)?;
    let held = held_by(alloc, whole, globals, &ins)?;
    let held = Numbers::of(alloc, whole.registers().len(), held.as_slice())?;
    Ok(Frame {
        globals: Numbers::of(alloc, signals, globals)?,
        ins,
        held,
        memories: Numbers::of(alloc, whole.memories().len(), memories)?,
        clocks: ClockNumbers::from(Vec::from_slice(alloc, clocks)?),
    })
}
