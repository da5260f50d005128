//! Evaluates signals one after another, each into its place.
ghost use Rattle.std.specs.Prelude.{◌≡◌, ◌⊎◌, ℕ, ◌+◌, ◌<◌, ◌≤◌, List, [], length, Bool, true, All, Contains};
ghost use Rattle.gg_bits.specs.Shape.{Fits};
ghost use Rattle.gg_flat.specs.Line.{shape_at, value_at, AreTyped};
ghost use Rattle.gg_flat.specs.Circuit.{signal_shapes, driver_at};
ghost use Rattle.gg_flat.specs.WellFormed.{IsWellFormed};
ghost use Rattle.gg_flat.specs.State.{IsState};
ghost use Rattle.gg_flat.specs.Settled.{driver_value};
ghost use Rattle.gg_order.specs.runs.Room.{HasRoom};
ghost use Rattle.gg_tape.specs.inside.Tape.{IsWhole};
ghost use Rattle.gg_flat.specs.InOrder.{IsInOrder};
ghost use Rattle.gg_order.specs.Marks.{is_marked};
ghost use Rattle.gg_program.specs.Slots.{inputs_in};
ghost use Rattle.gg_program.specs.inside.Right.{IsInner};
ghost use Rattle.gg_program.specs.Right.{AreRight};
ghost use Rattle.gg_program.specs.inside.Search.{StandBehind};
ghost use Rattle.gg_program.specs.Unset.{unset_among};

use crate::steps::Steps;
use gg_flat::Piece;
use gg_order::State;
use gg_tape::{Cells, Tape};
use std::sync::ledger::Ledger;

// Evaluates these signals, each after all signals that it reads. Each evaluation is a step.
pub(crate) fn work_out<L: Ledger>(
    piece: &Piece,
    tape: &Tape,
    signals: &[u32],
    state: &State,
    cells: &mut Cells,
    steps: &mut Steps<L>,
)
    requires formed { IsWellFormed piece.now }
    requires whole { IsWhole piece.now tape.now }
    requires ordered { IsInOrder piece.now }
    requires inner { All (IsInner piece.now) signals.now }
    requires state { IsState piece.now state.now }
    requires typed { AreTyped (signal_shapes piece.now) cells.old.values }
    requires room { HasRoom piece.now cells.old.room }
    ensures typed { AreTyped (signal_shapes piece.now) cells.new.values }
    ensures room { cells.new.room ≡ cells.old.room }
    ensures inputs { inputs_in piece.now cells.new.values ≡ inputs_in piece.now cells.old.values }
    ensures right { (marks : List Bool) → StandBehind piece.now marks signals.now
        → AreRight piece.now state.now cells.old.values (λ s. is_marked marks s ≡ true)
        → AreRight piece.now state.now cells.new.values (λ s. (is_marked marks s ≡ true) ⊎ Contains signals.now s) }
    ensures steps { steps.new ≡ steps.old + length signals.now }
{
    for signal in signals {
        let value = worked(piece, tape, *signal, state, cells, steps);
        cells.set(*signal, value);
    }
}

// Evaluates all signals that aren't marked, from the first to the last. The in-signals are marked. Each evaluation
// is a step.
pub(crate) fn work_rest<L: Ledger>(
    piece: &Piece,
    tape: &Tape,
    marks: &[bool],
    state: &State,
    cells: &mut Cells,
    steps: &mut Steps<L>,
)
    requires formed { IsWellFormed piece.now }
    requires whole { IsWhole piece.now tape.now }
    requires ordered { IsInOrder piece.now }
    requires count { length marks.now ≡ length piece.now.signals }
    requires inputs { (place : ℕ) → place < length piece.now.ins → is_marked marks.now (value_at piece.now.ins place) ≡ true }
    requires state { IsState piece.now state.now }
    requires typed { AreTyped (signal_shapes piece.now) cells.old.values }
    requires room { HasRoom piece.now cells.old.room }
    requires right { AreRight piece.now state.now cells.old.values (λ s. is_marked marks.now s ≡ true) }
    ensures typed { AreTyped (signal_shapes piece.now) cells.new.values }
    ensures room { cells.new.room ≡ cells.old.room }
    ensures inputs { inputs_in piece.now cells.new.values ≡ inputs_in piece.now cells.old.values }
    ensures right { AreRight piece.now state.now cells.new.values (λ s. s < length piece.now.signals) }
    ensures steps { steps.new ≡ steps.old + unset_among piece.now marks.now }
{
    for signal in 0..piece.signal_count() {
        if !marks[signal] {
            let value = worked(piece, tape, signal as u32, state, cells, steps);
            cells.set(signal as u32, value);
        }
    }
}

// The value of a signal that isn't an in-signal, from the values of the signals that it reads. This is one step.
#[inline(always)]
fn worked<L: Ledger>(
    piece: &Piece,
    tape: &Tape,
    signal: u32,
    state: &State,
    cells: &mut Cells,
    steps: &mut Steps<L>,
) -> u128
    requires formed { IsWellFormed piece.now }
    requires whole { IsWhole piece.now tape.now }
    requires inner { IsInner piece.now signal }
    requires state { IsState piece.now state.now }
    requires typed { AreTyped (signal_shapes piece.now) cells.old.values }
    requires room { HasRoom piece.now cells.old.room }
    ensures value { result ≡ driver_value state.now [] cells.old.values (shape_at (signal_shapes piece.now) signal) (driver_at piece.now signal) }
    ensures fits { Fits (shape_at (signal_shapes piece.now) signal) result }
    ensures same { cells.new ≡ cells.old }
    ensures steps { steps.new ≡ steps.old + 1 }
{
    steps.tick();
    tape.value(piece, signal as usize, state, &[], cells)
}
