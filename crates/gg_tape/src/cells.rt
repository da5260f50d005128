//! `Cells`: the values of signals, followed by scratch space.
ghost use Rattle.std.specs.Prelude.{◌≡◌, ◌<◌, List, length, replicate, slice_set, IfOk};
ghost use Rattle.gg_bits.specs.Shape.{Fits};
ghost use Rattle.gg_flat.specs.declared.line.Node.{Node};
ghost use Rattle.gg_flat.specs.Circuit.{signal_shapes};
ghost use Rattle.gg_flat.specs.Line.{AreTyped, line_shape, line_value, value_at};
ghost use Rattle.gg_order.specs.runs.Room.{HasRoom};
ghost use Rattle.gg_tape.specs.inside.Told.{IsTold};

use crate::instruction::Instruction;
use crate::run::run;
use gg_flat::Piece;
use gg_order::{room_of, zeros};
use std::alloc::{AllocError, Global};
use std::marker::Model;

/// The values of signals, by their numbers, and scratch space for the nodes of a line. A contract sees the values and how
/// much room there is.
pub struct Cells {
    all: Vec<u128>,
    signals: usize,
}

impl Drop for Cells {
    fn drop(self) {
        let Self { all, signals: _ } = self;
        drop(all);
    }
}

impl Model for Cells {
    ghost use Rattle.std.specs.Prelude.{◌≤◌, ◌-◌, length, take};
    ghost use Rattle.gg_tape.specs.inside.Cells.{Celled};

    ghost Value = { Celled };

    ghost view = { λ cells. record { values = take cells.signals cells.all.items; room = length cells.all.items - cells.signals } };

    ghost invariant = { λ cells. cells.signals ≤ length cells.all.items };
}

impl Cells {
    /// Zeros for this many signals, with this much room.
    ///
    /// # Errors
    ///
    /// Returns `AllocError` if an allocation fails.
    pub fn new(alloc: Global, signals: usize, room: usize) -> Result<Cells, AllocError>
        ensures { IfOk result (λ cells. cells ≡ record { values = replicate signals 0; room = room }) }
    {
        let Some(count) = signals.checked_add(room) else {
            return Err(AllocError);
        };
        let all = zeros(alloc, count)?;
        Ok(Cells { all, signals })
    }

    /// Zeros for the signals of a piece, with room for each of its lines.
    ///
    /// # Errors
    ///
    /// Returns `AllocError` if an allocation fails.
    pub fn of(alloc: Global, piece: &Piece) -> Result<Cells, AllocError>
        ensures typed { IfOk result (λ cells. AreTyped (signal_shapes piece.now) cells.values) }
        ensures room { IfOk result (λ cells. HasRoom piece.now cells.room) }
    {
        let cells = Cells::new(alloc, piece.signal_count(), room_of(piece))?;
        Ok(cells)
    }

    /// The values of the signals.
    #[inline(always)]
    pub fn values(&self) -> &[u128]
        ensures { result.now ≡ self.now.values }
    {
        &self.all[..self.signals]
    }

    /// The value of a signal.
    #[inline(always)]
    pub fn value(&self, signal: u32) -> u128
        requires { signal < length self.now.values }
        ensures { result ≡ value_at self.now.values signal }
    {
        self.all[signal as usize]
    }

    /// Sets the value of a signal.
    #[inline(always)]
    pub fn set(&mut self, signal: u32, value: u128)
        requires { signal < length self.old.values }
        ensures { self.new ≡ record self.old { values = slice_set self.old.values signal value } }
    {
        self.all[signal as usize] = value;
    }

    // The value of the line that these instructions compute.
    #[inline(always)]
    pub(crate) fn run(&mut self, instructions: &[Instruction], literals: &[u128]) -> u128
        requires { (nodes : List Node) × IsTold nodes literals.now instructions.now self.old.values self.old.room }
        ensures value { (nodes : List Node) → IsTold nodes literals.now instructions.now self.old.values self.old.room
            → result ≡ line_value self.old.values nodes }
        ensures fits { (nodes : List Node) → IsTold nodes literals.now instructions.now self.old.values self.old.room → Fits (line_shape nodes) result }
        ensures same { self.new ≡ self.old }
    {
        run(instructions, literals, self.signals, &mut self.all)
    }
}
