//! `Slots`: the values of a cycle, and which of them are there already.
ghost use Rattle.std.specs.Prelude.{◌≡◌, ◌⊎◌, ℕ, ◌+◌, ◌<◌, ◌≤◌, length, replicate, true, false, slice_set, IfOk};
ghost use Rattle.gg_flat.specs.Settled.{Settled};
ghost use Rattle.gg_order.specs.Marks.{is_marked};
ghost use Rattle.gg_flat.specs.Line.{value_at};
ghost use Rattle.gg_flat.specs.WellFormed.{IsWellFormed};
ghost use Rattle.gg_flat.specs.State.{State, IsState};
ghost use Rattle.gg_tape.specs.inside.Tape.{IsWhole};
ghost use Rattle.gg_flat.specs.InOrder.{IsInOrder};
ghost use Rattle.gg_flat.specs.Circuit.{FlatCircuit};
ghost use Rattle.gg_program.specs.Slots.{AreSlots, inputs_in, HasInputs, HasNeeded, IsDone, NoneDone, DoneWith};
ghost use Rattle.gg_program.specs.Right.{InCycle, IsCycle};
ghost use Rattle.gg_program.specs.Unset.{unset, IsConeDone};

use crate::evaluate::{work_out, work_rest};
use crate::search::{Search, are_marked};
use crate::steps::Steps;
use gg_flat::Piece;
use gg_order::State;
use gg_tape::{Cells, Tape};
use std::alloc::{AllocError, Global};
use std::marker::Model;
use std::sync::ledger::Ledger;

/// The values of a cycle. A contract sees the value of each signal, which of them are done, and the room for the
/// nodes of a line.
pub struct Slots {
    cells: Cells,
    search: Search,
    // how often an input was put in this cycle
    puts: usize,
    // set only if all signals are done
    whole: bool,
}

impl Drop for Slots {
    fn drop(self) {
        let Self {
            cells,
            search,
            puts: _,
            whole: _,
        } = self;
        drop(cells);
        drop(search);
    }
}

impl Model for Slots {
    ghost use Rattle.std.specs.Prelude.{◌≡◌, [], length, true};
    ghost use Rattle.gg_program.specs.Slots.{Slotted};
    ghost use Rattle.gg_program.specs.inside.Search.{IsFull};

    ghost Value = { Slotted };

    ghost view = { λ slots. record { values = slots.cells.values; done = slots.search.marks; room = slots.cells.room } };

    ghost invariant = { λ slots. (slots.search.found ≡ []) × (slots.whole ≡ true → IsFull slots.search.marks) };
}

impl Slots {
    // Slots for this many signals, none of them done, with room for this many nodes.
    pub(crate) fn new(alloc: Global, count: usize, room: usize) -> Result<Slots, AllocError>
        ensures values { IfOk result (λ slots. slots.values ≡ replicate count 0) }
        ensures done { IfOk result (λ slots. slots.done ≡ replicate count false) }
        ensures room { IfOk result (λ slots. slots.room ≡ room) }
    {
        let cells = Cells::new(alloc, count, room)?;
        let search = Search::new(alloc, count)?;
        Ok(Slots {
            cells,
            search,
            puts: 0,
            whole: false,
        })
    }

    /// Puts a value into the place of an in-signal, given by its number among the signals. The signal is done then.
    /// Otherwise nothing changes.
    pub fn put(&mut self, signal: u32, value: u128)
        requires value { signal < length self.old.values }
        requires done { signal < length self.old.done }
        ensures { self.new ≡ record { values = slice_set self.old.values signal value; done = slice_set self.old.done signal true; room = self.old.room } }
    {
        self.cells.set(signal, value);
        self.search.mark(signal);
        self.puts = self.puts.saturating_add(1);
    }

    /// Marks each signal as not done. Otherwise nothing changes.
    pub fn clear(&mut self)
        ensures exact { self.new ≡ record { values = self.old.values; done = replicate (length self.old.done) false; room = self.old.room } }
        ensures none { NoneDone self.new }
        ensures cycle { (circuit : FlatCircuit) (state : State) → AreSlots circuit self.old → InCycle circuit state self.new }
    {
        self.search.clear();
        self.puts = 0;
        self.whole = false;
    }

    // The value in the place of a signal.
    pub(crate) fn value(&self, signal: u32) -> u128
        requires { signal < length self.now.values }
        ensures { result ≡ value_at self.now.values signal }
    {
        self.cells.value(signal)
    }

    // Whether a signal is done.
    fn is_done(&self, signal: u32) -> bool
        requires { signal < length self.now.done }
        ensures { result ≡ is_marked self.now.done signal }
    {
        self.search.is_marked(signal)
    }

    // Whether `reach` evaluates all signals: if all inputs were put, unless only one signal is to be evaluated. With
    // fewer puts than inputs no mark is looked at.
    fn takes_all(&self, piece: &Piece, alone: bool) -> bool
        requires formed { IsWellFormed piece.now }
        requires count { length self.now.done ≡ length piece.now.signals }
        ensures { result ≡ true → HasInputs piece.now self.now }
    {
        !alone && self.puts >= piece.ins().len() && are_marked(self.search.marks(), piece.ins())
    }

    // Evaluates what a signal reaches and isn't done. All inputs that it needs are done. If all inputs are done and
    // `alone` is false, all signals are evaluated, so that nothing is searched for in this cycle any more.
    pub(crate) fn reach<L: Ledger>(
        &mut self,
        piece: &Piece,
        tape: &Tape,
        state: &State,
        signal: u32,
        alone: bool,
        steps: &mut Steps<L>,
    )
        requires formed { IsWellFormed piece.now }
        requires whole { IsWhole piece.now tape.now }
        requires ordered { IsInOrder piece.now }
        requires known { signal < length piece.now.signals }
        requires state { IsState piece.now state.now }
        requires cycle { InCycle piece.now state.now self.old }
        requires needed { HasNeeded piece.now self.old signal }
        ensures cycle { InCycle piece.now state.now self.new }
        ensures done { DoneWith piece.now signal self.old self.new }
        ensures inputs { inputs_in piece.now self.new.values ≡ inputs_in piece.now self.old.values }
        ensures steps { steps.new + unset piece.now self.new ≡ steps.old + unset piece.now self.old }
        ensures still { IsConeDone piece.now signal self.old → steps.new ≡ steps.old }
    {
        if !self.is_done(signal) {
            if self.takes_all(piece, alone) {
                self.rest(piece, tape, state, steps);
            } else {
                self.cone(piece, tape, state, signal, steps);
            }
        }
    }

    // Evaluates exactly what a signal reaches and isn't done.
    fn cone<L: Ledger>(
        &mut self,
        piece: &Piece,
        tape: &Tape,
        state: &State,
        signal: u32,
        steps: &mut Steps<L>,
    )
        requires formed { IsWellFormed piece.now }
        requires whole { IsWhole piece.now tape.now }
        requires ordered { IsInOrder piece.now }
        requires known { signal < length piece.now.signals }
        requires state { IsState piece.now state.now }
        requires cycle { InCycle piece.now state.now self.old }
        requires needed { HasNeeded piece.now self.old signal }
        ensures cycle { InCycle piece.now state.now self.new }
        ensures done { DoneWith piece.now signal self.old self.new }
        ensures inputs { inputs_in piece.now self.new.values ≡ inputs_in piece.now self.old.values }
        ensures steps { steps.new + unset piece.now self.new ≡ steps.old + unset piece.now self.old }
    {
        self.search.gather(piece, signal);
        self.search.sort();
        work_out(
            piece,
            tape,
            self.search.found(),
            state,
            &mut self.cells,
            steps,
        );
        self.search.forget();
    }

    // Evaluates what isn't done. All inputs are done. Afterwards all signals are.
    fn rest<L: Ledger>(&mut self, piece: &Piece, tape: &Tape, state: &State, steps: &mut Steps<L>)
        requires formed { IsWellFormed piece.now }
        requires whole { IsWhole piece.now tape.now }
        requires ordered { IsInOrder piece.now }
        requires state { IsState piece.now state.now }
        requires cycle { InCycle piece.now state.now self.old }
        requires inputs { HasInputs piece.now self.old }
        ensures cycle { InCycle piece.now state.now self.new }
        ensures done { (s : ℕ) → s < length piece.now.signals → IsDone self.new s }
        ensures inputs { inputs_in piece.now self.new.values ≡ inputs_in piece.now self.old.values }
        ensures settled { Settled piece.now state.now (inputs_in piece.now self.old.values) self.new.values }
        ensures steps { steps.new + unset piece.now self.new ≡ steps.old + unset piece.now self.old }
    {
        if !self.whole {
            work_rest(
                piece,
                tape,
                self.search.marks(),
                state,
                &mut self.cells,
                steps,
            );
            self.search.fill();
            self.whole = true;
        }
    }

    // Evaluates what isn't done, and goes to the next state. All inputs are done. Afterwards nothing is.
    pub(crate) fn next<L: Ledger>(
        &mut self,
        piece: &Piece,
        tape: &Tape,
        state: &mut State,
        edges: &[bool],
        steps: &mut Steps<L>,
    )
        requires formed { IsWellFormed piece.now }
        requires whole { IsWhole piece.now tape.now }
        requires ordered { IsInOrder piece.now }
        requires state { IsState piece.now state.old }
        requires cycle { InCycle piece.now state.old self.old }
        requires inputs { HasInputs piece.now self.old }
        ensures next { IsCycle edges.now piece.now state.old (inputs_in piece.now self.old.values) state.new }
        ensures state { IsState piece.now state.new }
        ensures cycle { InCycle piece.now state.new self.new }
        ensures none { NoneDone self.new }
        ensures steps { steps.new ≡ steps.old + unset piece.now self.old }
    {
        self.rest(piece, tape, state, steps);
        tape.advance(piece, state, edges, &mut self.cells);
        self.clear();
    }
}
