//! `Program`: a piece in an order of evaluation, with the needs of each out-signal.
ghost use Rattle.std.specs.Prelude.{◌≡◌, ℕ, ◌+◌, ◌<◌, ◌≤◌, [], length, slice_index_or, slice_set, IfOk};
ghost use Rattle.gg_bits.specs.Shape.{Fits};
ghost use Rattle.gg_flat.specs.Line.{shape_at, value_at};
ghost use Rattle.gg_flat.specs.State.{State, IsState};
ghost use Rattle.gg_flat.specs.Settled.{in_shapes};
ghost use Rattle.gg_flat.specs.WellFormed.{IsWellFormed};
ghost use Rattle.gg_flat.specs.InOrder.{IsInOrder};
ghost use Rattle.gg_order.specs.needs.Needs.{AreNeeds, AreNeedsOfOuts};
ghost use Rattle.gg_program.specs.ConeValue.{IsConeValue};
ghost use Rattle.gg_program.specs.Slots.{NoneDone, HasInput, HasInputs, HasNeeded, AreSlots, inputs_in, DoneWith};
ghost use Rattle.gg_program.specs.inside.Slots.{with_input};
ghost use Rattle.gg_program.specs.Right.{InCycle, IsCycle};
ghost use Rattle.gg_program.specs.Unset.{unset, IsConeDone};

use crate::slots::Slots;
use crate::steps::Steps;
use gg_bits::Ids;
use gg_flat::Piece;
use gg_order::{State, needs_of, room_of};
use gg_tape::Tape;
use std::alloc::{AllocError, Global};
use std::error::Error;
use std::fmt;
use std::marker::{Brand, Model};
use std::sync::ledger::{Blank, Ledger};

/// An allocation failed.
#[derive(Clone, Copy, Debug, PartialEq, Eq)]
pub struct NoMemory;

impl From<AllocError> for NoMemory {
    ghost from_gives = { λ error refusal. Unit {0} };

    fn from(_error: AllocError) -> NoMemory {
        NoMemory
    }
}

impl fmt::Display for NoMemory {
    ghost use Rattle.std.specs.Prelude.{Some, codes};

    ghost output = { λ _. Some (codes "out of memory") };

    fn fmt<W: fmt::Write>(&self, f: &mut fmt::Formatter<W>) -> fmt::Result {
        f.write_str("out of memory")
    }
}

impl Error for NoMemory {}

/// A piece in an order of evaluation, with the needs of each of its out-signals. A contract sees the circuit and the
/// needs.
pub struct Program<'a> {
    piece: &'a Piece,
    tape: Tape,
    needs: Vec<Ids>,
}

impl Drop for Program<'_> {
    fn drop(self) {
        let Self {
            piece: _,
            tape,
            needs,
        } = self;
        drop(tape);
        drop(needs);
    }
}

impl<'a> Model for Program<'a> {
    ghost use Rattle.gg_program.specs.Programmed.{Programmed};
    ghost use Rattle.gg_program.specs.inside.Programmed.{IsProgram};

    ghost Value = { Programmed };

    ghost view = { λ program. record { circuit = program.piece.now; needs = program.needs.items } };

    ghost invariant = { λ program. IsProgram program.piece.now program.needs.items program.tape };
}

impl<'a> Program<'a> {
    /// The program of a piece. The piece is well formed, and each of its signals reads only earlier signals.
    ///
    /// # Errors
    ///
    /// Returns `NoMemory` if an allocation fails.
    pub fn of(alloc: Global, piece: &'a Piece) -> Result<Program<'a>, NoMemory>
        requires formed { IsWellFormed piece.now }
        requires ordered { IsInOrder piece.now }
        ensures circuit { IfOk result (λ program. program.circuit ≡ piece.now) }
        ensures needs { IfOk result (λ program. AreNeedsOfOuts program.circuit program.needs) }
    {
        let needs = needs_of(alloc, piece)?;
        let tape = Tape::whole(alloc, piece)?;
        Ok(Program { piece, tape, needs })
    }

    /// The circuit, which is well formed and in an order of evaluation. The program's needs are the needs of its
    /// out-signals.
    pub fn piece(&self) -> &Piece
        ensures circuit { result.now ≡ self.now.circuit }
        ensures formed { IsWellFormed self.now.circuit }
        ensures ordered { IsInOrder self.now.circuit }
        ensures needs { AreNeedsOfOuts self.now.circuit self.now.needs }
    {
        self.piece
    }

    /// What the out-signal at this place needs: the places of exactly the in-signals that it reaches by a path of
    /// reads, ascending.
    pub fn needs(&self, out: u32) -> &[u32]
        requires { out < length self.now.circuit.outs }
        ensures exact { AreNeeds self.now.circuit (value_at self.now.circuit.outs out) result.now }
        ensures seen { result.now ≡ slice_index_or self.now.needs out [] }
    {
        self.needs[out as usize].as_slice()
    }

    /// Slots for the program, with no signal done.
    ///
    /// # Errors
    ///
    /// Returns `NoMemory` if an allocation fails.
    pub fn slots(&self, alloc: Global) -> Result<Slots, NoMemory>
        ensures none { IfOk result (λ slots. NoneDone slots) }
        ensures cycle { IfOk result (λ slots. (state : State) → InCycle self.now.circuit state slots) }
    {
        let slots = Slots::new(alloc, self.piece.signals().len(), room_of(&self.piece))?;
        Ok(slots)
    }

    /// Puts the input at this place, in port order, into the place of its in-signal. The in-signal is done then.
    /// Otherwise nothing changes.
    ///
    /// The input has the in-signal's type, and the in-signal isn't done yet. The slots are of the program's circuit.
    pub fn put(&self, slots: &mut Slots, place: u32, input: u128)
        requires place { place < length self.now.circuit.ins }
        requires typed { Fits (shape_at (in_shapes self.now.circuit) place) input }
        requires slots { AreSlots self.now.circuit slots.old }
        requires free { ¬ HasInput self.now.circuit slots.old place }
        ensures put { slots.new ≡ with_input self.now.circuit slots.old place input }
        ensures inputs { inputs_in self.now.circuit slots.new.values ≡ slice_set (inputs_in self.now.circuit slots.old.values) place input }
        ensures cycle { (state : State) → InCycle self.now.circuit state slots.old → InCycle self.now.circuit state slots.new }
        ensures unset { unset self.now.circuit slots.new ≤ unset self.now.circuit slots.old }
    {
        let piece = self.piece;
        slots.put(piece.ins()[place as usize], input);
    }

    /// The value of the out-signal at this place, in this state and with the inputs that it needs, which were put
    /// before. It depends on no other input. What the out-signal reaches is done then, in addition to what was done
    /// before. If all inputs were put, more may be done. Each signal that is done now and wasn't before is evaluated once,
    /// and no other. These are the steps. It allocates nothing.
    ///
    /// State and slots are of the program's circuit, in a cycle from this state.
    pub fn cone_once<L: Ledger>(
        &self,
        state: &State,
        slots: &mut Slots,
        out: u32,
        steps: &mut Steps<L>,
    ) -> u128
        requires out { out < length self.now.circuit.outs }
        requires state { IsState self.now.circuit state.now }
        requires cycle { InCycle self.now.circuit state.now slots.old }
        requires needed { HasNeeded self.now.circuit slots.old (value_at self.now.circuit.outs out) }
        ensures value { IsConeValue self.now.circuit state.now (inputs_in self.now.circuit slots.old.values) (value_at self.now.circuit.outs out) result }
        ensures done { DoneWith self.now.circuit (value_at self.now.circuit.outs out) slots.old slots.new }
        ensures inputs { inputs_in self.now.circuit slots.new.values ≡ inputs_in self.now.circuit slots.old.values }
        ensures cycle { InCycle self.now.circuit state.now slots.new }
        ensures steps { steps.new + unset self.now.circuit slots.new ≡ steps.old + unset self.now.circuit slots.old }
        ensures still { IsConeDone self.now.circuit (value_at self.now.circuit.outs out) slots.old → steps.new ≡ steps.old }
    {
        let piece = self.piece;
        let signal = piece.outs()[out as usize];
        // others may wait for a token that needs no input
        let alone = self.needs(out).is_empty();
        slots.reach(piece, &self.tape, state, signal, alone, steps);
        slots.value(signal)
    }

    /// Completes a cycle with these edges, after all inputs were put. The state becomes the next one by the settled
    /// values with these inputs, and no signal is done any more. Each signal that isn't done is evaluated once, and no
    /// other. These are the steps. It allocates nothing.
    ///
    /// State and slots are of the program's circuit, in a cycle from this state.
    pub fn next_once<L: Ledger>(
        &self,
        state: &mut State,
        slots: &mut Slots,
        edges: &[bool],
        steps: &mut Steps<L>,
    )
        requires state { IsState self.now.circuit state.old }
        requires cycle { InCycle self.now.circuit state.old slots.old }
        requires inputs { HasInputs self.now.circuit slots.old }
        ensures next { IsCycle edges.now self.now.circuit state.old (inputs_in self.now.circuit slots.old.values) state.new }
        ensures state { IsState self.now.circuit state.new }
        ensures cycle { InCycle self.now.circuit state.new slots.new }
        ensures none { NoneDone slots.new }
        ensures steps { steps.new ≡ steps.old + unset self.now.circuit slots.old }
    {
        slots.next(self.piece, &self.tape, state, edges, steps);
    }

    /// `cone_once` without a count of the steps.
    pub fn run_cone(&self, state: &State, slots: &mut Slots, out: u32) -> u128
        requires out { out < length self.now.circuit.outs }
        requires state { IsState self.now.circuit state.now }
        requires cycle { InCycle self.now.circuit state.now slots.old }
        requires needed { HasNeeded self.now.circuit slots.old (value_at self.now.circuit.outs out) }
        ensures value { IsConeValue self.now.circuit state.now (inputs_in self.now.circuit slots.old.values) (value_at self.now.circuit.outs out) result }
        ensures done { DoneWith self.now.circuit (value_at self.now.circuit.outs out) slots.old slots.new }
        ensures inputs { inputs_in self.now.circuit slots.new.values ≡ inputs_in self.now.circuit slots.old.values }
        ensures cycle { InCycle self.now.circuit state.now slots.new }
    {
        self.cone_by::<Brand>(state, slots, out, Blank::new(1))
    }

    /// `next_once` without a count of the steps.
    pub fn run_next(&self, state: &mut State, slots: &mut Slots, edges: &[bool])
        requires state { IsState self.now.circuit state.old }
        requires cycle { InCycle self.now.circuit state.old slots.old }
        requires inputs { HasInputs self.now.circuit slots.old }
        ensures next { IsCycle edges.now self.now.circuit state.old (inputs_in self.now.circuit slots.old.values) state.new }
        ensures state { IsState self.now.circuit state.new }
        ensures cycle { InCycle self.now.circuit state.new slots.new }
        ensures none { NoneDone slots.new }
    {
        self.next_by::<Brand>(state, slots, edges, Blank::new(1));
    }

    // `cone_once` with a new ledger.
    fn cone_by<L: Ledger>(&self, state: &State, slots: &mut Slots, out: u32, blank: Blank) -> u128
        requires name { blank.name ≡ L.name }
        requires parts { blank.parts ≡ L.parts }
        requires some { 0 < blank.parts }
        requires out { out < length self.now.circuit.outs }
        requires state { IsState self.now.circuit state.now }
        requires cycle { InCycle self.now.circuit state.now slots.old }
        requires needed { HasNeeded self.now.circuit slots.old (value_at self.now.circuit.outs out) }
        ensures value { IsConeValue self.now.circuit state.now (inputs_in self.now.circuit slots.old.values) (value_at self.now.circuit.outs out) result }
        ensures done { DoneWith self.now.circuit (value_at self.now.circuit.outs out) slots.old slots.new }
        ensures inputs { inputs_in self.now.circuit slots.new.values ≡ inputs_in self.now.circuit slots.old.values }
        ensures cycle { InCycle self.now.circuit state.now slots.new }
    {
        self.cone_once(state, slots, out, &mut Steps::<L>::new(blank))
    }

    // `next_once` with a new ledger.
    fn next_by<L: Ledger>(&self, state: &mut State, slots: &mut Slots, edges: &[bool], blank: Blank)
        requires name { blank.name ≡ L.name }
        requires parts { blank.parts ≡ L.parts }
        requires some { 0 < blank.parts }
        requires state { IsState self.now.circuit state.old }
        requires cycle { InCycle self.now.circuit state.old slots.old }
        requires inputs { HasInputs self.now.circuit slots.old }
        ensures next { IsCycle edges.now self.now.circuit state.old (inputs_in self.now.circuit slots.old.values) state.new }
        ensures state { IsState self.now.circuit state.new }
        ensures cycle { InCycle self.now.circuit state.new slots.new }
        ensures none { NoneDone slots.new }
    {
        self.next_once(state, slots, edges, &mut Steps::<L>::new(blank));
    }
}
