//! `Lane`: what one thread has of its own.
ghost use Rattle.std.specs.Prelude.{◌≡◌, ◌+◌, ◌<◌, ◌≤◌, length, None, is_some, IfOk};
ghost use Rattle.gg_bits.specs.Shape.{Fits};
ghost use Rattle.gg_bits.specs.Limits.{cycle_limit};
ghost use Rattle.gg_flat.specs.Circuit.{FlatCircuit};
ghost use Rattle.gg_flat.specs.Line.{shape_at};
ghost use Rattle.gg_flat.specs.Settled.{in_shapes};
ghost use Rattle.gg_flat.specs.State.{IsState};
ghost use Rattle.gg_node.specs.Machine.{latch_at, flag_at, missing};
ghost use Rattle.gg_node.specs.Token.{IsToken, IsNextState};
ghost use Rattle.gg_node.specs.inside.Step.{MayLatch, MayFire, MayFinish};
ghost use Rattle.gg_program.specs.Slots.{AreSlots};
ghost use Rattle.gg_program.specs.Unset.{unset, IsConeDone};
ghost use Rattle.gg_fame5.specs.inside.Fork.{out_of, out_count, AreOuts};
ghost use Rattle.gg_fame5.specs.inside.Lane.{lane_machine, out_signal, started_lane, IsLane, Hold, latched_lane, fired_lane, finished_lane};

use gg_bits::Ids;
use gg_clocks::{Ratio, Timing};
use gg_flat::Piece;
use gg_node::{clean, clear_flags, empty_latches, first_empty};
use gg_order::{State, settled_once};
use gg_program::{NoMemory, Program, Slots, Steps};
use std::alloc::{AllocError, Global};
use std::marker::Model;
use std::sync::ledger::Ledger;

// What one thread has of its own: which out of the program each of its outs is, its clocks and its cycle, its state, a
// latch for each in and a flag for each out. Threads share slots. A call that uses slots wants them to hold the lane.
pub(crate) struct Lane {
    // None: all outs of the program, in order
    outs: Option<Ids>,
    // its tick is the cycle
    timing: Timing,
    state: State,
    latches: Vec<Option<u128>>,
    // the number of empty latches
    empty: usize,
    flags: Vec<bool>,
}

impl Drop for Lane {
    fn drop(self) {
        let Self {
            outs,
            timing,
            state,
            latches,
            empty: _,
            flags,
        } = self;
        drop(outs);
        drop(timing);
        drop(state);
        drop(latches);
        drop(flags);
    }
}

impl Model for Lane {
    ghost use Rattle.std.specs.Prelude.{◌≡◌};
    ghost use Rattle.gg_fame5.specs.inside.Lane.{Laned, empty_count};

    ghost Value = { Laned };

    ghost view = { λ lane. record { outs = lane.outs; ratios = lane.timing.ratios; cycle = lane.timing.tick; state = lane.state; latches = lane.latches.items; flags = lane.flags.items } };

    ghost invariant = { λ lane. lane.empty ≡ empty_count lane.latches.items };
}

// The number of outs of a lane.
fn count_outs(piece: &Piece, outs: &Option<Ids>) -> usize
    ensures { result ≡ out_count (length piece.now.outs) outs.now }
{
    match outs {
        None => piece.outs().len(),
        Some(outs) => outs.as_slice().len(),
    }
}

impl Lane {
    // A lane of a program that begins in this state, with this cycle.
    //
    // # Errors
    //
    // Returns `NoMemory` if an allocation fails.
    pub(crate) fn new(
        alloc: Global,
        program: &Program<'_>,
        outs: Option<Ids>,
        ratios: &[Ratio],
        state: State,
        cycle: u64,
    ) -> Result<Lane, NoMemory>
        requires known { AreOuts program.now.circuit outs }
        requires typed { IsState program.now.circuit state }
        requires cycle { cycle ≤ cycle_limit }
        ensures started { IfOk result (λ lane. lane ≡ started_lane program.now.circuit outs ratios.now state cycle) }
        ensures lane { IfOk result (λ lane. IsLane program.now.circuit lane) }
    {
        let piece = program.piece();
        let timing = Timing::new(alloc, ratios, cycle)?;
        let empty = piece.ins().len();
        let latches = empty_latches(alloc, empty)?;
        let flags = clear_flags(alloc, count_outs(piece, &outs))?;
        Ok(Lane {
            outs,
            timing,
            state,
            latches,
            empty,
            flags,
        })
    }

    // The cycle that it is in.
    pub(crate) fn cycle(&self) -> u64
        ensures { result ≡ self.now.cycle }
    {
        self.timing.tick()
    }

    // The state before this cycle.
    pub(crate) fn state(&self) -> &State
        ensures { result.now ≡ self.now.state }
    {
        &self.state
    }

    // Whether an in has its token of this cycle.
    pub(crate) fn latched(&self, place: u32) -> bool
        requires { place < length self.now.latches }
        ensures { result ≡ is_some (latch_at self.now.latches place) }
    {
        self.latches[place as usize].is_some()
    }

    // Whether an out has given its token of this cycle.
    pub(crate) fn fired(&self, place: u32) -> bool
        requires { place < length self.now.flags }
        ensures { result ≡ flag_at self.now.flags place }
    {
        self.flags[place as usize]
    }

    // Which out of the program an out is.
    fn out(&self, _program: &Program<'_>, place: u32) -> u32
        requires lane { IsLane _program.now.circuit self.now }
        requires place { place < length self.now.flags }
        ensures known { result < length _program.now.circuit.outs }
        ensures out { result ≡ out_of self.now.outs place }
    {
        match &self.outs {
            None => place,
            Some(outs) => outs.as_slice()[place as usize],
        }
    }

    // The first in that an out needs and that has no token yet, if there is one. If no latch is empty, none is looked
    // at.
    pub(crate) fn missing(&self, program: &Program<'_>, place: u32) -> Option<u32>
        requires lane { IsLane program.now.circuit self.now }
        requires place { place < length self.now.flags }
        ensures { result ≡ missing (lane_machine program.now self.now) place }
    {
        let needs = program.needs(self.out(program, place));
        if self.empty == 0 {
            None
        } else {
            first_empty(self.latches.as_slice(), needs)
        }
    }

    // The token of an out.
    pub(crate) fn token<L: Ledger>(
        &self,
        program: &Program<'_>,
        slots: &mut Slots,
        place: u32,
        steps: &mut Steps<L>,
    ) -> u128
        requires lane { IsLane program.now.circuit self.now }
        requires held { Hold program.now.circuit slots.old self.now }
        requires may { MayFire (lane_machine program.now self.now) place }
        ensures token { IsToken (lane_machine program.now self.now) place result }
        ensures held { Hold program.now.circuit slots.new self.now }
        ensures steps { steps.new + unset program.now.circuit slots.new ≡ steps.old + unset program.now.circuit slots.old }
        ensures cone { IsConeDone program.now.circuit (out_signal program.now.circuit self.now place) slots.new }
        ensures still { IsConeDone program.now.circuit (out_signal program.now.circuit self.now place) slots.old → steps.new ≡ steps.old }
    {
        // for the invariant only
        let _ = program.piece();
        program.cone_once(&self.state, slots, self.out(program, place), steps)
    }

    // Puts a token into the latch of an in, and into the slots.
    pub(crate) fn latch(
        &mut self,
        program: &Program<'_>,
        slots: &mut Slots,
        place: u32,
        token: u128,
    )
        requires lane { IsLane program.now.circuit self.old }
        requires held { Hold program.now.circuit slots.old self.old }
        requires may { MayLatch (lane_machine program.now self.old) place token }
        ensures step { self.new ≡ latched_lane self.old place token }
        ensures lane { IsLane program.now.circuit self.new }
        ensures held { Hold program.now.circuit slots.new self.new }
        ensures unset { unset program.now.circuit slots.new ≤ unset program.now.circuit slots.old }
    {
        // for the invariant only
        let _ = program.piece();
        program.put(slots, place, token);
        self.keep(place, token);
    }

    // Puts a token into the latch of an in, and into no slots.
    pub(crate) fn keep(&mut self, place: u32, token: u128)
        requires there { place < length self.old.latches }
        requires empty { latch_at self.old.latches place ≡ None }
        ensures step { self.new ≡ latched_lane self.old place token }
        ensures lane { (circuit : FlatCircuit) → Fits (shape_at (in_shapes circuit) place) token → IsLane circuit self.old → IsLane circuit self.new }
    {
        self.latches[place as usize] = Some(token);
        self.empty -= 1;
    }

    // Sets the flag of an out.
    pub(crate) fn set_flag(&mut self, place: u32)
        requires { place < length self.old.flags }
        ensures { self.new ≡ fired_lane self.old place }
    {
        self.flags[place as usize] = true;
    }

    // Advances to the next cycle, by the edges of this cycle's tick.
    pub(crate) fn finish<L: Ledger>(
        &mut self,
        program: &Program<'_>,
        slots: &mut Slots,
        steps: &mut Steps<L>,
    )
        requires lane { IsLane program.now.circuit self.old }
        requires held { Hold program.now.circuit slots.old self.old }
        requires may { MayFinish (lane_machine program.now self.old) }
        ensures next { IsNextState (lane_machine program.now self.old) self.new.state }
        ensures step { self.new ≡ finished_lane self.old self.new.state }
        ensures lane { IsLane program.now.circuit self.new }
        ensures held { Hold program.now.circuit slots.new self.new }
        ensures steps { steps.new ≡ steps.old + unset program.now.circuit slots.old }
    {
        // for the invariant only
        let _ = program.piece();
        settled_once();
        program.next_once(&mut self.state, slots, self.timing.edges(), steps);
        clean(&mut self.latches, &mut self.flags);
        self.empty = self.latches.len();
        self.timing.advance();
    }

    // Makes slots hold this lane: exactly the inputs with tokens are put, and no other signal is done.
    pub(crate) fn load(&self, program: &Program<'_>, slots: &mut Slots)
        requires lane { IsLane program.now.circuit self.now }
        requires slots { AreSlots program.now.circuit slots.old }
        ensures held { Hold program.now.circuit slots.new self.now }
    {
        let ins = program.piece().ins();
        slots.clear();
        for i in 0..ins.len() {
            if let Some(token) = self.latches[i] {
                slots.put(ins[i], token);
            }
        }
    }
}
