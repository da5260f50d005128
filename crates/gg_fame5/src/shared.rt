//! `Shared`: several threads of one program.
ghost use Rattle.std.specs.Prelude.{◌≡◌, ◌≢◌, ℕ, ◌+◌, ◌<◌, ◌≤◌, ◌^◌, List, [], ◌∷◌, All, length, is_some, slice_set, IfOk};
ghost use Rattle.gg_bits.specs.Limits.{cycle_limit};
ghost use Rattle.gg_flat.specs.State.{IsState};
ghost use Rattle.gg_node.specs.Machine.{Machine, machine_at, latch_at, flag_at, missing};
ghost use Rattle.gg_node.specs.inside.Machine.{due};
ghost use Rattle.gg_node.specs.Token.{IsToken, IsNextState};
ghost use Rattle.gg_node.specs.inside.Step.{MayLatch, MayFire, MayServe, MayFinish};
ghost use Rattle.gg_node.specs.Step.{with_latch, with_flag, with_served, finished};
ghost use Rattle.gg_program.specs.Unset.{unset, IsConeDone};
ghost use Rattle.gg_fame5.specs.Machine.{started_unit};
ghost use Rattle.gg_fame5.specs.inside.Lane.{lane_machine, out_signal, IsLane, latched_lane, fired_lane, finished_lane};
ghost use Rattle.gg_fame5.specs.inside.Shared.{lane_at, machines_of, opening_machines, started_machines, unset_of, IsConeDoneOf};

use crate::lane::Lane;
use crate::opening::{lanes_of, opening_states};
use gg_bits::Ids;
use gg_clocks::{Ratio, Ratios};
use gg_flat::Piece;
use gg_node::Host;
use gg_order::State;
use gg_program::{NoMemory, Program, Slots, Steps};
use std::alloc::Global;
use std::marker::{Brand, Model};
use std::sync::ledger::{Blank, Ledger};

/// Several threads of one program, each with a machine. The slots hold the thread that has the turn. A contract sees
/// the program, the lanes of the threads, the thread that has the turn, and the slots.
///
/// # Examples
///
/// ```
/// // The piece has one register, which takes the token of in 0 in each cycle and is out 0. Both threads have out 0.
/// let program = Program::of(alloc, &piece)?;
/// let mut shared = Shared::with_clocks(alloc, program, &outs, &ratios)?;
/// shared.latch(0, 0, 5);
/// shared.fire(0, 0); // 0: the register of thread 0 begins with 0
/// shared.finish(0);
/// shared.fire(0, 0); // 5
/// shared.cycle(0); // 1
/// shared.cycle(1); // 0: nothing has changed the machine of thread 1
/// ```
pub struct Shared<'a> {
    program: Program<'a>,
    lanes: Vec<Lane>,
    turn: u32,
    slots: Slots,
}

impl Drop for Shared<'_> {
    fn drop(self) {
        let Self {
            program,
            lanes,
            turn: _,
            slots,
        } = self;
        drop(program);
        drop(lanes);
        drop(slots);
    }
}

impl<'a> Model for Shared<'a> {
    ghost use Rattle.gg_fame5.specs.inside.Shared.{Sharing, IsSharing};

    ghost Value = { Sharing };

    ghost view = { λ shared. record { program = shared.program; lanes = shared.lanes.items; turn = shared.turn; slots = shared.slots } };

    ghost invariant = { λ shared. IsSharing shared.program.circuit shared.lanes.items shared.turn shared.slots };
}

impl<'a> Shared<'a> {
    /// Threads of a program, before the first cycle. For each thread `outs` lists which outs of the program its outs
    /// are, and `ratios` has a ratio for each clock of the piece. There is at least one thread, and there are fewer
    /// than 2^32.
    ///
    /// # Errors
    ///
    /// Returns `NoMemory` if an allocation fails.
    pub fn with_clocks(
        alloc: Global,
        program: Program<'a>,
        outs: &[Ids],
        ratios: &[Ratios],
    ) -> Result<Shared<'a>, NoMemory>
        requires some { 0 < length outs.now }
        requires few { length outs.now < 2 ^ 32 }
        requires ratios { length ratios.now ≡ length outs.now }
        requires known { All (All (λ out. out < length program.circuit.outs)) outs.now }
        ensures { IfOk result (λ shared. machines_of shared ≡ opening_machines program.entry outs.now ratios.now) }
    {
        let states = opening_states(alloc, program.piece(), outs.len())?;
        Shared::from_state(alloc, program, outs, ratios, states, 0)
    }

    /// Threads of a program that begin in these states, one for each thread, with this cycle, which is at most
    /// 1,000,000. Outs and ratios are as in `with_clocks`.
    ///
    /// # Errors
    ///
    /// Returns `NoMemory` if an allocation fails.
    pub fn from_state(
        alloc: Global,
        program: Program<'a>,
        outs: &[Ids],
        ratios: &[Ratios],
        states: Vec<State>,
        cycle: u64,
    ) -> Result<Shared<'a>, NoMemory>
        requires some { 0 < length outs.now }
        requires few { length outs.now < 2 ^ 32 }
        requires ratios { length ratios.now ≡ length outs.now }
        requires known { All (All (λ out. out < length program.circuit.outs)) outs.now }
        requires states { length states.items ≡ length outs.now }
        requires typed { All (IsState program.circuit) states.items }
        requires cycle { cycle ≤ cycle_limit }
        ensures { IfOk result (λ shared. machines_of shared ≡ started_machines program.entry outs.now ratios.now states.items cycle) }
    {
        let lanes = lanes_of(alloc, &program, outs, ratios, states, cycle)?;
        let slots = program.slots(alloc)?;
        Ok(Shared {
            program,
            lanes,
            turn: 0,
            slots,
        })
    }

    /// A single thread of a program, with all of the program's outs in their order. It begins in this state, with this
    /// cycle, which is at most 1,000,000. There is a ratio for each clock of the piece.
    ///
    /// # Errors
    ///
    /// Returns `NoMemory` if an allocation fails.
    pub fn alone(
        alloc: Global,
        program: Program<'a>,
        ratios: &[Ratio],
        state: State,
        cycle: u64,
    ) -> Result<Shared<'a>, NoMemory>
        requires state { IsState program.circuit state }
        requires cycle { cycle ≤ cycle_limit }
        ensures { IfOk result (λ shared. machines_of shared ≡ started_unit program.entry ratios.now state cycle ∷ []) }
    {
        let lane = Lane::new(alloc, &program, None, ratios, state, cycle)?;
        let slots = program.slots(alloc)?;
        let mut lanes = Vec::with_capacity(alloc, 1)?;
        lanes.push_reserved(lane);
        Ok(Shared {
            program,
            lanes,
            turn: 0,
            slots,
        })
    }

    /// The piece that its threads run.
    pub fn piece(&self) -> &Piece
        ensures { result.now ≡ self.now.program.circuit }
    {
        self.program.piece()
    }

    /// The state of a thread before its cycle.
    pub fn state(&self, thread: u32) -> &State
        requires { thread < length (machines_of self.now) }
        ensures { result.now ≡ (machine_at (machines_of self.now) thread).state }
    {
        self.lane(thread).state()
    }

    // The lane of a thread.
    fn lane(&self, thread: u32) -> &Lane
        requires { thread < length (machines_of self.now) }
        ensures machine { lane_machine self.now.program result.now ≡ machine_at (machines_of self.now) thread }
        ensures lane { IsLane self.now.program.circuit result.now }
    {
        &self.lanes[thread as usize]
    }

    // Gives the turn to another thread: the slots are cleared, and then hold it.
    fn load(&mut self, thread: u32)
        requires { thread < length self.old.lanes }
        ensures program { self.new.program ≡ self.old.program }
        ensures lanes { self.new.lanes ≡ self.old.lanes }
        ensures turn { self.new.turn ≡ thread }
    {
        self.lanes[thread as usize].load(&self.program, &mut self.slots);
        self.turn = thread;
    }

    // Gives the turn to a thread. If it has the turn, nothing changes.
    fn turn_to(&mut self, thread: u32)
        requires { thread < length self.old.lanes }
        ensures program { self.new.program ≡ self.old.program }
        ensures lanes { self.new.lanes ≡ self.old.lanes }
        ensures turn { self.new.turn ≡ thread }
        ensures kept { self.old.turn ≡ thread → self.new ≡ self.old }
    {
        if self.turn != thread {
            self.load(thread);
        }
    }

    // The token of an out of the thread that has the turn.
    fn value<L: Ledger>(&mut self, place: u32, steps: &mut Steps<L>) -> u128
        requires { MayFire (lane_machine self.old.program (lane_at self.old.lanes self.old.turn)) place }
        ensures token { IsToken (lane_machine self.old.program (lane_at self.old.lanes self.old.turn)) place result }
        ensures program { self.new.program ≡ self.old.program }
        ensures lanes { self.new.lanes ≡ self.old.lanes }
        ensures turn { self.new.turn ≡ self.old.turn }
        ensures steps { steps.new + unset self.old.program.circuit self.new.slots ≡ steps.old + unset self.old.program.circuit self.old.slots }
        ensures cone { IsConeDone self.old.program.circuit (out_signal self.old.program.circuit (lane_at self.old.lanes self.old.turn) place) self.new.slots }
        ensures still { IsConeDone self.old.program.circuit (out_signal self.old.program.circuit (lane_at self.old.lanes self.old.turn) place) self.old.slots → steps.new ≡ steps.old }
    {
        self.lanes[self.turn as usize].token(&self.program, &mut self.slots, place, steps)
    }

    // Puts a token into the latch of an in of the thread that has the turn.
    fn put(&mut self, place: u32, token: u128)
        requires { MayLatch (lane_machine self.old.program (lane_at self.old.lanes self.old.turn)) place token }
        ensures program { self.new.program ≡ self.old.program }
        ensures lanes { self.new.lanes ≡ slice_set self.old.lanes self.old.turn (latched_lane (lane_at self.old.lanes self.old.turn) place token) }
        ensures turn { self.new.turn ≡ self.old.turn }
        ensures unset { unset self.old.program.circuit self.new.slots ≤ unset self.old.program.circuit self.old.slots }
    {
        self.lanes[self.turn as usize].latch(&self.program, &mut self.slots, place, token);
    }

    // Puts a token into the latch of an in of a thread that doesn't have the turn. The slots stay.
    fn keep(&mut self, thread: u32, place: u32, token: u128)
        requires thread { thread < length self.old.lanes }
        requires other { self.old.turn ≢ thread }
        requires may { MayLatch (lane_machine self.old.program (lane_at self.old.lanes thread)) place token }
        ensures program { self.new.program ≡ self.old.program }
        ensures lanes { self.new.lanes ≡ slice_set self.old.lanes thread (latched_lane (lane_at self.old.lanes thread) place token) }
        ensures turn { self.new.turn ≡ self.old.turn }
    {
        self.lanes[thread as usize].keep(place, token);
    }

    // Sets the flag of an out of the thread that has the turn.
    fn flag(&mut self, place: u32)
        requires { place < length (lane_at self.old.lanes self.old.turn).flags }
        ensures program { self.new.program ≡ self.old.program }
        ensures lanes { self.new.lanes ≡ slice_set self.old.lanes self.old.turn (fired_lane (lane_at self.old.lanes self.old.turn) place) }
        ensures turn { self.new.turn ≡ self.old.turn }
        ensures slots { self.new.slots ≡ self.old.slots }
    {
        self.lanes[self.turn as usize].set_flag(place);
    }

    // Advances the thread that has the turn to its next cycle.
    fn next<L: Ledger>(&mut self, steps: &mut Steps<L>)
        requires { MayFinish (lane_machine self.old.program (lane_at self.old.lanes self.old.turn)) }
        ensures program { self.new.program ≡ self.old.program }
        ensures next { IsNextState (lane_machine self.old.program (lane_at self.old.lanes self.old.turn)) (lane_at self.new.lanes self.old.turn).state }
        ensures lanes { self.new.lanes ≡ slice_set self.old.lanes self.old.turn (finished_lane (lane_at self.old.lanes self.old.turn) (lane_at self.new.lanes self.old.turn).state) }
        ensures turn { self.new.turn ≡ self.old.turn }
    {
        self.lanes[self.turn as usize].finish(&self.program, &mut self.slots, steps);
    }

    /// The token that an out of a thread would give. Changes no machine. The steps are evaluated assignments. They and
    /// the assignments that have still to be evaluated afterwards are no more than had to be evaluated before, and exactly
    /// as many if the thread had the turn. All that the out reaches is done afterwards. If it was done before, nothing is
    /// evaluated.
    pub fn token_once<L: Ledger>(&mut self, thread: u32, place: u32, steps: &mut Steps<L>) -> u128
        requires thread { thread < length (machines_of self.old) }
        requires may { MayFire (machine_at (machines_of self.old) thread) place }
        ensures token { IsToken (machine_at (machines_of self.old) thread) place result }
        ensures program { self.new.program ≡ self.old.program }
        ensures lanes { self.new.lanes ≡ self.old.lanes }
        ensures steps { steps.new + unset_of self.new thread ≤ steps.old + unset_of self.old thread }
        ensures exact { self.old.turn ≡ thread → steps.new + unset_of self.new thread ≡ steps.old + unset_of self.old thread }
        ensures cone { IsConeDoneOf self.new thread place }
        ensures still { IsConeDoneOf self.old thread place → steps.new ≡ steps.old }
    {
        self.turn_to(thread);
        self.value(place, steps)
    }

    // `token_once` with a new ledger.
    fn token_by<L: Ledger>(&mut self, thread: u32, place: u32, blank: Blank) -> u128
        requires name { blank.name ≡ L.name }
        requires parts { blank.parts ≡ L.parts }
        requires some { 0 < blank.parts }
        requires thread { thread < length (machines_of self.old) }
        requires may { MayFire (machine_at (machines_of self.old) thread) place }
        ensures token { IsToken (machine_at (machines_of self.old) thread) place result }
        ensures program { self.new.program ≡ self.old.program }
        ensures lanes { self.new.lanes ≡ self.old.lanes }
        ensures turn { self.new.turn ≡ thread }
        ensures unset { unset_of self.new thread ≤ unset_of self.old thread }
    {
        self.token_once(thread, place, &mut Steps::<L>::new(blank))
    }

    // Advances a thread to its next cycle, with a new ledger.
    fn finish_by<L: Ledger>(&mut self, thread: u32, blank: Blank)
        requires name { blank.name ≡ L.name }
        requires parts { blank.parts ≡ L.parts }
        requires some { 0 < blank.parts }
        requires thread { thread < length (machines_of self.old) }
        requires may { MayFinish (machine_at (machines_of self.old) thread) }
        ensures next { IsNextState (machine_at (machines_of self.old) thread) (machine_at (machines_of self.new) thread).state }
        ensures step { machines_of self.new ≡ slice_set (machines_of self.old) thread (finished (machine_at (machines_of self.old) thread) (machine_at (machines_of self.new) thread).state) }
    {
        self.turn_to(thread);
        self.next(&mut Steps::<L>::new(blank));
    }
}

#[tactic(auto, using(crate::proofs::SharedLemmas::machine_of_lane))]
impl<'a> Host for Shared<'a> {
    ghost machines = { machines_of };

    fn threads(&self) -> u32 {
        self.lanes.len() as u32
    }

    fn cycle(&self, thread: u32) -> u64 {
        self.lane(thread).cycle()
    }

    fn latched(&self, thread: u32, place: u32) -> bool {
        self.lane(thread).latched(place)
    }

    fn fired(&self, thread: u32, place: u32) -> bool {
        self.lane(thread).fired(place)
    }

    fn missing(&self, thread: u32, place: u32) -> Option<u32> {
        self.lane(thread).missing(&self.program, place)
    }

    fn due(&self, thread: u32) -> Option<u32> {
        // for the invariant only
        let _ = self.lane(thread);
        None
    }

    fn served(&self, thread: u32) -> u32 {
        // for the invariant only
        let _ = self.lane(thread);
        0
    }

    fn dues(&self, thread: u32) -> u32 {
        // for the invariant only
        let _ = self.lane(thread);
        0
    }

    fn port_count(&self, thread: u32) -> u32 {
        // for the invariant only
        let _ = self.lane(thread);
        0
    }

    fn token(&mut self, thread: u32, place: u32) -> u128
        requires thread { thread < length (machines_of self.old) }
        requires may { MayFire (machine_at (machines_of self.old) thread) place }
        ensures token { IsToken (machine_at (machines_of self.old) thread) place result }
        ensures same { machines_of self.new ≡ machines_of self.old }
        ensures unset { unset_of self.new thread ≤ unset_of self.old thread }
    {
        self.token_by::<Brand>(thread, place, Blank::new(1))
    }

    fn latch(&mut self, thread: u32, place: u32, value: u128)
        requires thread { thread < length (machines_of self.old) }
        requires may { MayLatch (machine_at (machines_of self.old) thread) place value }
        ensures step { machines_of self.new ≡ slice_set (machines_of self.old) thread (with_latch (machine_at (machines_of self.old) thread) place value) }
        ensures unset { unset_of self.new thread ≤ unset_of self.old thread }
    {
        if self.turn == thread {
            self.put(place, value);
        } else {
            self.keep(thread, place, value);
        }
    }

    fn fire(&mut self, thread: u32, place: u32) -> u128
        requires thread { thread < length (machines_of self.old) }
        requires may { MayFire (machine_at (machines_of self.old) thread) place }
        ensures token { IsToken (machine_at (machines_of self.old) thread) place result }
        ensures step { machines_of self.new ≡ slice_set (machines_of self.old) thread (with_flag (machine_at (machines_of self.old) thread) place) }
        ensures unset { unset_of self.new thread ≤ unset_of self.old thread }
    {
        let value = self.token_by::<Brand>(thread, place, Blank::new(1));
        self.flag(place);
        value
    }

    fn serve(&mut self, thread: u32, port: u32) {
        // for the invariant only
        let _ = self.lane(thread);
    }

    fn finish(&mut self, thread: u32) {
        self.finish_by::<Brand>(thread, Blank::new(1));
    }
}
