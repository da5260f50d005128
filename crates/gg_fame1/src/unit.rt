//! `Unit`: a piece of a cut circuit as a machine of its own.
ghost use Rattle.std.specs.Prelude.{◌≡◌, ℕ, ◌+◌, ◌<◌, ◌≤◌, [], ◌∷◌, length, is_some, slice_set, IfOk};
ghost use Rattle.gg_flat.specs.State.{IsState};
ghost use Rattle.gg_bits.specs.Limits.{cycle_limit};
ghost use Rattle.gg_node.specs.Machine.{machine_at, latch_at, flag_at, missing};
ghost use Rattle.gg_node.specs.inside.Machine.{due};
ghost use Rattle.gg_node.specs.Token.{IsToken, IsNextState};
ghost use Rattle.gg_node.specs.inside.Step.{MayLatch, MayFire, MayServe, MayFinish};
ghost use Rattle.gg_node.specs.Step.{with_latch, with_flag, with_served, finished};
ghost use Rattle.gg_fame5.specs.inside.Machine.{opening_unit};
ghost use Rattle.gg_fame5.specs.Machine.{started_unit};
ghost use Rattle.gg_fame5.specs.inside.Shared.{machines_of, unset_of, IsConeDoneOf};

use gg_clocks::Ratio;
use gg_fame5::Shared;
use gg_flat::Piece;
use gg_node::Host;
use gg_order::State;
use gg_program::{NoMemory, Program, Steps};
use std::alloc::Global;
use std::marker::Model;
use std::sync::ledger::Ledger;

/// A piece of a cut circuit as a machine of its own. It is a host of one thread. Its ins are the piece's in-signals,
/// and its outs are the out-signals, both in port order. A contract sees it as a host that several threads could share.
///
/// # Examples
///
/// ```
/// // The piece has an in-signal of 4 bits, and the out-signal is `not` of it.
/// let program = Program::of(alloc, &piece)?;
/// let mut unit = Unit::with_clocks(alloc, program, &[])?;
/// unit.missing(0, 0); // Some(0): out 0 waits for in 0
/// unit.latch(0, 0, 0b0101);
/// unit.missing(0, 0); // None
/// unit.fire(0, 0); // 0b1010
/// unit.finish(0);
/// unit.cycle(0); // 1
/// ```
pub struct Unit<'a> {
    shared: Shared<'a>,
}

impl Drop for Unit<'_> {
    fn drop(self) {
        let Self { shared } = self;
        drop(shared);
    }
}

impl<'a> Model for Unit<'a> {
    ghost use Rattle.gg_fame5.specs.inside.Shared.{Sharing};

    ghost Value = { Sharing };

    ghost view = { λ unit. unit.shared };
}

impl<'a> Unit<'a> {
    /// The unit of a program before the first cycle, with a ratio for each clock of the piece.
    ///
    /// # Errors
    ///
    /// Returns `NoMemory` if an allocation fails.
    pub fn with_clocks(
        alloc: Global,
        program: Program<'a>,
        ratios: &[Ratio],
    ) -> Result<Unit<'a>, NoMemory>
        ensures { IfOk result (λ unit. machines_of unit ≡ opening_unit program.entry ratios.now ∷ []) }
    {
        let state = State::new(alloc, program.piece())?;
        Unit::from_state(alloc, program, ratios, state, 0)
    }

    /// The unit of a program that begins in this state, with this cycle, which is at most 1,000,000. There is a ratio
    /// for each clock of the piece.
    ///
    /// # Errors
    ///
    /// Returns `NoMemory` if an allocation fails.
    pub fn from_state(
        alloc: Global,
        program: Program<'a>,
        ratios: &[Ratio],
        state: State,
        cycle: u64,
    ) -> Result<Unit<'a>, NoMemory>
        requires state { IsState program.circuit state }
        requires cycle { cycle ≤ cycle_limit }
        ensures { IfOk result (λ unit. machines_of unit ≡ started_unit program.entry ratios.now state cycle ∷ []) }
    {
        let shared = Shared::alone(alloc, program, ratios, state, cycle)?;
        Ok(Unit { shared })
    }

    /// The piece that it runs.
    pub fn piece(&self) -> &Piece
        ensures { result.now ≡ self.now.program.circuit }
    {
        self.shared.piece()
    }

    /// The state before its cycle. The only thread is thread 0.
    pub fn state(&self, thread: u32) -> &State
        requires { thread < length (machines_of self.now) }
        ensures { result.now ≡ (machine_at (machines_of self.now) thread).state }
    {
        self.shared.state(thread)
    }

    /// The token that an out would give. Changes no machine. The steps are evaluated assignments. They and the
    /// assignments that have still to be evaluated afterwards are as many as had to be evaluated before. All that the out
    /// reaches is done afterwards. If it was done before, nothing is evaluated.
    pub fn token_once<L: Ledger>(&mut self, thread: u32, place: u32, steps: &mut Steps<L>) -> u128
        requires thread { thread < length (machines_of self.old) }
        requires may { MayFire (machine_at (machines_of self.old) thread) place }
        ensures token { IsToken (machine_at (machines_of self.old) thread) place result }
        ensures program { self.new.program ≡ self.old.program }
        ensures lanes { self.new.lanes ≡ self.old.lanes }
        ensures steps { steps.new + unset_of self.new thread ≤ steps.old + unset_of self.old thread }
        ensures exact { self.old.turn ≡ thread → steps.new + unset_of self.new thread ≡ steps.old + unset_of self.old thread }
        ensures cone { IsConeDoneOf self.new thread place }
        ensures still { IsConeDoneOf self.old thread place → steps.new ≡ steps.old }
    {
        self.shared.token_once(thread, place, steps)
    }
}

impl<'a> Host for Unit<'a> {
    ghost machines = { machines_of };

    fn threads(&self) -> u32 {
        self.shared.threads()
    }

    fn cycle(&self, thread: u32) -> u64 {
        self.shared.cycle(thread)
    }

    fn latched(&self, thread: u32, place: u32) -> bool {
        self.shared.latched(thread, place)
    }

    fn fired(&self, thread: u32, place: u32) -> bool {
        self.shared.fired(thread, place)
    }

    fn missing(&self, thread: u32, place: u32) -> Option<u32> {
        self.shared.missing(thread, place)
    }

    fn due(&self, thread: u32) -> Option<u32> {
        self.shared.due(thread)
    }

    fn served(&self, thread: u32) -> u32 {
        self.shared.served(thread)
    }

    fn dues(&self, thread: u32) -> u32 {
        self.shared.dues(thread)
    }

    fn port_count(&self, thread: u32) -> u32 {
        self.shared.port_count(thread)
    }

    fn token(&mut self, thread: u32, place: u32) -> u128
        requires thread { thread < length (machines_of self.old) }
        requires may { MayFire (machine_at (machines_of self.old) thread) place }
        ensures token { IsToken (machine_at (machines_of self.old) thread) place result }
        ensures same { machines_of self.new ≡ machines_of self.old }
        ensures unset { unset_of self.new thread ≤ unset_of self.old thread }
    {
        self.shared.token(thread, place)
    }

    fn latch(&mut self, thread: u32, place: u32, value: u128)
        requires thread { thread < length (machines_of self.old) }
        requires may { MayLatch (machine_at (machines_of self.old) thread) place value }
        ensures step { machines_of self.new ≡ slice_set (machines_of self.old) thread (with_latch (machine_at (machines_of self.old) thread) place value) }
        ensures unset { unset_of self.new thread ≤ unset_of self.old thread }
    {
        self.shared.latch(thread, place, value);
    }

    fn fire(&mut self, thread: u32, place: u32) -> u128
        requires thread { thread < length (machines_of self.old) }
        requires may { MayFire (machine_at (machines_of self.old) thread) place }
        ensures token { IsToken (machine_at (machines_of self.old) thread) place result }
        ensures step { machines_of self.new ≡ slice_set (machines_of self.old) thread (with_flag (machine_at (machines_of self.old) thread) place) }
        ensures unset { unset_of self.new thread ≤ unset_of self.old thread }
    {
        self.shared.fire(thread, place)
    }

    fn serve(&mut self, thread: u32, port: u32) {
        self.shared.serve(thread, port);
    }

    fn finish(&mut self, thread: u32) {
        self.shared.finish(thread);
    }
}
