//! `Source`: a machine that gives the values of a column.
ghost use Rattle.std.specs.Prelude.{◌≡◌, ℕ, ◌<◌, List, [], ◌∷◌, false, length, is_some, replicate, slice_set, IfOk};
ghost use Rattle.gg_node.specs.Machine.{GivesColumn, Machine, machine_at, latch_at, flag_at, missing, source_machine};
ghost use Rattle.gg_node.specs.inside.Machine.{due};
ghost use Rattle.gg_node.specs.Token.{IsToken, IsNextState};
ghost use Rattle.gg_node.specs.inside.Step.{MayLatch, MayFire, MayServe, MayFinish};
ghost use Rattle.gg_node.specs.Step.{with_latch, with_flag, with_served, finished};

use crate::host::Host;
use crate::latches::clear_flags;
use std::alloc::{AllocError, Global};
use std::marker::Model;

/// Gives the values of a column, one in each cycle, at each of its outs. It is a host of one thread. The thread's
/// machine has at least one out and no ins, and a contract sees the source as this machine.
///
/// # Examples
///
/// ```
/// let mut source = Source::new(column); // the column 5, 7
/// source.fire(0, 0); // 5, the token of out 0 in cycle 0
/// source.finish(0);
/// source.cycle(0); // 1
/// source.fire(0, 0); // 7
/// ```
pub struct Source {
    column: Vec<u128>,
    cycle: u64,
    // The flag of the first out is apart, so that a source of one out needs no memory of its own.
    fired: bool,
    others: Vec<bool>,
}

impl Drop for Source {
    fn drop(self) {
        let Self {
            column,
            cycle: _,
            fired: _,
            others,
        } = self;
        drop(column);
        drop(others);
    }
}

impl Model for Source {
    ghost use Rattle.std.specs.Prelude.{◌∷◌};
    ghost use Rattle.gg_node.specs.Machine.{Machine, source_machine};

    ghost Value = { Machine };

    ghost view = { λ source. source_machine source.column.items source.cycle (source.fired ∷ source.others.items) };
}

impl Source {
    /// A source of one out, before the first cycle.
    pub fn new(column: Vec<u128>) -> Source
        ensures { result ≡ source_machine column.items 0 (false ∷ []) }
    {
        let others = Vec::new(*column.allocator());
        Source {
            column,
            cycle: 0,
            fired: false,
            others,
        }
    }

    /// A source of this many outs, before the first cycle.
    ///
    /// # Errors
    ///
    /// Returns `AllocError` if an allocation fails.
    pub fn forked(alloc: Global, column: Vec<u128>, outs: u32) -> Result<Source, AllocError>
        requires { 0 < outs }
        ensures { IfOk result (λ source. source ≡ source_machine column.items 0 (replicate outs false)) }
    {
        Source::from_cycle(alloc, column, outs, 0)
    }

    /// A source of this many outs that is in this cycle. The first value of its column is the value of cycle 0.
    ///
    /// # Errors
    ///
    /// Returns `AllocError` if an allocation fails.
    pub fn from_cycle(
        alloc: Global,
        column: Vec<u128>,
        outs: u32,
        cycle: u64,
    ) -> Result<Source, AllocError>
        requires { 0 < outs }
        ensures { IfOk result (λ source. source ≡ source_machine column.items cycle (replicate outs false)) }
    {
        let others = clear_flags(alloc, outs as usize - 1)?;
        Ok(Source {
            column,
            cycle,
            fired: false,
            others,
        })
    }

    /// The values that it gives, by cycle.
    pub fn column(&self) -> &[u128]
        ensures { self.now.behaviour ≡ GivesColumn result.now }
    {
        &self.column
    }

    // Whether an out has given its token of this cycle.
    fn has_fired(&self, place: u32) -> bool
        requires { place < length self.now.flags }
        ensures { result ≡ flag_at self.now.flags place }
    {
        if place == 0 {
            return self.fired;
        }
        self.others[place as usize - 1]
    }

    // Sets the flag of an out.
    fn mark(&mut self, place: u32)
        requires { place < length self.old.flags }
        ensures { self.new ≡ with_flag self.old place }
    {
        if place == 0 {
            self.fired = true;
        } else {
            self.others[place as usize - 1] = true;
        }
    }

    // Advances to the next cycle.
    fn next_cycle(&mut self)
        requires { MayFinish self.old }
        ensures next { IsNextState self.old self.new.state }
        ensures step { self.new ≡ finished self.old self.new.state }
    {
        self.cycle += 1;
        self.fired = false;
        self.others.fill(false);
    }
}

#[tactic(auto, using(crate::proofs::OneLemmas::only, crate::proofs::OneLemmas::only_set))]
impl Host for Source {
    ghost machines = { λ machine. machine ∷ [] };

    fn threads(&self) -> u32 {
        1
    }

    fn cycle(&self, thread: u32) -> u64 {
        self.cycle
    }

    fn latched(&self, thread: u32, place: u32) -> bool {
        // for the invariant only
        let _ = &self.cycle;
        false
    }

    fn fired(&self, thread: u32, place: u32) -> bool {
        self.has_fired(place)
    }

    fn missing(&self, thread: u32, place: u32) -> Option<u32> {
        // for the invariant only
        let _ = &self.cycle;
        None
    }

    fn due(&self, thread: u32) -> Option<u32> {
        // for the invariant only
        let _ = &self.cycle;
        None
    }

    fn served(&self, thread: u32) -> u32 {
        // for the invariant only
        let _ = &self.cycle;
        0
    }

    fn dues(&self, thread: u32) -> u32 {
        // for the invariant only
        let _ = &self.cycle;
        0
    }

    fn port_count(&self, thread: u32) -> u32 {
        // for the invariant only
        let _ = &self.cycle;
        0
    }

    fn token(&mut self, thread: u32, place: u32) -> u128 {
        self.column[self.cycle as usize]
    }

    fn latch(&mut self, thread: u32, place: u32, value: u128) {
        // for the invariant only
        let _ = &self.cycle;
    }

    fn fire(&mut self, thread: u32, place: u32) -> u128 {
        self.mark(place);
        self.column[self.cycle as usize]
    }

    fn serve(&mut self, thread: u32, port: u32) {
        // for the invariant only
        let _ = &self.cycle;
    }

    fn finish(&mut self, thread: u32) {
        self.next_cycle();
    }
}
