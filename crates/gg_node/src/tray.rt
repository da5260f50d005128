//! `Tray`: a machine that keeps the last values that it gets.
ghost use Rattle.std.specs.Prelude.{◌≡◌, ℕ, ◌<◌, ◌≤◌, List, [], ◌∷◌, None, IfOk, length, is_some, slice_set};
ghost use Rattle.std.specs.VecDeque.{deque_capacity};
ghost use Rattle.gg_bits.specs.Limits.{cycle_limit};
ghost use Rattle.gg_node.specs.inside.Machine.{IsTray, due};
ghost use Rattle.gg_node.specs.Machine.{Machine, machine_at, latch_at, flag_at, missing, tray_machine, kept_value};
ghost use Rattle.gg_node.specs.Token.{IsToken, IsNextState};
ghost use Rattle.gg_node.specs.inside.Step.{MayLatch, MayFire, MayServe, MayFinish};
ghost use Rattle.gg_node.specs.Step.{with_latch, with_flag, with_served, kept_with, finished};

use crate::host::Host;
use std::alloc::{AllocError, Global};
use std::collections::VecDeque;
use std::marker::Model;

/// Keeps the last values that it gets, one in each cycle. It is a host of one thread. The thread's machine has one in
/// and no outs, and a contract sees the tray as this machine.
///
/// # Examples
///
/// ```
/// let mut tray = Tray::new(alloc, 2)?;
/// for value in [3, 4, 5] {
///     tray.latch(0, 0, value);
///     tray.finish(0);
/// }
/// tray.value(0); // None: it keeps two values, of cycles 1 and 2
/// tray.value(1); // Some(4)
/// tray.value(2); // Some(5)
/// tray.value(3); // None: cycle 3 isn't finished
/// ```
pub struct Tray {
    // The oldest first.
    kept: VecDeque<u128>,
    // The greatest number of values that it keeps.
    rows: u64,
    cycle: u64,
    latch: Option<u128>,
}

impl Drop for Tray {
    fn drop(self) {
        let Self {
            kept,
            rows: _,
            cycle: _,
            latch: _,
        } = self;
        drop(kept);
    }
}

impl Model for Tray {
    ghost use Rattle.gg_bits.specs.Limits.{cycle_limit};
    ghost use Rattle.gg_node.specs.Machine.{Machine, tray_machine};
    ghost use Rattle.gg_node.specs.inside.Tray.{IsWindow};

    ghost Value = { Machine };

    ghost view = { λ tray. tray_machine tray.rows cycle_limit tray.cycle tray.kept.items tray.latch };

    ghost invariant = { λ tray. IsWindow tray.kept tray.rows tray.cycle };
}

impl Tray {
    /// A tray that keeps the last `rows` values, before the first cycle.
    ///
    /// # Errors
    ///
    /// Returns `AllocError` if an allocation fails.
    pub fn new(alloc: Global, rows: u64) -> Result<Tray, AllocError>
        requires { 0 < rows }
        ensures { IfOk result (λ tray. tray ≡ tray_machine rows cycle_limit 0 [] None) }
    {
        Tray::from_cycle(alloc, rows, 0)
    }

    /// A tray that keeps the last `rows` values and is in this cycle. It has no value of a cycle before.
    ///
    /// # Errors
    ///
    /// Returns `AllocError` if an allocation fails.
    pub fn from_cycle(alloc: Global, rows: u64, cycle: u64) -> Result<Tray, AllocError>
        requires { 0 < rows }
        ensures { IfOk result (λ tray. tray ≡ tray_machine rows cycle_limit cycle [] None) }
    {
        let kept = VecDeque::with_capacity(alloc, rows as usize)?;
        Ok(Tray {
            kept,
            rows,
            cycle,
            latch: None,
        })
    }

    /// The value of a cycle. `None` exactly if the cycle isn't finished, if its value was forgotten, or if the cycle is
    /// before the first one of the tray.
    pub fn value(&self, cycle: u64) -> Option<u128>
        ensures keeps { IsTray self.now.behaviour }
        ensures value { result ≡ kept_value self.now cycle }
    {
        let first = self.cycle - self.kept.len() as u64;
        if cycle < first || cycle >= self.cycle {
            return None;
        }
        self.kept.get((cycle - first) as usize).copied()
    }

    // Advances to the next cycle.
    fn next_cycle(&mut self)
        requires { MayFinish self.old }
        ensures next { IsNextState self.old self.new.state }
        ensures step { self.new ≡ finished self.old self.new.state }
    {
        self.cycle += 1;
        keep(&mut self.kept, self.rows, self.latch.unwrap_or(0));
        self.latch = None;
    }
}

// Keeps one more value. If there are `rows` already, the oldest goes.
fn keep(kept: &mut VecDeque<u128>, rows: u64, value: u128)
    requires some { 0 < rows }
    requires few { length kept.old.items ≤ rows }
    requires room { rows ≤ deque_capacity kept.old }
    ensures values { kept.new.items ≡ kept_with rows kept.old.items value }
    ensures room { deque_capacity kept.new ≡ deque_capacity kept.old }
{
    if kept.len() as u64 >= rows {
        let _ = kept.pop_front();
    }
    kept.push_back_reserved(value);
}

#[tactic(auto, using(crate::proofs::OneLemmas::only, crate::proofs::OneLemmas::only_set))]
impl Host for Tray {
    ghost machines = { λ machine. machine ∷ [] };

    fn threads(&self) -> u32 {
        1
    }

    fn cycle(&self, thread: u32) -> u64 {
        self.cycle
    }

    fn latched(&self, thread: u32, place: u32) -> bool {
        self.latch.is_some()
    }

    fn fired(&self, thread: u32, place: u32) -> bool {
        // for the invariant only
        let _ = &self.cycle;
        false
    }

    fn missing(&self, thread: u32, place: u32) -> Option<u32> {
        // for the invariant only
        let _ = &self.cycle;
        None
    }

    fn due(&self, thread: u32) -> Option<u32> {
        // for the invariant only
        let _ = &self.cycle;
        None
    }

    fn served(&self, thread: u32) -> u32 {
        // for the invariant only
        let _ = &self.cycle;
        0
    }

    fn dues(&self, thread: u32) -> u32 {
        // for the invariant only
        let _ = &self.cycle;
        0
    }

    fn port_count(&self, thread: u32) -> u32 {
        // for the invariant only
        let _ = &self.cycle;
        0
    }

    fn token(&mut self, thread: u32, place: u32) -> u128 {
        // for the invariant only
        let _ = &self.cycle;
        0
    }

    fn latch(&mut self, thread: u32, place: u32, value: u128) {
        self.latch = Some(value);
    }

    fn fire(&mut self, thread: u32, place: u32) -> u128 {
        // for the invariant only
        let _ = &self.cycle;
        0
    }

    fn serve(&mut self, thread: u32, port: u32) {
        // for the invariant only
        let _ = &self.cycle;
    }

    fn finish(&mut self, thread: u32) {
        self.next_cycle();
    }
}
