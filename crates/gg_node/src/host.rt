//! `Host`: holds machines and does their steps.
ghost use Rattle.std.specs.Prelude.{◌≡◌, ◌↔◌, ℕ, ◌<◌, List, length, is_some, slice_set, true};
ghost use Rattle.gg_node.specs.Machine.{Machine, machine_at, latch_at, flag_at, missing};
ghost use Rattle.gg_node.specs.inside.Machine.{due};
ghost use Rattle.gg_node.specs.Token.{IsToken, IsNextState};
ghost use Rattle.gg_node.specs.inside.Step.{Wants, Gives, AllLatched, MayLatch, MayFire, MayServe, MayFinish};
ghost use Rattle.gg_node.specs.Step.{AllFired, with_latch, with_flag, with_served, finished};

/// Holds machines, one for each of its threads, and does their steps. Threads, ins and outs are given by their places.
/// A call that does a step changes the machine of its thread, and no other. No call allocates.
pub trait Host: Drop + Send {
    // The machines of its threads.
    ghost machines: { Self → List Machine };

    /// The number of threads.
    fn threads(&self) -> u32
        ensures { result ≡ length (machines self.now) };

    /// The cycle that a machine is in.
    fn cycle(&self, thread: u32) -> u64
        requires { thread < length (machines self.now) }
        ensures { result ≡ (machine_at (machines self.now) thread).cycle };

    /// Whether an in has its token of this cycle.
    fn latched(&self, thread: u32, place: u32) -> bool
        requires thread { thread < length (machines self.now) }
        requires place { place < length (machine_at (machines self.now) thread).latches }
        ensures { result ≡ is_some (latch_at (machine_at (machines self.now) thread).latches place) };

    /// Whether an out has given its token of this cycle.
    fn fired(&self, thread: u32, place: u32) -> bool
        requires thread { thread < length (machines self.now) }
        requires place { place < length (machine_at (machines self.now) thread).flags }
        ensures { result ≡ flag_at (machine_at (machines self.now) thread).flags place };

    /// The first in that an out needs and that has no token yet, if there is one.
    fn missing(&self, thread: u32, place: u32) -> Option<u32>
        requires thread { thread < length (machines self.now) }
        requires place { place < length (machine_at (machines self.now) thread).flags }
        ensures { result ≡ missing (machine_at (machines self.now) thread) place };

    /// The number of the port that has to be served next; None if no port is left.
    fn due(&self, thread: u32) -> Option<u32>
        requires { thread < length (machines self.now) }
        ensures { result ≡ due (machine_at (machines self.now) thread) };

    /// The number of ports that were served in this cycle.
    fn served(&self, thread: u32) -> u32
        requires { thread < length (machines self.now) }
        ensures { result ≡ (machine_at (machines self.now) thread).served };

    /// The number of ports that are served in a cycle.
    fn dues(&self, thread: u32) -> u32
        requires { thread < length (machines self.now) }
        ensures { result ≡ length (machine_at (machines self.now) thread).ports };

    /// The number of ports of the machine's memory, including ports that no step serves; 0 if it isn't a memory that is
    /// served.
    fn port_count(&self, thread: u32) -> u32
        requires { thread < length (machines self.now) }
        ensures { result ≡ (machine_at (machines self.now) thread).port_count };

    /// Whether a machine is below a cycle, and an in of it has no token of its own cycle.
    fn wants(&self, thread: u32, place: u32, cycle: u64) -> bool
        requires thread { thread < length (machines self.now) }
        requires place { place < length (machine_at (machines self.now) thread).latches }
        ensures { (result ≡ true) ↔ Wants cycle (machine_at (machines self.now) thread) place }
    {
        self.cycle(thread) < cycle && !self.latched(thread, place)
    }

    /// Whether a machine is below a cycle, and an out of it may give its token.
    fn gives(&self, thread: u32, place: u32, cycle: u64) -> bool
        requires thread { thread < length (machines self.now) }
        requires place { place < length (machine_at (machines self.now) thread).flags }
        ensures { (result ≡ true) ↔ Gives cycle (machine_at (machines self.now) thread) place }
    {
        self.cycle(thread) < cycle
            && !self.fired(thread, place)
            && self.missing(thread, place).is_none()
    }

    /// Whether all of the `outs` outs of a machine have given their tokens of this cycle.
    fn all_fired(&self, thread: u32, outs: u32) -> bool
        requires thread { thread < length (machines self.now) }
        requires outs { outs ≡ length (machine_at (machines self.now) thread).flags }
        ensures { (result ≡ true) ↔ AllFired (machine_at (machines self.now) thread) }
    {
        for place in 0..outs {
            if !self.fired(thread, place) {
                return false;
            }
        }
        true
    }

    /// Whether all of the `ins` ins of a machine have their tokens of this cycle.
    fn all_latched(&self, thread: u32, ins: u32) -> bool
        requires thread { thread < length (machines self.now) }
        requires ins { ins ≡ length (machine_at (machines self.now) thread).latches }
        ensures { (result ≡ true) ↔ AllLatched (machine_at (machines self.now) thread) }
    {
        for place in 0..ins {
            if !self.latched(thread, place) {
                return false;
            }
        }
        true
    }

    /// The token that an out would give. Changes no machine.
    fn token(&mut self, thread: u32, place: u32) -> u128
        requires thread { thread < length (machines self.old) }
        requires may { MayFire (machine_at (machines self.old) thread) place }
        ensures token { IsToken (machine_at (machines self.old) thread) place result }
        ensures same { machines self.new ≡ machines self.old };

    /// Puts a token into the latch of an in.
    fn latch(&mut self, thread: u32, place: u32, value: u128)
        requires thread { thread < length (machines self.old) }
        requires may { MayLatch (machine_at (machines self.old) thread) place value }
        ensures { machines self.new ≡ slice_set (machines self.old) thread (with_latch (machine_at (machines self.old) thread) place value) };

    /// Gives the token of an out.
    fn fire(&mut self, thread: u32, place: u32) -> u128
        requires thread { thread < length (machines self.old) }
        requires may { MayFire (machine_at (machines self.old) thread) place }
        ensures token { IsToken (machine_at (machines self.old) thread) place result }
        ensures step { machines self.new ≡ slice_set (machines self.old) thread (with_flag (machine_at (machines self.old) thread) place) };

    /// Serves the port that is due, with one access.
    fn serve(&mut self, thread: u32, port: u32)
        requires thread { thread < length (machines self.old) }
        requires may { MayServe (machine_at (machines self.old) thread) port }
        ensures { machines self.new ≡ slice_set (machines self.old) thread (with_served (machine_at (machines self.old) thread)) };

    /// Finishes the cycle: the machine advances to its next state, its latches are emptied and its flags cleared.
    fn finish(&mut self, thread: u32)
        requires thread { thread < length (machines self.old) }
        requires may { MayFinish (machine_at (machines self.old) thread) }
        ensures next { IsNextState (machine_at (machines self.old) thread) (machine_at (machines self.new) thread).state }
        ensures step { machines self.new ≡ slice_set (machines self.old) thread (finished (machine_at (machines self.old) thread) (machine_at (machines self.new) thread).state) };
}
