//! A gate where two workers meet. It notes that each goes on after its first turn.
use gg_io::Gate;
use std::sync::atomic::{AtomicU64, Ordering};
use std::thread;

// The flags of one worker: whether it has begun, whether it has seen that the other has, and whether it has begun a second turn.
struct Flags {
    begun: AtomicU64,
    met: AtomicU64,
    gone_on: AtomicU64,
}

impl Drop for Flags {
    fn drop(self) {
        let Self {
            begun,
            met,
            gone_on,
        } = self;
        drop(begun);
        drop(met);
        drop(gone_on);
    }
}

impl Flags {
    // Flags that aren't set.
    fn new() -> Flags {
        Flags {
            begun: AtomicU64::new(0),
            met: AtomicU64::new(0),
            gone_on: AtomicU64::new(0),
        }
    }

    // Sets the flag that the worker has begun, and looks at most 10,000,000 times whether the other has.
    fn meet(&self, other: &Flags) {
        self.begun.store(1, Ordering::SeqCst);
        for _ in 0..10_000_000 {
            if other.begun.load(Ordering::SeqCst) == 1 {
                self.met.store(1, Ordering::SeqCst);
                return;
            }
            thread::yield_now();
        }
    }
}

// A gate where each of two workers waits for the other before its first turn. It notes the second turn of each.
pub(crate) struct Meeting {
    first: Flags,
    second: Flags,
}

impl Drop for Meeting {
    fn drop(self) {
        let Self { first, second } = self;
        drop(first);
        drop(second);
    }
}

impl Meeting {
    // A gate that no worker has passed.
    pub(crate) fn new() -> Meeting {
        Meeting {
            first: Flags::new(),
            second: Flags::new(),
        }
    }

    // Whether each of the two workers has seen the other there.
    pub(crate) fn has_met(&self) -> bool {
        self.first.met.load(Ordering::SeqCst) == 1 && self.second.met.load(Ordering::SeqCst) == 1
    }

    // Whether each of the two workers has begun a second turn.
    pub(crate) fn has_gone_on(&self) -> bool {
        self.first.gone_on.load(Ordering::SeqCst) == 1
            && self.second.gone_on.load(Ordering::SeqCst) == 1
    }

    // The flags of a worker, and those of the other.
    fn flags(&self, worker: u32) -> (&Flags, &Flags) {
        if worker == 0 {
            (&self.first, &self.second)
        } else {
            (&self.second, &self.first)
        }
    }
}

impl Gate for Meeting {
    fn pass(&self, worker: u32, turn: u64) {
        let (own, other) = self.flags(worker);
        if turn == 0 {
            own.meet(other);
        }
        if turn == 1 {
            own.gone_on.store(1, Ordering::SeqCst);
        }
    }
}
