//! What a call does besides its atomic steps: the next place, and a pause before it looks.
ghost use Rattle.std.specs.Prelude.{◌≡◌, ◌+◌, ◌%◌};

use crate::ring::Ring;
use std::hint;

// The longest pause, in waits of the processor.
const LONGEST_PAUSE: u64 = 256;

impl Ring {
    // The place after the place of value `count`, without a division.
    pub(crate) fn behind(&self, place: u64, _count: u64) -> u64
        requires place { place ≡ _count % self.now.capacity }
        ensures { result ≡ (_count + 1) % self.now.capacity }
    {
        let next = place + 1;
        if next == self.capacity { 0 } else { next }
    }

    // Lets the other thread go some values ahead, so that the two do not fight for one line of the cache.
    pub(crate) fn pause(&self) {
        for _ in 0..self.capacity.min(LONGEST_PAUSE) {
            hint::spin_loop();
        }
    }
}
