//! A ring is a link.
ghost use Rattle.std.specs.Prelude.{◌≡◌, ◌+◌, ◌≤◌, slice_get, Some, MatchResult, MatchOption};
ghost use Rattle.gg_link.specs.Seats.{Counted, FoundFull, FoundEmpty};
ghost use Rattle.gg_ring.specs.Seats.{put_state, take_state, IsPutSeatOf, IsTakeSeatOf, put_moves, take_moves, steps_of_a_call};

use crate::opening::opened;
use crate::ring::{PutSeat, Ring, TakeSeat};
use gg_flat::Streams;
use gg_link::{Full, Link};
use std::alloc::{AllocError, Global};
use std::collections::VecDeque;
use std::marker::Brand;

impl Link for Ring {
    type Home = ();

    type PutSeat = PutSeat;

    type TakeSeat = TakeSeat;

    ghost puts_into = { IsPutSeatOf };

    ghost takes_from = { IsTakeSeatOf };

    ghost putting = { put_state };

    ghost taking = { take_state };

    fn make<Z: Streams>(
        _home: (),
        alloc: Global,
        which: u32,
        start: u64,
        capacity: u32,
        held: &mut VecDeque<u128>,
    ) -> Result<(Ring, PutSeat, TakeSeat), AllocError> {
        let (ring, mut put, take) = opened::<Brand>(alloc, which, start, capacity)?;
        ring.fill(&mut put, held);
        let (put, take) = ring.settle(put, take);
        Ok((ring, put, take))
    }

    /// Puts the next value of the stream, in at most four atomic steps.
    fn put(&self, seat: &mut PutSeat, value: u128) -> Result<(), Full>
        requires seat { IsPutSeatOf self.now seat.old }
        requires value { slice_get (put_state seat.old).stream (put_state seat.old).count ≡ Some value }
        ensures seat { IsPutSeatOf self.now seat.new }
        ensures put { MatchResult result (λ _. Counted (put_state seat.old) (put_state seat.new)) (λ full. FoundFull (put_state seat.old) (put_state seat.new) full.taken) }
        ensures moves { put_moves seat.new ≤ put_moves seat.old + steps_of_a_call }
    {
        self.try_put(seat, value)
    }

    /// Takes the next value of the stream, in at most four atomic steps.
    fn take(&self, seat: &mut TakeSeat) -> Option<u128>
        requires seat { IsTakeSeatOf self.now seat.old }
        ensures seat { IsTakeSeatOf self.now seat.new }
        ensures take { MatchOption result (FoundEmpty (take_state seat.old) (take_state seat.new))
            (λ value. Counted (take_state seat.old) (take_state seat.new)
            × (slice_get (take_state seat.old).stream (take_state seat.old).count ≡ Some value)) }
        ensures moves { take_moves seat.new ≤ take_moves seat.old + steps_of_a_call }
    {
        self.try_take(seat)
    }

    fn close(self, put: PutSeat, take: TakeSeat, into: &mut VecDeque<u128>) {
        self.hand_back(put, take, into);
    }
}
