//! A put and a take.
ghost use Rattle.std.specs.Prelude.{◌≡◌, ◌+◌, ◌<◌, ◌≤◌, slice_get, Some, MatchResult, MatchOption, length};
ghost use Rattle.crossbeam_queue.specs.Passes.{view, IsPassOf};
ghost use Rattle.gg_link.specs.Seats.{Counted, FoundFull, FoundEmpty};
ghost use Rattle.gg_ruled.specs.inside.Seats.{put_state, take_state, IsPutSeatOf, IsTakeSeatOf};

use crate::rule::{Puts, Takes};
use crate::ruled::{PutSeat, Ruled, TakeSeat};
use gg_link::Full;
use std::sync::Wait;

impl<R: Wait + Copy> Ruled<R> {
    // Puts a value, or finds the queue full. Then it held its capacity of values, and all others had been taken.
    pub(crate) fn try_put(&self, seat: &mut PutSeat, value: u128) -> Result<(), Full>
        requires seat { IsPutSeatOf self.now seat.old }
        requires value { slice_get (view seat.old.pass).stream seat.old.puts ≡ Some value }
        ensures seat { IsPutSeatOf self.now seat.new }
        ensures put { MatchResult result (λ _. Counted (put_state seat.old) (put_state seat.new)) (λ full. FoundFull (put_state seat.old) (put_state seat.new) full.taken) }
    {
        match self
            .queue
            .push_as::<Puts, R>(&self.rt, &mut seat.pass, value)
        {
            Ok(()) => {
                seat.puts += 1;
                Ok(())
            }
            Err(_) => {
                seat.seen = seat.puts - self.capacity;
                seat.looks = seat.looks.saturating_add(1);
                Err(Full { taken: seat.seen })
            }
        }
    }

    // Takes a value, or finds the queue empty. Then all values that had been put had been taken.
    pub(crate) fn try_take(&self, seat: &mut TakeSeat) -> Option<u128>
        requires seat { IsTakeSeatOf self.now seat.old }
        ensures seat { IsTakeSeatOf self.now seat.new }
        ensures take { MatchOption result (FoundEmpty (take_state seat.old) (take_state seat.new))
            (λ value. Counted (take_state seat.old) (take_state seat.new)
            × (slice_get (take_state seat.old).stream (take_state seat.old).count ≡ Some value)) }
    {
        match self.queue.pop_as::<Takes, R>(&self.rt, &mut seat.pass) {
            Some(value) => {
                seat.takes += 1;
                Some(value)
            }
            None => {
                seat.seen = seat.takes;
                seat.looks = seat.looks.saturating_add(1);
                None
            }
        }
    }
}
