//! The four steps of a take.
ghost use Rattle.std.specs.Prelude.{◌≡◌, ◌+◌, ◌<◌, ◌≤◌, slice_get, Some, MatchOption, length};
ghost use Rattle.gg_link.specs.Seats.{Counted, FoundEmpty};
ghost use Rattle.gg_ring.specs.Seats.{take_state, IsTakeSeatOf, take_moves, steps_of_a_call};

use crate::halves::joined;
use crate::ring::{Ring, TakeSeat};
use crate::rule::{LoadHigh, LoadLow, LoadTail, StoreHead};

impl Ring {
    // Looks how many were put.
    fn look_at_tail(&self, seat: &mut TakeSeat)
        requires seat { IsTakeSeatOf self.now seat.old }
        ensures seat { IsTakeSeatOf self.now seat.new × (seat.new.seat.me.0.stream ≡ seat.old.seat.me.0.stream) }
        ensures counts { (seat.new.takes ≡ seat.old.takes) × (seat.old.seen ≤ seat.new.seen) }
        ensures looks { seat.new.seat.me.0.looks ≡ seat.old.seat.me.0.looks + 1 }
        ensures moves { take_moves seat.new ≡ take_moves seat.old + 1 }
    {
        if seat.streaming {
            self.pause();
        }
        let before = seat.seen;
        seat.seen = self.table.shared.load::<LoadTail>(&mut seat.seat, 1);
        seat.streaming = seat.seen > before + 1;
    }

    // Takes a value that is known to be there.
    fn load_value(&self, seat: &mut TakeSeat) -> u128
        requires seat { IsTakeSeatOf self.now seat.old }
        requires there { seat.old.takes < seat.old.seen }
        ensures seat { IsTakeSeatOf self.now seat.new × (seat.new.seat.me.0.stream ≡ seat.old.seat.me.0.stream) }
        ensures counts { (seat.new.takes ≡ seat.old.takes + 1) × (seat.new.seen ≡ seat.old.seen) }
        ensures looks { seat.new.seat.me.0.looks ≡ seat.old.seat.me.0.looks }
        ensures moves { take_moves seat.new ≡ take_moves seat.old + 3 }
        ensures value { slice_get seat.old.seat.me.0.stream seat.old.takes ≡ Some result }
    {
        let place = 2 * seat.place as usize;
        let shared = &self.table.shared;
        let low = shared.load::<LoadLow>(&mut seat.seat, 2 + place);
        let high = shared.load::<LoadHigh>(&mut seat.seat, 3 + place);
        shared.store::<StoreHead>(&mut seat.seat, 0, seat.takes + 1);
        seat.place = self.behind(seat.place, seat.takes);
        seat.takes += 1;
        joined(low, high)
    }

    // Takes a value, or finds none. Looks only if all values that the seat knows of are taken.
    pub(crate) fn try_take(&self, seat: &mut TakeSeat) -> Option<u128>
        requires seat { IsTakeSeatOf self.now seat.old }
        ensures seat { IsTakeSeatOf self.now seat.new }
        ensures take { MatchOption result (FoundEmpty (take_state seat.old) (take_state seat.new))
            (λ value. Counted (take_state seat.old) (take_state seat.new)
            × (slice_get (take_state seat.old).stream (take_state seat.old).count ≡ Some value)) }
        ensures moves { take_moves seat.new ≤ take_moves seat.old + steps_of_a_call }
    {
        if seat.takes == seat.seen {
            self.look_at_tail(seat);
            if seat.takes == seat.seen {
                return None;
            }
        }
        Some(self.load_value(seat))
    }
}
