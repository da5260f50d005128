//! The four steps of a put.
ghost use Rattle.std.specs.Prelude.{◌≡◌, ◌+◌, ◌<◌, ◌≤◌, slice_get, Some, MatchResult, length};
ghost use Rattle.gg_link.specs.Seats.{Counted, FoundFull};
ghost use Rattle.gg_ring.specs.Seats.{put_state, IsPutSeatOf, put_moves, steps_of_a_call};

use crate::ring::{PutSeat, Ring};
use crate::rule::{LoadHead, StoreHigh, StoreLow, StoreTail};
use gg_link::Full;

impl Ring {
    // Looks how many were taken.
    fn look_at_head(&self, seat: &mut PutSeat)
        requires seat { IsPutSeatOf self.now seat.old }
        ensures seat { IsPutSeatOf self.now seat.new × (seat.new.seat.me.0.stream ≡ seat.old.seat.me.0.stream) }
        ensures counts { (seat.new.puts ≡ seat.old.puts) × (seat.old.seen ≤ seat.new.seen) }
        ensures looks { seat.new.seat.me.0.looks ≡ seat.old.seat.me.0.looks + 1 }
        ensures moves { put_moves seat.new ≡ put_moves seat.old + 1 }
    {
        if seat.streaming {
            self.pause();
        }
        let before = seat.seen;
        seat.seen = self.table.shared.load::<LoadHead>(&mut seat.seat, 0);
        seat.streaming = seat.seen > before + 1;
    }

    // Stores a value where there is room.
    pub(crate) fn store_value(&self, seat: &mut PutSeat, value: u128)
        requires seat { IsPutSeatOf self.now seat.old }
        requires room { seat.old.puts < seat.old.seen + self.now.capacity }
        requires value { slice_get seat.old.seat.me.0.stream seat.old.puts ≡ Some value }
        ensures seat { IsPutSeatOf self.now seat.new × (seat.new.seat.me.0.stream ≡ seat.old.seat.me.0.stream) }
        ensures counts { (seat.new.puts ≡ seat.old.puts + 1) × (seat.new.seen ≡ seat.old.seen) }
        ensures looks { seat.new.seat.me.0.looks ≡ seat.old.seat.me.0.looks }
        ensures moves { put_moves seat.new ≡ put_moves seat.old + 3 }
    {
        let place = 2 * seat.place as usize;
        let low = (value % (1 << 64)) as u64;
        let high = (value >> 64) as u64;
        let shared = &self.table.shared;
        shared.store::<StoreLow>(&mut seat.seat, 2 + place, low);
        shared.store::<StoreHigh>(&mut seat.seat, 3 + place, high);
        shared.store::<StoreTail>(&mut seat.seat, 1, seat.puts + 1);
        seat.place = self.behind(seat.place, seat.puts);
        seat.puts += 1;
    }

    // Puts a value, or finds the ring full. Looks only if the ring may be full, as far as the seat knows.
    pub(crate) fn try_put(&self, seat: &mut PutSeat, value: u128) -> Result<(), Full>
        requires seat { IsPutSeatOf self.now seat.old }
        requires value { slice_get seat.old.seat.me.0.stream seat.old.puts ≡ Some value }
        ensures seat { IsPutSeatOf self.now seat.new }
        ensures put { MatchResult result (λ _. Counted (put_state seat.old) (put_state seat.new)) (λ full. FoundFull (put_state seat.old) (put_state seat.new) full.taken) }
        ensures moves { put_moves seat.new ≤ put_moves seat.old + steps_of_a_call }
    {
        if seat.puts == seat.seen + self.capacity {
            self.look_at_head(seat);
            if seat.puts == seat.seen + self.capacity {
                return Err(Full { taken: seat.seen });
            }
        }
        self.store_value(seat, value);
        Ok(())
    }
}
