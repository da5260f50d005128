//! How a ring is closed.
ghost use Rattle.std.specs.Prelude.{◌≡◌, ℕ, ◌+◌, ◌*◌, ◌-◌, ◌%◌, ◌<◌, ◌≤◌, ◌++◌, slice_index};
ghost use Rattle.std.specs.VecDeque.{deque_items, deque_len, deque_capacity};
ghost use Rattle.std.specs.Mem.Slots.{slots_items, slots_len, IsFull};
ghost use Rattle.gg_link.specs.Seats.{between, WithinCapacity};
ghost use Rattle.gg_ring.specs.inside.Rule.{low_word, high_word};
ghost use Rattle.gg_ring.specs.Seats.{put_state, take_state, IsPutSeatOf, IsTakeSeatOf};

use crate::halves::joined;
use crate::ring::{PutSeat, Ring, TakeSeat};
use crate::rule::JoinSeats;
use atomic_table::Closed;
use std::alloc::Global;
use std::collections::VecDeque;

// Value k, from its two words.
fn value_at(closed: &Closed<(), Global>, capacity: u64, k: u64) -> u128
    requires words { IsFull closed.now.words × (slots_len closed.now.words ≡ 2 + 2 * capacity) }
    requires capacity { (0 < capacity) × (capacity < 4294967296) }
    ensures { result ≡ slice_index (slots_items closed.now.words) (high_word capacity k) * 18446744073709551616 + slice_index (slots_items closed.now.words) (low_word capacity k) }
{
    let place = 2 * (k % capacity) as usize;
    let low = closed.word(2 + place);
    let high = closed.word(3 + place);
    joined(low, high)
}

impl Ring {
    pub(crate) fn hand_back(self, put: PutSeat, take: TakeSeat, into: &mut VecDeque<u128>)
        requires seats { IsPutSeatOf self put × IsTakeSeatOf self take }
        requires room { deque_len into.old + (put_state put).capacity ≤ deque_capacity into.old }
        ensures counts { WithinCapacity (put_state put) (take_state take) }
        ensures items { deque_items into.new ≡ deque_items into.old ++ between (put_state put) (take_state take) }
        ensures room { deque_capacity into.new ≡ deque_capacity into.old }
    {
        let Ring { table, capacity } = self;
        let PutSeat {
            mut seat,
            puts,
            place: _,
            seen: _,
            streaming: _,
        } = put;
        let TakeSeat {
            seat: other,
            takes,
            place: _,
            seen: _,
            streaming: _,
        } = take;
        table.shared.join_seat::<JoinSeats>(&mut seat, other);
        let closed = table.close_with(seat);
        for k in takes..puts {
            into.push_back_reserved(value_at(&closed, capacity, k));
        }
        closed.free();
    }
}
