//! How a ring is made, and gets the values of a deque.
ghost use Rattle.std.specs.Prelude.{◌≡◌, ℕ, ◌+◌, ◌*◌, ◌<◌, ◌≤◌, List, [], ◌++◌, IfOk, length};
ghost use Rattle.std.specs.VecDeque.{deque_items, deque_len, deque_capacity};
ghost use Rattle.gg_link.specs.Seats.{Starts, stream_limit};
ghost use Rattle.gg_ring.specs.Seats.{put_state, take_state, IsPutSeatOf, IsTakeSeatOf};

use crate::ring::{PutSeat, Ring, TakeSeat};
use crate::rule::{Chosen, JoinSeats, OpenSeats, RingRule, SplitSeats, View};
use atomic_table::Table;
use std::alloc::{AllocError, Global};
use std::collections::VecDeque;

// An empty ring of the chosen stream.
pub(crate) fn opened<K: Chosen>(
    alloc: Global,
    _which: u32,
    _start: u64,
    capacity: u32,
) -> Result<(Ring, PutSeat, TakeSeat), AllocError>
    requires capacity { 1 ≤ capacity }
    requires stream { length K.chosen ≤ stream_limit }
    ensures seats { IfOk result (λ r. IsPutSeatOf r.0 r.1 × IsTakeSeatOf r.0 r.2) }
    ensures put { IfOk result (λ r. Starts (put_state r.1) K.chosen capacity 0 0) }
    ensures take { IfOk result (λ r. Starts (take_state r.2) K.chosen capacity 0 0) }
{
    let Ok(words) = Vec::from_elem(alloc, 0u64, 2 + 2 * capacity as usize) else {
        return Err(AllocError);
    };
    let places = u64::from(capacity);
    let Ok((table, mut seat)) = Table::<(), View, u64, RingRule, Global>::of_words(
        alloc,
        words.as_slice(),
        &places,
    ) else {
        return Err(AllocError);
    };
    let other = table.shared.split_seat::<OpenSeats<K>>(&mut seat);
    Ok((
        Ring {
            table,
            capacity: places,
        },
        PutSeat {
            seat,
            puts: 0,
            place: 0,
            seen: 0,
            streaming: false,
        },
        TakeSeat {
            seat: other,
            takes: 0,
            place: 0,
            seen: 0,
            streaming: false,
        },
    ))
}

impl Ring {
    // Puts all that is held.
    pub(crate) fn fill(&self, seat: &mut PutSeat, held: &mut VecDeque<u128>)
        requires seat { IsPutSeatOf self.now seat.old }
        requires fresh { seat.old.puts ≡ 0 }
        requires held { (rest : List ℕ) × (seat.old.seat.me.0.stream ≡ deque_items held.old ++ rest) }
        requires fits { deque_len held.old ≤ self.now.capacity }
        ensures seat { IsPutSeatOf self.now seat.new × (seat.new.seat.me.0.stream ≡ seat.old.seat.me.0.stream) }
        ensures counts { (seat.new.puts ≡ deque_len held.old) × (seat.new.seen ≡ seat.old.seen) }
        ensures inside { deque_len held.old ≤ length seat.old.seat.me.0.stream }
        ensures held { deque_items held.new ≡ [] }
        ensures room { deque_capacity held.new ≡ deque_capacity held.old }
    {
        while let Some(value) = held.pop_front() {
            self.store_value(seat, value);
        }
    }

    // The seat that takes learns how many were put.
    pub(crate) fn settle(&self, put: PutSeat, take: TakeSeat) -> (PutSeat, TakeSeat)
        requires seats { IsPutSeatOf self.now put × IsTakeSeatOf self.now take }
        requires fits { put.puts ≤ self.now.capacity }
        requires inside { put.puts ≤ length put.seat.me.0.stream }
        requires fresh { take.takes ≡ 0 }
        ensures seats { IsPutSeatOf self.now result.0 × IsTakeSeatOf self.now result.1 }
        ensures put { Starts (put_state result.0) put.seat.me.0.stream self.now.capacity put.puts 0 }
        ensures take { Starts (take_state result.1) put.seat.me.0.stream self.now.capacity 0 put.puts }
    {
        let PutSeat {
            mut seat,
            puts,
            place,
            seen: _,
            streaming: _,
        } = put;
        let TakeSeat {
            seat: other,
            takes,
            place: other_place,
            seen: _,
            streaming: _,
        } = take;
        self.table.shared.join_seat::<JoinSeats>(&mut seat, other);
        let other = self.table.shared.split_seat::<SplitSeats>(&mut seat);
        (
            PutSeat {
                seat,
                puts,
                place,
                seen: 0,
                streaming: false,
            },
            TakeSeat {
                seat: other,
                takes,
                place: other_place,
                seen: puts,
                streaming: false,
            },
        )
    }
}
