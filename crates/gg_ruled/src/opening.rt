//! How a queue is made, and gets the values of a deque.
ghost use Rattle.std.specs.Prelude.{◌≡◌, ℕ, ◌≤◌, List, [], ◌++◌, IfOk, length};
ghost use Rattle.std.specs.VecDeque.{deque_items, deque_len, deque_capacity};
ghost use Rattle.crossbeam_queue.specs.Passes.{view};
ghost use Rattle.gg_link.specs.Seats.{Starts, stream_limit};
ghost use Rattle.gg_ruled.specs.inside.Seats.{put_state, take_state, IsPutSeatOf, IsTakeSeatOf};

use crate::rule::{Chosen, JoinSeats, OpenSeats, Puts, QueueRule, SplitSeats, View};
use crate::ruled::{PutSeat, Ruled, TakeSeat};
use crossbeam_queue::RuledArrayQueue;
use std::alloc::{AllocError, Global};
use std::collections::VecDeque;
use std::sync::Wait;

// An empty queue of the chosen stream.
pub(crate) fn opened<K: Chosen, R: Wait + Copy>(
    rt: R,
    alloc: Global,
    _which: u32,
    _start: u64,
    capacity: u32,
) -> Result<(Ruled<R>, PutSeat, TakeSeat), AllocError>
    requires capacity { (1 ≤ capacity) × (K.places ≡ capacity) }
    requires stream { length K.chosen ≤ stream_limit }
    ensures seats { IfOk result (λ r. IsPutSeatOf r.0 r.1 × IsTakeSeatOf r.0 r.2) }
    ensures put { IfOk result (λ r. Starts (put_state r.1) K.chosen capacity 0 0) }
    ensures take { IfOk result (λ r. Starts (take_state r.2) K.chosen capacity 0 0) }
{
    let Ok((queue, mut pass)) = RuledArrayQueue::<u128, View, QueueRule>::ruled(
        alloc,
        capacity as usize,
    ) else {
        return Err(AllocError);
    };
    let other = queue.another::<OpenSeats<K>>(&mut pass);
    Ok((
        Ruled {
            queue,
            rt,
            capacity: u64::from(capacity),
        },
        PutSeat {
            pass,
            puts: 0,
            seen: 0,
            looks: 0,
        },
        TakeSeat {
            pass: other,
            takes: 0,
            seen: 0,
            looks: 0,
        },
    ))
}

impl<R: Wait + Copy> Ruled<R> {
    // Puts all that is held.
    pub(crate) fn fill(&self, seat: &mut PutSeat, held: &mut VecDeque<u128>)
        requires seat { IsPutSeatOf self.now seat.old }
        requires fresh { (seat.old.puts ≡ 0) × (seat.old.seen ≡ 0) }
        requires held { (rest : List ℕ) × ((view seat.old.pass).stream ≡ deque_items held.old ++ rest) }
        requires fits { deque_len held.old ≤ self.now.capacity }
        ensures seat { IsPutSeatOf self.now seat.new × ((view seat.new.pass).stream ≡ (view seat.old.pass).stream) }
        ensures counts { (seat.new.puts ≡ deque_len held.old) × (seat.new.seen ≡ 0) }
        ensures held { deque_items held.new ≡ [] }
        ensures room { deque_capacity held.new ≡ deque_capacity held.old }
    {
        while let Some(value) = held.pop_front() {
            let Ok(()) = self
                .queue
                .push_as::<Puts, R>(&self.rt, &mut seat.pass, value)
            else {
                unreachable!()
            };
            seat.puts += 1;
        }
    }

    // The seat that takes learns how many were put.
    pub(crate) fn settle(&self, put: PutSeat, take: TakeSeat) -> (PutSeat, TakeSeat)
        requires seats { IsPutSeatOf self.now put × IsTakeSeatOf self.now take }
        requires fresh { (put.seen ≡ 0) × (take.takes ≡ 0) }
        ensures seats { IsPutSeatOf self.now result.0 × IsTakeSeatOf self.now result.1 }
        ensures put { Starts (put_state result.0) (view put.pass).stream self.now.capacity put.puts 0 }
        ensures take { Starts (take_state result.1) (view put.pass).stream self.now.capacity 0 put.puts }
    {
        let PutSeat {
            mut pass,
            puts,
            seen: _,
            looks: _,
        } = put;
        let TakeSeat {
            pass: other,
            takes,
            seen: _,
            looks: _,
        } = take;
        self.queue.absorb::<JoinSeats>(&mut pass, other);
        let other = self.queue.another::<SplitSeats>(&mut pass);
        (
            PutSeat {
                pass,
                puts,
                seen: 0,
                looks: 0,
            },
            TakeSeat {
                pass: other,
                takes,
                seen: puts,
                looks: 0,
            },
        )
    }
}
