//! How a queue is closed.
ghost use Rattle.std.specs.Prelude.{◌≡◌, ◌+◌, ◌≤◌, ◌++◌};
ghost use Rattle.std.specs.VecDeque.{deque_items, deque_len, deque_capacity};
ghost use Rattle.gg_link.specs.Seats.{between, WithinCapacity};
ghost use Rattle.gg_ruled.specs.inside.Seats.{put_state, take_state, IsPutSeatOf, IsTakeSeatOf};

use crate::rule::{JoinSeats, Takes};
use crate::ruled::{PutSeat, Ruled, TakeSeat};
use std::collections::VecDeque;
use std::sync::Wait;

impl<R: Wait + Copy> Ruled<R> {
    pub(crate) fn hand_back(self, put: PutSeat, take: TakeSeat, into: &mut VecDeque<u128>)
        requires seats { IsPutSeatOf self put × IsTakeSeatOf self take }
        requires room { deque_len into.old + (put_state put).capacity ≤ deque_capacity into.old }
        ensures counts { WithinCapacity (put_state put) (take_state take) }
        ensures items { deque_items into.new ≡ deque_items into.old ++ between (put_state put) (take_state take) }
        ensures room { deque_capacity into.new ≡ deque_capacity into.old }
    {
        let PutSeat {
            mut pass,
            puts,
            seen: _,
            looks: _,
        } = put;
        let TakeSeat {
            pass: other,
            takes,
            seen: _,
            looks: _,
        } = take;
        self.queue.absorb::<JoinSeats>(&mut pass, other);
        self.queue.learn_as::<Takes>(&mut pass);
        for _k in takes..puts {
            let Some(value) = self.queue.pop_as::<Takes, R>(&self.rt, &mut pass) else {
                unreachable!()
            };
            into.push_back_reserved(value);
        }
    }
}
