//! A queue is a link.
use crate::opening::opened;
use crate::ruled::{PutSeat, Ruled, TakeSeat};
use gg_flat::Streams;
use gg_link::{Full, Link};
use std::alloc::{AllocError, Global};
use std::collections::VecDeque;
use std::marker::Brand;
use std::sync::Wait;

impl<R: Wait + Copy + Send + Sync> Link for Ruled<R> {
    ghost use Rattle.gg_ruled.specs.inside.Seats.{put_state, take_state, IsPutSeatOf, IsTakeSeatOf};

    type Home = R;

    type PutSeat = PutSeat;

    type TakeSeat = TakeSeat;

    ghost puts_into = { λ r s. IsPutSeatOf r s };

    ghost takes_from = { λ r s. IsTakeSeatOf r s };

    ghost putting = { put_state };

    ghost taking = { take_state };

    fn make<Z: Streams>(
        home: R,
        alloc: Global,
        which: u32,
        start: u64,
        capacity: u32,
        held: &mut VecDeque<u128>,
    ) -> Result<(Ruled<R>, PutSeat, TakeSeat), AllocError> {
        let (link, mut put, take) = opened::<Brand, R>(home, alloc, which, start, capacity)?;
        link.fill(&mut put, held);
        let (put, take) = link.settle(put, take);
        Ok((link, put, take))
    }

    fn put(&self, seat: &mut PutSeat, value: u128) -> Result<(), Full> {
        self.try_put(seat, value)
    }

    fn take(&self, seat: &mut TakeSeat) -> Option<u128> {
        self.try_take(seat)
    }

    fn close(self, put: PutSeat, take: TakeSeat, into: &mut VecDeque<u128>) {
        self.hand_back(put, take, into);
    }
}
