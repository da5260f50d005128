//! Links: the channels of a network between threads.
//!
//! A link carries the values of one stream, in order, from one thread to another. The thread that puts has one seat of
//! the link, the thread that takes has the other. The stream is the list of a channel, starting at some place
//! ([`Streams`]), and has at most 1,000,001 values. What [`Link`] promises holds whatever the two threads do at the
//! same time:
//!
//! - `make` moves the tokens of `held` into the link, in order; if it fails, they stay;
//! - each `put` that is accepted adds the stream's next value, and each value that `take` returns is the stream's next;
//! - `put` refuses a value only after it has looked how many were taken, and found the link full by that;
//! - `take` returns none only after it has looked how many were put, and found none left;
//! - `close` returns exactly the values that were put and not taken, in order, and at most the capacity of them.
#![tactic(auto)]

ghost use Rattle.std.specs.Prelude.{◌≡◌, ℕ, ◌+◌, ◌≤◌, List, [], ◌++◌, length, slice_get, Some, IfOk, MatchResult, MatchOption};
ghost use Rattle.std.specs.VecDeque.{deque_items, deque_len, deque_capacity};
ghost use Rattle.gg_link.specs.Seats.{SeatState, Starts, stream_of, stream_limit, Counted, FoundFull, FoundEmpty, between, WithinCapacity};

use gg_flat::Streams;
use std::alloc::{AllocError, Global};
use std::collections::VecDeque;

/// The error of [`Link::put`]: the link was full.
#[derive(Debug, Drop)]
pub struct Full {
    /// How many values had been taken when `put` looked.
    pub taken: u64,
}

/// Carries the values of one stream between two threads.
pub trait Link: Send + Sync + Drop {
    /// The resources that a link is made with.
    type Home: Copy + Send;

    /// The seat of the thread that puts.
    type PutSeat: Send + Drop;

    /// The seat of the thread that takes.
    type TakeSeat: Send + Drop;

    // Whether the seat was made with this link.
    ghost puts_into: { Self → Self.PutSeat → Type 0 };

    // Whether the seat was made with this link.
    ghost takes_from: { Self → Self.TakeSeat → Type 0 };

    // The seat as contracts see it.
    ghost putting: { Self.PutSeat → SeatState };

    // The seat as contracts see it.
    ghost taking: { Self.TakeSeat → SeatState };

    /// Makes a link and its two seats for the list of channel `which`, starting at place `start`. The values of `held`
    /// move into the link, and the deque keeps its room. The link holds at most `capacity` values, which is at least 1.
    ///
    /// # Errors
    ///
    /// Returns `AllocError` if an allocation fails. The values of `held` then stay.
    fn make<Z: Streams>(
        home: Self::Home,
        alloc: Global,
        which: u32,
        start: u64,
        capacity: u32,
        held: &mut VecDeque<u128>,
    ) -> Result<(Self, Self::PutSeat, Self::TakeSeat), AllocError>
        requires capacity { 1 ≤ capacity }
        requires stream { length (stream_of Z.flow which start) ≤ stream_limit }
        requires held { (rest : List ℕ) × (stream_of Z.flow which start ≡ deque_items held.old ++ rest) }
        requires fits { deque_len held.old ≤ capacity }
        ensures seats { IfOk result (λ r. puts_into r.0 r.1 × takes_from r.0 r.2) }
        ensures put { IfOk result (λ r. Starts (putting r.1) (stream_of Z.flow which start) capacity (deque_len held.old) 0) }
        ensures take { IfOk result (λ r. Starts (taking r.2) (stream_of Z.flow which start) capacity 0 (deque_len held.old)) }
        ensures held { MatchResult result (λ _. deque_items held.new ≡ []) (λ _. deque_items held.new ≡ deque_items held.old) }
        ensures room { deque_capacity held.new ≡ deque_capacity held.old };

    /// Puts the next value of the stream.
    ///
    /// # Errors
    ///
    /// Returns `Full` if the link held as many values as it may when this call looked.
    fn put(&self, seat: &mut Self::PutSeat, value: u128) -> Result<(), Full>
        requires seat { puts_into self.now seat.old }
        requires value { slice_get (putting seat.old).stream (putting seat.old).count ≡ Some value }
        ensures seat { puts_into self.now seat.new }
        ensures put { MatchResult result (λ _. Counted (putting seat.old) (putting seat.new)) (λ full. FoundFull (putting seat.old) (putting seat.new) full.taken) };

    /// Takes the next value of the stream; None if the link held no value when this call looked.
    fn take(&self, seat: &mut Self::TakeSeat) -> Option<u128>
        requires seat { takes_from self.now seat.old }
        ensures seat { takes_from self.now seat.new }
        ensures take { MatchOption result (FoundEmpty (taking seat.old) (taking seat.new))
            (λ value. Counted (taking seat.old) (taking seat.new)
            × (slice_get (taking seat.old).stream (taking seat.old).count ≡ Some value)) };

    /// Closes the link. The values that are left in it are added at the end of the deque, which needs room for the
    /// link's capacity besides its values, and keeps its room.
    fn close(self, put: Self::PutSeat, take: Self::TakeSeat, into: &mut VecDeque<u128>)
        requires seats { puts_into self put × takes_from self take }
        requires room { deque_len into.old + (putting put).capacity ≤ deque_capacity into.old }
        ensures counts { WithinCapacity (putting put) (taking take) }
        ensures items { deque_items into.new ≡ deque_items into.old ++ between (putting put) (taking take) }
        ensures room { deque_capacity into.new ≡ deque_capacity into.old };
}
