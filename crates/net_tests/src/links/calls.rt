//! The answers of a link, one call after another.
ghost use Rattle.std.specs.Prelude.{◌≡◌, ℕ, ◌≤◌, List, ◌++◌, length};
ghost use Rattle.std.specs.VecDeque.{deque_items, deque_len, deque_capacity};
ghost use Rattle.gg_link.specs.Seats.{stream_of, stream_limit};

use crate::links::held::hold;
use gg_flat::Streams;
use gg_link::Link;
use gg_ring::Ring;
use gg_ruled::Ruled;
use std::alloc::{AllocError, Global};
use std::collections::VecDeque;
use std::marker::Brand;
use std::test::Fail;

static VALUES: [u128; 6] = [
    0x1_0000_0000_0000_0000,
    7,
    0x5_0000_0000_0000_0003,
    0xffff_ffff_ffff_ffff_ffff_ffff_ffff_ffff,
    0,
    9,
];

// Capacities, how many values are held at the opening, and calls: a put (p), a put that finds the link full (f), a take
// (t), a take that finds it empty (e).
static CALLS: [(u32, usize, &[u8]); 6] = [
    (3, 0, b""),
    (2, 2, b""),
    (1, 0, b"eepff"),
    (1, 1, b"ffteepftee"),
    (2, 2, b"fftpftteeptp"),
    (3, 1, b"ppfttppf"),
];

// Makes these calls, one after another. How many values were put and taken then; None if a call answers otherwise.
fn play<L: Link>(
    link: &L,
    put: &mut L::PutSeat,
    take: &mut L::TakeSeat,
    values: &[u128],
    held: usize,
    calls: &[u8],
) -> Option<(usize, usize)>
    requires seats { L.puts_into link.now put.old × L.takes_from link.now take.old }
    requires stream { (L.putting put.old).stream ≡ values.now }
    requires count { (L.putting put.old).count ≡ held }
    ensures seats { L.puts_into link.now put.new × L.takes_from link.now take.new }
    ensures capacity { (L.putting put.new).capacity ≡ (L.putting put.old).capacity }
{
    let mut puts = held;
    let mut takes = 0;
    for call in calls {
        if puts >= values.len() || takes >= values.len() {
            return None;
        }
        let is_so = if *call == b'p' || *call == b'f' {
            match link.put(put, values[puts]) {
                Ok(()) => {
                    puts += 1;
                    *call == b'p'
                }
                Err(full) => *call == b'f' && full.taken == takes as u64,
            }
        } else {
            match link.take(take) {
                Some(value) => {
                    takes += 1;
                    *call == b't' && value == values[takes - 1]
                }
                None => *call == b'e',
            }
        };
        if !is_so {
            return None;
        }
    }
    Some((puts, takes))
}

// Whether just the values from place `from` to place `upto` are left.
fn are_left(left: &mut VecDeque<u128>, values: &[u128], from: usize, upto: usize) -> bool {
    for place in from..upto {
        if left.pop_front() != values.get(place).copied() {
            return false;
        }
    }
    left.is_empty()
}

// Whether a link that is made with these values gives these answers, and returns the values that are left.
fn answers<L: Link, Z: Streams>(
    alloc: Global,
    home: L::Home,
    capacity: u32,
    values: &[u128],
    held: &mut VecDeque<u128>,
    calls: &[u8],
) -> Result<bool, AllocError>
    requires capacity { 1 ≤ capacity }
    requires stream { stream_of Z.flow 0 0 ≡ values.now }
    requires limit { length values.now ≤ stream_limit }
    requires held { (rest : List ℕ) × (values.now ≡ deque_items held.old ++ rest) }
    requires fits { deque_len held.old ≤ capacity }
    requires room { capacity ≤ deque_capacity held.old }
{
    let count = held.len();
    let (link, mut put, mut take) = L::make::<Z>(home, alloc, 0, 0, capacity, held)?;
    let counts = play::<L>(&link, &mut put, &mut take, values, count, calls);
    link.close(put, take, held);
    Ok(match counts {
        Some((puts, takes)) => are_left(held, values, takes, puts),
        None => false,
    })
}

// The place of the first row of calls that a link answers otherwise.
fn first_wrong<L: Link>(alloc: Global, home: L::Home) -> Result<Option<usize>, AllocError> {
    for place in 0..CALLS.len() {
        let (capacity, count, calls) = CALLS[place];
        if capacity == 0 || count > capacity as usize || count > VALUES.len() {
            return Ok(Some(place));
        }
        let mut held = hold(alloc, capacity, &VALUES, count)?;
        if !answers::<L, Brand>(alloc, home, capacity, &VALUES, &mut held, calls)? {
            return Ok(Some(place));
        }
    }
    Ok(None)
}

#[test]
fn a_ring_answers(rt: HostRuntime) -> Result<(), Fail> {
    assert!(rt; first_wrong::<Ring>(rt.alloc(), ())? == None);
    Ok(())
}

#[test]
fn a_queue_answers(rt: HostRuntime) -> Result<(), Fail> {
    assert!(rt; first_wrong::<Ruled<HostRuntime>>(rt.alloc(), rt)? == None);
    Ok(())
}
