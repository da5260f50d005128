//! A link carries 1,000,000 values between two threads.
ghost use Rattle.std.specs.Prelude.{◌≡◌, ℕ, ◌≤◌, List, ◌++◌, length, IfOk};
ghost use Rattle.std.specs.VecDeque.{deque_items, deque_len, deque_capacity};
ghost use Rattle.gg_link.specs.Seats.{stream_of, stream_limit};

use crate::links::held::hold;
use gg_flat::Streams;
use gg_link::Link;
use gg_ring::Ring;
use gg_ruled::Ruled;
use std::alloc::{AllocError, Global};
use std::collections::VecDeque;
use std::marker::Brand;
use std::test::Fail;
use std::thread;
use std::thread::Threads;

// Puts the values starting at place `from`, each again while the link is full.
fn put_all<L: Link>(link: &L, mut seat: L::PutSeat, values: &[u128], from: usize) -> L::PutSeat
    requires seat { L.puts_into link.now seat }
    requires stream { (L.putting seat).stream ≡ values.now }
    requires count { (L.putting seat).count ≡ from }
    ensures seat { L.puts_into link.now result }
    ensures capacity { (L.putting result).capacity ≡ (L.putting seat).capacity }
{
    let mut next = from;
    for _ in 0..u64::MAX {
        if next >= values.len() {
            break;
        }
        match link.put(&mut seat, values[next]) {
            Ok(()) => next += 1,
            Err(_) => thread::yield_now(),
        }
    }
    seat
}

// Takes as many values as there are, each again while the link is empty. Whether they came in order.
fn take_all<L: Link>(link: &L, mut seat: L::TakeSeat, values: &[u128]) -> (L::TakeSeat, bool)
    requires seat { L.takes_from link.now seat }
    ensures seat { L.takes_from link.now result.0 }
{
    let mut next = 0;
    let mut in_order = true;
    for _ in 0..u64::MAX {
        if next >= values.len() {
            break;
        }
        match link.take(&mut seat) {
            Some(value) => {
                in_order = in_order && value == values[next];
                next += 1;
            }
            None => thread::yield_now(),
        }
    }
    (seat, in_order)
}

// Whether a link takes the values of the deque, carries all values from one thread to another, and is empty then.
fn carries<L: Link, Z: Streams, R: Threads + Sync>(
    rt: &R,
    alloc: Global,
    home: L::Home,
    capacity: u32,
    values: &[u128],
    held: &mut VecDeque<u128>,
) -> Result<bool, AllocError>
    requires capacity { 1 ≤ capacity }
    requires stream { stream_of Z.flow 0 0 ≡ values.now }
    requires limit { length values.now ≤ stream_limit }
    requires held { (rest : List ℕ) × (values.now ≡ deque_items held.old ++ rest) }
    requires fits { deque_len held.old ≤ capacity }
    requires room { capacity ≤ deque_capacity held.old }
{
    let from = held.len();
    let (link, put, take) = L::make::<Z>(home, alloc, 0, 0, capacity, held)?;
    let shared = &link;
    let (put, (take, in_order)) = thread::join(
        rt,
        move ||
            requires { L.puts_into shared.now put × ((L.putting put).stream ≡ values.now) × ((L.putting put).count ≡ from) }
            ensures { L.puts_into shared.entry.now result × ((L.putting result).capacity ≡ (L.putting put).capacity) }
        { put_all(shared, put, values, from) },
        move ||
            requires { L.takes_from shared.now take }
            ensures { L.takes_from shared.entry.now result.0 }
        { take_all(shared, take, values) },
    );
    link.close(put, take, held);
    Ok(in_order && held.is_empty())
}

// Values with different halves.
fn many(alloc: Global, count: u64) -> Result<Vec<u128>, AllocError>
    requires { count ≤ stream_limit }
    ensures { IfOk result (λ values. length values.items ≡ count) }
{
    let mut values = Vec::with_capacity(alloc, count as usize)?;
    for number in 0..count {
        values.push_reserved((u128::from(number) << 64) + u128::from(2 * number + 1));
    }
    Ok(values)
}

// Whether a link that is full when it is made carries 1,000,000 values, at a capacity of 1, of 2 and of 4,096.
fn carries_a_million<L: Link, R: Threads + Sync>(
    rt: &R,
    alloc: Global,
    home: L::Home,
) -> Result<bool, AllocError> {
    let values = many(alloc, 1_000_000)?;
    for capacity in [1, 2, 4096] {
        let mut held = hold(alloc, capacity, values.as_slice(), capacity as usize)?;
        if !carries::<L, Brand, R>(rt, alloc, home, capacity, values.as_slice(), &mut held)? {
            return Ok(false);
        }
    }
    Ok(true)
}

#[test]
fn a_ring_carries_a_million(rt: HostRuntime) -> Result<(), Fail> {
    assert!(rt; carries_a_million::<Ring, HostRuntime>(&rt, rt.alloc(), ())?);
    Ok(())
}

#[test]
fn a_queue_carries_a_million(rt: HostRuntime) -> Result<(), Fail> {
    assert!(rt; carries_a_million::<Ruled<HostRuntime>, HostRuntime>(&rt, rt.alloc(), rt)?);
    Ok(())
}
