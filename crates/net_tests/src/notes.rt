//! Hosts that note the calls that do steps.
ghost use Rattle.std.specs.Prelude.{◌≡◌, ◌<◌, length, map, is_some, slice_set, IfOk};
ghost use Rattle.gg_node.specs.Machine.{machine_at, latch_at, flag_at, missing};
ghost use Rattle.gg_node.specs.inside.Machine.{due};
ghost use Rattle.gg_node.specs.Token.{IsToken, IsNextState};
ghost use Rattle.gg_node.specs.inside.Step.{MayLatch, MayFire, MayServe, MayFinish};
ghost use Rattle.gg_node.specs.Step.{with_latch, with_flag, with_served, finished};

use gg_node::Host;
use std::alloc::{AllocError, Global};
use std::sync::atomic::{AtomicU64, Ordering};

// A call that does a step: the number of its host, the letter of the step, and the place of an in or an out, or the number of a port.
fn call(host: u64, letter: u8, place: u64) -> u64 {
    host.saturating_mul(65_536)
        .saturating_add(u64::from(letter).saturating_mul(256))
        .saturating_add(place)
}

// The call of a word: the number of a host; `L` for a token that is taken, `F` for one that is given, `S` for an access, `E` for the end of a
// cycle; and a place.
fn call_of(word: &str) -> u64 {
    let mut noted: u64 = 0;
    let mut number: u64 = 0;
    for byte in word.as_bytes() {
        if byte.is_ascii_digit() {
            number = number
                .saturating_mul(10)
                .saturating_add((*byte & 15) as u64);
        } else {
            noted = call(number, *byte, 0);
            number = 0;
        }
    }
    noted.saturating_add(number)
}

// The first 256 calls that the hosts of a network noted, in their order.
pub(crate) struct Notes {
    calls: Vec<AtomicU64>,
    count: AtomicU64,
}

impl Drop for Notes {
    fn drop(self) {
        let Self { calls, count } = self;
        drop(calls);
        drop(count);
    }
}

impl Notes {
    // Room for calls, and no call noted.
    //
    // # Errors
    //
    // Returns `AllocError` if an allocation fails.
    pub(crate) fn new(alloc: Global) -> Result<Notes, AllocError> {
        let mut calls = Vec::new(alloc);
        for _ in 0..256u32 {
            calls.push(AtomicU64::new(0))?;
        }
        Ok(Notes {
            calls,
            count: AtomicU64::new(0),
        })
    }

    // Notes a call after all others.
    fn add(&self, call: u64) {
        let count = self.count.load(Ordering::SeqCst);
        if let Some(place) = self.calls.as_slice().get(count as usize) {
            place.store(call, Ordering::SeqCst);
        }
        self.count.store(count.saturating_add(1), Ordering::SeqCst);
    }

    // The number of calls.
    pub(crate) fn count(&self) -> u64 {
        self.count.load(Ordering::SeqCst)
    }

    // How many calls there are up to the end of these words, if the calls after the first `begun` are theirs, in their order. None if they aren't.
    pub(crate) fn behind(&self, begun: u64, words: &str) -> Option<u64> {
        let mut count = begun;
        for word in words.split(' ') {
            let place = self.calls.as_slice().get(count as usize)?;
            if place.load(Ordering::SeqCst) != call_of(word) {
                return None;
            }
            count = count.saturating_add(1);
        }
        Some(count)
    }
}

// A host that notes the calls that do a step.
pub(crate) struct Noting<'a, H: Host> {
    host: H,
    number: u64,
    notes: &'a Notes,
}

impl<H: Host> Drop for Noting<'_, H> {
    fn drop(self) {
        let Self {
            host,
            number: _,
            notes: _,
        } = self;
        drop(host);
    }
}

impl<H: Host> Host for Noting<'_, H> {
    ghost machines = { λ noting. H.machines noting.host };

    fn threads(&self) -> u32 {
        self.host.threads()
    }

    fn cycle(&self, thread: u32) -> u64 {
        self.host.cycle(thread)
    }

    fn latched(&self, thread: u32, place: u32) -> bool {
        self.host.latched(thread, place)
    }

    fn fired(&self, thread: u32, place: u32) -> bool {
        self.host.fired(thread, place)
    }

    fn missing(&self, thread: u32, place: u32) -> Option<u32> {
        self.host.missing(thread, place)
    }

    fn due(&self, thread: u32) -> Option<u32> {
        self.host.due(thread)
    }

    fn served(&self, thread: u32) -> u32 {
        self.host.served(thread)
    }

    fn dues(&self, thread: u32) -> u32 {
        self.host.dues(thread)
    }

    fn port_count(&self, thread: u32) -> u32 {
        self.host.port_count(thread)
    }

    fn token(&mut self, thread: u32, place: u32) -> u128 {
        self.host.token(thread, place)
    }

    fn latch(&mut self, thread: u32, place: u32, value: u128) {
        self.notes.add(call(self.number, b'L', u64::from(place)));
        self.host.latch(thread, place, value);
    }

    fn fire(&mut self, thread: u32, place: u32) -> u128 {
        self.notes.add(call(self.number, b'F', u64::from(place)));
        self.host.fire(thread, place)
    }

    fn serve(&mut self, thread: u32, port: u32) {
        self.notes.add(call(self.number, b'S', u64::from(port)));
        self.host.serve(thread, port);
    }

    fn finish(&mut self, thread: u32) {
        self.notes.add(call(self.number, b'E', 0));
        self.host.finish(thread);
    }
}

// These hosts, which note their calls. They are numbered from 0.
//
// # Errors
//
// Returns `AllocError` if an allocation fails.
pub(crate) fn noting_hosts<'a, H: Host>(
    alloc: Global,
    hosts: Vec<H>,
    notes: &'a Notes,
) -> Result<Vec<Noting<'a, H>>, AllocError>
    ensures { IfOk result (λ all. map ⟦<Noting<'a, H> as Host>⟧.machines all.items ≡ map H.machines hosts.items) }
{
    let mut all = Vec::new(alloc);
    let mut number: u64 = 0;
    for host in hosts {
        all.push(Noting {
            host,
            number,
            notes,
        })?;
        number = number.saturating_add(1);
    }
    Ok(all)
}
