//! Two workers that meet.
ghost use Rattle.std.specs.Prelude.{None};

use crate::calls::{files_of, words_of};
use crate::texts::named_text;
use gg_io::{Gate, PutFail, Sink, SureShelf, SureSink};
use golden::golden;
use std::alloc::{AllocError, Global};
use std::sync::atomic::{AtomicU64, Ordering};
use std::test::Fail;
use std::thread::{self, Threads};

// A gate where each of two workers waits for the other before its first turn: how many are there, and how many have seen both there.
struct Meeting {
    here: AtomicU64,
    met: AtomicU64,
}

impl Drop for Meeting {
    fn drop(self) {
        let Self { here, met } = self;
        drop(here);
        drop(met);
    }
}

impl Gate for Meeting {
    // Looks at most 10,000,000 times whether the other is there.
    fn pass(&self, _worker: u32, turn: u64) {
        if turn != 0 {
            return;
        }
        self.here.fetch_add(1, Ordering::SeqCst);
        for _ in 0..10_000_000 {
            if self.here.load(Ordering::SeqCst) == 2 {
                self.met.fetch_add(1, Ordering::SeqCst);
                return;
            }
            thread::yield_now();
        }
    }
}

// A sink that looks at its second put, the first row, whether two workers have met. Its contract says nothing of what was written, and the test looks
// at it.
struct WatchingSink<'a> {
    gate: &'a Meeting,
    bytes: Vec<u8>,
    puts: u64,
    met: bool,
    refused: u64,
}

impl Drop for WatchingSink<'_> {
    fn drop(self) {
        let Self {
            gate: _,
            bytes,
            puts: _,
            met: _,
            refused: _,
        } = self;
        drop(bytes);
    }
}

impl<'a> Sink for WatchingSink<'a> {
    ghost written = { λ _. None };

    ghost faults = { λ _. 0 };

    ghost refused = { λ s. s.refused };

    fn put(&mut self, bytes: &[u8]) -> Result<(), PutFail> {
        if self.bytes.extend_from_slice(bytes).is_err() {
            self.refused = self.refused.saturating_add(1);
            return Err(PutFail::NoMemory);
        }
        if self.puts == 1 {
            self.met = self.gate.met.load(Ordering::SeqCst) == 2;
        }
        self.puts = self.puts.saturating_add(1);
        Ok(())
    }
}

// Whether two workers meet before the first row is put, and the run has its rows.
fn meets<R: Threads + Sync>(rt: &R, alloc: Global, gate: &Meeting) -> Result<bool, AllocError> {
    let line = "golden run k1.fir p.json k1.trace --capacity 1 --workers 2";
    let words = words_of(alloc, line)?;
    let circuit = named_text(alloc, "pair")?;
    let files = files_of(
        alloc,
        circuit.as_slice(),
        "{\"units\":[\"a\",\"b\"]}",
        "cycle x\n0 0f\n1 81\n",
    )?;
    let mut shelf = SureShelf::new(files);
    let mut out = WatchingSink {
        gate,
        bytes: Vec::new(alloc),
        puts: 0,
        met: false,
        refused: 0,
    };
    let mut err = SureSink::new(alloc);
    let status = golden(
        rt,
        alloc,
        words.as_slice(),
        &mut shelf,
        &mut out,
        &mut err,
        gate,
    );
    Ok(status == 0 && out.met && out.bytes.as_slice() == "cycle q\n0 11\n1 83\n".as_bytes())
}

#[test]
fn workers_beside_each_other(rt: HostRuntime) -> Result<(), Fail> {
    let gate = Meeting {
        here: AtomicU64::new(0),
        met: AtomicU64::new(0),
    };
    let is_right = meets(&rt, rt.alloc(), &gate)?;
    assert!(rt; is_right);
    Ok(())
}
