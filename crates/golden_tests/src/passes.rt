//! Which windows of a run have workers: a gate counts how often a worker begins its first turn.
use crate::calls::{RUN, files_of, words_of};
use crate::windows::rows_of;
use gg_io::{Gate, SureShelf, SureSink};
use golden::golden;
use std::alloc::{AllocError, Global};
use std::process::Abort;
use std::sync::atomic::{AtomicU64, Ordering};
use std::thread::Threads;

// A gate that counts the first turns of workers.
struct Counting {
    begun: AtomicU64,
}

impl Drop for Counting {
    fn drop(self) {
        let Self { begun } = self;
        drop(begun);
    }
}

impl Gate for Counting {
    fn pass(&self, _worker: u32, turn: u64) {
        if turn == 0 {
            self.begun.fetch_add(1, Ordering::SeqCst);
        }
    }
}

// The lowest bit of a register that counts, through this many wires, one after another.
fn circuit_of(alloc: Global, wires: u64) -> Result<String, AllocError> {
    let mut text = String::from_str(
        alloc,
        "circuit Free :\nmodule Free :\ninput clock : Clock\noutput q : UInt<1>\nreg r : UInt<11>, clock\nr <= bits(add(r, UInt<11>(1)), 10, 0)\nwire w0 : UInt<1>\nw0 <= bits(r, 0, 0)\n",
    )?;
    for wire in 0..wires {
        let next = wire.saturating_add(1);
        let lines = format!(in alloc; "wire w{next} : UInt<1>\nw{next} <= w{wire}\n")?;
        text.push_str(lines.as_str())?;
    }
    let last = format!(in alloc; "q <= w{wires}\n")?;
    text.push_str(last.as_str())?;
    Ok(text)
}

// Whether a call with these words prints this text at this gate.
fn prints<R: Threads + Sync>(
    rt: &R,
    alloc: Global,
    words: &[String],
    circuit: &str,
    trace: &str,
    text: &str,
    gate: &Counting,
) -> Result<bool, AllocError> {
    let mut shelf = SureShelf::new(files_of(alloc, circuit.as_bytes(), "{}", trace)?);
    let (mut out, mut err) = (SureSink::new(alloc), SureSink::new(alloc));
    let status = golden(rt, alloc, words, &mut shelf, &mut out, &mut err, gate);
    Ok(status == 0 && out.bytes.as_slice() == text.as_bytes())
}

// Whether a run with this many wires and workers prints its rows at this gate. It has a row more than a window has cycles.
fn is_run<R: Threads + Sync>(
    rt: &R,
    alloc: Global,
    wires: u64,
    workers: u64,
    gate: &Counting,
) -> Result<bool, AllocError> {
    let line = format!(in alloc; "{RUN} --workers {workers}")?;
    let words = words_of(alloc, line.as_str())?;
    let circuit = circuit_of(alloc, wires)?;
    let trace = rows_of(alloc, "cycle\n", 0, 1_025, false, "\n", "\n")?;
    let text = rows_of(alloc, "cycle q\n", 0, 1_025, false, " 0\n", " 1\n")?;
    prints(
        rt,
        alloc,
        words.as_slice(),
        circuit.as_str(),
        trace.as_str(),
        text.as_str(),
        gate,
    )
}

// The wires, the workers, and how often a worker begins in a run of two windows. A network that does little in a cycle has workers in its first window
// only; 400 wires are not little.
static RUNS: [(u64, u64, u64); 3] = [(0, 1, 1), (400, 1, 2), (400, 2, 4)];

// Checks how often workers begin in each run.
fn check_runs<R: Threads + Sync + Abort>(rt: &R, alloc: Global) {
    for (wires, workers, begun) in &RUNS {
        let gate = Counting {
            begun: AtomicU64::new(0),
        };
        let holds = is_run(rt, alloc, *wires, *workers, &gate) == Ok(true)
            && gate.begun.load(Ordering::SeqCst) == *begun;
        assert!(rt; holds, "{wires} wires, {workers} workers");
    }
}

#[test]
fn windows_have_workers(rt: HostRuntime) {
    check_runs(&rt, rt.alloc());
}
