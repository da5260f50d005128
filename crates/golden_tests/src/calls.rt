//! Calls with files and sinks in memory, and their answers.
ghost use Rattle.std.specs.Prelude.{◌≡◌, ◌≤◌, [], ◌∷◌, codes, length, IfOk};
ghost use Rattle.gg_flat.specs.State.{opening};

use crate::texts::lines_in;
use gg_bits::Name;
use gg_bridge::{Bridge, Echo};
use gg_io::{FailingPut, MemFiles, MemShelf, MemSink, NoGate, Shelf, Sink, hold};
use golden::golden_with;
use std::alloc::{AllocError, Global};
use std::collections::BTreeMap;
use std::mem;
use std::thread::Threads;

// The words of `run`.
pub(crate) const RUN: &str = "golden run k1.fir p.json k1.trace";

// The words of `check`.
pub(crate) const CHECK: &str = "golden check k1.fir p.json";

// The words of `resume`.
pub(crate) const RESUME: &str = "golden resume k1.fir p.json k1.trace k1.snap";

// These files under the names that a call gives.
pub(crate) fn files_of(
    alloc: Global,
    circuit: &[u8],
    partition: &str,
    trace: &str,
) -> Result<MemFiles, AllocError> {
    let mut files = BTreeMap::new(alloc);
    hold(&mut files, alloc, "k1.fir", circuit)?;
    hold(&mut files, alloc, "p.json", partition.as_bytes())?;
    hold(&mut files, alloc, "k1.trace", trace.as_bytes())?;
    Ok(files)
}

// The answer of a call: its status, its loads, its puts on `out`, and the texts on its sinks.
pub(crate) struct Answer {
    pub(crate) status: u8,
    pub(crate) loads: u64,
    pub(crate) puts: u64,
    pub(crate) out: Vec<u8>,
    pub(crate) err: Vec<u8>,
}

impl Drop for Answer {
    fn drop(self) {
        let Self {
            status: _,
            loads: _,
            puts: _,
            out,
            err,
        } = self;
        drop(out);
        drop(err);
    }
}

impl Answer {
    // Whether the call answered this status after this many loads, and left these texts on its sinks. Each line on `out` is a put of its own, also
    // where the last of them fails.
    pub(crate) fn is(&self, status: u8, loads: u64, out: &[u8], err: &[u8]) -> bool {
        self.is_put(status, loads, lines_in(out), out, err)
    }

    // Whether the call answered this status after this many loads, with this many puts on `out`, and left these texts on its sinks.
    pub(crate) fn is_put(&self, status: u8, loads: u64, puts: u64, out: &[u8], err: &[u8]) -> bool {
        self.status == status
            && self.loads == loads
            && self.puts == puts
            && self.out.as_slice() == out
            && self.err.as_slice() == err
    }

    // Whether another call answered the same.
    pub(crate) fn is_like(&self, other: &Answer) -> bool {
        self.is_put(
            other.status,
            other.loads,
            other.puts,
            other.out.as_slice(),
            other.err.as_slice(),
        )
    }
}

// The words of a call, from a line with blanks between them.
pub(crate) fn words_of(alloc: Global, line: &str) -> Result<Vec<String>, AllocError> {
    let mut words = Vec::new(alloc);
    for word in line.split(' ') {
        words.push(String::from_str(alloc, word)?)?;
    }
    Ok(words)
}

// An echo of this width, in the state of zeros.
fn boxed_echo(alloc: Global, width: u32) -> Result<Box<dyn Bridge + Send + Drop>, AllocError>
    requires low { 1 ≤ width }
    requires high { width ≤ 128 }
    ensures zeros { IfOk result (λ bridge. state bridge ≡ opening (piece bridge)) }
    ensures few { IfOk result (λ bridge. length (piece bridge).signals ≡ 2) }
{
    let echo = Echo::new(alloc, width)?;
    let bridge: Box<dyn Bridge + Send + Drop> = Box::new(alloc, echo)?;
    Ok(bridge)
}

// These bridges, each with its name.
fn named(
    alloc: Global,
    one: Box<dyn Bridge + Send + Drop>,
    eight: Box<dyn Bridge + Send + Drop>,
    other: Box<dyn Bridge + Send + Drop>,
    many: Box<dyn Bridge + Send + Drop>,
    most: Box<dyn Bridge + Send + Drop>,
) -> Result<Vec<(Name, Box<dyn Bridge + Send + Drop>)>, AllocError>
    ensures { IfOk result (λ bridges. bridges.items ≡ (codes "echo1", one) ∷ (codes "echo8", eight) ∷ (codes "other8", other) ∷ (codes "echo32", many) ∷ (codes "echo64", most) ∷ []) }
{
    let mut bridges = Vec::new(alloc);
    bridges.push((Name::from_str(alloc, "echo1")?, one))?;
    bridges.push((Name::from_str(alloc, "echo8")?, eight))?;
    bridges.push((Name::from_str(alloc, "other8")?, other))?;
    bridges.push((Name::from_str(alloc, "echo32")?, many))?;
    bridges.push((Name::from_str(alloc, "echo64")?, most))?;
    Ok(bridges)
}

// A call of `golden_with` with these bridges, each in the state of zeros.
fn call_with<R: Threads + Sync, S: Shelf, K: Sink, E: Sink>(
    rt: &R,
    alloc: Global,
    words: &[String],
    shelf: &mut S,
    out: &mut K,
    err: &mut E,
    one: Box<dyn Bridge + Send + Drop>,
    eight: Box<dyn Bridge + Send + Drop>,
    other: Box<dyn Bridge + Send + Drop>,
    many: Box<dyn Bridge + Send + Drop>,
    most: Box<dyn Bridge + Send + Drop>,
) -> Result<u8, AllocError>
    requires one { state one ≡ opening (piece one) }
    requires eight { state eight ≡ opening (piece eight) }
    requires other { state other ≡ opening (piece other) }
    requires many { state many ≡ opening (piece many) }
    requires most { state most ≡ opening (piece most) }
    requires few1 { length (piece one).signals ≡ 2 }
    requires few2 { length (piece eight).signals ≡ 2 }
    requires few3 { length (piece other).signals ≡ 2 }
    requires few4 { length (piece many).signals ≡ 2 }
    requires few5 { length (piece most).signals ≡ 2 }
{
    let bridges = named(alloc, one, eight, other, many, most)?;
    Ok(golden_with(rt, alloc, words, shelf, out, err, &NoGate, bridges))
}

// A call of `golden_with` with these words, on this shelf and these outputs. Five echoes are handed in: `echo1`, `echo8`, `other8`, `echo32` and
// `echo64`, of as many bits. Returns the status.
pub(crate) fn call_on<R: Threads + Sync, S: Shelf, K: Sink, E: Sink>(
    rt: &R,
    alloc: Global,
    words: &[String],
    shelf: &mut S,
    out: &mut K,
    err: &mut E,
) -> Result<u8, AllocError> {
    let one = boxed_echo(alloc, 1)?;
    let eight = boxed_echo(alloc, 8)?;
    let other = boxed_echo(alloc, 8)?;
    let many = boxed_echo(alloc, 32)?;
    let most = boxed_echo(alloc, 64)?;
    call_with(
        rt, alloc, words, shelf, out, err, one, eight, other, many, most,
    )
}

// A call with these words and files, where these loads and puts are to fail.
pub(crate) fn call<R: Threads + Sync>(
    rt: &R,
    alloc: Global,
    line: &str,
    files: MemFiles,
    loads: Vec<u64>,
    puts: Vec<FailingPut>,
    err_puts: Vec<FailingPut>,
) -> Result<Answer, AllocError> {
    let words = words_of(alloc, line)?;
    let mut shelf = MemShelf::new(files, loads);
    let mut out = MemSink::new(alloc, puts);
    let mut err = MemSink::new(alloc, err_puts);
    let status = call_on(rt, alloc, words.as_slice(), &mut shelf, &mut out, &mut err)?;
    Ok(Answer {
        status,
        loads: shelf.loads,
        puts: out.puts,
        out: mem::replace(&mut out.bytes, Vec::new(alloc)),
        err: mem::replace(&mut err.bytes, Vec::new(alloc)),
    })
}

// A call with these words and files, where nothing fails.
pub(crate) fn ask<R: Threads + Sync>(
    rt: &R,
    alloc: Global,
    line: &str,
    files: MemFiles,
) -> Result<Answer, AllocError> {
    call(
        rt,
        alloc,
        line,
        files,
        Vec::new(alloc),
        Vec::new(alloc),
        Vec::new(alloc),
    )
}

// A call with these words, a circuit, a partition and a trace, where nothing fails.
pub(crate) fn ask_of<R: Threads + Sync>(
    rt: &R,
    alloc: Global,
    line: &str,
    circuit: &[u8],
    partition: &str,
    trace: &str,
) -> Result<Answer, AllocError> {
    let files = files_of(alloc, circuit, partition, trace)?;
    ask(rt, alloc, line, files)
}
