//! The program golden. It builds the words of the call, hands in four echoes as bridges, uses the system's files and streams, and ends with
//! the status that `golden_with` returns. The echoes `echo1`, `echo8`, `echo32` and `echo64` have as many bits.
#![tactic(auto)]

ghost use Rattle.std.specs.Prelude.{◌≡◌, [], ◌∷◌, codes, length, IfOk};
ghost use Rattle.gg_bits.specs.declared.types.Kind.TheVariants.{UInt};
ghost use Rattle.gg_flat.specs.State.{opening};

use gg_bits::Name;
use gg_bridge::{Bridge, Echo};
use gg_io::{FileShelf, NoGate, Shelf, Sink, StreamSink};
use golden::golden_with;
use std::alloc::{AllocError, Global};
use std::process::ExitCode;
use std::thread::Threads;
use std::{env, io};

// The status and the line for a call if its words or its echoes can't be allocated. They repeat `out_of_memory` in gg_io's specs, because
// `golden_with` needs the words.
const OUT_OF_MEMORY: u8 = 5;

const OUT_OF_MEMORY_LINE: &[u8] = b"golden: out of memory\n";

// The words of the call: the program's own name, then the arguments.
fn words(rt: &HostRuntime, alloc: Global) -> io::Result<Vec<String>> {
    let mut words = Vec::new(alloc);
    words.push(String::from_str(alloc, "golden")?)?;
    for word in env::args(rt)?.skip(1) {
        words.push(word)?;
    }
    Ok(words)
}

// Four echoes.
#[derive(Drop)]
struct Echoes {
    one: Echo,
    eight: Echo,
    many: Echo,
    most: Echo,
}

// Four echoes in the state of zeros: of unsigned values of 1, 8, 32 and 64 bits.
fn make_echoes(alloc: Global) -> Result<Echoes, AllocError>
    ensures one { IfOk result (λ made. made.one.last ≡ 0) }
    ensures eight { IfOk result (λ made. made.eight.last ≡ 0) }
    ensures many { IfOk result (λ made. made.many.last ≡ 0) }
    ensures most { IfOk result (λ made. made.most.last ≡ 0) }
    ensures width1 { IfOk result (λ made. made.one.ty.width ≡ 1) }
    ensures width8 { IfOk result (λ made. made.eight.ty.width ≡ 8) }
    ensures width32 { IfOk result (λ made. made.many.ty.width ≡ 32) }
    ensures width64 { IfOk result (λ made. made.most.ty.width ≡ 64) }
    ensures kind1 { IfOk result (λ made. made.one.ty.kind ≡ UInt) }
    ensures kind8 { IfOk result (λ made. made.eight.ty.kind ≡ UInt) }
    ensures kind32 { IfOk result (λ made. made.many.ty.kind ≡ UInt) }
    ensures kind64 { IfOk result (λ made. made.most.ty.kind ≡ UInt) }
{
    Ok(Echoes {
        one: Echo::new(alloc, 1)?,
        eight: Echo::new(alloc, 8)?,
        many: Echo::new(alloc, 32)?,
        most: Echo::new(alloc, 64)?,
    })
}

// These bridges, each with its name.
fn named(
    alloc: Global,
    one: Box<dyn Bridge + Send + Drop>,
    eight: Box<dyn Bridge + Send + Drop>,
    many: Box<dyn Bridge + Send + Drop>,
    most: Box<dyn Bridge + Send + Drop>,
) -> Result<Vec<(Name, Box<dyn Bridge + Send + Drop>)>, AllocError>
    ensures { IfOk result (λ bridges. bridges.items ≡ (codes "echo1", one) ∷ (codes "echo8", eight) ∷ (codes "echo32", many) ∷ (codes "echo64", most) ∷ []) }
{
    let mut bridges = Vec::new(alloc);
    bridges.push((Name::from_str(alloc, "echo1")?, one))?;
    bridges.push((Name::from_str(alloc, "echo8")?, eight))?;
    bridges.push((Name::from_str(alloc, "echo32")?, many))?;
    bridges.push((Name::from_str(alloc, "echo64")?, most))?;
    Ok(bridges)
}

// Calls `golden_with` with these words and these bridges, each in the state of zeros. Returns its status.
fn call_with<R: Threads + Sync, S: Shelf, K: Sink, E: Sink>(
    rt: &R,
    alloc: Global,
    words: &[String],
    shelf: &mut S,
    out: &mut K,
    err: &mut E,
    one: Box<dyn Bridge + Send + Drop>,
    eight: Box<dyn Bridge + Send + Drop>,
    many: Box<dyn Bridge + Send + Drop>,
    most: Box<dyn Bridge + Send + Drop>,
) -> Result<u8, AllocError>
    requires one { state one ≡ opening (piece one) }
    requires eight { state eight ≡ opening (piece eight) }
    requires many { state many ≡ opening (piece many) }
    requires most { state most ≡ opening (piece most) }
    requires few1 { length (piece one).signals ≡ 2 }
    requires few2 { length (piece eight).signals ≡ 2 }
    requires few3 { length (piece many).signals ≡ 2 }
    requires few4 { length (piece most).signals ≡ 2 }
{
    let bridges = named(alloc, one, eight, many, most)?;
    Ok(golden_with(rt, alloc, words, shelf, out, err, &NoGate, bridges))
}

// Calls `golden_with` with these words and the echoes. Returns its status.
fn call<R: Threads + Sync, S: Shelf, K: Sink, E: Sink>(
    rt: &R,
    alloc: Global,
    words: &[String],
    shelf: &mut S,
    out: &mut K,
    err: &mut E,
) -> Result<u8, AllocError> {
    let Echoes {
        one,
        eight,
        many,
        most,
    } = make_echoes(alloc)?;
    let one: Box<dyn Bridge + Send + Drop> = Box::new(alloc, one)?;
    let eight: Box<dyn Bridge + Send + Drop> = Box::new(alloc, eight)?;
    let many: Box<dyn Bridge + Send + Drop> = Box::new(alloc, many)?;
    let most: Box<dyn Bridge + Send + Drop> = Box::new(alloc, most)?;
    call_with(rt, alloc, words, shelf, out, err, one, eight, many, most)
}

// The status for want of memory before the call, after its line.
fn out_of_memory(rt: HostRuntime) -> ExitCode {
    let mut err = StreamSink::new(rt.stderr());
    let _ = err.put(OUT_OF_MEMORY_LINE);
    ExitCode::from(OUT_OF_MEMORY)
}

fn main(rt: HostRuntime) -> ExitCode {
    let alloc = rt.alloc();
    let words = match words(&rt, alloc) {
        Ok(words) => words,
        Err(error) if error.kind() == io::ErrorKind::OutOfMemory => return out_of_memory(rt),
        // An argument isn't UTF-8. `golden_with` gets no words, which aren't a command either.
        Err(_) => Vec::new(alloc),
    };
    let mut shelf = FileShelf::new(rt);
    let mut out = StreamSink::new(rt.stdout());
    let mut err = StreamSink::new(rt.stderr());
    match call(&rt, alloc, words.as_slice(), &mut shelf, &mut out, &mut err) {
        Ok(status) => ExitCode::from(status),
        Err(_) => out_of_memory(rt),
    }
}
