//! The program golden with two bridges of its own, which it hands in: `fifo8`, a FIFO with four places of 8 bits each, and `uart1`, which writes the
//! bytes that are sent on a line. It shows the duties of a program with bridges of its own. The words of its call are golden's.
//!
//! A [`Fifo`] keeps to a flat circuit, which specs/inside/Fifo has. This is proved, so a run with it is a run of the circuit that has this flat
//! circuit at the bridge's ports. A [`Receiver`] only watches, so nothing is proved of what it does.
#![tactic(auto)]

mod fifo;
mod model;
mod receiver;

use crate::fifo::Fifo;
use crate::receiver::Receiver;
use gg_bridge::{Bridge, Watcher};
use gg_io::{FileShelf, NoGate, Shelf, Sink, StreamSink};
use golden::golden_with;
use golden_commands::{HandFault, hand_in};
use std::alloc::Global;
use std::process::ExitCode;
use std::rt::Stdout;
use std::thread::Threads;
use std::{env, io};

// The status for a call if its words or its bridges can't be allocated, or a bridge can't be handed in.
const NOT_CALLED: u8 = 5;

// The words of the call: the program's own name, then the arguments.
fn words(rt: &HostRuntime, alloc: Global) -> io::Result<Vec<String>> {
    let mut words = Vec::new(alloc);
    words.push(String::from_str(alloc, "golden")?)?;
    for word in env::args(rt)?.skip(1) {
        words.push(word)?;
    }
    Ok(words)
}

// Calls `golden_with` with these words, the FIFO, and a receiver that writes to this stream. Returns its status.
fn call<R: Threads + Sync, S: Shelf, K: Sink, E: Sink>(
    rt: &R,
    alloc: Global,
    words: &[String],
    shelf: &mut S,
    out: &mut K,
    err: &mut E,
    sent: Stdout,
) -> Result<u8, HandFault> {
    let mut bridges = Vec::new(alloc);
    let fifo: Box<dyn Bridge + Send + Drop> = Box::new(alloc, Fifo::new(alloc, 8)?)?;
    hand_in(alloc, &mut bridges, "fifo8", fifo)?;
    let uart: Box<dyn Bridge + Send + Drop> = Box::new(
        alloc,
        Watcher::new(alloc, 1, Receiver::new(sent, 1))?,
    )?;
    hand_in(alloc, &mut bridges, "uart1", uart)?;
    Ok(golden_with(rt, alloc, words, shelf, out, err, &NoGate, bridges))
}

// The status for a call that couldn't be made, after a line with the reason.
fn not_called(rt: HostRuntime, fault: &HandFault) -> ExitCode {
    let _ = eprintln!(rt; "golden: {fault}");
    ExitCode::from(NOT_CALLED)
}

fn main(rt: HostRuntime) -> ExitCode {
    let alloc = rt.alloc();
    let words = match words(&rt, alloc) {
        Ok(words) => words,
        Err(error) if error.kind() == io::ErrorKind::OutOfMemory => {
            return not_called(rt, &HandFault::NoMemory);
        }
        // An argument isn't UTF-8. `golden_with` gets no words, which aren't a command either.
        Err(_) => Vec::new(alloc),
    };
    let mut shelf = FileShelf::new(rt);
    let mut out = StreamSink::new(rt.stdout());
    let mut err = StreamSink::new(rt.stderr());
    match call(
        &rt,
        alloc,
        words.as_slice(),
        &mut shelf,
        &mut out,
        &mut err,
        rt.stdout(),
    ) {
        Ok(status) => ExitCode::from(status),
        Err(fault) => not_called(rt, &fault),
    }
}
