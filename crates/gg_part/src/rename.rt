//! The memories of a part: the whole circuit's, in the part's numbers.
ghost use Rattle.std.specs.Prelude.{◌≡◌, ◌+◌, ◌^◌, ◌<◌, None, length, slice_index_or, IfOk};
ghost use Rattle.gg_flat.specs.Line.{value_at};
ghost use Rattle.gg_part.specs.inside.Local.{own_readers, own_writers, own_memory};

use gg_flat::{Lists, Memory, Reader, Readers, Writer, Writers, renamed_reader, renamed_writer};
use std::alloc::{AllocError, Global};

// The clock at a place; none past the end.
fn clock_in(clocks: &[Option<u32>], place: usize) -> Option<u32>
    ensures { result ≡ slice_index_or clocks.now place None }
{
    match clocks.get(place) {
        Some(clock) => *clock,
        None => None,
    }
}

// `by` with the clock at a place.
pub(crate) fn at_port<'a>(by: Lists<'a>, ports: &[Option<u32>], place: usize) -> Lists<'a>
    ensures signals { result.signals.now ≡ by.entry.signals.now }
    ensures clock { result.clock ≡ slice_index_or ports.now place None }
{
    Lists {
        signals: by.signals,
        registers: by.registers,
        memories: by.memories,
        clock: clock_in(ports, place),
    }
}

// Readers under these numbers, each with the clock at its place.
fn own_readers(
    alloc: Global,
    by: &Lists,
    ports: &[Option<u32>],
    readers: &[Reader],
) -> Result<Vec<Reader>, AllocError>
    ensures { IfOk result (λ own. own.items ≡ own_readers (value_at by.now.signals.now) ports.now readers.now) }
{
    let mut own = Vec::new(alloc);
    for place in 0..readers.len() {
        let port = at_port(*by, ports, place);
        own.push(renamed_reader(&port, readers[place]))?;
    }
    Ok(own)
}

// Writers under these numbers. The writer at place i has the clock at place `first` + i.
fn own_writers(
    alloc: Global,
    by: &Lists,
    ports: &[Option<u32>],
    first: usize,
    writers: &[Writer],
) -> Result<Vec<Writer>, AllocError>
    requires { first + length writers.now < 2 ^ 64 }
    ensures { IfOk result (λ own. own.items ≡ own_writers (value_at by.now.signals.now) ports.now first writers.now) }
{
    let mut own = Vec::new(alloc);
    for place in 0..writers.len() {
        let port = at_port(*by, ports, first + place);
        own.push(renamed_writer(&port, writers[place]))?;
    }
    Ok(own)
}

// A memory under these numbers. Its readers, and then its writers, have these clocks.
//
// # Errors
//
// Returns `AllocError` if an allocation fails.
pub(crate) fn own_memory(
    alloc: Global,
    by: &Lists,
    ports: &[Option<u32>],
    memory: &Memory,
) -> Result<Memory, AllocError>
    ensures { IfOk result (λ own. own ≡ own_memory (value_at by.now.signals.now) ports.now memory.now) }
{
    let own = memory.readers.as_slice();
    let readers = own_readers(alloc, by, ports, own)?;
    let writers = own_writers(alloc, by, ports, own.len(), memory.writers.as_slice())?;
    Ok(Memory {
        word: memory.word,
        depth: memory.depth,
        latency: memory.latency,
        readers: Readers::from(readers),
        writers: Writers::from(writers),
    })
}
