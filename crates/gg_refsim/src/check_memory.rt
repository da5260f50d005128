//! Whether the memories of a piece are well formed.
ghost use Rattle.std.specs.Prelude.{◌≡◌, ℕ, ◌<◌, ◌↔◌, [], length, map, slice_index_or, All, IsTrue};
ghost use Rattle.gg_bits.specs.Shape.{shape, uint};
ghost use Rattle.gg_flat.specs.Line.{HasType};
ghost use Rattle.gg_flat.specs.Circuit.{signal_shapes, driver_at, readers_at, reader_at, latency_at};
ghost use Rattle.gg_flat.specs.WellFormed.{IsReader, IsWriter, IsMemory, IsDataOf, AreDriven, reader_driver};
ghost use Rattle.gg_flat.specs.declared.memory.Latency.TheVariants.{Zero};
ghost use Rattle.gg_flat.specs.declared.piece.Driver.TheVariants.{Input};

use crate::check::is_typed;
use gg_bits::{Kind, Ty};
use gg_flat::{Driver, Latency, Memory, Piece, Reader, Signal, Writer, address_width};

// Whether the fields of a reader are signals of the right types.
fn is_reader(signals: &[Signal], memory: &Memory, reader: &Reader) -> bool
    ensures { IsTrue result ↔ IsReader (HasType (map (λ s. shape s.ty) signals.now)) (shape memory.now.word) memory.now.depth reader.now }
{
    let address = Ty::new(Kind::UInt, address_width(memory.depth));
    let bit = Ty::new(Kind::UInt, 1);
    is_typed(signals, reader.addr, address)
        && is_typed(signals, reader.en, bit)
        && is_typed(signals, reader.word, memory.word)
}

// Whether the fields of a writer are signals of the right types.
fn is_writer(signals: &[Signal], memory: &Memory, writer: &Writer) -> bool
    ensures { IsTrue result ↔ IsWriter (HasType (map (λ s. shape s.ty) signals.now)) (shape memory.now.word) memory.now.depth writer.now }
{
    let address = Ty::new(Kind::UInt, address_width(memory.depth));
    let bit = Ty::new(Kind::UInt, 1);
    is_typed(signals, writer.addr, address)
        && is_typed(signals, writer.en, bit)
        && is_typed(signals, writer.word, memory.word)
        && is_typed(signals, writer.mask, bit)
}

// Whether the fields of all readers are signals of the right types.
fn are_readers(signals: &[Signal], memory: &Memory) -> bool
    ensures { IsTrue result ↔ All (IsReader (HasType (map (λ s. shape s.ty) signals.now)) (shape memory.now.word) memory.now.depth) memory.now.readers }
{
    for reader in memory.readers.as_slice() {
        if !is_reader(signals, memory, reader) {
            return false;
        }
    }
    true
}

// Whether the fields of all writers are signals of the right types.
fn are_writers(signals: &[Signal], memory: &Memory) -> bool
    ensures { IsTrue result ↔ All (IsWriter (HasType (map (λ s. shape s.ty) signals.now)) (shape memory.now.word) memory.now.depth) memory.now.writers }
{
    for writer in memory.writers.as_slice() {
        if !is_writer(signals, memory, writer) {
            return false;
        }
    }
    true
}

// Whether a memory has a word, and the fields of its ports have the right types.
fn is_memory(signals: &[Signal], memory: &Memory) -> bool
    ensures { IsTrue result ↔ IsMemory (HasType (map (λ s. shape s.ty) signals.now)) memory.now }
{
    if memory.depth == 0 {
        return false;
    }
    if !are_readers(signals, memory) {
        return false;
    }
    are_writers(signals, memory)
}

// Whether every memory has a word, and the fields of its ports have the right types.
pub(crate) fn are_memories(signals: &[Signal], memories: &[Memory]) -> bool
    ensures { IsTrue result ↔ All (IsMemory (HasType (map (λ s. shape s.ty) signals.now))) memories.now }
{
    for memory in memories {
        if !is_memory(signals, memory) {
            return false;
        }
    }
    true
}

// Whether a signal is the data of a reader of a memory.
pub(crate) fn is_data_of(memories: &[Memory], m: usize, r: usize, s: usize) -> bool
    ensures { IsTrue result ↔ ((r < length (slice_index_or (map (λ memory. memory.readers) memories.now) m []))
        × ((reader_at (slice_index_or (map (λ memory. memory.readers) memories.now) m []) r).word ≡ s)) }
{
    if m >= memories.len() {
        return false;
    }
    let readers = memories[m].readers.as_slice();
    r < readers.len() && readers[r].word as usize == s
}

// Whether a signal has the driver that the data of a reader must have.
fn has_driver(signals: &[Signal], latency: Latency, m: usize, r: usize, reader: &Reader) -> bool
    ensures { IsTrue result ↔ (slice_index_or (map (λ s. s.driver) signals.now) reader.now.word (Input 0) ≡ reader_driver latency m r reader.now) }
{
    if reader.word as usize >= signals.len() {
        return false;
    }
    is_driver_of(&signals[reader.word as usize].driver, latency, m, r, reader)
}

// Whether this is the driver that the data of a reader must have.
fn is_driver_of(driver: &Driver, latency: Latency, m: usize, r: usize, reader: &Reader) -> bool
    ensures { IsTrue result ↔ (driver.now ≡ reader_driver latency m r reader.now) }
{
    match (driver, latency) {
        (Driver::MemoryWord(memory, port, addr, en), Latency::Zero) => {
            *memory as usize == m && *port as usize == r && *addr == reader.addr && *en == reader.en
        }
        (Driver::ReadRegister(memory, port), Latency::One(_)) => {
            *memory as usize == m && *port as usize == r
        }
        _ => false,
    }
}

// Whether the data of each reader of a memory has the driver that it must have.
fn are_driven(signals: &[Signal], m: usize, latency: Latency, readers: &[Reader]) -> bool
    ensures { IsTrue result ↔ AreDriven (λ s. slice_index_or (map (λ signal. signal.driver) signals.now) s (Input 0)) m latency readers.now }
{
    for r in 0..readers.len() {
        if !has_driver(signals, latency, m, r, &readers[r]) {
            return false;
        }
    }
    true
}

// Whether the data of each reader of the memory at a place has the driver that it must have.
fn is_read(signals: &[Signal], memories: &[Memory], m: usize) -> bool
    requires { m < length memories.now }
    ensures { IsTrue result ↔ AreDriven (λ s. slice_index_or (map (λ signal. signal.driver) signals.now) s (Input 0)) m
        (slice_index_or (map (λ memory. memory.latency) memories.now) m Zero)
        (slice_index_or (map (λ memory. memory.readers) memories.now) m []) }
{
    let memory = &memories[m];
    are_driven(signals, m, memory.latency, memory.readers.as_slice())
}

// Whether the data of each reader has the driver that it must have.
pub(crate) fn are_read(piece: &Piece) -> bool
    ensures { IsTrue result ↔ ((m : ℕ) → m < length piece.now.memories → AreDriven (driver_at piece.now) m (latency_at piece.now m) (readers_at piece.now m)) }
{
    for m in 0..piece.memories().len() {
        if !is_read(piece.signals(), piece.memories(), m) {
            return false;
        }
    }
    true
}
