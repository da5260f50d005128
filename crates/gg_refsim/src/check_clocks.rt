//! Whether the clocks that a piece names are clocks of it.
ghost use Rattle.std.specs.Prelude.{◌↔◌, All, IsTrue};
ghost use Rattle.gg_flat.specs.WellFormed.{IsClock, IsClockedMemory};

use gg_flat::{Memory, Piece, Reader, Register, Writer};

// Whether a clock is one of this many, or the clock of every tick.
fn is_clock(count: u32, clock: Option<u32>) -> bool
    ensures { IsTrue result ↔ IsClock count clock }
{
    match clock {
        None => true,
        Some(number) => number < count,
    }
}

// Whether the clocks of all readers are among this many.
fn are_reader_clocks(count: u32, readers: &[Reader]) -> bool
    ensures { IsTrue result ↔ All (λ reader. IsClock count reader.clock) readers.now }
{
    for reader in readers {
        if !is_clock(count, reader.clock) {
            return false;
        }
    }
    true
}

// Whether the clocks of all writers are among this many.
fn are_writer_clocks(count: u32, writers: &[Writer]) -> bool
    ensures { IsTrue result ↔ All (λ writer. IsClock count writer.clock) writers.now }
{
    for writer in writers {
        if !is_clock(count, writer.clock) {
            return false;
        }
    }
    true
}

// Whether the clocks of a memory's ports are among this many.
fn is_clocked(count: u32, memory: &Memory) -> bool
    ensures { IsTrue result ↔ IsClockedMemory count memory.now }
{
    if !are_reader_clocks(count, memory.readers.as_slice()) {
        return false;
    }
    are_writer_clocks(count, memory.writers.as_slice())
}

// Whether the clocks of the ports of all memories are among this many.
fn are_memory_clocks(count: u32, memories: &[Memory]) -> bool
    ensures { IsTrue result ↔ All (IsClockedMemory count) memories.now }
{
    for memory in memories {
        if !is_clocked(count, memory) {
            return false;
        }
    }
    true
}

// Whether the clocks of all registers are among this many.
fn are_register_clocks(count: u32, registers: &[Register]) -> bool
    ensures { IsTrue result ↔ All (λ register. IsClock count register.clock) registers.now }
{
    for register in registers {
        if !is_clock(count, register.clock) {
            return false;
        }
    }
    true
}

// Whether the clock of each register, and of each port of a memory, is one of the piece's or the clock of every tick.
pub(crate) fn are_clocked(piece: &Piece) -> bool
    ensures { IsTrue result ↔ (All (λ register. IsClock piece.now.clocks register.clock) piece.now.registers × All (IsClockedMemory piece.now.clocks) piece.now.memories) }
{
    if !are_register_clocks(piece.clocks(), piece.registers()) {
        return false;
    }
    are_memory_clocks(piece.clocks(), piece.memories())
}
