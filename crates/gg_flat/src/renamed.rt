//! One walk: lines, registers, memories and drivers under other numbers.
ghost use Rattle.std.specs.Prelude.{◌≡◌, map, IfOk};
ghost use Rattle.gg_flat.specs.Renaming.{renamed_op, renamed_line, renamed_next, renamed_reset, renamed_register, renamed_reader, renamed_writer, renamed_memory, renamed_driver};

use crate::line::{Line, Node, Op};
use crate::memory::{Memory, Reader, Readers, Writer, Writers};
use crate::piece::{Driver, Register, Reset};
use crate::renames::Renames;
use std::alloc::{AllocError, Global};

// ---- lines and registers

// An operation under other numbers.
fn renamed_op<R: Renames>(by: &R, op: Op) -> Op
    ensures { result ≡ renamed_op (R.numbers by.now).signals op }
{
    match op {
        Op::Ref(signal) => Op::Ref(by.signal(signal)),
        other => other,
    }
}

/// A line under other numbers.
///
/// # Errors
///
/// Returns `AllocError` if an allocation fails.
pub fn renamed_line<R: Renames>(alloc: Global, by: &R, line: &Line) -> Result<Line, AllocError>
    ensures { IfOk result (λ own. own ≡ renamed_line (R.numbers by.now).signals line.now) }
{
    let mut own = Line::with_capacity(alloc, line.len())?;
    for node in line.as_slice() {
        own.push(Node {
            ty: node.ty,
            op: renamed_op(by, node.op),
        })?;
    }
    Ok(own)
}

// The line of a register's next value under other numbers.
fn renamed_next<R: Renames>(
    alloc: Global,
    by: &R,
    next: &Option<Line>,
) -> Result<Option<Line>, AllocError>
    ensures { IfOk result (λ own. own ≡ renamed_next (R.numbers by.now).signals next.now) }
{
    match next {
        None => Ok(None),
        Some(line) => Ok(Some(renamed_line(alloc, by, line)?)),
    }
}

// A register's reset under other numbers.
fn renamed_reset<R: Renames>(
    alloc: Global,
    by: &R,
    reset: &Option<Reset>,
) -> Result<Option<Reset>, AllocError>
    ensures { IfOk result (λ own. own ≡ renamed_reset (R.numbers by.now).signals reset.now) }
{
    match reset {
        None => Ok(None),
        Some(reset) => {
            let condition = renamed_line(alloc, by, &reset.condition)?;
            let init = renamed_line(alloc, by, &reset.init)?;
            Ok(Some(Reset { condition, init }))
        }
    }
}

/// A register under other numbers.
///
/// # Errors
///
/// Returns `AllocError` if an allocation fails.
pub fn renamed_register<R: Renames>(
    alloc: Global,
    by: &R,
    register: &Register,
) -> Result<Register, AllocError>
    ensures { IfOk result (λ own. own ≡ renamed_register (R.numbers by.now) register.now) }
{
    let reset = renamed_reset(alloc, by, &register.reset)?;
    let next = renamed_next(alloc, by, &register.next)?;
    Ok(Register {
        ty: register.ty,
        reset,
        next,
        clock: by.clock(register.clock),
    })
}

/// A driver under other numbers.
///
/// # Errors
///
/// Returns `AllocError` if an allocation fails.
pub fn renamed_driver<R: Renames>(
    alloc: Global,
    by: &R,
    driver: &Driver,
) -> Result<Driver, AllocError>
    ensures { IfOk result (λ own. own ≡ renamed_driver (R.numbers by.now) driver.now) }
{
    match driver {
        Driver::Input(place) => Ok(Driver::Input(*place)),
        Driver::Held(register) => Ok(Driver::Held(by.register(*register))),
        Driver::MemoryWord(memory, reader, addr, en) => {
            let memory = by.memory(*memory);
            let addr = by.signal(*addr);
            let en = by.signal(*en);
            Ok(Driver::MemoryWord(memory, *reader, addr, en))
        }
        Driver::ReadRegister(memory, reader) => {
            Ok(Driver::ReadRegister(by.memory(*memory), *reader))
        }
        Driver::Computed(line) => Ok(Driver::Computed(renamed_line(alloc, by, line)?)),
    }
}

// ---- memories

/// A reader under other numbers.
pub fn renamed_reader<R: Renames>(by: &R, reader: Reader) -> Reader
    ensures { result ≡ renamed_reader (R.numbers by.now) reader }
{
    Reader {
        addr: by.signal(reader.addr),
        en: by.signal(reader.en),
        word: by.signal(reader.word),
        clock: by.clock(reader.clock),
    }
}

/// A writer under other numbers.
pub fn renamed_writer<R: Renames>(by: &R, writer: Writer) -> Writer
    ensures { result ≡ renamed_writer (R.numbers by.now) writer }
{
    Writer {
        addr: by.signal(writer.addr),
        en: by.signal(writer.en),
        word: by.signal(writer.word),
        mask: by.signal(writer.mask),
        clock: by.clock(writer.clock),
    }
}

/// Readers under other numbers.
///
/// # Errors
///
/// Returns `AllocError` if an allocation fails.
pub fn renamed_readers<R: Renames>(
    alloc: Global,
    by: &R,
    readers: &[Reader],
) -> Result<Vec<Reader>, AllocError>
    ensures { IfOk result (λ own. own.items ≡ map (λ reader. renamed_reader (R.numbers by.now) reader) readers.now) }
{
    let mut own = Vec::new(alloc);
    for reader in readers {
        own.push(renamed_reader(by, *reader))?;
    }
    Ok(own)
}

/// Writers under other numbers.
///
/// # Errors
///
/// Returns `AllocError` if an allocation fails.
pub fn renamed_writers<R: Renames>(
    alloc: Global,
    by: &R,
    writers: &[Writer],
) -> Result<Vec<Writer>, AllocError>
    ensures { IfOk result (λ own. own.items ≡ map (λ writer. renamed_writer (R.numbers by.now) writer) writers.now) }
{
    let mut own = Vec::new(alloc);
    for writer in writers {
        own.push(renamed_writer(by, *writer))?;
    }
    Ok(own)
}

/// A memory under other numbers.
///
/// # Errors
///
/// Returns `AllocError` if an allocation fails.
pub fn renamed_memory<R: Renames>(
    alloc: Global,
    by: &R,
    memory: &Memory,
) -> Result<Memory, AllocError>
    ensures { IfOk result (λ own. own ≡ renamed_memory (R.numbers by.now) memory.now) }
{
    let readers = renamed_readers(alloc, by, memory.readers.as_slice())?;
    let writers = renamed_writers(alloc, by, memory.writers.as_slice())?;
    Ok(Memory {
        word: memory.word,
        depth: memory.depth,
        latency: memory.latency,
        readers: Readers::from(readers),
        writers: Writers::from(writers),
    })
}
