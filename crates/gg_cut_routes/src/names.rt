//! What drivers, registers and memories name.
ghost use Rattle.std.specs.Prelude.{◌≡◌, ◌<◌, ◌++◌, [], ◌∷◌, Some, slice_get, length, flat_map, All, OnOk, IfOk};
ghost use Rattle.gg_flat.specs.Circuit.{driver_at};
ghost use Rattle.gg_flat_tree.specs.Scoped.{reader_fields, writer_fields, memory_fields, stop_signals};
ghost use Rattle.gg_flat.specs.WellFormed.{IsWellFormed, MayDrive};
ghost use Rattle.gg_cut_plan.specs.Direct.{next_names, reset_names, register_names, driver_names};
ghost use Rattle.gg_order.specs.Found.{op_names, line_names};

use gg_flat::{Driver, Line, Node, Op, Piece, Reader, Register, Reset, Writer};
use gg_flat_tree::Tree;
use std::alloc::{AllocError, Global};

// What is named by the drivers of these signals, by the registers that they hold, and by these memories.
//
// # Errors
//
// Returns `AllocError` if an allocation fails.
pub(crate) fn names_of(
    alloc: Global,
    piece: &Piece,
    signals: &[u32],
    memories: &[u32],
) -> Result<Vec<u32>, AllocError>
    requires formed { IsWellFormed piece.now }
    requires signals { All (λ s. s < length piece.now.signals) signals.now }
    requires memories { All (λ m. m < length piece.now.memories) memories.now }
    ensures { IfOk result (λ names. names.items ≡ flat_map (λ s. driver_names piece.now (driver_at piece.now s)) signals.now ++ flat_map (memory_fields piece.now) memories.now) }
{
    let mut names = Vec::new(alloc);
    push_drivers(&mut names, piece, signals)?;
    push_memories(&mut names, piece, memories)?;
    Ok(names)
}

// Adds the signals of the stops.
//
// # Errors
//
// Returns `AllocError` if an allocation fails.
pub(crate) fn push_stops(names: &mut Vec<u32>, tree: &Tree) -> Result<(), AllocError>
    ensures { OnOk result (names.new.items ≡ names.old.items ++ stop_signals tree.now) }
{
    for stop in tree.stops() {
        names.push(stop.signal)?;
    }
    Ok(())
}

// Adds what the drivers of signals name.
fn push_drivers(names: &mut Vec<u32>, piece: &Piece, signals: &[u32]) -> Result<(), AllocError>
    requires formed { IsWellFormed piece.now }
    requires known { All (λ s. s < length piece.now.signals) signals.now }
    ensures { OnOk result (names.new.items ≡ names.old.items ++ flat_map (λ s. driver_names piece.now (driver_at piece.now s)) signals.now) }
{
    for signal in signals {
        push_driver_of(names, piece, *signal)?;
    }
    Ok(())
}

// Adds what the driver of a signal names.
fn push_driver_of(names: &mut Vec<u32>, piece: &Piece, signal: u32) -> Result<(), AllocError>
    requires formed { IsWellFormed piece.now }
    requires known { signal < length piece.now.signals }
    ensures { OnOk result (names.new.items ≡ names.old.items ++ driver_names piece.now (driver_at piece.now signal)) }
{
    push_driver(
        names,
        piece,
        &piece.signals()[signal as usize].driver,
        signal,
    )
}

// Adds what a driver of the circuit names.
fn push_driver(
    names: &mut Vec<u32>,
    piece: &Piece,
    driver: &Driver,
    _signal: u32,
) -> Result<(), AllocError>
    requires { MayDrive piece.now _signal driver.now }
    ensures { OnOk result (names.new.items ≡ names.old.items ++ driver_names piece.now driver.now) }
{
    match driver {
        Driver::Input(_) | Driver::ReadRegister(_, _) => Ok(()),
        Driver::Held(register) => push_register(names, piece, *register),
        Driver::MemoryWord(_, _, addr, en) => push_both(names, *addr, *en),
        Driver::Computed(line) => push_line(names, line.as_slice()),
    }
}

// Adds an address and an enable.
fn push_both(names: &mut Vec<u32>, addr: u32, en: u32) -> Result<(), AllocError>
    ensures { OnOk result (names.new.items ≡ names.old.items ++ addr ∷ en ∷ []) }
{
    names.push(addr)?;
    names.push(en)?;
    Ok(())
}

// Adds what a register names.
fn push_register(names: &mut Vec<u32>, piece: &Piece, register: u32) -> Result<(), AllocError>
    requires { register < length piece.now.registers }
    ensures { OnOk result (names.new.items ≡ names.old.items ++ register_names (slice_get piece.now.registers register)) }
{
    push_parts(names, &piece.registers()[register as usize])
}

// Adds what a register names: in its reset and in its connection.
fn push_parts(names: &mut Vec<u32>, register: &Register) -> Result<(), AllocError>
    ensures { OnOk result (names.new.items ≡ names.old.items ++ register_names (Some register.now)) }
{
    push_reset(names, &register.reset)?;
    push_next(names, &register.next)
}

// Adds what a reset names, if there is one.
fn push_reset(names: &mut Vec<u32>, reset: &Option<Reset>) -> Result<(), AllocError>
    ensures { OnOk result (names.new.items ≡ names.old.items ++ reset_names reset.now) }
{
    match reset {
        Some(reset) => {
            push_line(names, reset.condition.as_slice())?;
            push_line(names, reset.init.as_slice())
        }
        None => Ok(()),
    }
}

// Adds what a connection names, if there is one.
fn push_next(names: &mut Vec<u32>, next: &Option<Line>) -> Result<(), AllocError>
    ensures { OnOk result (names.new.items ≡ names.old.items ++ next_names next.now) }
{
    match next {
        Some(line) => push_line(names, line.as_slice()),
        None => Ok(()),
    }
}

// Adds the signals that a line refers to.
fn push_line(names: &mut Vec<u32>, line: &[Node]) -> Result<(), AllocError>
    ensures { OnOk result (names.new.items ≡ names.old.items ++ line_names line.now) }
{
    for node in line {
        push_op(names, node.op)?;
    }
    Ok(())
}

// Adds the signal that a node refers to, if it does.
fn push_op(names: &mut Vec<u32>, op: Op) -> Result<(), AllocError>
    ensures { OnOk result (names.new.items ≡ names.old.items ++ op_names op) }
{
    match op {
        Op::Ref(signal) => names.push(signal)?,
        Op::Literal(_)
        | Op::One(_, _)
        | Op::Two(_, _, _)
        | Op::Fix(_, _, _, _)
        | Op::Mux(_, _, _) => {}
    }
    Ok(())
}

// Adds the fields of memories.
fn push_memories(names: &mut Vec<u32>, piece: &Piece, memories: &[u32]) -> Result<(), AllocError>
    requires { All (λ m. m < length piece.now.memories) memories.now }
    ensures { OnOk result (names.new.items ≡ names.old.items ++ flat_map (memory_fields piece.now) memories.now) }
{
    for memory in memories {
        push_memory(names, piece, *memory)?;
    }
    Ok(())
}

// Adds the fields of a memory.
fn push_memory(names: &mut Vec<u32>, piece: &Piece, number: u32) -> Result<(), AllocError>
    requires { number < length piece.now.memories }
    ensures { OnOk result (names.new.items ≡ names.old.items ++ memory_fields piece.now number) }
{
    let memory = &piece.memories()[number as usize];
    push_readers(names, memory.readers.as_slice())?;
    push_writers(names, memory.writers.as_slice())
}

// Adds the fields of readers.
fn push_readers(names: &mut Vec<u32>, readers: &[Reader]) -> Result<(), AllocError>
    ensures { OnOk result (names.new.items ≡ names.old.items ++ flat_map (λ reader. reader_fields reader) readers.now) }
{
    for reader in readers {
        names.push(reader.addr)?;
        names.push(reader.en)?;
        names.push(reader.word)?;
    }
    Ok(())
}

// Adds the fields of writers.
fn push_writers(names: &mut Vec<u32>, writers: &[Writer]) -> Result<(), AllocError>
    ensures { OnOk result (names.new.items ≡ names.old.items ++ flat_map (λ writer. writer_fields writer) writers.now) }
{
    for writer in writers {
        names.push(writer.addr)?;
        names.push(writer.en)?;
        names.push(writer.word)?;
        names.push(writer.mask)?;
    }
    Ok(())
}
