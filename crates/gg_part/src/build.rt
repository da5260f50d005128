//! `part_of`: builds a part from a choice of a circuit's signals and memories.
ghost use Rattle.std.specs.Prelude.{◌≡◌, ◌≢◌, ℕ, ◌<◌, ◌-◌, ◌^◌, List, [], length, map, slice_index_or, IfOk, OnOk, All, Contains};
ghost use Rattle.gg_bits.specs.declared.paths.AddError.TheVariants.{Doubled};
ghost use Rattle.gg_flat.specs.declared.piece.Driver.TheVariants.{Input, Held};
ghost use Rattle.gg_flat.specs.Circuit.{no_circuit, driver_at};
ghost use Rattle.gg_flat.specs.Line.{value_at};
ghost use Rattle.gg_flat.specs.Reads.{NamesSignal};
ghost use Rattle.gg_flat_tree.specs.Tree.{path_at};
ghost use Rattle.gg_flat.specs.WellFormed.{IsWellFormed};
ghost use Rattle.gg_part.specs.Part.{IsFrom, IsPart};
ghost use Rattle.gg_part.specs.inside.Choice.{NamesMemory, IsChoice};
ghost use Rattle.gg_part.specs.Building.{AreHeld};
ghost use Rattle.gg_part.specs.inside.Building.{IsDriven, IsAdded, AreSignals, AreRegisters, AreMemories};
ghost use Rattle.gg_part.specs.inside.Clocking.{AreTimed, IsTimed, MemoriesFollow, RegistersFollow};

use crate::frame::{Frame, driver_of, frame_of};
use crate::numbers::Numbers;
use crate::part::{Clocking, Part};
use crate::rename::{at_port, own_memory};
use gg_bits::{AddError, Name};
use gg_flat::{Driver, Piece, Signal, renamed_driver, renamed_register};
use std::alloc::{AllocError, Global};

// ---- signals

// The driver of a signal that doesn't come from outside, in the part's numbers.
fn local_driver(alloc: Global, frame: &Frame, driver: &Driver) -> Result<Driver, AllocError>
    requires inside { (place : ℕ) → driver.now ≢ Input place }
    requires signals { (t : ℕ) → NamesSignal driver.now t → Contains frame.now.globals t }
    requires registers { (r : ℕ) → driver.now ≡ Held r → Contains frame.now.held r }
    requires memories { (m : ℕ) → NamesMemory driver.now m → Contains frame.now.memories m }
    ensures { IfOk result (λ own. (ins : List ℕ) (s : ℕ) → IsFrom ins frame.now.globals frame.now.held frame.now.memories s driver.now own) }
{
    let by = frame.local();
    let own = renamed_driver(alloc, &by, driver)?;
    Ok(own)
}

// The driver of a signal of the part.
fn driver_in(alloc: Global, whole: &Piece, frame: &Frame, signal: u32) -> Result<Driver, AllocError>
    requires chosen { IsChoice whole.now frame.now.globals frame.now.ins [] frame.now.memories }
    requires held { AreHeld whole.now frame.now.globals frame.now.ins frame.now.held }
    requires signal { Contains frame.now.globals signal }
    ensures { IfOk result (λ own. IsDriven whole.now frame.now.globals frame.now.ins frame.now.held frame.now.memories signal own) }
{
    match frame.ins.find(signal) {
        Some(place) => Ok(Driver::Input(place)),
        None => local_driver(alloc, frame, driver_of(whole, signal)),
    }
}

// A copy of a signal's path.
fn path_of(whole: &Piece, signal: u32) -> Result<Name, AllocError>
    requires { signal < length whole.now.signals }
    ensures { IfOk result (λ path. path ≡ path_at whole.now.paths signal) }
{
    let count = whole.signal_count();
    prove!((signal as usize) < count);
    Ok(whole.path(signal).unwrap().clone()?)
}

// The error of a failed allocation, since no path was added twice.
fn refused(error: AddError) -> AllocError
    requires { error ≢ Doubled }
{
    match error {
        AddError::NoMemory => AllocError,
        AddError::Doubled => unreachable!(),
    }
}

// Adds a signal of the part.
fn add_signal(
    alloc: Global,
    whole: &Piece,
    frame: &Frame,
    signal: u32,
    piece: &mut Piece,
) -> Result<(), AllocError>
    requires chosen { IsChoice whole.now frame.now.globals frame.now.ins [] frame.now.memories }
    requires held { AreHeld whole.now frame.now.globals frame.now.ins frame.now.held }
    requires signal { Contains frame.now.globals signal }
    requires few { length piece.old.signals < 2 ^ 32 - 1 }
    requires fresh { ¬ Contains piece.old.paths (path_at whole.now.paths signal) }
    ensures { OnOk result (IsAdded whole.now frame.now.globals frame.now.ins frame.now.held frame.now.memories signal piece.old piece.new) }
{
    let path = path_of(whole, signal)?;
    let ty = whole.signals()[signal as usize].ty;
    let driver = driver_in(alloc, whole, frame, signal)?;
    match piece.add_signal(path, Signal { ty, driver }) {
        Ok(()) => Ok(()),
        Err(error) => Err(refused(error)),
    }
}

// Adds the signals of the part.
fn add_signals(
    alloc: Global,
    whole: &Piece,
    frame: &Frame,
    piece: &mut Piece,
) -> Result<(), AllocError>
    requires formed { IsWellFormed whole.now }
    requires chosen { IsChoice whole.now frame.now.globals frame.now.ins [] frame.now.memories }
    requires held { AreHeld whole.now frame.now.globals frame.now.ins frame.now.held }
    requires empty { piece.old ≡ no_circuit }
    ensures only { OnOk result (piece.new ≡ record no_circuit { paths = piece.new.paths; signals = piece.new.signals }) }
    ensures signals { OnOk result (AreSignals whole.now frame.now.globals frame.now.ins frame.now.held frame.now.memories (length frame.now.globals) piece.new) }
{
    // for the invariant only: few enough signals for a piece
    let _ = whole.signal_count();
    for signal in frame.globals.as_slice() {
        add_signal(alloc, whole, frame, *signal, piece)?;
    }
    Ok(())
}

// ---- registers and memories

// Adds the registers of the part.
fn add_registers(
    alloc: Global,
    whole: &Piece,
    clocking: &Clocking,
    frame: &Frame,
    piece: &mut Piece,
) -> Result<(), AllocError>
    requires formed { IsWellFormed whole.now }
    requires chosen { IsChoice whole.now frame.now.globals frame.now.ins [] frame.now.memories }
    requires held { AreHeld whole.now frame.now.globals frame.now.ins frame.now.held }
    requires timed { AreTimed whole.now frame.now.globals frame.now.ins frame.now.memories frame.now.clocks clocking.now.registers clocking.now.ports }
    requires empty { piece.old.registers ≡ [] }
    ensures only { OnOk result (piece.new ≡ record piece.old { registers = piece.new.registers }) }
    ensures registers { OnOk result (AreRegisters whole.now frame.now.globals frame.now.held frame.now.clocks (length frame.now.held) piece.new.registers) }
    ensures own { OnOk result (RegistersFollow frame.now.held clocking.now.registers (length frame.now.held) piece.new.registers) }
{
    let by = frame.local();
    for number in frame.held.as_slice() {
        let register = &whole.registers()[*number as usize];
        let port = at_port(by, clocking.registers.as_slice(), *number as usize);
        let own = renamed_register(alloc, &port, register)?;
        piece.add_register(own)?;
    }
    Ok(())
}

// The clocks that the ports of the memory with this number follow.
fn ports_of(clocking: &Clocking, number: u32) -> &[Option<u32>]
    ensures { result.now ≡ slice_index_or clocking.now.ports number [] }
{
    match clocking.ports.as_slice().get(number as usize) {
        Some(ports) => ports.as_slice(),
        None => &[],
    }
}

// Adds the memories of the part.
fn add_memories(
    alloc: Global,
    whole: &Piece,
    clocking: &Clocking,
    frame: &Frame,
    piece: &mut Piece,
) -> Result<(), AllocError>
    requires chosen { IsChoice whole.now frame.now.globals frame.now.ins [] frame.now.memories }
    requires timed { AreTimed whole.now frame.now.globals frame.now.ins frame.now.memories frame.now.clocks clocking.now.registers clocking.now.ports }
    requires empty { piece.old.memories ≡ [] }
    ensures only { OnOk result (piece.new ≡ record piece.old { memories = piece.new.memories }) }
    ensures memories { OnOk result (AreMemories whole.now frame.now.globals frame.now.memories frame.now.clocks (length frame.now.memories) piece.new.memories) }
    ensures own { OnOk result (MemoriesFollow frame.now.memories clocking.now.ports (length frame.now.memories) piece.new.memories) }
{
    let by = frame.local();
    for number in frame.memories.as_slice() {
        let memory = &whole.memories()[*number as usize];
        let ports = ports_of(clocking, *number);
        let own = own_memory(alloc, &by, ports, memory)?;
        piece.add_memory(own)?;
    }
    Ok(())
}

// ---- ports

// Adds the in-signals of the part.
fn add_ins(globals: &Numbers, ins: &[u32], piece: &mut Piece) -> Result<(), AllocError>
    requires known { All (λ s. Contains globals.now s) ins.now }
    requires empty { piece.old.ins ≡ [] }
    ensures only { OnOk result (piece.new ≡ record piece.old { ins = piece.new.ins }) }
    ensures ins { OnOk result (map (value_at globals.now) piece.new.ins ≡ ins.now) }
    ensures below { OnOk result (All (λ s. s < length globals.now) piece.new.ins) }
{
    for signal in ins {
        piece.add_in(globals.place(*signal))?;
    }
    Ok(())
}

// Adds the out-signals of the part.
fn add_outs(globals: &Numbers, outs: &[u32], piece: &mut Piece) -> Result<(), AllocError>
    requires known { All (λ s. Contains globals.now s) outs.now }
    requires empty { piece.old.outs ≡ [] }
    ensures only { OnOk result (piece.new ≡ record piece.old { outs = piece.new.outs }) }
    ensures outs { OnOk result (map (value_at globals.now) piece.new.outs ≡ outs.now) }
    ensures below { OnOk result (All (λ s. s < length globals.now) piece.new.outs) }
{
    for signal in outs {
        piece.add_out(globals.place(*signal))?;
    }
    Ok(())
}

// ---- the part

// Adds all signals, registers, memories and ports of the part, and its number of clocks.
fn add_all(
    alloc: Global,
    whole: &Piece,
    clocking: &Clocking,
    frame: &Frame,
    outs: &[u32],
    piece: &mut Piece,
) -> Result<(), AllocError>
    requires formed { IsWellFormed whole.now }
    requires chosen { IsChoice whole.now frame.now.globals frame.now.ins [] frame.now.memories }
    requires held { AreHeld whole.now frame.now.globals frame.now.ins frame.now.held }
    requires timed { AreTimed whole.now frame.now.globals frame.now.ins frame.now.memories frame.now.clocks clocking.now.registers clocking.now.ports }
    requires few { length frame.now.clocks < 2 ^ 32 }
    requires outs { All (λ s. Contains frame.now.globals s) outs.now }
    requires empty { piece.old ≡ no_circuit }
    ensures part { OnOk result (IsPart whole.now piece.new frame.now.globals frame.now.held frame.now.memories frame.now.clocks) }
    ensures ins { OnOk result (map (value_at frame.now.globals) piece.new.ins ≡ frame.now.ins) }
    ensures outs { OnOk result (map (value_at frame.now.globals) piece.new.outs ≡ outs.now) }
    ensures own { OnOk result (IsTimed piece.new frame.now.held frame.now.memories clocking.now.registers clocking.now.ports) }
{
    add_signals(alloc, whole, frame, piece)?;
    add_registers(alloc, whole, clocking, frame, piece)?;
    add_memories(alloc, whole, clocking, frame, piece)?;
    add_ins(&frame.globals, frame.ins.as_slice(), piece)?;
    add_outs(&frame.globals, outs, piece)?;
    piece.set_clocks(frame.clocks.as_slice().len() as u32);
    Ok(())
}

/// The part of a circuit with these signals and memories. It gets the values of `ins` from outside, and gives the
/// values of `outs`. It has a clock for each item of `clocks`: the clock of the circuit that it follows, if any.
/// `clocking` has the part's clock that each register and port follows. All numbers are the whole circuit's. The part's
/// signals are in the order of `globals`, its in-signals in the order of `ins`, its out-signals in the order of `outs`,
/// and its memories in the order of `memories`. Its registers are exactly the registers that its signals hold.
///
/// # Errors
///
/// Returns `AllocError` if an allocation fails.
///
/// # Examples
///
/// ```rust
/// // Signal 0 of `whole` is its input `a`. Signal 1, `b`, reads signal 2, `n`, and `n` reads `a`. There are no
/// // registers, memories and clocks. The part computes `b` from `n`.
/// let clocking = Clocking {
///     registers: Items::from(Vec::new(alloc)),
///     ports: Items::from(Vec::new(alloc)),
/// };
/// let part = part_of(alloc, &whole, &[], &clocking, &[2, 1], &[2], &[1], &[])?;
/// // In the part `n` is signal 0, its only in-signal, and `b` is signal 1, its only out-signal.
/// ```
pub fn part_of(
    alloc: Global,
    whole: &Piece,
    clocks: &[Option<u32>],
    clocking: &Clocking,
    globals: &[u32],
    ins: &[u32],
    outs: &[u32],
    memories: &[u32],
) -> Result<Part, AllocError>
    requires formed { IsWellFormed whole.now }
    requires chosen { IsChoice whole.now globals.now ins.now outs.now memories.now }
    requires timed { AreTimed whole.now globals.now ins.now memories.now clocks.now clocking.now.registers clocking.now.ports }
    requires few { length clocks.now < 2 ^ 32 }
    ensures part { IfOk result (λ part. IsPart whole.now part.piece part.globals part.held part.memories part.clocks) }
    ensures clocks { IfOk result (λ part. part.clocks ≡ clocks.now) }
    ensures globals { IfOk result (λ part. part.globals ≡ globals.now) }
    ensures ins { IfOk result (λ part. map (value_at part.globals) part.piece.ins ≡ ins.now) }
    ensures outs { IfOk result (λ part. map (value_at part.globals) part.piece.outs ≡ outs.now) }
    ensures memories { IfOk result (λ part. part.memories ≡ memories.now) }
    ensures held { IfOk result (λ part. AreHeld whole.now globals.now ins.now part.held) }
    ensures own { IfOk result (λ part. IsTimed part.piece part.held part.memories clocking.now.registers clocking.now.ports) }
{
    let frame = frame_of(alloc, whole, clocks, globals, ins, memories)?;
    let mut piece = Piece::new(alloc);
    add_all(alloc, whole, clocking, &frame, outs, &mut piece)?;
    Ok(frame.part(piece))
}
