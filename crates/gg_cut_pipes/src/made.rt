//! `made`: the piece of the reference circuit.
ghost use Rattle.std.specs.Prelude.{◌≡◌, ◌≢◌, ◌<◌, ◌+◌, ◌-◌, ◌^◌, [], ◌∷◌, ◌++◌, codes, length, map, slice_index_or, IfOk, OnOk, All, AllPairs, Contains};
ghost use Rattle.gg_bits.specs.declared.paths.AddError.TheVariants.{Doubled};
ghost use Rattle.gg_flat.specs.declared.piece.Signal.{Signal};
ghost use Rattle.gg_flat.specs.Circuit.{no_circuit};
ghost use Rattle.gg_flat.specs.Line.{value_at};
ghost use Rattle.gg_flat_tree.specs.Tree.{path_at};
ghost use Rattle.gg_cut_reference.specs.Made.{seen_signal, pipe_signal, pipe_register, pipe_signals, pipe_registers, reference_of};
ghost use Rattle.gg_bits.specs.Lists.{by_number};
ghost use Rattle.gg_cut_pipes.specs.inside.Tables.{seen_in, kept_in, views_by};
ghost use Rattle.gg_flat.specs.Renaming.{renamed_memory, renamed_register, signals_by};

use crate::tables::Tables;
use gg_bits::{AddError, Name};
use gg_flat::{
    Driver, Line, Node, Op, Piece, Register, Signal, number_at, renamed_driver, renamed_memory,
    renamed_register,
};
use std::alloc::{AllocError, Global};

// The piece of the reference circuit, by the tables. `pipes` has the signals of the piped channels.
//
// # Errors
//
// Returns `AllocError` if an allocation fails.
pub(crate) fn made(
    alloc: Global,
    one: &Piece,
    tables: &Tables,
    pipes: &[u32],
) -> Result<Piece, AllocError>
    requires known { All (λ c. c < length one.now.signals) pipes.now }
    requires few { length one.now.signals + length pipes.now < 2 ^ 32 }
    requires registers { length one.now.registers + length pipes.now < 2 ^ 32 }
    requires memories { length one.now.memories < 2 ^ 32 }
    requires distinct { AllPairs (λ a b. a ≢ b) (one.now.paths ++ map (λ c. codes "pipe:" ++ path_at one.now.paths c) pipes.now) }
    ensures { IfOk result (λ piece. piece ≡ reference_of one.now (views_by tables.now) pipes.now) }
{
    let mut piece = Piece::new(alloc);
    match fill_piece(alloc, one, tables, pipes, &mut piece) {
        Ok(()) => Ok(piece),
        Err(error) => {
            drop(piece);
            Err(error)
        }
    }
}

// Fills the empty piece.
fn fill_piece(
    alloc: Global,
    one: &Piece,
    tables: &Tables,
    pipes: &[u32],
    piece: &mut Piece,
) -> Result<(), AllocError>
    requires known { All (λ c. c < length one.now.signals) pipes.now }
    requires few { length one.now.signals + length pipes.now < 2 ^ 32 }
    requires registers { length one.now.registers + length pipes.now < 2 ^ 32 }
    requires memories { length one.now.memories < 2 ^ 32 }
    requires distinct { AllPairs (λ a b. a ≢ b) (one.now.paths ++ map (λ c. codes "pipe:" ++ path_at one.now.paths c) pipes.now) }
    requires empty { piece.old ≡ no_circuit }
    ensures { OnOk result (piece.new ≡ reference_of one.now (views_by tables.now) pipes.now) }
{
    add_signals(alloc, one, tables, piece)?;
    add_pipes(alloc, one, pipes, piece)?;
    add_registers(alloc, one, tables, piece)?;
    add_pipe_registers(alloc, one, pipes, piece)?;
    add_memories(alloc, one, tables, piece)?;
    add_ins(one.ins(), piece)?;
    add_outs(tables, one.outs(), piece)?;
    piece.set_clocks(one.clocks());
    Ok(())
}

// ---- signals

// Adds the signals, as their machines see them.
fn add_signals(
    alloc: Global,
    one: &Piece,
    tables: &Tables,
    piece: &mut Piece,
) -> Result<(), AllocError>
    requires empty { piece.old ≡ no_circuit }
    ensures { OnOk result (piece.new ≡ record no_circuit { paths = one.now.paths; signals = by_number (seen_signal (views_by tables.now)) 0 one.now.signals }) }
{
    for place in 0..one.signal_count() {
        add_signal(alloc, one, tables, place, piece)?;
    }
    Ok(())
}

// Adds the signal at a place, as its machine sees it.
fn add_signal(
    alloc: Global,
    one: &Piece,
    tables: &Tables,
    place: usize,
    piece: &mut Piece,
) -> Result<(), AllocError>
    requires place { place < length one.now.signals }
    requires few { length piece.old.signals < 2 ^ 32 - 1 }
    requires fresh { ¬ Contains piece.old.paths (path_at one.now.paths place) }
    ensures { (any : Signal) → OnOk result (piece.new
        ≡ record piece.old {
          paths = piece.old.paths ++ path_at one.now.paths place ∷ [];
          signals = piece.old.signals
              ++ seen_signal (views_by tables.now) place (slice_index_or one.now.signals place any) ∷ [];
        }) }
{
    // for the invariant only
    let _ = one.signal_count();
    let number = place as u32;
    let path = path_behind(alloc, "", one, number)?;
    let signal = signal_of(alloc, tables, number, &one.signals()[place])?;
    match piece.add_signal(path, signal) {
        Ok(()) => Ok(()),
        Err(error) => Err(refused(error)),
    }
}

// A signal, by its number, as its machine sees it.
fn signal_of(
    alloc: Global,
    tables: &Tables,
    number: u32,
    signal: &Signal,
) -> Result<Signal, AllocError>
    ensures { IfOk result (λ own. own ≡ seen_signal (views_by tables.now) number signal.now) }
{
    let machine = number_at(tables.makers.as_slice(), number);
    let driver = renamed_driver(alloc, &tables.by(machine), &signal.driver)?;
    Ok(Signal {
        ty: signal.ty,
        driver,
    })
}

// A word followed by the path of a signal.
fn path_behind(alloc: Global, word: &str, one: &Piece, signal: u32) -> Result<Name, AllocError>
    requires { signal < length one.now.paths }
    ensures { IfOk result (λ name. name ≡ word.now ++ path_at one.now.paths signal) }
{
    let path = one.path(signal).unwrap();
    let mut text = String::from_str(alloc, word)?;
    text.push_str(path.as_str())?;
    Ok(Name::from(text))
}

// The error of a failed allocation, since no path was added twice.
fn refused(error: AddError) -> AllocError
    requires { error ≢ Doubled }
{
    match error {
        AddError::NoMemory => AllocError,
        AddError::Doubled => unreachable!(),
    }
}

// Adds the signals of the pipes, after all others.
fn add_pipes(alloc: Global, one: &Piece, pipes: &[u32], piece: &mut Piece) -> Result<(), AllocError>
    requires known { All (λ c. c < length one.now.signals) pipes.now }
    requires count { length piece.old.signals ≡ length one.now.signals }
    requires few { length one.now.signals + length pipes.now < 2 ^ 32 }
    requires registers { length one.now.registers + length pipes.now < 2 ^ 32 }
    requires distinct { AllPairs (λ a b. a ≢ b) (piece.old.paths ++ map (λ c. codes "pipe:" ++ path_at one.now.paths c) pipes.now) }
    ensures { OnOk result (piece.new ≡ record piece.old {
      paths = piece.old.paths
          ++ map (λ c. codes "pipe:" ++ path_at one.now.paths c) pipes.now;
      signals = piece.old.signals
          ++ pipe_signals one.now.signals (length one.now.registers) pipes.now;
    }) }
{
    // for the invariant only
    let _ = one.signal_count();
    let first = one.registers().len() as u32;
    for place in 0..pipes.len() {
        add_pipe(alloc, one, pipes[place], first + place as u32, piece)?;
    }
    Ok(())
}

// Adds the signal of the pipe of a channel, which holds this register.
fn add_pipe(
    alloc: Global,
    one: &Piece,
    signal: u32,
    register: u32,
    piece: &mut Piece,
) -> Result<(), AllocError>
    requires known { signal < length one.now.signals }
    requires few { length piece.old.signals < 2 ^ 32 - 1 }
    requires fresh { ¬ Contains piece.old.paths (codes "pipe:" ++ path_at one.now.paths signal) }
    ensures { (any : Signal) → OnOk result (piece.new
        ≡ record piece.old {
          paths = piece.old.paths ++ (codes "pipe:" ++ path_at one.now.paths signal)
              ∷ [];
          signals = piece.old.signals ++ pipe_signal register (slice_index_or one.now.signals signal any) ∷ [];
        }) }
{
    // for the invariant only
    let _ = one.signal_count();
    let path = path_behind(alloc, "pipe:", one, signal)?;
    let ty = one.signals()[signal as usize].ty;
    let driver = Driver::Held(register);
    match piece.add_signal(path, Signal { ty, driver }) {
        Ok(()) => Ok(()),
        Err(error) => Err(refused(error)),
    }
}

// ---- registers and memories

// Adds the registers, as their machines see them.
fn add_registers(
    alloc: Global,
    one: &Piece,
    tables: &Tables,
    piece: &mut Piece,
) -> Result<(), AllocError>
    requires { length one.now.registers < 2 ^ 32 }
    ensures { OnOk result (piece.new ≡ record piece.old {
      registers = piece.old.registers
          ++ by_number (λ r register. renamed_register (signals_by (seen_in tables.now (value_at tables.now.holders r))) register) 0
          one.now.registers;
    }) }
{
    for place in 0..one.registers().len() {
        let machine = number_at(tables.holders.as_slice(), place as u32);
        let register = renamed_register(alloc, &tables.by(machine), &one.registers()[place])?;
        piece.add_register(register)?;
    }
    Ok(())
}

// Adds the registers of the pipes.
fn add_pipe_registers(
    alloc: Global,
    one: &Piece,
    pipes: &[u32],
    piece: &mut Piece,
) -> Result<(), AllocError>
    requires { All (λ c. c < length one.now.signals) pipes.now }
    ensures { OnOk result (piece.new ≡ record piece.old { registers = piece.old.registers ++ pipe_registers one.now.signals pipes.now }) }
{
    for place in 0..pipes.len() {
        let signal = pipes[place];
        let register = register_of(alloc, signal, &one.signals()[signal as usize])?;
        piece.add_register(register)?;
    }
    Ok(())
}

// The register of the pipe of a channel, by the channel's signal.
fn register_of(alloc: Global, number: u32, signal: &Signal) -> Result<Register, AllocError>
    ensures { IfOk result (λ register. register ≡ pipe_register number signal.now) }
{
    let mut line = Line::new(alloc);
    line.push(Node {
        ty: signal.ty,
        op: Op::Ref(number),
    })?;
    Ok(Register {
        ty: signal.ty,
        reset: None,
        next: Some(line),
        clock: None,
    })
}

// Adds the memories, as their machines see them.
fn add_memories(
    alloc: Global,
    one: &Piece,
    tables: &Tables,
    piece: &mut Piece,
) -> Result<(), AllocError>
    requires { length one.now.memories < 2 ^ 32 }
    ensures { OnOk result (piece.new ≡ record piece.old {
      memories = piece.old.memories
          ++ by_number (λ m memory. renamed_memory (signals_by (seen_in tables.now (value_at tables.now.keepers m))) memory) 0
          one.now.memories;
    }) }
{
    for place in 0..one.memories().len() {
        let machine = number_at(tables.keepers.as_slice(), place as u32);
        let memory = renamed_memory(alloc, &tables.by(machine), &one.memories()[place])?;
        piece.add_memory(memory)?;
    }
    Ok(())
}

// ---- ports

// Adds these in-signals.
fn add_ins(ins: &[u32], piece: &mut Piece) -> Result<(), AllocError>
    ensures { OnOk result (piece.new ≡ record piece.old { ins = piece.old.ins ++ ins.now }) }
{
    for signal in ins {
        piece.add_in(*signal)?;
    }
    Ok(())
}

// Adds these out-signals, as their trays see them.
fn add_outs(tables: &Tables, outs: &[u32], piece: &mut Piece) -> Result<(), AllocError>
    ensures { OnOk result (piece.new ≡ record piece.old { outs = piece.old.outs ++ map (kept_in tables.now) outs.now }) }
{
    for signal in outs {
        piece.add_out(tables.kept(*signal))?;
    }
    Ok(())
}
