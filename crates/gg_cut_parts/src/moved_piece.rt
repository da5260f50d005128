//! `moved_piece`: a piece with the paths of other signals.
ghost use Rattle.std.specs.Prelude.{◌≡◌, ◌≢◌, ◌<◌, ◌-◌, ◌^◌, [], ◌∷◌, ◌++◌, length, map, slice_index_or, IfOk, OnOk, All, AllPairs, Contains};
ghost use Rattle.gg_bits.specs.declared.paths.AddError.TheVariants.{Doubled};
ghost use Rattle.gg_flat.specs.declared.piece.Signal.{Signal};
ghost use Rattle.gg_flat.specs.Circuit.{no_circuit};
ghost use Rattle.gg_flat.specs.Line.{value_at};
ghost use Rattle.gg_flat_tree.specs.Tree.{path_at};
ghost use Rattle.gg_flat.specs.WellFormed.{IsWellFormed};
ghost use Rattle.gg_cut_parts.specs.inside.MovedPart.{IsMovedPiece};

use crate::paths::signal_name;
use crate::places::found_at;
use gg_bits::AddError;
use gg_flat::{Memory, Piece, Register};
use std::alloc::{AllocError, Global};

// A piece for the signals with these numbers of a circuit: a copy of another piece, with their paths. It gives the signals of the circuit
// with the numbers `outs`, in this order.
//
// # Errors
//
// Returns `AllocError` if an allocation fails.
pub(crate) fn moved_piece(
    alloc: Global,
    whole: &Piece,
    other: &Piece,
    globals: &[u32],
    outs: &[u32],
) -> Result<Piece, AllocError>
    requires formed { IsWellFormed whole.now }
    requires signals { length other.now.signals ≡ length globals.now }
    requires within { All (λ s. s < length whole.now.signals) globals.now }
    requires once { AllPairs (λ a b. a ≢ b) globals.now }
    requires outs { All (λ s. Contains globals.now s) outs.now }
    ensures { IfOk result (λ piece. IsMovedPiece whole.now other.now globals.now outs.now piece) }
{
    // for the invariant only: few enough signals
    let _ = whole.signal_count();
    let mut piece = Piece::new(alloc);
    add_signals(alloc, whole, other, globals, &mut piece)?;
    add_registers(other.registers(), &mut piece)?;
    add_memories(other.memories(), &mut piece)?;
    add_ins(other.ins(), &mut piece)?;
    let locals = found_at(alloc, whole.signals().len(), globals, outs)?;
    add_outs(&locals, &mut piece)?;
    piece.set_clocks(other.clocks());
    Ok(piece)
}

// ---- signals

// Adds the signals of another piece, with the paths of these signals of the circuit.
fn add_signals(
    alloc: Global,
    whole: &Piece,
    other: &Piece,
    globals: &[u32],
    piece: &mut Piece,
) -> Result<(), AllocError>
    requires formed { IsWellFormed whole.now }
    requires signals { length other.now.signals ≡ length globals.now }
    requires within { All (λ s. s < length whole.now.signals) globals.now }
    requires once { AllPairs (λ a b. a ≢ b) globals.now }
    requires empty { piece.old ≡ no_circuit }
    ensures only { OnOk result (piece.new ≡ record no_circuit { paths = piece.new.paths; signals = piece.new.signals }) }
    ensures paths { OnOk result (piece.new.paths ≡ map (path_at whole.now.paths) globals.now) }
    ensures signals { OnOk result (piece.new.signals ≡ other.now.signals) }
{
    // for the invariant only: few enough signals for a piece
    let _ = whole.signal_count();
    for place in 0..globals.len() {
        add_signal(alloc, whole, other, globals[place], place, piece)?;
    }
    Ok(())
}

// Adds the signal at a place of another piece, with the path of a signal of the circuit.
fn add_signal(
    alloc: Global,
    whole: &Piece,
    other: &Piece,
    signal: u32,
    place: usize,
    piece: &mut Piece,
) -> Result<(), AllocError>
    requires place { place < length other.now.signals }
    requires few { length piece.old.signals < 2 ^ 32 - 1 }
    requires fresh { ¬ Contains piece.old.paths (path_at whole.now.paths signal) }
    ensures { (any : Signal) → OnOk result (piece.new
        ≡ record piece.old {
          paths = piece.old.paths ++ path_at whole.now.paths signal ∷ [];
          signals = piece.old.signals
              ++ slice_index_or other.now.signals place any ∷ [];
        }) }
{
    let path = signal_name(alloc, whole, signal)?;
    let own = other.signals()[place].clone()?;
    match piece.add_signal(path, own) {
        Ok(()) => Ok(()),
        Err(error) => Err(refused(error)),
    }
}

// The error of a failed allocation, since no path was added twice.
fn refused(error: AddError) -> AllocError
    requires { error ≢ Doubled }
{
    match error {
        AddError::NoMemory => AllocError,
        AddError::Doubled => unreachable!(),
    }
}

// ---- registers and memories

// Adds copies of these registers.
fn add_registers(registers: &[Register], piece: &mut Piece) -> Result<(), AllocError>
    requires empty { piece.old.registers ≡ [] }
    ensures only { OnOk result (piece.new ≡ record piece.old { registers = piece.new.registers }) }
    ensures registers { OnOk result (piece.new.registers ≡ registers.now) }
{
    for register in registers {
        piece.add_register(register.clone()?)?;
    }
    Ok(())
}

// Adds copies of these memories.
fn add_memories(memories: &[Memory], piece: &mut Piece) -> Result<(), AllocError>
    requires empty { piece.old.memories ≡ [] }
    ensures only { OnOk result (piece.new ≡ record piece.old { memories = piece.new.memories }) }
    ensures memories { OnOk result (piece.new.memories ≡ memories.now) }
{
    for memory in memories {
        piece.add_memory(memory.clone()?)?;
    }
    Ok(())
}

// ---- ports

// Adds these in-signals.
fn add_ins(ins: &[u32], piece: &mut Piece) -> Result<(), AllocError>
    requires empty { piece.old.ins ≡ [] }
    ensures only { OnOk result (piece.new ≡ record piece.old { ins = piece.new.ins }) }
    ensures ins { OnOk result (piece.new.ins ≡ ins.now) }
{
    for signal in ins {
        piece.add_in(*signal)?;
    }
    Ok(())
}

// Adds these out-signals.
fn add_outs(outs: &[u32], piece: &mut Piece) -> Result<(), AllocError>
    requires empty { piece.old.outs ≡ [] }
    ensures only { OnOk result (piece.new ≡ record piece.old { outs = piece.new.outs }) }
    ensures outs { OnOk result (piece.new.outs ≡ outs.now) }
{
    for signal in outs {
        piece.add_out(*signal)?;
    }
    Ok(())
}
