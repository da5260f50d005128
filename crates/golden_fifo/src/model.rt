//! The model of a FIFO: its flat circuit.
ghost use Rattle.std.specs.Prelude.{◌≡◌, ◌<◌, ◌^◌, ◌-◌, [], ◌∷◌, ◌++◌, length, IfOk, OnOk};
ghost use Rattle.gg_bridge.specs.Joined.{copy_line};
ghost use Rattle.golden_fifo.specs.inside.Fifo.{fifo_piece, fifo_registers, fifo_signals, held, taking};

use gg_bits::{Name, Ty};
use gg_flat::{Driver, Line, Node, Op, Piece, Register, Reset, Signal};
use std::alloc::{AllocError, Global};

// A place of a FIFO.
#[derive(Clone, Copy)]
pub(crate) struct Place {
    // 1 if there is a value in it, otherwise 0.
    pub(crate) full: u128,
    pub(crate) value: u128,
}

// The line of a bare reference to a signal.
fn copy_of(alloc: Global, ty: Ty, signal: u32) -> Result<Line, AllocError>
    ensures { IfOk result (λ line. line ≡ copy_line ty signal) }
{
    let mut line = Line::new(alloc);
    line.push(Node {
        ty,
        op: Op::Ref(signal),
    })?;
    Ok(line)
}

// Adds a signal with this path and this driver.
fn add(
    alloc: Global,
    piece: &mut Piece,
    path: &str,
    ty: Ty,
    driver: Driver,
) -> Result<(), AllocError>
    requires { length piece.old.signals < 2 ^ 32 - 1 }
    ensures { OnOk result (piece.new ≡ record piece.old { paths = piece.old.paths ++ path.now ∷ []; signals = piece.old.signals ++ record { ty = ty; driver = driver } ∷ [] }) }
{
    let name = Name::from_str(alloc, path)?;
    match piece.add_signal(name, Signal { ty, driver }) {
        Ok(()) => Ok(()),
        Err(_) => Err(AllocError),
    }
}

// Adds a register: it keeps the value of `own` as long as `full` is 1, and otherwise takes the value of `behind`.
fn add_register(
    alloc: Global,
    piece: &mut Piece,
    bit: Ty,
    full: u32,
    ty: Ty,
    own: u32,
    behind: u32,
) -> Result<(), AllocError>
    ensures { OnOk result (piece.new ≡ record piece.old { registers = piece.old.registers ++ taking bit full ty own behind ∷ [] }) }
{
    let reset = Reset {
        condition: copy_of(alloc, bit, full)?,
        init: copy_of(alloc, ty, own)?,
    };
    let next = copy_of(alloc, ty, behind)?;
    piece.add_register(Register {
        ty,
        reset: Some(reset),
        next: Some(next),
        clock: None,
    })
}

// Adds the two signals of a place, which are these registers.
fn add_place(
    alloc: Global,
    piece: &mut Piece,
    bit: Ty,
    ty: Ty,
    full: &str,
    value: &str,
    first: u32,
    second: u32,
) -> Result<(), AllocError>
    requires { length piece.old.signals < 2 ^ 31 }
    ensures { OnOk result (piece.new ≡ record piece.old { paths = (piece.old.paths ++ full.now ∷ []) ++ value.now ∷ []; signals = (piece.old.signals ++ held bit first ∷ []) ++ held ty second ∷ [] }) }
{
    add(alloc, piece, full, bit, Driver::Held(first))?;
    add(alloc, piece, value, ty, Driver::Held(second))
}

// The flat circuit with only its signals.
fn signals_of(alloc: Global, bit: Ty, ty: Ty) -> Result<Piece, AllocError>
    ensures { IfOk result (λ piece. piece ≡ fifo_signals bit ty) }
{
    let mut piece = Piece::new(alloc);
    add(alloc, &mut piece, "put", bit, Driver::Input(0))?;
    add(alloc, &mut piece, "in", ty, Driver::Input(1))?;
    add(alloc, &mut piece, "stop", bit, Driver::Input(2))?;
    add_place(alloc, &mut piece, bit, ty, "valid", "out", 0, 1)?;
    add_place(alloc, &mut piece, bit, ty, "full2", "value2", 2, 3)?;
    add_place(alloc, &mut piece, bit, ty, "full3", "value3", 4, 5)?;
    add_place(alloc, &mut piece, bit, ty, "full", "value4", 6, 7)?;
    Ok(piece)
}

// Adds the two registers of a place. `full` and `value` are its own signals, `stop` says that the next place is full, and `behind_full` and `behind`
// are the signals of the place before it.
fn add_place_registers(
    alloc: Global,
    piece: &mut Piece,
    bit: Ty,
    ty: Ty,
    full: u32,
    value: u32,
    stop: u32,
    behind_full: u32,
    behind: u32,
) -> Result<(), AllocError>
    ensures { OnOk result (piece.new ≡ record piece.old { registers = (piece.old.registers ++ taking bit full bit stop behind_full ∷ []) ++ taking bit full ty value behind ∷ [] }) }
{
    add_register(alloc, piece, bit, full, bit, stop, behind_full)?;
    add_register(alloc, piece, bit, full, ty, value, behind)
}

fn add_registers(alloc: Global, piece: &mut Piece, bit: Ty, ty: Ty) -> Result<(), AllocError>
    requires { piece.old.registers ≡ [] }
    ensures { OnOk result (piece.new ≡ record piece.old { registers = fifo_registers bit ty }) }
{
    add_place_registers(alloc, piece, bit, ty, 3, 4, 2, 5, 6)?;
    add_place_registers(alloc, piece, bit, ty, 5, 6, 3, 7, 8)?;
    add_place_registers(alloc, piece, bit, ty, 7, 8, 5, 9, 10)?;
    add_place_registers(alloc, piece, bit, ty, 9, 10, 7, 0, 1)
}

// The flat circuit of a FIFO.
pub(crate) fn piece_of(alloc: Global, bit: Ty, ty: Ty) -> Result<Piece, AllocError>
    ensures { IfOk result (λ piece. piece ≡ fifo_piece bit ty) }
{
    let mut piece = signals_of(alloc, bit, ty)?;
    add_registers(alloc, &mut piece, bit, ty)?;
    piece.add_in(0)?;
    piece.add_in(1)?;
    piece.add_in(2)?;
    piece.add_out(3)?;
    piece.add_out(4)?;
    piece.add_out(9)?;
    Ok(piece)
}
