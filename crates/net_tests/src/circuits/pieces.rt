//! gg_flat, gg_order, gg_tape, gg_program and gg_fame1: calls on the circuit of a design.
ghost use Rattle.std.specs.Prelude.{◌≡◌, [], length};
ghost use Rattle.gg_flat.specs.WellFormed.{IsWellFormed};
ghost use Rattle.gg_flat.specs.InOrder.{IsInOrder};

use crate::reading::design_of;
use crate::texts::{PASS, TOGGLE};
use gg_bits::{Kind, Name, Ty};
use gg_fame1::{NoMemory, Unit};
use gg_flat::Piece;
use gg_node::Host;
use gg_order::{Design, State, needs_of};
use gg_program::Program;
use gg_refsim::is_well_formed;
use gg_tape::{Cells, Tape};
use std::alloc::{AllocError, Global};

// Whether a piece is well formed and has the register `r` as its second signal, no input, and its first signal as its output.
fn tells(alloc: Global, piece: &Piece) -> Result<bool, AllocError> {
    let path = Name::from_str(alloc, "r")?;
    Ok(
        is_well_formed(piece)
            && piece.find(&path) == Some(1)
            && piece.path(1) == Some(&path)
            && piece.outs() == [0].as_slice(),
    )
}

// Whether the first signal of a design without inputs has these values in two cycles.
fn has_values(alloc: Global, design: &Design, first: u128, second: u128) -> Result<bool, AllocError>
    requires signals { length design.now.circuit.signals ≡ 2 }
    requires ins { design.now.circuit.ins ≡ [] }
{
    let piece = design.piece();
    let mut state = State::new(alloc, piece)?;
    let tape = Tape::of(alloc, piece, design.order())?;
    let mut cells = Cells::of(alloc, piece)?;
    tape.settle(piece, &state, &[], &mut cells);
    let found = cells.values()[0];
    tape.advance(piece, &mut state, &[], &mut cells);
    tape.settle(piece, &state, &[], &mut cells);
    Ok(found == first && cells.values()[0] == second)
}

// Whether a design is the toggle, which is 0 and then 1.
fn is_toggle(alloc: Global, design: &Design) -> Result<bool, AllocError> {
    let piece = design.piece();
    if piece.signal_count() != 2 || !piece.ins().is_empty() {
        return Ok(false);
    }
    Ok(tells(alloc, piece)? && has_values(alloc, design, 0, 1)?)
}

// Whether the toggle runs.
pub(crate) fn toggles(alloc: Global) -> bool {
    match design_of(alloc, TOGGLE) {
        Some(design) => matches!(is_toggle(alloc, &design), Ok(true)),
        None => false,
    }
}

// Whether the only output of a piece needs the first input, and no other.
fn needs_it(alloc: Global, piece: &Piece) -> Result<bool, AllocError>
    requires formed { IsWellFormed piece.now }
    requires ordered { IsInOrder piece.now }
{
    let needs = needs_of(alloc, piece)?;
    Ok(needs.len() == 1 && needs[0].as_slice() == [0].as_slice())
}

// Whether the only port that a piece gives to the outside is `o`, of eight bits.
fn gives_it(alloc: Global, piece: &Piece) -> Result<bool, AllocError>
    requires { IsWellFormed piece.now }
{
    let name = Name::from_str(alloc, "o")?;
    let ports = piece.out_ports(alloc)?;
    let ports = ports.as_slice();
    Ok(ports.len() == 1 && ports[0].name == name && ports[0].ty == Ty::new(Kind::UInt, 8))
}

// Whether there are slots for the program of a piece.
pub(crate) fn has_slots(alloc: Global, piece: &Piece) -> Result<bool, NoMemory>
    requires formed { IsWellFormed piece.now }
    requires ordered { IsInOrder piece.now }
{
    let program = Program::of(alloc, piece)?;
    Ok(program.slots(alloc).is_ok())
}

// The first missing in of the first out of a unit, if the unit runs a piece with slots for its program.
fn first_missing(alloc: Global, piece: &Piece) -> Result<Option<u32>, NoMemory>
    requires formed { IsWellFormed piece.now }
    requires ordered { IsInOrder piece.now }
    requires outs { length piece.now.outs ≡ 1 }
{
    if !has_slots(alloc, piece)? {
        return Ok(None);
    }
    let unit = Unit::with_clocks(alloc, Program::of(alloc, piece)?, &[])?;
    Ok(unit.missing(0, 0))
}

// Whether the only output of a design with two signals, in this order, waits for the first input.
fn waits(alloc: Global, design: &Design) -> bool {
    let piece = design.piece();
    if piece.outs().len() != 1 || design.order() != [0, 1].as_slice() {
        return false;
    }
    matches!(needs_it(alloc, piece), Ok(true))
        && matches!(gives_it(alloc, piece), Ok(true))
        && matches!(first_missing(alloc, piece), Ok(Some(0)))
}

// Whether an output that is the input waits for it.
pub(crate) fn passes(alloc: Global) -> bool {
    match design_of(alloc, PASS) {
        Some(design) => waits(alloc, &design),
        None => false,
    }
}
