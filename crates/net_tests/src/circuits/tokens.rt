//! gg_fame1: the tokens of a unit with two outs, and of the second once more, by one ledger of evaluated assignments.
ghost use Rattle.std.specs.Prelude.{◌≡◌, ◌+◌, ◌<◌, ◌≤◌, length};
ghost use Rattle.gg_flat.specs.WellFormed.{IsWellFormed};
ghost use Rattle.gg_flat.specs.InOrder.{IsInOrder};
ghost use Rattle.gg_node.specs.Machine.{machine_at};
ghost use Rattle.gg_node.specs.inside.Step.{MayFire};
ghost use Rattle.gg_program.specs.inside.Unset.{assignments};
ghost use Rattle.gg_fame5.specs.inside.Shared.{machines_of, IsConeDoneOf};

use crate::circuits::pieces::has_slots;
use crate::reading::design_of;
use gg_fame1::{NoMemory, Unit};
use gg_flat::{Driver, Piece};
use gg_node::Host;
use gg_order::Design;
use gg_program::{Program, Steps};
use std::alloc::Global;
use std::marker::Brand;
use std::sync::ledger::{Blank, Ledger};

// The module of the first of two units that feed each other, as a circuit of its own.
const FIRST: &str =
    "circuit A :\nmodule A :\ninput clock : Clock\ninput x : UInt<8>\ninput k : UInt<8>\noutput p : UInt<8>\noutput q : UInt<8>\np <= x\nq <= xor(x, k)\n";

// The tokens of the first out and of the second. Together they take at most as many steps as there are assignments.
fn both_tokens<L: Ledger>(unit: &mut Unit<'_>, steps: &mut Steps<L>) -> (u128, u128)
    requires thread { 0 < length (machines_of unit.old) }
    requires first { MayFire (machine_at (machines_of unit.old) 0) 0 }
    requires second { MayFire (machine_at (machines_of unit.old) 0) 1 }
    ensures steps { steps.new ≤ steps.old + assignments unit.old.program.circuit }
    ensures done { IsConeDoneOf unit.new 0 1 }
    ensures same { machines_of unit.new ≡ machines_of unit.old }
{
    let first = unit.token_once(0, 0, steps);
    let second = unit.token_once(0, 1, steps);
    (first, second)
}

// The token of the second out once more. It takes no step.
fn token_again<L: Ledger>(unit: &mut Unit<'_>, steps: &mut Steps<L>) -> u128
    requires thread { 0 < length (machines_of unit.old) }
    requires second { MayFire (machine_at (machines_of unit.old) 0) 1 }
    requires done { IsConeDoneOf unit.old 0 1 }
    ensures steps { steps.new ≡ steps.old }
{
    unit.token_once(0, 1, steps)
}

// The three tokens in a cycle in which both ins took 0. None if an out waits for more.
fn tokens_of<L: Ledger>(
    alloc: Global,
    piece: &Piece,
    blank: Blank,
) -> Result<Option<(u128, u128, u128)>, NoMemory>
    requires name { blank.name ≡ L.name }
    requires parts { blank.parts ≡ L.parts }
    requires some { 0 < blank.parts }
    requires formed { IsWellFormed piece.now }
    requires ordered { IsInOrder piece.now }
    requires ins { length piece.now.ins ≡ 2 }
    requires outs { length piece.now.outs ≡ 2 }
{
    let mut unit = Unit::with_clocks(alloc, Program::of(alloc, piece)?, &[])?;
    unit.latch(0, 0, 0);
    unit.latch(0, 1, 0);
    if unit.missing(0, 0).is_some() || unit.missing(0, 1).is_some() {
        return Ok(None);
    }
    let mut steps = Steps::<L>::new(blank);
    let (first, second) = both_tokens(&mut unit, &mut steps);
    let again = token_again(&mut unit, &mut steps);
    Ok(Some((first, second, again)))
}

// The number of assignments of a piece: of signals that aren't in-signals.
fn count_assignments(piece: &Piece) -> usize {
    piece
        .signals()
        .iter()
        .filter(|signal| !matches!(signal.driver, Driver::Input(_)))
        .count()
}

// Whether a design whose order is the order of its numbers has two ins, two outs, two assignments and slots, and gives these tokens.
fn gives(alloc: Global, design: &Design) -> bool {
    let piece = design.piece();
    if piece.ins().len() != 2 || piece.outs().len() != 2 || count_assignments(piece) != 2 {
        return false;
    }
    if design.order() != [0, 1, 2, 3].as_slice() {
        return false;
    }
    let tokens = tokens_of::<Brand>(alloc, piece, Blank::new(1));
    matches!(tokens, Ok(Some((0, 0, 0)))) && matches!(has_slots(alloc, piece), Ok(true))
}

// Whether the two outs of a unit, and the second once more, give their tokens with two steps together at most.
pub(crate) fn takes_two_steps(alloc: Global) -> bool {
    match design_of(alloc, FIRST) {
        Some(design) => gives(alloc, &design),
        None => false,
    }
}
