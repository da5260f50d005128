//! Runs the instructions of a line.
ghost use Rattle.std.specs.Prelude.{◌≡◌, List, length, take};
ghost use Rattle.gg_bits.specs.Shape.{Fits};
ghost use Rattle.gg_flat.specs.declared.line.Node.{Node};
ghost use Rattle.gg_flat.specs.Line.{line_shape, line_value};
ghost use Rattle.gg_tape.specs.inside.Told.{CanRun};

use crate::apply::value_of;
use crate::instruction::Instruction;

// The value of the line that the instructions compute. The cells of the signals stay as they are.
#[inline(always)]
pub(crate) fn run(
    instructions: &[Instruction],
    literals: &[u128],
    _signals: usize,
    cells: &mut Vec<u128>,
) -> u128
    requires { (nodes : List Node) × CanRun nodes _signals literals.now instructions.now cells.old.items }
    ensures value { (nodes : List Node) → CanRun nodes _signals literals.now instructions.now cells.old.items
        → result ≡ line_value (take _signals cells.old.items) nodes }
    ensures fits { (nodes : List Node) → CanRun nodes _signals literals.now instructions.now cells.old.items → Fits (line_shape nodes) result }
    ensures same { take _signals cells.new.items ≡ take _signals cells.old.items }
    ensures count { length cells.new.items ≡ length cells.old.items }
{
    let mut value = 0;
    for instruction in instructions {
        value = value_of(instruction, literals, cells.as_slice());
        cells[instruction.cell as usize] = value;
    }
    value
}
