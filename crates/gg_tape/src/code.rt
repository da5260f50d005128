//! `Code`: the instructions of lines.
ghost use Rattle.std.specs.Prelude.{◌≡◌, ℕ, ◌<◌, ◌^◌, List, IfOk, OnOk};
ghost use Rattle.gg_bits.specs.Shape.{Shape, shape, Fits};
ghost use Rattle.gg_flat.specs.declared.line.Node.{Node};
ghost use Rattle.gg_flat.specs.Line.{HasType, IsLine, line_value, connected_value};
ghost use Rattle.gg_tape.specs.inside.Instruction.{small};
ghost use Rattle.gg_tape.specs.inside.Told.{IsAdded};
ghost use Rattle.gg_tape.specs.inside.Tape.{TellsFor, Grows, CanTell, CanConnect};

use crate::cells::Cells;
use crate::instruction::Instruction;
use crate::small::Small;
use crate::tell::tell;
use gg_bits::{Kind, Ty, Val, extend};
use gg_flat::Line;
use std::alloc::{AllocError, Global};

// The instructions of a line, and the types of its result and of its sink.
#[derive(Clone, Copy)]
pub(crate) struct Stretch {
    // The first instruction.
    pub(crate) from: u32,
    // The place after the last instruction.
    pub(crate) to: u32,
    // The type of the line's result.
    pub(crate) own: Small,
    // The type of what the line is connected to.
    pub(crate) sink: Small,
}

// The instructions of lines, one line after another, and their literals.
pub(crate) struct Code {
    pub(crate) instructions: Vec<Instruction>,
    pub(crate) literals: Vec<u128>,
}

impl Drop for Code {
    fn drop(self) {
        let Self {
            instructions,
            literals,
        } = self;
        drop(instructions);
        drop(literals);
    }
}

impl Code {
    // No instructions.
    pub(crate) fn new(alloc: Global) -> Code {
        Code {
            instructions: Vec::new(alloc),
            literals: Vec::new(alloc),
        }
    }

    // Adds the instructions of a line for a sink of this type, if there are this many signals.
    pub(crate) fn tell(
        &mut self,
        signals: usize,
        line: &Line,
        sink: Ty,
    ) -> Result<Stretch, AllocError>
        requires few { signals < 2 ^ 32 }
        requires line { (shapes : List Shape) × IsLine (HasType shapes) line.now }
        ensures told { IfOk result (λ stretch. TellsFor signals self.new (shape sink) stretch line.now) }
        ensures grown { OnOk result (Grows self.old self.new) }
    {
        let from = number_of(self.instructions.len())?;
        self.add(signals, line)?;
        let to = number_of(self.instructions.len())?;
        Ok(Stretch {
            from,
            to,
            own: Small::of(line.ty()),
            sink: Small::of(sink),
        })
    }

    // Adds the instructions of a line.
    fn add(&mut self, signals: usize, line: &Line) -> Result<(), AllocError>
        requires few { signals < 2 ^ 32 }
        requires line { (shapes : List Shape) × IsLine (HasType shapes) line.now }
        ensures told { OnOk result (IsAdded line.now signals self.old.instructions.items self.old.literals.items self.new.instructions.items self.new.literals.items) }
    {
        let nodes = line.as_slice();
        if signals + nodes.len() > u32::MAX as usize {
            return Err(AllocError);
        }
        tell(
            nodes,
            signals as u32,
            &mut self.instructions,
            &mut self.literals,
        )
    }

    // The value of the line that a stretch computes.
    #[inline(always)]
    pub(crate) fn value(&self, stretch: &Stretch, cells: &mut Cells) -> u128
        requires { (line : List Node) × CanTell self.now stretch.now cells.old line }
        ensures value { (line : List Node) → CanTell self.now stretch.now cells.old line → result ≡ line_value cells.old.values line }
        ensures fits { Fits (small stretch.now.own) result }
        ensures same { cells.new ≡ cells.old }
    {
        let instructions = &self.instructions[stretch.from as usize..stretch.to as usize];
        cells.run(instructions, self.literals.as_slice())
    }

    // The value of the line that a stretch computes, as its sink gets it.
    #[inline(always)]
    pub(crate) fn connected(&self, stretch: &Stretch, cells: &mut Cells) -> u128
        requires { (line : List Node) × CanConnect self.now stretch.now cells.old line }
        ensures value { (line : List Node) → CanConnect self.now stretch.now cells.old line
            → result ≡ connected_value cells.old.values (small stretch.now.sink) line }
        ensures fits { Fits (small stretch.now.sink) result }
        ensures same { cells.new ≡ cells.old }
    {
        let value = self.value(stretch, cells);
        match stretch.own.kind {
            // a natural number is its own extension
            Kind::UInt => value,
            Kind::SInt => extend(Val(value), stretch.own.ty(), u32::from(stretch.sink.width)).0,
        }
    }
}

// The number of an instruction, if there are at most 4,294,967,295.
fn number_of(count: usize) -> Result<u32, AllocError>
    ensures { IfOk result (λ number. number ≡ count) }
{
    if count > u32::MAX as usize {
        return Err(AllocError);
    }
    Ok(count as u32)
}
