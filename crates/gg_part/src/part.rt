//! `Part`: a part of a flat circuit, with its numbers in the whole circuit.
ghost use Rattle.std.specs.Prelude.{◌≡◌};

use gg_bits::{Ids, Items};
use gg_flat::Piece;
use gg_flat_tree::ClockNumbers;

/// A part of a flat circuit. Code that makes one has to ensure that it is one (`IsPart` in `specs/Part`), as
/// `part_of` does.
pub struct Part {
    /// The part as a circuit of its own.
    pub piece: Piece,
    /// The number of each signal in the whole circuit.
    pub globals: Ids,
    /// The number of each register in the whole circuit.
    pub held: Ids,
    /// The number of each memory in the whole circuit.
    pub memories: Ids,
    /// For each clock of the part the clock of the whole circuit that it follows, if any.
    pub clocks: ClockNumbers,
}

impl Drop for Part {
    fn drop(self) {
        let Self {
            piece,
            globals,
            held,
            memories,
            clocks,
        } = self;
        drop(piece);
        drop(globals);
        drop(held);
        drop(memories);
        drop(clocks);
    }
}

impl Part {
    /// Takes the part as a circuit of its own, without its numbers.
    pub fn into_piece(self) -> Piece
        ensures { result ≡ self.piece }
    {
        let Self {
            piece,
            globals,
            held,
            memories,
            clocks,
        } = self;
        drop(globals);
        drop(held);
        drop(memories);
        drop(clocks);
        piece
    }
}

/// Which clocks of a part the registers and the memories of the whole circuit follow. What isn't in the part doesn't matter.
pub struct Clocking {
    /// For each register of the whole circuit the part's clock that it follows, if any.
    pub registers: ClockNumbers,
    /// For each memory of the whole circuit the part's clocks that its ports follow: its readers, then its writers.
    pub ports: Items<ClockNumbers>,
}

impl Drop for Clocking {
    fn drop(self) {
        let Self { registers, ports } = self;
        drop(registers);
        drop(ports);
    }
}
