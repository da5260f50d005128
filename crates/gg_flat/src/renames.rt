//! `Renames`: other numbers for signals, registers and memories.
ghost use Rattle.std.specs.Prelude.{◌≡◌};
ghost use Rattle.gg_flat.specs.Line.{value_at};

/// Other numbers for signals, registers and memories, and other clocks.
pub trait Renames {
    ghost use Rattle.gg_flat.specs.Renaming.{Renaming};

    /// The other numbers, as functions.
    ghost numbers: { Self → Renaming };

    /// The number of a signal.
    fn signal(&self, signal: u32) -> u32
        ensures { result ≡ (numbers self.now).signals signal };

    /// The number of a register.
    fn register(&self, register: u32) -> u32
        ensures { result ≡ (numbers self.now).registers register };

    /// The number of a memory.
    fn memory(&self, memory: u32) -> u32
        ensures { result ≡ (numbers self.now).memories memory };

    /// The clock that is followed in place of this one, if any.
    fn clock(&self, clock: Option<u32>) -> Option<u32>
        ensures { result ≡ (numbers self.now).clocks clock };
}

/// Numbers by lists: the new number is the entry at the old one, 0 past the end. Everything with a clock follows one
/// and the same.
#[derive(Clone, Copy)]
pub struct Lists<'a> {
    /// The numbers of signals.
    pub signals: &'a [u32],
    /// The numbers of registers.
    pub registers: &'a [u32],
    /// The numbers of memories.
    pub memories: &'a [u32],
    /// The clock that everything follows; none: every tick.
    pub clock: Option<u32>,
}

/// The number at a place of a list; 0 past its end.
pub fn number_at(list: &[u32], place: u32) -> u32
    ensures { result ≡ value_at list.now place }
{
    match list.get(place as usize) {
        Some(number) => *number,
        None => 0,
    }
}

impl<'a> Renames for Lists<'a> {
    ghost use Rattle.gg_flat.specs.Line.{value_at};

    ghost numbers = { λ lists. record { signals = value_at lists.signals.now; registers = value_at lists.registers.now; memories = value_at lists.memories.now; clocks = λ clock. lists.clock } };

    fn signal(&self, signal: u32) -> u32 {
        number_at(self.signals, signal)
    }

    fn register(&self, register: u32) -> u32 {
        number_at(self.registers, register)
    }

    fn memory(&self, memory: u32) -> u32 {
        number_at(self.memories, memory)
    }

    fn clock(&self, _clock: Option<u32>) -> Option<u32> {
        self.clock
    }
}
