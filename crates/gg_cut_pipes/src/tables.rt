//! `Tables`: who names what, by machine.
ghost use Rattle.std.specs.Prelude.{◌≡◌};
ghost use Rattle.gg_flat.specs.Line.{value_at};
ghost use Rattle.gg_cut_pipes.specs.inside.Tables.{kept_in, seen_in};

use gg_bits::Ids;
use gg_flat::{Renames, number_at};

// Who names what: for each signal the machine with its driver, for each register the machine that holds it, and for each memory the machine that has
// it. For each signal with a piped channel, the machine that takes the channel, and the number of the pipe; otherwise 0.
pub(crate) struct Tables {
    // By the signals.
    pub(crate) makers: Ids,
    // By the registers.
    pub(crate) holders: Ids,
    // By the memories.
    pub(crate) keepers: Ids,
    // By the signals.
    pub(crate) takers: Ids,
    // By the signals.
    pub(crate) pipes: Ids,
}

impl Drop for Tables {
    fn drop(self) {
        let Self {
            makers,
            holders,
            keepers,
            takers,
            pipes,
        } = self;
        drop(makers);
        drop(holders);
        drop(keepers);
        drop(takers);
        drop(pipes);
    }
}

impl Tables {
    // The number that the consumer of a signal's channel sees the signal by: the pipe's, or its own.
    pub(crate) fn kept(&self, signal: u32) -> u32
        ensures { result ≡ kept_in self.now signal }
    {
        let pipe = number_at(self.pipes.as_slice(), signal);
        if pipe == 0 { signal } else { pipe }
    }

    // The numbers that a machine sees signals by.
    pub(crate) fn by(&self, machine: u32) -> Seen
        ensures tables { result.tables.now ≡ self.now }
        ensures machine { result.machine ≡ machine }
    {
        Seen {
            tables: self,
            machine,
        }
    }

    // The number that a machine sees a signal by.
    pub(crate) fn seen(&self, machine: u32, signal: u32) -> u32
        ensures { result ≡ seen_in self.now machine signal }
    {
        if number_at(self.takers.as_slice(), signal) == machine {
            self.kept(signal)
        } else {
            signal
        }
    }
}

// The numbers that a machine sees signals by. Everything that isn't a signal keeps its number.
#[derive(Clone, Copy)]
pub(crate) struct Seen<'a> {
    // Who names what.
    tables: &'a Tables,
    // The machine.
    machine: u32,
}

impl<'a> Renames for Seen<'a> {
    ghost use Rattle.gg_cut_pipes.specs.inside.Tables.{seen_in};
    ghost use Rattle.gg_flat.specs.Renaming.{signals_by};

    ghost numbers = { λ seen. signals_by (seen_in seen.tables.now seen.machine) };

    fn signal(&self, signal: u32) -> u32 {
        self.tables.seen(self.machine, signal)
    }

    fn register(&self, register: u32) -> u32 {
        register
    }

    fn memory(&self, memory: u32) -> u32 {
        memory
    }

    fn clock(&self, clock: Option<u32>) -> Option<u32> {
        clock
    }
}
