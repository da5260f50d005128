//! `Piece`: a flat circuit, built signal by signal.
ghost use Rattle.std.specs.Prelude.{◌≡◌, ◌≢◌, ◌<◌, ◌-◌, ◌^◌, [], ◌∷◌, ◌++◌, length, Err, OnOk, OnErr, IfOk, IfSome, IfNone, Some, slice_get, AllPairs, Contains, option_copied};
ghost use Rattle.gg_bits.specs.declared.paths.AddError.TheVariants.{Doubled};
ghost use Rattle.gg_flat.specs.Circuit.{no_circuit};

use crate::line::Line;
use crate::memory::Memory;
use gg_bits::{AddError, Name, Paths, Ty};
use std::alloc::{AllocError, Global};
use std::marker::Model;

/// The driver of a signal: the source of its value in a cycle.
#[derive(Drop)]
pub enum Driver {
    /// The outside: the input at this place among the in-signals.
    Input(u32),
    /// A register's value, by the register's number.
    Held(u32),
    /// The word that a reader of a memory of read latency 0 reads: the memory's number, the reader's, and the signals
    /// of its address and of its enable.
    MemoryWord(u32, u32, u32, u32),
    /// The read register of a reader of a memory of read latency 1: the memory's number and the reader's.
    ReadRegister(u32, u32),
    /// The result of a line, extended to the signal's width by its own kind.
    Computed(Line),
}

impl Clone for Driver {
    ghost is_clone = { λ driver copy. copy ≡ driver };

    fn clone(&self) -> Result<Driver, AllocError> {
        match self {
            Driver::Input(place) => Ok(Driver::Input(*place)),
            Driver::Held(register) => Ok(Driver::Held(*register)),
            Driver::MemoryWord(memory, reader, addr, en) => {
                Ok(Driver::MemoryWord(*memory, *reader, *addr, *en))
            }
            Driver::ReadRegister(memory, reader) => Ok(Driver::ReadRegister(*memory, *reader)),
            Driver::Computed(line) => Ok(Driver::Computed(line.clone()?)),
        }
    }
}

/// A signal of a flat circuit: a port, wire, register, node or memory field that is not a Clock.
pub struct Signal {
    /// The type of its values.
    pub ty: Ty,
    /// Its driver.
    pub driver: Driver,
}

impl Drop for Signal {
    fn drop(self) {
        let Self { ty: _, driver } = self;
        drop(driver);
    }
}

impl Clone for Signal {
    ghost is_clone = { λ signal copy. copy ≡ signal };

    fn clone(&self) -> Result<Signal, AllocError> {
        Ok(Signal {
            ty: self.ty,
            driver: self.driver.clone()?,
        })
    }
}

/// A register's reset: if the condition is 1, the register takes the init.
pub struct Reset {
    /// One unsigned bit.
    pub condition: Line,
    /// The value that the register takes.
    pub init: Line,
}

impl Drop for Reset {
    fn drop(self) {
        let Self { condition, init } = self;
        drop(condition);
        drop(init);
    }
}

impl Clone for Reset {
    ghost is_clone = { λ reset copy. copy ≡ reset };

    fn clone(&self) -> Result<Reset, AllocError> {
        Ok(Reset {
            condition: self.condition.clone()?,
            init: self.init.clone()?,
        })
    }
}

/// A register: its type, its reset, its connection, and its clock. Without a connection it keeps its value.
pub struct Register {
    /// The type of its values.
    pub ty: Ty,
    /// Its reset, if it has one.
    pub reset: Option<Reset>,
    /// Its connection, if it has one.
    pub next: Option<Line>,
    /// The clock that it follows, by its place among the piece's clocks; none: every tick.
    pub clock: Option<u32>,
}

impl Drop for Register {
    fn drop(self) {
        let Self {
            ty: _,
            reset,
            next,
            clock: _,
        } = self;
        drop(reset);
        drop(next);
    }
}

impl Clone for Register {
    ghost is_clone = { λ register copy. copy ≡ register };

    fn clone(&self) -> Result<Register, AllocError> {
        Ok(Register {
            ty: self.ty,
            reset: self.reset.clone()?,
            next: self.next.clone()?,
            clock: self.clock,
        })
    }
}

/// A flat circuit, or a part of one. A contract sees it as a `FlatCircuit`: lists of paths, signals, registers,
/// memories, in-signals and out-signals, and the number of clocks. No two signals have the same path.
pub struct Piece {
    paths: Paths,
    signals: Vec<Signal>,
    registers: Vec<Register>,
    memories: Vec<Memory>,
    ins: Vec<u32>,
    outs: Vec<u32>,
    clocks: u32,
}

impl Drop for Piece {
    fn drop(self) {
        let Self {
            paths,
            signals,
            registers,
            memories,
            ins,
            outs,
            clocks: _,
        } = self;
        drop(paths);
        drop(signals);
        drop(registers);
        drop(memories);
        drop(ins);
        drop(outs);
    }
}

impl Model for Piece {
    ghost use Rattle.std.specs.Prelude.{◌≡◌, [], length};
    ghost use Rattle.gg_flat.specs.Circuit.{FlatCircuit};

    ghost Value = { FlatCircuit };

    ghost view = { λ piece. record { paths = piece.paths; signals = piece.signals.items; registers = piece.registers.items; memories = piece.memories.items; ins = piece.ins.items; outs = piece.outs.items; clocks = piece.clocks } };

    ghost invariant = { λ piece. length piece.paths ≡ length piece.signals.items };
}

impl Piece {
    /// The piece without a signal.
    pub fn new(alloc: Global) -> Piece
        ensures { result ≡ no_circuit }
    {
        Piece {
            paths: Paths::new(alloc),
            signals: Vec::new(alloc),
            registers: Vec::new(alloc),
            memories: Vec::new(alloc),
            ins: Vec::new(alloc),
            outs: Vec::new(alloc),
            clocks: 0,
        }
    }

    /// A copy of the piece.
    ///
    /// # Errors
    ///
    /// Returns `AllocError` if an allocation fails.
    pub fn copy(&self) -> Result<Piece, AllocError>
        ensures { IfOk result (λ copy. copy ≡ self.now) }
    {
        Ok(Piece {
            paths: self.paths.clone()?,
            signals: self.signals.clone()?,
            registers: self.registers.clone()?,
            memories: self.memories.clone()?,
            ins: self.ins.clone()?,
            outs: self.outs.clone()?,
            clocks: self.clocks,
        })
    }

    /// The signals, in order.
    pub fn signals(&self) -> &[Signal]
        ensures { result.now ≡ self.now.signals }
    {
        self.signals.as_slice()
    }

    /// The registers, in order.
    pub fn registers(&self) -> &[Register]
        ensures { result.now ≡ self.now.registers }
    {
        self.registers.as_slice()
    }

    /// The memories, in order.
    pub fn memories(&self) -> &[Memory]
        ensures { result.now ≡ self.now.memories }
    {
        self.memories.as_slice()
    }

    /// The in-signals, in port order.
    pub fn ins(&self) -> &[u32]
        ensures { result.now ≡ self.now.ins }
    {
        self.ins.as_slice()
    }

    /// The out-signals, in port order.
    pub fn outs(&self) -> &[u32]
        ensures { result.now ≡ self.now.outs }
    {
        self.outs.as_slice()
    }

    /// How many clocks there are.
    pub fn clocks(&self) -> u32
        ensures { result ≡ self.now.clocks }
    {
        self.clocks
    }

    /// How many signals there are, which is how many paths there are: fewer than 4,294,967,296.
    pub fn signal_count(&self) -> usize
        ensures count { result ≡ length self.now.signals }
        ensures paths { length self.now.paths ≡ length self.now.signals }
        ensures few { length self.now.signals < 2 ^ 32 }
        ensures distinct { AllPairs (λ a b. a ≢ b) self.now.paths }
    {
        self.paths.len()
    }

    /// The number of the signal with this path, if there is one.
    pub fn find(&self, path: &Name) -> Option<u32>
        ensures found { IfSome result (λ signal. slice_get self.now.paths signal ≡ Some path.now) }
        ensures missing { IfNone result (¬ Contains self.now.paths path.now) }
    {
        self.paths.find(path)
    }

    /// The path of a signal; none past the end.
    pub fn path(&self, signal: u32) -> Option<&Name>
        ensures { option_copied result ≡ slice_get self.now.paths signal }
    {
        self.paths.get(signal)
    }

    /// Adds a signal, as the last. There are at most 4,294,967,294 signals before.
    ///
    /// # Errors
    ///
    /// Returns `Doubled` if a signal has that path. Returns `NoMemory` if an allocation fails. The piece then stays as
    /// it was.
    pub fn add_signal(&mut self, path: Name, signal: Signal) -> Result<(), AddError>
        requires { length self.old.signals < 2 ^ 32 - 1 }
        ensures ok { OnOk result (self.new ≡ record self.old { paths = self.old.paths ++ path ∷ []; signals = self.old.signals ++ signal ∷ [] }) }
        ensures fresh { OnOk result (¬ Contains self.old.paths path) }
        ensures doubled { result ≡ Err Doubled → Contains self.old.paths path }
        ensures err { OnErr result (self.new ≡ self.old) }
    {
        if self.signals.reserve(1).is_err() {
            return Err(AddError::NoMemory);
        }
        match self.paths.add(path) {
            Ok(()) => {
                self.signals.push_reserved(signal);
                Ok(())
            }
            Err(cause) => Err(cause),
        }
    }

    /// Adds a register, as the last.
    ///
    /// # Errors
    ///
    /// Returns `AllocError` if an allocation fails. The piece then stays as it was.
    pub fn add_register(&mut self, register: Register) -> Result<(), AllocError>
        ensures ok { OnOk result (self.new ≡ record self.old { registers = self.old.registers ++ register ∷ [] }) }
        ensures err { OnErr result (self.new ≡ self.old) }
    {
        self.registers.push(register)?;
        Ok(())
    }

    /// Adds a memory, as the last.
    ///
    /// # Errors
    ///
    /// Returns `AllocError` if an allocation fails. The piece then stays as it was.
    pub fn add_memory(&mut self, memory: Memory) -> Result<(), AllocError>
        ensures ok { OnOk result (self.new ≡ record self.old { memories = self.old.memories ++ memory ∷ [] }) }
        ensures err { OnErr result (self.new ≡ self.old) }
    {
        self.memories.push(memory)?;
        Ok(())
    }

    /// Adds a signal, by its number, to the in-signals.
    ///
    /// # Errors
    ///
    /// Returns `AllocError` if an allocation fails. The piece then stays as it was.
    pub fn add_in(&mut self, signal: u32) -> Result<(), AllocError>
        ensures ok { OnOk result (self.new ≡ record self.old { ins = self.old.ins ++ signal ∷ [] }) }
        ensures err { OnErr result (self.new ≡ self.old) }
    {
        self.ins.push(signal)?;
        Ok(())
    }

    /// Adds a signal, by its number, to the out-signals.
    ///
    /// # Errors
    ///
    /// Returns `AllocError` if an allocation fails. The piece then stays as it was.
    pub fn add_out(&mut self, signal: u32) -> Result<(), AllocError>
        ensures ok { OnOk result (self.new ≡ record self.old { outs = self.old.outs ++ signal ∷ [] }) }
        ensures err { OnErr result (self.new ≡ self.old) }
    {
        self.outs.push(signal)?;
        Ok(())
    }

    /// Sets the number of the piece's clocks.
    pub fn set_clocks(&mut self, count: u32)
        ensures { self.new ≡ record self.old { clocks = count } }
    {
        self.clocks = count;
    }
}
