//! `Tape`: the lines of a circuit, in an order of its signals.
ghost use Rattle.std.specs.Prelude.{◌≡◌, ℕ, ◌<◌, ◌≤◌, ◌^◌, [], ◌∷◌, ◌++◌, length, IfOk, IfSome, OnOk};
ghost use Rattle.gg_bits.specs.Shape.{shape, Fits};
ghost use Rattle.gg_flat.specs.Line.{shape_at, value_at, AreTyped};
ghost use Rattle.gg_flat.specs.Circuit.{signal_shapes, register_shapes, driver_at};
ghost use Rattle.gg_flat.specs.WellFormed.{IsWellFormed, MayDrive};
ghost use Rattle.gg_flat.specs.State.{IsState, next_state, next_registers};
ghost use Rattle.gg_flat.specs.Order.{IsOrder};
ghost use Rattle.gg_flat.specs.inside.Settled.{HasSource};
ghost use Rattle.gg_flat.specs.Settled.{Settled, IsInputs, driver_value as driver_value_of};
ghost use Rattle.gg_order.specs.runs.Room.{HasRoom, line_length};
ghost use Rattle.gg_tape.specs.inside.Tape.{signals_of, AreTapedSignals, IsReference, IsOrigin, IsTape, IsWhole, Grows};

use crate::cells::Cells;
use crate::code::Code;
use crate::taped::{Origin, TapedRegister, TapedSignal};
use gg_bits::{Kind, Ty};
use gg_flat::{Driver, Node, Op, Piece, op_of, type_of};
use gg_order::State;
use std::alloc::{AllocError, Global};

/// The lines of a circuit as one list of instructions: those of its signals, in an order, and then those of its
/// registers.
pub struct Tape {
    code: Code,
    signals: Vec<TapedSignal>,
    registers: Vec<TapedRegister>,
}

impl Drop for Tape {
    fn drop(self) {
        let Self {
            code,
            signals,
            registers,
        } = self;
        drop(code);
        drop(signals);
        drop(registers);
    }
}

impl Tape {
    /// The tape of these signals of a well-formed circuit, and of its registers.
    ///
    /// # Errors
    ///
    /// Returns `AllocError` if an allocation fails, or if there are more than 4,294,967,295 instructions, literals or
    /// cells.
    pub fn of(alloc: Global, piece: &Piece, signals: &[u32]) -> Result<Tape, AllocError>
        requires formed { IsWellFormed piece.now }
        requires known { (k : ℕ) → k < length signals.now → value_at signals.now k < length piece.now.signals }
        ensures tape { IfOk result (λ tape. IsTape piece.now tape) }
        ensures signals { IfOk result (λ tape. signals_of tape ≡ signals.now) }
    {
        let mut tape = Tape {
            code: Code::new(alloc),
            signals: Vec::new(alloc),
            registers: Vec::new(alloc),
        };
        for signal in signals {
            tape.add(piece, *signal)?;
        }
        tape.add_registers(piece)?;
        Ok(tape)
    }

    /// The tape of all signals of a well-formed circuit, by their numbers, and of its registers.
    ///
    /// # Errors
    ///
    /// Returns `AllocError` as `of` does.
    pub fn whole(alloc: Global, piece: &Piece) -> Result<Tape, AllocError>
        requires formed { IsWellFormed piece.now }
        ensures whole { IfOk result (λ tape. IsWhole piece.now tape) }
    {
        let mut tape = Tape {
            code: Code::new(alloc),
            signals: Vec::new(alloc),
            registers: Vec::new(alloc),
        };
        for signal in 0..piece.signal_count() {
            tape.add(piece, signal as u32)?;
        }
        tape.add_registers(piece)?;
        Ok(tape)
    }

    // Adds a signal at the end.
    fn add(&mut self, piece: &Piece, signal: u32) -> Result<(), AllocError>
        requires formed { IsWellFormed piece.now }
        requires known { signal < length piece.now.signals }
        requires signals { AreTapedSignals piece.now self.old }
        ensures taped { OnOk result (AreTapedSignals piece.now self.new) }
        ensures signals { OnOk result (signals_of self.new ≡ signals_of self.old ++ signal ∷ []) }
        ensures registers { self.new.registers ≡ self.old.registers }
    {
        let row = &piece.signals()[signal as usize];
        let origin = origin_of(&mut self.code, piece, signal, &row.driver, row.ty)?;
        self.signals.push(TapedSignal { signal, origin })?;
        Ok(())
    }

    // Adds the lines of all registers. There are none yet.
    fn add_registers(&mut self, piece: &Piece) -> Result<(), AllocError>
        requires formed { IsWellFormed piece.now }
        requires signals { AreTapedSignals piece.now self.old }
        requires none { self.old.registers.items ≡ [] }
        ensures tape { OnOk result (IsTape piece.now self.new) }
        ensures signals { self.new.signals ≡ self.old.signals }
    {
        for register in piece.registers() {
            let taped = self.code.tell_register(piece.signal_count(), register)?;
            self.registers.push(taped)?;
        }
        Ok(())
    }

    /// The value of the signal at this place of the tape's order, in this state and with these inputs.
    ///
    /// State, inputs and cells belong to the circuit. Its driver can be evaluated, and there is room for its line.
    #[inline(always)]
    pub fn value(
        &self,
        _piece: &Piece,
        place: usize,
        state: &State,
        inputs: &[u128],
        cells: &mut Cells,
    ) -> u128
        requires tape { IsTape _piece.now self.now }
        requires place { place < length (signals_of self.now) }
        requires count { length cells.old.values ≡ length _piece.now.signals }
        requires source { HasSource state.now inputs.now cells.old.values (shape_at (signal_shapes _piece.now) (value_at (signals_of self.now) place)) (driver_at _piece.now (value_at (signals_of self.now) place)) }
        requires room { line_length (driver_at _piece.now (value_at (signals_of self.now) place)) ≤ cells.old.room }
        ensures value { result ≡ driver_value_of state.now inputs.now cells.old.values (shape_at (signal_shapes _piece.now) (value_at (signals_of self.now) place)) (driver_at _piece.now (value_at (signals_of self.now) place)) }
        ensures fits { Fits (shape_at (signal_shapes _piece.now) (value_at (signals_of self.now) place)) result }
        ensures same { cells.new ≡ cells.old }
    {
        match &self.signals[place].origin {
            Origin::FromLine(stretch) => self.code.connected(stretch, cells),
            Origin::FromSignal(signal) => cells.value(*signal),
            Origin::FromInput(place) => inputs[*place as usize],
            Origin::FromRegister(register) => state.registers()[*register as usize],
            Origin::FromMemory(memory, addr, en) => {
                let (addr, en) = (cells.value(*addr), cells.value(*en));
                state.banks()[*memory as usize].word(addr, en)
            }
            Origin::FromReader(memory, reader) => {
                state.banks()[*memory as usize].reads()[*reader as usize]
            }
        }
    }

    /// Settles the values of all signals, in this state and with these inputs: each signal of the tape's order in turn
    /// gets its driver's value.
    ///
    /// The piece is well formed, and the order has each signal once, after all signals that it reads. State, inputs and
    /// the old values have the piece's counts and types, and there is room for its lines (gg_order `room_of`).
    pub fn settle(&self, piece: &Piece, state: &State, inputs: &[u128], cells: &mut Cells)
        requires formed { IsWellFormed piece.now }
        requires tape { IsTape piece.now self.now }
        requires order { IsOrder piece.now (signals_of self.now) }
        requires state { IsState piece.now state.now }
        requires inputs { IsInputs piece.now inputs.now }
        requires typed { AreTyped (signal_shapes piece.now) cells.old.values }
        requires room { HasRoom piece.now cells.old.room }
        ensures settled { Settled piece.now state.now inputs.now cells.new.values }
        ensures room { cells.new.room ≡ cells.old.room }
    {
        for place in 0..self.signals.len() {
            let value = self.value(piece, place, state, inputs, cells);
            cells.set(self.signals[place].signal, value);
        }
    }

    /// Advances to the state after a tick with these edges, if the signals have the values of these cells. Edges are
    /// given by clock.
    ///
    /// The piece is well formed. State and values have its counts and types, and there is room for its lines (gg_order
    /// `room_of`). Only the words of a memory that its writers name are written.
    pub fn advance(&self, piece: &Piece, state: &mut State, edges: &[bool], cells: &mut Cells)
        requires formed { IsWellFormed piece.now }
        requires tape { IsTape piece.now self.now }
        requires state { IsState piece.now state.old }
        requires signals { AreTyped (signal_shapes piece.now) cells.old.values }
        requires room { HasRoom piece.now cells.old.room }
        ensures next { state.new ≡ next_state edges.now piece.now state.old cells.old.values }
        ensures typed { IsState piece.now state.new }
        ensures same { cells.new ≡ cells.old }
    {
        self.advance_registers(piece, state, edges, cells);
        state.advance_banks(piece, edges, cells.values());
    }

    // Replaces the value of each register by its value after a tick with these edges.
    fn advance_registers(&self, piece: &Piece, state: &mut State, edges: &[bool], cells: &mut Cells)
        requires formed { IsWellFormed piece.now }
        requires tape { IsTape piece.now self.now }
        requires state { AreTyped (register_shapes piece.now) state.old.registers }
        requires signals { AreTyped (signal_shapes piece.now) cells.old.values }
        requires room { HasRoom piece.now cells.old.room }
        ensures next { state.new ≡ record state.old { registers = next_registers edges.now cells.old.values piece.now.registers state.old.registers } }
        ensures typed { AreTyped (register_shapes piece.now) state.new.registers }
        ensures same { cells.new ≡ cells.old }
    {
        for r in 0..self.registers.len() {
            let (taped, register) = (&self.registers[r], &piece.registers()[r]);
            let own = state.registers()[r];
            let next = self.code.next_value(taped, register, own, edges, cells);
            state.set_register(r, next);
        }
    }
}

// Where the value of a signal comes from, by its driver. The instructions of a line are added.
fn origin_of(
    code: &mut Code,
    piece: &Piece,
    _signal: u32,
    driver: &Driver,
    sink: Ty,
) -> Result<Origin, AllocError>
    requires driver { MayDrive piece.now _signal driver.now }
    requires sink { shape_at (signal_shapes piece.now) _signal ≡ shape sink }
    ensures origin { IfOk result (λ origin. IsOrigin (length piece.now.signals) code.new (shape sink) origin driver.now) }
    ensures grown { OnOk result (Grows code.old code.new) }
{
    match driver {
        Driver::Input(place) => Ok(Origin::FromInput(*place)),
        Driver::Held(register) => Ok(Origin::FromRegister(*register)),
        Driver::MemoryWord(memory, _, addr, en) => Ok(Origin::FromMemory(*memory, *addr, *en)),
        Driver::ReadRegister(memory, reader) => Ok(Origin::FromReader(*memory, *reader)),
        Driver::Computed(line) => match lone_signal(line.as_slice()) {
            Some(signal) => Ok(Origin::FromSignal(signal)),
            None => {
                let stretch = code.tell(piece.signal_count(), line, sink)?;
                Ok(Origin::FromLine(stretch))
            }
        },
    }
}

// The signal that a line refers to, if it is nothing but a reference of kind `UInt`.
fn lone_signal(nodes: &[Node]) -> Option<u32>
    ensures { IfSome result (λ signal. IsReference signal nodes.now) }
{
    if nodes.len() != 1 || type_of(nodes, 0).kind == Kind::SInt {
        return None;
    }
    match op_of(nodes, 0) {
        Op::Ref(signal) => Some(*signal),
        _ => None,
    }
}
