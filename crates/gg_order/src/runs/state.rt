//! `State`: the state of a flat circuit between two cycles.
ghost use Rattle.std.specs.Prelude.{◌≡◌, ◌<◌, length, map, slice_set, All, IfOk};
ghost use Rattle.gg_flat.specs.State.{opening, IsState};
ghost use Rattle.std.specs.Borrow.{sem};
ghost use Rattle.gg_order.specs.inside.Lent.{LendsBank};
ghost use Rattle.gg_flat.specs.Memory.{bank_at, opening_bank, next_banks, AreBanks};
ghost use Rattle.gg_flat.specs.WellFormed.{IsWellFormed, IsMemory};
ghost use Rattle.gg_flat.specs.Circuit.{signal_shapes};
ghost use Rattle.gg_flat.specs.Line.{AreTyped};
ghost use Rattle.gg_flat.specs.inside.Line.{HasValue};

use crate::runs::bank::Bank;
use crate::runs::room::zeros;
use gg_flat::{Memory, Piece};
use std::alloc::{AllocError, Global};
use std::marker::Model;

/// The values of a circuit's registers before a cycle, and the contents of each of its memories.
pub struct State {
    registers: Vec<u128>,
    banks: Vec<Bank>,
}

impl Drop for State {
    fn drop(self) {
        let Self { registers, banks } = self;
        drop(registers);
        drop(banks);
    }
}

impl Model for State {
    ghost use Rattle.gg_flat.specs.State as states;

    ghost Value = { states.State };

    ghost view = { λ state. record { registers = state.registers.items; banks = state.banks.items } };
}

impl State {
    /// The state before the first cycle: zeros.
    ///
    /// # Errors
    ///
    /// Returns `AllocError` if an allocation fails.
    pub fn new(alloc: Global, piece: &Piece) -> Result<State, AllocError>
        ensures opening { IfOk result (λ state. state ≡ opening piece.now) }
        ensures typed { IfOk result (λ state. IsState piece.now state) }
    {
        let registers = zeros(alloc, piece.registers().len())?;
        let banks = opening_banks(alloc, piece.memories())?;
        Ok(State { registers, banks })
    }

    /// The state with these registers and memories. Does not allocate.
    pub fn of(registers: Vec<u128>, banks: Vec<Bank>) -> State
        ensures { result ≡ record { registers = registers.items; banks = banks.items } }
    {
        State { registers, banks }
    }

    /// The registers' values.
    pub fn registers(&self) -> &[u128]
        ensures { result.now ≡ self.now.registers }
    {
        self.registers.as_slice()
    }

    /// The contents of the memories.
    pub fn banks(&self) -> &[Bank]
        ensures { result.now ≡ self.now.banks }
    {
        self.banks.as_slice()
    }

    /// The contents of the memory at this place, to be changed. The rest stays as it is.
    pub fn bank_mut(&mut self, place: usize) -> &mut Bank
        requires { place < length self.old.banks }
        ensures* writes_back { sem 𝓛 (LendsBank self.entry place result) }
        ensures value { result.now ≡ bank_at self.old.banks place }
    {
        &mut self.banks[place]
    }

    /// Sets the value of a register, given by its number.
    #[inline(always)]
    pub fn set_register(&mut self, register: usize, value: u128)
        requires { register < length self.old.registers }
        ensures { self.new ≡ record self.old { registers = slice_set self.old.registers register value } }
    {
        self.registers[register] = value;
    }

    /// Replaces the contents of each memory by its contents after a tick with these edges, if the signals have these
    /// values. Edges are given by clock, values by signal.
    ///
    /// The piece is well formed. State and values have its counts and types. Only the words of a memory that its writers
    /// name are written.
    pub fn advance_banks(&mut self, piece: &Piece, edges: &[bool], signals: &[u128])
        requires formed { IsWellFormed piece.now }
        requires banks { AreBanks piece.now.memories self.old.banks }
        requires signals { AreTyped (signal_shapes piece.now) signals.now }
        ensures next { self.new ≡ record self.old { banks = next_banks edges.now signals.now piece.now.memories self.old.banks } }
        ensures typed { AreBanks piece.now.memories self.new.banks }
    {
        next_contents(piece.memories(), &mut self.banks, edges, signals);
    }
}

// The contents of memories before the first cycle.
fn opening_banks(alloc: Global, memories: &[Memory]) -> Result<Vec<Bank>, AllocError>
    ensures { IfOk result (λ banks. banks.items ≡ map (λ memory. opening_bank memory) memories.now) }
{
    let mut banks = Vec::new(alloc);
    for memory in memories {
        banks.push(Bank::new(alloc, memory)?)?;
    }
    Ok(banks)
}

// Replaces the contents of each memory by its contents after the tick.
fn next_contents(memories: &[Memory], banks: &mut [Bank], edges: &[bool], signals: &[u128])
    requires memories { All (IsMemory (HasValue signals.now)) memories.now }
    requires banks { AreBanks memories.now banks.old }
    ensures next { banks.new ≡ next_banks edges.now signals.now memories.now banks.old }
    ensures typed { AreBanks memories.now banks.new }
{
    for m in 0..memories.len() {
        banks[m].advance(&memories[m], edges, signals);
    }
}
