//! `StateDraft`: a state that is being filled.
ghost use Rattle.std.specs.Prelude.{◌≡◌, ◌<◌, ◌++◌, ℕ, All, length, map, IfOk};
ghost use Rattle.gg_flat.specs.Line.{value_at};
ghost use Rattle.gg_flat.specs.Memory.{bank_at, opening_bank};
ghost use Rattle.gg_flat.specs.State.{State, opening};
ghost use Rattle.gg_snap.specs.inside.Parts.{HasPart, HasSizeOf, IsPartState, put};
ghost use Rattle.gg_snap.specs.inside.Draft.{HasValue, with_value};

use crate::text::row::At;
use gg_flat::{Memory, Piece};
use gg_order::{Bank, State};
use std::alloc::{AllocError, Global};
use std::marker::Model;

// The words and read registers of a memory, which can be written.
struct Filled {
    words: Vec<u128>,
    reads: Vec<u128>,
}

impl Drop for Filled {
    fn drop(self) {
        let Self { words, reads } = self;
        drop(words);
        drop(reads);
    }
}

impl Model for Filled {
    ghost use Rattle.gg_flat.specs.Memory as memories;

    ghost Value = { memories.Bank };

    ghost view = { λ bank. record { words = bank.words.items; reads = bank.reads.items } };
}

/// A state that is being filled, value by value or part by part. A contract sees the state so far.
pub struct StateDraft {
    registers: Vec<u128>,
    banks: Vec<Filled>,
}

impl Drop for StateDraft {
    fn drop(self) {
        let Self { registers, banks } = self;
        drop(registers);
        drop(banks);
    }
}

impl Model for StateDraft {
    ghost use Rattle.gg_flat.specs.State as states;

    ghost Value = { states.State };

    ghost view = { λ draft. record { registers = draft.registers.items; banks = draft.banks.items } };
}

impl Filled {
    // The bank with these words and reads. Does not allocate.
    fn into_bank(self) -> Bank
        ensures { result ≡ self }
    {
        let Self { words, reads } = self;
        Bank::of(words, reads)
    }
}

// The values of a memory before the first cycle.
fn empty(alloc: Global, memory: &Memory) -> Result<Filled, AllocError>
    ensures { IfOk result (λ bank. bank ≡ opening_bank memory.now) }
{
    let words = vec![in alloc; 0u128; memory.depth as usize]?;
    let reads = vec![in alloc; 0u128; memory.read_count()]?;
    Ok(Filled { words, reads })
}

// The values of memories before the first cycle.
fn empty_banks(alloc: Global, memories: &[Memory]) -> Result<Vec<Filled>, AllocError>
    ensures { IfOk result (λ banks. banks.items ≡ map (λ memory. opening_bank memory) memories.now) }
{
    let mut banks = Vec::new(alloc);
    for memory in memories {
        banks.push(empty(alloc, memory)?)?;
    }
    Ok(banks)
}

// The banks of these memories.
fn banks_of(alloc: Global, filled: Vec<Filled>) -> Result<Vec<Bank>, AllocError>
    ensures { IfOk result (λ banks. banks.items ≡ filled.items) }
{
    let mut banks = Vec::new(alloc);
    for bank in filled {
        banks.push(bank.into_bank())?;
    }
    Ok(banks)
}

// Writes values at these places.
fn put_values(old: &mut [u128], places: &[u32], values: &[u128])
    requires count { length values.now ≡ length places.now }
    requires known { All (λ place. place < length old.old) places.now }
    ensures { old.new ≡ put old.old places.now values.now }
{
    for i in 0..places.len() {
        old[places[i] as usize] = values[i];
    }
}

// Copies the values of a bank into a memory.
fn put_bank(old: &mut Filled, bank: &Bank)
    requires words { length bank.now.words ≡ length old.old.words }
    requires reads { length bank.now.reads ≡ length old.old.reads }
    ensures { old.new ≡ bank.now }
{
    old.words.copy_from_slice(bank.words());
    old.reads.copy_from_slice(bank.reads());
}

// Copies the values of banks into the memories at these places.
fn put_banks(old: &mut [Filled], places: &[u32], banks: &[Bank])
    requires count { length banks.now ≡ length places.now }
    requires known { All (λ place. place < length old.old) places.now }
    requires fit { (k : ℕ) → k < length places.now → HasSizeOf (bank_at banks.now k) (bank_at old.old (value_at places.now k)) }
    ensures put { old.new ≡ put old.old places.now banks.now }
    ensures sizes { (m : ℕ) → HasSizeOf (bank_at old.new m) (bank_at old.old m) }
{
    for i in 0..places.len() {
        put_bank(&mut old[places[i] as usize], &banks[i]);
    }
}

impl StateDraft {
    /// The state of a circuit before the first cycle: zeros.
    ///
    /// # Errors
    ///
    /// Returns `AllocError` if an allocation fails.
    pub fn new(alloc: Global, piece: &Piece) -> Result<StateDraft, AllocError>
        ensures { IfOk result (λ draft. draft ≡ opening piece.now) }
    {
        let registers = vec![in alloc; 0u128; piece.registers().len()]?;
        let banks = empty_banks(alloc, piece.memories())?;
        Ok(StateDraft { registers, banks })
    }

    /// Writes the state of a part into the registers and memories that the part has of the whole circuit.
    pub fn put_part(&mut self, held: &[u32], memories: &[u32], state: &State)
        requires registers { length state.now.registers ≡ length held.now }
        requires held { All (λ r. r < length self.old.registers) held.now }
        requires banks { length state.now.banks ≡ length memories.now }
        requires memories { All (λ m. m < length self.old.banks) memories.now }
        requires fit { (k : ℕ) → k < length memories.now → HasSizeOf (bank_at state.now.banks k) (bank_at self.old.banks (value_at memories.now k)) }
        ensures sizes { (m : ℕ) → HasSizeOf (bank_at self.new.banks m) (bank_at self.old.banks m) }
        ensures part { (whole : State) → IsPartState whole held.now memories.now state.now → HasPart whole held.now memories.now self.old self.new }
    {
        put_values(&mut self.registers, held, state.registers());
        put_banks(&mut self.banks, memories, state.banks());
    }

    // Writes a value: of a row's place in a state, at an address.
    pub(crate) fn set(&mut self, at: At, address: u32, value: u128)
        requires { HasValue self.old at address }
        ensures { self.new ≡ with_value self.old at address value }
    {
        match at {
            At::Register(register) => self.registers[register as usize] = value,
            At::Read(memory, reader) => {
                self.banks[memory as usize].reads[reader as usize] = value;
            }
            At::Words(memory) => self.banks[memory as usize].words[address as usize] = value,
        }
    }

    /// The state.
    ///
    /// # Errors
    ///
    /// Returns `AllocError` if an allocation fails.
    pub fn into_state(self, alloc: Global) -> Result<State, AllocError>
        ensures { IfOk result (λ state. state ≡ self) }
    {
        let StateDraft { registers, banks } = self;
        let banks = banks_of(alloc, banks)?;
        Ok(State::of(registers, banks))
    }

    /// The state, with the registers of pipes after the others. They hold these tokens.
    ///
    /// # Errors
    ///
    /// Returns `AllocError` if an allocation fails.
    pub fn into_state_with_pipes(
        self,
        alloc: Global,
        tokens: Vec<u128>,
    ) -> Result<State, AllocError>
        ensures registers { IfOk result (λ state. state.registers ≡ self.registers ++ tokens.items) }
        ensures banks { IfOk result (λ state. state.banks ≡ self.banks) }
    {
        let StateDraft { registers, banks } = self;
        let banks = banks_of(alloc, banks)?;
        let mut registers = registers;
        let mut tokens = tokens;
        registers.append(&mut tokens)?;
        Ok(State::of(registers, banks))
    }
}
