//! `Begin`: where a network begins.
ghost use Rattle.std.specs.Prelude.{◌≡◌, map, IfOk};
ghost use Rattle.gg_flat.specs.Line.{value_at};
ghost use Rattle.gg_flat.specs.Memory.{bank_at};
ghost use Rattle.gg_part.specs.PartRun.{part_state};
ghost use Rattle.gg_build.specs.inside.Begin.{state_from};

use gg_order::{Bank, State};
use gg_part::Part;
use std::alloc::{AllocError, Global};

/// Where a network begins: its cycle, its state, and the tokens of its pipes.
pub struct Begin {
    /// The cycle, which is at most 1,000,000.
    pub cycle: u64,
    /// The state of the reference circuit. `None` means zeros.
    pub state: Option<State>,
    /// For each channel the token that it opens with, if it has a pipe. After the end of the list there are zeros.
    pub tokens: Vec<u128>,
}

impl Drop for Begin {
    fn drop(self) {
        let Self {
            cycle: _,
            state,
            tokens,
        } = self;
        drop(state);
        drop(tokens);
    }
}

// The values of these registers.
fn registers_at(alloc: Global, held: &[u32], values: &[u128]) -> Result<Vec<u128>, AllocError>
    ensures { IfOk result (λ own. own.items ≡ map (value_at values.now) held.now) }
{
    let mut own = Vec::new(alloc);
    for register in held {
        own.push(match values.get(*register as usize) {
            Some(value) => *value,
            None => 0,
        })?;
    }
    Ok(own)
}

// A copy of a memory's bank. After the end there is an empty memory.
fn bank_of(alloc: Global, banks: &[Bank], memory: u32) -> Result<Bank, AllocError>
    ensures { IfOk result (λ own. own ≡ bank_at banks.now memory) }
{
    match banks.get(memory as usize) {
        Some(bank) => {
            let words = Vec::from_slice(alloc, bank.words())?;
            let reads = Vec::from_slice(alloc, bank.reads())?;
            Ok(Bank::of(words, reads))
        }
        None => Ok(Bank::of(Vec::new(alloc), Vec::new(alloc))),
    }
}

// The banks of these memories.
fn banks_at(alloc: Global, memories: &[u32], banks: &[Bank]) -> Result<Vec<Bank>, AllocError>
    ensures { IfOk result (λ own. own.items ≡ map (bank_at banks.now) memories.now) }
{
    let mut own = Vec::new(alloc);
    for memory in memories {
        let bank = bank_of(alloc, banks, *memory)?;
        own.push(bank)?;
    }
    Ok(own)
}

// The state of a part: its part of the whole state.
//
// # Errors
//
// Returns `AllocError` if an allocation fails.
pub(crate) fn part_of_state(alloc: Global, part: &Part, state: &State) -> Result<State, AllocError>
    ensures { IfOk result (λ own. own ≡ part_state part.now.held part.now.memories state.now) }
{
    let registers = registers_at(alloc, part.held.as_slice(), state.registers())?;
    let banks = banks_at(alloc, part.memories.as_slice(), state.banks())?;
    Ok(State::of(registers, banks))
}

// The state that a part begins with.
//
// # Errors
//
// Returns `AllocError` if an allocation fails.
pub(crate) fn own_state(alloc: Global, part: &Part, begin: &Begin) -> Result<State, AllocError>
    ensures { IfOk result (λ own. own ≡ state_from part.now begin.now.state) }
{
    match &begin.state {
        Some(state) => part_of_state(alloc, part, state),
        None => State::new(alloc, &part.piece),
    }
}
