//! How much room the lines of a piece need.
ghost use Rattle.std.specs.Prelude.{◌≡◌, ℕ, ◌≤◌, replicate, All, IfOk};
ghost use Rattle.gg_order.specs.runs.Room.{line_length, register_length, HasRoom};

use gg_flat::{Driver, Piece, Register, Signal};
use std::alloc::{AllocError, Global};

/// This many zeros.
///
/// # Errors
///
/// Returns `AllocError` if an allocation fails.
pub fn zeros(alloc: Global, count: usize) -> Result<Vec<u128>, AllocError>
    ensures { IfOk result (λ values. values.items ≡ replicate count 0) }
{
    vec![in alloc; 0; count]
}

// How many nodes a driver has.
fn driver_len(driver: &Driver) -> usize
    ensures { result ≡ line_length driver.now }
{
    match driver {
        Driver::Computed(line) => line.len(),
        _ => 0,
    }
}

// How many nodes the longest of a register's lines has.
fn register_len(register: &Register) -> usize
    ensures { result ≡ register_length register.now }
{
    let reset = match &register.reset {
        Some(reset) => reset.condition.len().max(reset.init.len()),
        None => 0,
    };
    let next = match &register.next {
        Some(line) => line.len(),
        None => 0,
    };
    reset.max(next)
}

// The length of the longest of the drivers' lines.
fn longest_driver(signals: &[Signal]) -> usize
    ensures longest { All (λ signal. line_length signal.driver ≤ result) signals.now }
    ensures least { (places : ℕ) → All (λ signal. line_length signal.driver ≤ places) signals.now → result ≤ places }
{
    let mut longest = 0;
    for signal in signals {
        longest = longest.max(driver_len(&signal.driver));
    }
    longest
}

// The length of the longest of the registers' lines.
fn longest_register(registers: &[Register]) -> usize
    ensures longest { All (λ register. register_length register ≤ result) registers.now }
    ensures least { (places : ℕ) → All (λ register. register_length register ≤ places) registers.now → result ≤ places }
{
    let mut longest = 0;
    for register in registers {
        longest = longest.max(register_len(register));
    }
    longest
}

/// The length of the scratch space that a piece's lines need: a place for each node of the longest.
pub fn room_of(piece: &Piece) -> usize
    ensures enough { HasRoom piece.now result }
    ensures least { (places : ℕ) → HasRoom piece.now places → result ≤ places }
{
    longest_driver(piece.signals()).max(longest_register(piece.registers()))
}
