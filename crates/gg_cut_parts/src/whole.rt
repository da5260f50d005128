//! The clocks of a circuit that its registers and the ports of its memories follow.
ghost use Rattle.std.specs.Prelude.{◌≡◌, ◌<◌, ◌^◌, length, map, IfOk};
ghost use Rattle.gg_flat_tree.specs.Clocked.{clocks_from};
ghost use Rattle.gg_part.specs.inside.Clocking.{clocks_of_ports};
ghost use Rattle.gg_cut_parts.specs.inside.Domains.{AreWholeClocks};

use crate::tables::numbered;
use gg_bits::Items;
use gg_flat::{Memory, Piece, Register};
use gg_flat_tree::ClockNumbers;
use gg_part::Clocking;
use std::alloc::{AllocError, Global};

/// The clocks that the registers and the ports of the memories of a circuit follow.
///
/// # Errors
///
/// Returns `AllocError` if an allocation fails.
pub fn whole_clocking(alloc: Global, piece: &Piece) -> Result<Clocking, AllocError>
    ensures { IfOk result (λ clocking. AreWholeClocks piece.now clocking) }
{
    let registers = clocks_of_registers(alloc, piece.registers())?;
    let ports = clocks_of_memories(alloc, piece.memories())?;
    Ok(Clocking {
        registers: ClockNumbers::from(registers),
        ports: Items::from(ports),
    })
}

/// The clocks of a circuit, each under its number.
///
/// # Errors
///
/// Returns `AllocError` if an allocation fails.
pub fn own_clocks(alloc: Global, piece: &Piece) -> Result<ClockNumbers, AllocError>
    ensures clocks { IfOk result (λ clocks. clocks ≡ clocks_from 0 piece.now.clocks) }
    ensures few { IfOk result (λ clocks. length clocks < 2 ^ 32) }
{
    numbered(alloc, piece.clocks())
}

// The clocks that registers follow.
fn clocks_of_registers(
    alloc: Global,
    registers: &[Register],
) -> Result<Vec<Option<u32>>, AllocError>
    ensures { IfOk result (λ clocks. clocks.items ≡ map (λ register. register.clock) registers.now) }
{
    let mut clocks = Vec::new(alloc);
    for register in registers {
        clocks.push(register.clock)?;
    }
    Ok(clocks)
}

// For each memory the clocks that its ports follow.
fn clocks_of_memories(alloc: Global, memories: &[Memory]) -> Result<Vec<ClockNumbers>, AllocError>
    ensures { IfOk result (λ ports. ports.items ≡ map (λ memory. clocks_of_ports memory) memories.now) }
{
    let mut ports: Vec<ClockNumbers> = Vec::new(alloc);
    for memory in memories {
        let own = clocks_of_memory(alloc, memory)?;
        ports.reserve(1)?;
        ports.push_reserved(own);
    }
    Ok(ports)
}

// The clocks that the ports of a memory follow: of its readers, then of its writers.
fn clocks_of_memory(alloc: Global, memory: &Memory) -> Result<ClockNumbers, AllocError>
    ensures { IfOk result (λ clocks. clocks ≡ clocks_of_ports memory.now) }
{
    let mut clocks = Vec::new(alloc);
    for reader in memory.readers.as_slice() {
        clocks.push(reader.clock)?;
    }
    for writer in memory.writers.as_slice() {
        clocks.push(writer.clock)?;
    }
    Ok(ClockNumbers::from(clocks))
}
