//! The clocks of the circuit that the Clock inputs of instances follow.
ghost use Rattle.std.specs.Prelude.{◌≡◌, ◌<◌, ℕ, [], Some, IfOk, length, map, slice_index_or};
ghost use Rattle.gg_flat_tree.specs.Clocked.{clock_at, through_parent, top_clocks as clocks_of_circuit};
ghost use Rattle.gg_flat_tree.specs.inside.Clocked.{AreParentsBefore};

use crate::tree::{ClockNumbers, Instance, Tree};
use std::alloc::{AllocError, Global};

/// The clock at a number; none where there is no number, and past the end.
pub fn clock_at(clocks: &[Option<u32>], number: Option<u32>) -> Option<u32>
    ensures { result ≡ clock_at clocks.now number }
{
    match number {
        None => None,
        Some(number) => match clocks.get(number as usize) {
            Some(clock) => *clock,
            None => None,
        },
    }
}

/// The clocks at these numbers.
///
/// # Errors
///
/// Returns `AllocError` if an allocation fails.
pub fn clocks_at(
    alloc: Global,
    clocks: &[Option<u32>],
    numbers: &[Option<u32>],
) -> Result<Vec<Option<u32>>, AllocError>
    ensures { IfOk result (λ found. found.items ≡ map (clock_at clocks.now) numbers.now) }
{
    let mut found = Vec::new(alloc);
    for number in numbers {
        found.push(clock_at(clocks, *number))?;
    }
    Ok(found)
}

// The clocks of the circuit that the Clock inputs of an instance follow, from the clocks of the instances before it.
fn clocks_of(
    alloc: Global,
    before: &[ClockNumbers],
    instance: &Instance,
) -> Result<ClockNumbers, AllocError>
    requires { (above : ℕ) → instance.now.parent ≡ Some above → above < length before.now }
    ensures { IfOk result (λ clocks. clocks ≡ through_parent (λ parent. slice_index_or before.now parent []) instance.now.parent instance.now.clocks) }
{
    match instance.parent {
        None => instance.clocks.clone(),
        Some(parent) => {
            let above = before[parent as usize].as_slice();
            let clocks = clocks_at(alloc, above, instance.clocks.as_slice())?;
            Ok(ClockNumbers::from(clocks))
        }
    }
}

impl Tree {
    /// For each instance, in order, the clocks of the circuit that its Clock inputs follow. The parent of each instance
    /// is before it.
    ///
    /// # Errors
    ///
    /// Returns `AllocError` if an allocation fails.
    pub fn top_clocks(&self, alloc: Global) -> Result<Vec<ClockNumbers>, AllocError>
        requires { AreParentsBefore self.now }
        ensures count { IfOk result (λ clocks. length clocks.items ≡ length self.now.instances) }
        ensures each { IfOk result (λ clocks. (k : ℕ) → k < length self.now.instances → slice_index_or clocks.items k [] ≡ clocks_of_circuit self.now k) }
    {
        let mut clocks: Vec<ClockNumbers> = Vec::new(alloc);
        for instance in self.instances() {
            let next = clocks_of(alloc, clocks.as_slice(), instance)?;
            clocks.reserve(1)?;
            clocks.push_reserved(next);
        }
        Ok(clocks)
    }
}
