//! Lists of numbers.
ghost use Rattle.std.specs.Prelude.{◌≡◌, ℕ, ◌<◌, ◌^◌, length, map, All, IfOk};
ghost use Rattle.gg_flat.specs.Line.{value_at};

use std::alloc::{AllocError, Global};

/// The values at these places.
///
/// # Errors
///
/// Returns `AllocError` if an allocation fails.
pub fn picked(alloc: Global, values: &[u32], places: &[u32]) -> Result<Vec<u32>, AllocError>
    requires { All (λ place. place < length values.now) places.now }
    ensures { IfOk result (λ picked. picked.items ≡ map (value_at values.now) places.now) }
{
    let mut picked = Vec::new(alloc);
    for place in places {
        picked.push(values[*place as usize])?;
    }
    Ok(picked)
}

/// The numbers below a count.
///
/// # Errors
///
/// Returns `AllocError` if an allocation fails.
pub fn numbers(alloc: Global, count: usize) -> Result<Vec<u32>, AllocError>
    requires { count < 2 ^ 32 }
    ensures count { IfOk result (λ numbers. length numbers.items ≡ count) }
    ensures same { IfOk result (λ numbers. (m : ℕ) → m < count → value_at numbers.items m ≡ m) }
{
    let mut numbers = Vec::new(alloc);
    for number in 0..count {
        numbers.push(number as u32)?;
    }
    Ok(numbers)
}
