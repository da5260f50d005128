//! The text of the trace.
ghost use Rattle.std.specs.Prelude.{◌≡◌, ◌<◌, IfOk, string_bytes};
ghost use Rattle.gg_rows.specs.TraceText.{demo_trace, next_number, number_at, number_line};

use crate::digits::eight_digits;
use std::alloc::{AllocError, Global};

// The number after a number.
fn next_number(number: u32) -> u32
    ensures { result ≡ next_number number }
{
    ((1_664_525 * u64::from(number) + 1_013_904_223) % (1 << 32)) as u32
}

/// The text of the trace for a seed and this many stages: four rows for each stage.
///
/// # Errors
///
/// Returns `AllocError` if an allocation fails.
pub fn trace_text(alloc: Global, seed: u32, size: u32) -> Result<String, AllocError>
    ensures { IfOk result (λ text. string_bytes text ≡ demo_trace seed size) }
{
    let mut text = String::from_str(alloc, "cycle x\n")?;
    let mut number = seed;
    for row in 0..4 * u64::from(size) {
        let digits = eight_digits(alloc, u128::from(number))?;
        let line = format!(in alloc; "{row} {digits}\n")?;
        text.push_str(line.as_str())?;
        number = next_number(number);
    }
    Ok(text)
}
