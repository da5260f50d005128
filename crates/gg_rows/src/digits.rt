//! Values with eight digits.
ghost use Rattle.std.specs.Prelude.{◌≡◌, IfOk, string_bytes};
ghost use Rattle.gg_rows.specs.TraceText.{eight_digits};

use std::alloc::{AllocError, Global};

// The last eight hexadecimal digits of a value, in lower case.
pub(crate) fn eight_digits(alloc: Global, value: u128) -> Result<String, AllocError>
    ensures { IfOk result (λ text. string_bytes text ≡ eight_digits value) }
{
    let low = (value % (1 << 32)) as u32;
    format!(in alloc; "{low:08x}")
}
