//! The value of a field: hexadecimal digits that fit a width.

ghost use Rattle.std.specs.Prelude.{◌≡◌, ℕ, ◌+◌, ◌*◌, ◌^◌, ◌<◌, ◌≤◌, ◌↔◌, IsTrue, MatchOption, MatchResult};
ghost use Rattle.gg_trace.specs.Cells.{IsCell, IsHexadecimal, hexadecimal};
ghost use Rattle.gg_trace.specs.inside.Cells.{AppendsDigit, HasCellFault};

// What is wrong with the field of a value.
#[derive(Clone, Copy, Debug, Drop, PartialEq, Eq)]
pub(crate) enum CellFault {
    // The field is empty, or not all hexadecimal digits.
    NotHexadecimal,
    // The field's number doesn't fit the width.
    TooWide,
}

// Whether a value has no bit at `width` or above it.
fn fits(value: u128, width: u32) -> bool
    requires { width ≤ 128 }
    ensures { IsTrue result ↔ (value < 2 ^ width) }
{
    width == 128 || value < 1 << width
}

// The value with one more hexadecimal digit at its end. None if `value` is None or the result doesn't fit 128 bits.
fn with_digit(value: Option<u128>, digit: u32) -> Option<u128>
    requires { digit < 16 }
    ensures { AppendsDigit value digit result }
{
    value?.checked_mul(16)?.checked_add(u128::from(digit))
}

// The value of a field's digits, or None if it doesn't fit 128 bits. Returns an error if the field isn't one or more
// digits.
fn digits_of(field: &[u8]) -> Result<Option<u128>, CellFault>
    ensures { MatchResult result
        (λ value. IsHexadecimal field.now
        × MatchOption value (2 ^ 128 ≤ hexadecimal field.now) (λ v. v ≡ hexadecimal field.now))
        (λ fault. (fault ≡ CellFault.NotHexadecimal) × ¬ IsHexadecimal field.now) }
{
    if field.is_empty() {
        return Err(CellFault::NotHexadecimal);
    }
    let mut value = Some(0);
    for byte in field {
        let Some(digit) = char::from(*byte).to_digit(16) else {
            return Err(CellFault::NotHexadecimal);
        };
        value = with_digit(value, digit);
    }
    Ok(value)
}

// The value of a field, if it fits this width.
pub(crate) fn value_of(field: &[u8], width: u32) -> Result<u128, CellFault>
    requires { width ≤ 128 }
    ensures { MatchResult result
        (λ value. IsCell width field.now × (value ≡ hexadecimal field.now))
        (HasCellFault width field.now) }
{
    match digits_of(field)? {
        Some(value) => {
            if fits(value, width) {
                Ok(value)
            } else {
                Err(CellFault::TooWide)
            }
        }
        None => Err(CellFault::TooWide),
    }
}
