//! The lines of an output trace.

ghost use Rattle.std.specs.Prelude.{◌≡◌, ℕ, ◌^◌, ◌≤◌, ◌<◌, ◌++◌, ◌∷◌, [], IfOk, OnOk, length, string_bytes};
ghost use Rattle.std.specs.Char.{digit_char};
ghost use Rattle.gg_trace.specs.Cells.{IsCell, hexadecimal};
ghost use Rattle.gg_trace.specs.Printing.{hex_digits, digit_count, header_line, row_line};

use gg_bits::Name;
use gg_flat::Ports;
use itoa::Buffer;
use std::alloc::{AllocError, Global};

// The character of a hexadecimal digit, in lower case.
fn digit_of(digit: u32) -> char
    requires { digit < 16 }
    ensures { result ≡ digit_char digit }
{
    char::from_digit(digit, 16).unwrap()
}

// Writes the last `digits` digits of a value at the end of a text, in hexadecimal.
fn push_digits(text: &mut String, value: u128, digits: u32) -> Result<(), AllocError>
    requires { digits ≤ 32 }
    ensures { OnOk result (string_bytes text.new ≡ string_bytes text.old ++ hex_digits digits value) }
{
    let mut place = digits;
    while place > 0 {
        place -= 1;
        text.push(digit_of(((value >> (4 * place)) % 16) as u32))?;
    }
    Ok(())
}

// Writes a space and a value of this width at the end of a text.
fn push_value(text: &mut String, value: u128, width: u32) -> Result<(), AllocError>
    requires { width ≤ 128 }
    ensures { OnOk result (string_bytes text.new ≡ string_bytes text.old ++ 32 ∷ hex_digits (digit_count width) value) }
{
    text.push_str(" ")?;
    push_digits(text, value, (width + 3) / 4)
}

// Writes a space and a name at the end of a text.
fn push_name(text: &mut String, name: &Name) -> Result<(), AllocError>
    ensures { OnOk result (string_bytes text.new ≡ string_bytes text.old ++ 32 ∷ name.now) }
{
    text.push_str(" ")?;
    text.push_str(name.as_str())
}

/// The header of a trace of these ports: `cycle` and the names, with one space before each name, and a line feed.
///
/// # Errors
///
/// Returns `AllocError` if an allocation fails.
pub fn header_text(alloc: Global, ports: &Ports) -> Result<Name, AllocError>
    ensures { IfOk result (λ text. text ≡ header_line ports.now) }
{
    let mut text = String::from_str(alloc, "cycle")?;
    for port in ports.as_slice() {
        push_name(&mut text, &port.name)?;
    }
    text.push_str("\n")?;
    Ok(Name::from(text))
}

/// A row of a trace of these ports: the cycle in decimal, the values in lower-case hexadecimal with one space before
/// each value, and a line feed. A value has a quarter of its port's width in digits, rounded up.
///
/// Each value should be below 2 to its port's width. Of a greater value only that many of its lowest digits are written.
///
/// # Errors
///
/// Returns `AllocError` if an allocation fails.
pub fn row_text(alloc: Global, ports: &Ports, row: u64, values: &[u128]) -> Result<Name, AllocError>
    requires { length values.now ≡ length ports.now }
    ensures { IfOk result (λ text. text ≡ row_line ports.now row values.now) }
{
    let mut buffer = Buffer::new();
    let mut text = String::from_str(alloc, buffer.format(row))?;
    for (i, port) in ports.as_slice().iter().enumerate() {
        push_value(&mut text, values[i], port.ty.width)?;
    }
    text.push_str("\n")?;
    Ok(Name::from(text))
}

/// A value that is printed in its width is read again as the same value.
pub fn printed_values_are_read()
    ensures { (width value : ℕ) → 0 < width → value < 2 ^ width →
        IsCell width (hex_digits (digit_count width) value) × (hexadecimal (hex_digits (digit_count width) value) ≡ value) }
{}
