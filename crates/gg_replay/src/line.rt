//! The line of a channel.
ghost use Rattle.std.specs.Prelude.{◌≡◌, ◌*◌, ◌/◌, ◌%◌, ◌^◌, ◌<◌, ◌++◌, ◌∷◌, IfOk, OnOk, codes, decimal, string_bytes};
ghost use Rattle.std.specs.Char.{digit_char};
ghost use Rattle.gg_trace.specs.Printing.{hex_digits, digit_count};
ghost use Rattle.gg_replay.specs.ReplayText.{channel_line};

use itoa::Buffer;
use std::alloc::{AllocError, Global};

// The hexadecimal digit of a value at a place, counted from the last digit.
fn digit_at(value: u128, place: u32) -> u32
    ensures { result ≡ value / 2 ^ (4 * place) % 16 }
{
    if place < 32 {
        ((value >> (4 * place)) % 16) as u32
    } else {
        0
    }
}

// The character of a hexadecimal digit, in lower case.
fn digit_of(digit: u32) -> char
    requires { digit < 16 }
    ensures { result ≡ digit_char digit }
{
    char::from_digit(digit, 16).unwrap()
}

// The number of digits of a value with this width.
fn count_of(width: u32) -> u32
    ensures { result ≡ digit_count width }
{
    width.div_ceil(4)
}

// Writes the last `digits` digits of a value at the end of a line.
fn push_digits(line: &mut String, value: u128, digits: u32) -> Result<(), AllocError>
    ensures { OnOk result (string_bytes line.new ≡ string_bytes line.old ++ hex_digits digits value) }
{
    let mut place = digits;
    while place > 0 {
        place -= 1;
        line.push(digit_of(digit_at(value, place)))?;
    }
    Ok(())
}

// Writes a blank and a token at the end of a line.
fn push_token(line: &mut String, token: u128, width: u32) -> Result<(), AllocError>
    ensures { OnOk result (string_bytes line.new ≡ string_bytes line.old ++ 32 ∷ hex_digits (digit_count width) token) }
{
    line.push_str(" ")?;
    push_digits(line, token, count_of(width))
}

// The front of a channel's line: its name and its counts.
fn line_front(alloc: Global, name: &str, puts: u64, takes: u64) -> Result<String, AllocError>
    ensures { IfOk result (λ line. string_bytes line ≡ name.now ++ codes " " ++ decimal puts ++ codes "/" ++ decimal takes) }
{
    let mut buffer = Buffer::new();
    let mut line = String::from_str(alloc, name)?;
    line.push_str(" ")?;
    line.push_str(buffer.format(puts))?;
    line.push_str("/")?;
    line.push_str(buffer.format(takes))?;
    Ok(line)
}

/// The line of a channel: its name, a blank, the number of tokens that were put into it, a slash, the number of tokens
/// that were taken from it, the tokens in their order with a blank before each, and a line feed. A token is written in
/// lower-case hexadecimal with a quarter of the channel's width in digits, rounded up.
///
/// # Errors
///
/// Returns `AllocError` if an allocation fails.
pub fn channel_line(
    alloc: Global,
    name: &str,
    width: u32,
    puts: u64,
    takes: u64,
    tokens: &[u128],
) -> Result<String, AllocError>
    ensures { IfOk result (λ line. string_bytes line ≡ channel_line name.now width puts takes tokens.now) }
{
    let mut line = line_front(alloc, name, puts, takes)?;
    for token in tokens {
        push_token(&mut line, *token, width)?;
    }
    line.push_str("\n")?;
    Ok(line)
}
