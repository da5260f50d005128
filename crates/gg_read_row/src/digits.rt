//! Digits of natural numbers and of literals.
ghost use Rattle.std.specs.Prelude.{◌≡◌, IsTrue, OnOk};
ghost use Rattle.std.specs.List.{list_all};
ghost use Rattle.gg_read_row.specs.Forms.{is_digit_of, are_digits};
ghost use Rattle.gg_read_row.specs.inside.Reading.{Finds, natural_of, checked_digits, signed_digits, radix_of, text_digits, zero_radix, split_radix, number_digits};

use crate::cursor::RowFault;
use gg_ast::Radix;
use gg_bits::Name;
use std::alloc::Global;

// The digits of a literal's number, as written.
#[derive(Drop)]
pub(crate) struct Digits {
    pub(crate) radix: Radix,
    // Whether there is a `-` before them.
    pub(crate) negative: bool,
    pub(crate) digits: Name,
}

// Whether a byte is a digit of the radix, of either case.
fn is_digit_of(radix: Radix, byte: u8) -> bool
    ensures { result ≡ is_digit_of radix byte }
{
    match radix {
        Radix::Binary => byte == b'0' || byte == b'1',
        Radix::Octal => b'/' < byte && byte < b'8',
        Radix::Decimal => byte.is_ascii_digit(),
        Radix::Hexadecimal => byte.is_ascii_hexdigit(),
    }
}

// Whether the bytes are one or more digits of the radix.
fn are_digits(radix: Radix, bytes: &[u8]) -> bool
    ensures { result ≡ are_digits radix bytes.now }
{
    match bytes {
        [] => false,
        _ => are_all_digits(radix, bytes),
    }
}

// Whether each of the bytes is a digit of the radix.
fn are_all_digits(radix: Radix, bytes: &[u8]) -> bool
    ensures { result ≡ list_all (is_digit_of radix) bytes.now }
{
    bytes.iter().all(|byte| is_digit_of(radix, *byte))
}

// The number of decimal digits without a sign, if it is at most 4,294,967,295.
pub(crate) fn natural_value(digits: &str) -> Option<u32>
    ensures { result ≡ natural_of digits.now }
{
    if !are_digits(Radix::Decimal, digits.as_bytes()) {
        return None;
    }
    digits.parse::<u32>().ok()
}

// The bytes as digits of the radix.
fn checked_digits(
    alloc: Global,
    radix: Radix,
    negative: bool,
    bytes: &[u8],
) -> Result<Digits, RowFault>
    ensures { Finds (λ d. d) result (checked_digits radix negative bytes.now) }
{
    if !are_digits(radix, bytes) {
        return Err(RowFault::NoForm);
    }
    let mut text = String::new(alloc);
    for byte in bytes {
        text.push(*byte as char)?;
    }
    Ok(Digits {
        radix,
        negative,
        digits: Name::from(text),
    })
}

// The bytes as digits of the radix, with or without a `-` before them.
fn signed_digits(alloc: Global, radix: Radix, bytes: &[u8]) -> Result<Digits, RowFault>
    ensures { Finds (λ d. d) result (signed_digits radix bytes.now) }
{
    match bytes {
        [b'-', digits @ ..] => checked_digits(alloc, radix, true, digits),
        _ => checked_digits(alloc, radix, false, bytes),
    }
}

// The radix with this letter.
fn radix_of(byte: u8) -> Option<Radix>
    ensures { result ≡ radix_of byte }
{
    match byte {
        b'b' => Some(Radix::Binary),
        b'o' => Some(Radix::Octal),
        b'h' => Some(Radix::Hexadecimal),
        _ => None,
    }
}

// The bytes of a text as a literal's number: the letter of the radix, and then the digits.
pub(crate) fn text_digits(alloc: Global, bytes: &[u8]) -> Result<Digits, RowFault>
    ensures { Finds (λ d. d) result (text_digits bytes.now) }
{
    match bytes {
        [first, digits @ ..] => match radix_of(*first) {
            Some(radix) => signed_digits(alloc, radix, digits),
            None => Err(RowFault::NoForm),
        },
        [] => Err(RowFault::NoForm),
    }
}

// The radix that this letter names after a `0`.
fn zero_radix(letter: u8) -> Option<Radix>
    ensures { result ≡ zero_radix letter }
{
    match letter {
        b'd' => Some(Radix::Decimal),
        _ => radix_of(letter),
    }
}

// The radix of a number and its digits: the digits after `0` and the letter of a radix, or otherwise all of the bytes,
// in decimal.
fn split_radix(bytes: &[u8]) -> (Radix, &[u8])
    ensures radix { result.0 ≡ (split_radix bytes.now).0 }
    ensures digits { result.1.now ≡ (split_radix bytes.now).1 }
{
    match bytes {
        [b'0', letter, digits @ ..] => match zero_radix(*letter) {
            Some(radix) => (radix, digits),
            None => (Radix::Decimal, bytes),
        },
        _ => (Radix::Decimal, bytes),
    }
}

// The bytes of a number as a literal's: a `-` may be before the radix or before the digits, but not before both.
pub(crate) fn number_digits(alloc: Global, bytes: &[u8]) -> Result<Digits, RowFault>
    ensures { Finds (λ d. d) result (number_digits bytes.now) }
{
    match bytes {
        [b'-', unsigned @ ..] => {
            let (radix, digits) = split_radix(unsigned);
            checked_digits(alloc, radix, true, digits)
        }
        _ => {
            let (radix, digits) = split_radix(bytes);
            signed_digits(alloc, radix, digits)
        }
    }
}
