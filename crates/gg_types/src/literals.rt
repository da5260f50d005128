//! The value of a literal (FIRRTL Specification, "Literals").
ghost use Rattle.std.specs.Prelude.{◌≡◌, ◌≢◌, ◌<◌, ◌^◌, ◌≤◌, None, Some, true, IfSome, IfNone, ◌+◌, ◌*◌, ℕ};
ghost use Rattle.gg_bits.specs.Shape.{shape, Fits, number};
ghost use Rattle.gg_bits.specs.Value.{number_of, pattern_of};
ghost use Rattle.gg_types.specs.Literal.{base, digit, digits_number, signed_number, is_number_of, literal_number, literal_value};
ghost use Rattle.gg_types.specs.Types.{is_width, literal_shape};

use crate::widths::is_width;
use gg_ast::{Literal, Radix};
use gg_bits::{Kind, Ty, Val};

/// A literal's type and the pattern of its number. None if its width is 0 or above 128, or if its type has no pattern
/// with its number.
pub fn literal(constant: &Literal) -> Option<(Ty, Val)>
    ensures none { IfNone result (literal_shape constant.now ≡ None) }
    ensures some { IfSome result (λ r. literal_shape constant.now ≡ Some (shape r.0)) }
    ensures fits { IfSome result (λ r. Fits (shape r.0) r.1.0) }
    ensures value { IfSome result (λ r. r.1.0 ≡ literal_value constant.now) }
    ensures stands { IfSome result (λ r. number (shape r.0) r.1.0 ≡ literal_number constant.now) }
    ensures no_other { IfNone result (is_width constant.now.width ≡ true → (p : ℕ) → p < 2 ^ constant.now.width → number_of constant.now.kind constant.now.width p ≢ literal_number constant.now) }
{
    if !is_width(constant.width) {
        return None;
    }
    let Some(size) = digits_number(radix_base(constant.radix), constant.digits.as_bytes()) else {
        return None;
    };
    if !is_number_of(constant.kind, constant.width, constant.negative, size) {
        return None;
    }
    let value = Val(pattern(constant.width, constant.negative, size));
    Some((Ty::new(constant.kind, constant.width), value))
}

// How many digits a radix has.
fn radix_base(radix: Radix) -> u128
    ensures exact { result ≡ base radix }
    ensures some { 2 ≤ result }
    ensures few { result ≤ 16 }
{
    match radix {
        Radix::Binary => 2,
        Radix::Octal => 8,
        Radix::Decimal => 10,
        Radix::Hexadecimal => 16,
    }
}

// The value of a digit; 16 for a byte that is not a digit.
fn digit_value(byte: u8) -> u128
    ensures { result ≡ digit byte }
{
    match char::from(byte).to_digit(16) {
        Some(value) => u128::from(value),
        None => 16,
    }
}

// The number that the digits spell, or none if it is 2 to the power of 128 or more.
fn digits_number(radix: u128, digits: &[u8]) -> Option<u128>
    requires some { 2 ≤ radix }
    requires few { radix ≤ 16 }
    ensures some { IfSome result (λ n. n ≡ digits_number radix digits.now) }
    ensures none { IfNone result (2 ^ 128 ≤ digits_number radix digits.now) }
{
    let mut number = 0u128;
    for byte in digits {
        let Some(next) = with_digit(number, radix, digit_value(*byte)) else {
            return None;
        };
        number = next;
    }
    Some(number)
}

// The number with one more digit, or none if it is 2 to the power of 128 or more.
fn with_digit(number: u128, radix: u128, digit: u128) -> Option<u128>
    ensures some { IfSome result (λ n. n ≡ number * radix + digit) }
    ensures none { IfNone result (2 ^ 128 ≤ number * radix + digit) }
{
    match number.checked_mul(radix) {
        Some(product) => product.checked_add(digit),
        None => None,
    }
}

// Whether a pattern of this kind and width has the number with this sign and size. A UInt of w bits has the numbers 0
// to 2^w - 1, an SInt -2^(w-1) to 2^(w-1) - 1.
fn is_number_of(kind: Kind, width: u32, negative: bool, size: u128) -> bool
    requires positive { 1 ≤ width }
    requires bounded { width ≤ 128 }
    ensures exact { result ≡ is_number_of kind width (signed_number negative size) }
    ensures small { result ≡ true → size < 2 ^ width }
{
    match kind {
        Kind::UInt if negative => size == 0,
        Kind::UInt => width == 128 || size < 1 << width,
        Kind::SInt if negative => size <= 1 << (width - 1),
        Kind::SInt => size < 1 << (width - 1),
    }
}

// The pattern of the number with this sign and size.
fn pattern(width: u32, negative: bool, size: u128) -> u128
    requires positive { 1 ≤ width }
    requires bounded { width ≤ 128 }
    requires small { size < 2 ^ width }
    ensures value { result ≡ pattern_of width (signed_number negative size) }
    ensures within { result < 2 ^ width }
{
    if !negative || size == 0 {
        size
    } else if width == 128 {
        u128::MAX - size + 1
    } else {
        (1 << width) - size
    }
}
