//! The longest word, number, text or symbol at the front of some bytes.
ghost use Rattle.std.specs.Prelude.{◌≡◌, ◌<◌, length, slice_index, IsTrue, IfSome, IfNone, ◌≤◌, ◌+◌};
ghost use Rattle.gg_lex.specs.Bytes.{starts_word};
ghost use Rattle.gg_lex.specs.Tokens.{IsWord, IsDecimal, AreDigitsBehind, IsRadixNumber, IsNumber, IsText};
ghost use Rattle.gg_lex.specs.inside.Fronts.{IsLongest, IsRunOf, FindsFront, FindsQuote, radix_head};

use crate::bytes::{Class, digits_behind, run_len};

// The length of the word at the front. The bytes begin with one.
pub(crate) fn word_len(bytes: &[u8]) -> usize
    requires nonempty { 0 < length bytes.now }
    requires begins { IsTrue (starts_word (slice_index bytes.now 0)) }
    ensures { IsLongest IsWord bytes.now result }
{
    let rest = &bytes[1..];
    let body = run_len(rest, Class::WordByte);
    1 + body + run_len(&rest[body..], Class::TailByte)
}

// The length of the run of this class at the front, if it isn't empty.
fn some_run_len(bytes: &[u8], class: Class) -> Option<usize>
    ensures { FindsFront (IsRunOf class) bytes.now result }
{
    let run = run_len(bytes, class);
    if run == 0 { None } else { Some(run) }
}

// The length of the decimal number at the front, if there is one.
fn decimal_len(bytes: &[u8]) -> Option<usize>
    requires { 0 < length bytes.now }
    ensures { FindsFront IsDecimal bytes.now result }
{
    if bytes[0] != b'-' {
        return some_run_len(bytes, Class::DecimalDigit);
    }
    match some_run_len(&bytes[1..], Class::DecimalDigit) {
        Some(digits) => Some(digits + 1),
        None => None,
    }
}

// The length of the digits at the front that may follow this letter, if there are any.
fn digits_len(bytes: &[u8], letter: u8) -> Option<usize>
    ensures { FindsFront (AreDigitsBehind letter) bytes.now result }
{
    match digits_behind(letter) {
        Some(class) => some_run_len(bytes, class),
        None => None,
    }
}

// Where a number with its radix may begin: how many bytes are before its digits, and the letter of the radix.
fn radix_head(bytes: &[u8]) -> Option<(usize, u8)>
    ensures { result ≡ radix_head bytes.now }
{
    match bytes {
        [a, b, c, ..] => {
            if *a == b'-' && *b == b'0' {
                Some((3, *c))
            } else if *a != b'0' {
                None
            } else if *c == b'-' {
                Some((3, *b))
            } else {
                Some((2, *b))
            }
        }
        _ => None,
    }
}

// The length of the number with its radix at the front, if there is one.
fn radix_number_len(bytes: &[u8]) -> Option<usize>
    ensures { FindsFront IsRadixNumber bytes.now result }
{
    let (head, letter) = radix_head(bytes)?;
    match digits_len(&bytes[head..], letter) {
        Some(digits) => Some(head + digits),
        None => None,
    }
}

// The length of the number at the front, if there is one.
pub(crate) fn number_len(bytes: &[u8]) -> Option<usize>
    requires { 0 < length bytes.now }
    ensures { FindsFront IsNumber bytes.now result }
{
    match radix_number_len(bytes) {
        Some(length) => Some(length),
        None => decimal_len(bytes),
    }
}

// The place of the quote that ends the quoted bytes at the front, if there is one.
fn closing_quote(bytes: &[u8]) -> Option<usize>
    ensures { FindsQuote bytes.now result }
{
    let mut at = 0;
    while at < bytes.len() {
        match bytes[at] {
            b'"' => return Some(at),
            b'\\' => at += 2,
            _ => at += 1,
        }
    }
    None
}

// The length of the text at the front. The bytes begin with a quote.
pub(crate) fn text_len(bytes: &[u8]) -> Option<usize>
    requires nonempty { 0 < length bytes.now }
    requires begins { slice_index bytes.now 0 ≡ 34 }
    ensures { FindsFront IsText bytes.now result }
{
    match closing_quote(&bytes[1..]) {
        Some(at) => Some(at + 2),
        None => None,
    }
}
