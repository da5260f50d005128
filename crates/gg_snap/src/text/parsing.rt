//! Parts of a line.
ghost use Rattle.std.specs.Prelude.{◌≡◌, ◌≢◌, ℕ, ◌<◌, ◌≤◌, ◌^◌, ◌++◌, ◌∷◌, List, Some, None, MatchOption, decimal, length};
ghost use Rattle.gg_flat.specs.Circuit.{FlatCircuit};
ghost use Rattle.gg_trace.specs.Printing.{hex_digits, digit_count};
ghost use Rattle.gg_snap.specs.text.Lines.{head_of, tail_of};
ghost use Rattle.gg_snap.specs.text.Known.{IsKnown};

use crate::text::cutting::{len_before, strip, without_last};
use crate::text::row::{At, Row, word_of};

// The rest of a line after the head of a row, if it begins with it.
pub(crate) fn after_head<'a>(line: &'a [u8], row: &Row) -> Option<&'a [u8]>
    ensures { MatchOption result ((rest : List ℕ) → line.now ≢ head_of row.now ++ rest) (λ rest. line.now ≡ head_of row.now ++ rest.now) }
{
    let rest = strip(line, word_of(row.kind).as_bytes())?;
    let rest = strip(rest, row.path.as_bytes())?;
    strip(rest, b" ")
}

// The number that decimal digits spell. Other texts may give a number, too.
pub(crate) fn number_of(text: &[u8]) -> Option<u32>
    ensures { (n : ℕ) → n < 2 ^ 32 → text.now ≡ decimal n → result ≡ Some n }
{
    let Ok(text) = std::str::from_utf8(text) else {
        return None;
    };
    text.parse::<u32>().ok()
}

// The value that hexadecimal digits spell. Other texts may give a value, too.
pub(crate) fn value_of(text: &[u8]) -> Option<u128>
    ensures { (width value : ℕ) → 0 < width → width ≤ 128 → value < 2 ^ width → text.now ≡ hex_digits (digit_count width) value → result ≡ Some value }
{
    let Ok(text) = std::str::from_utf8(text) else {
        return None;
    };
    u128::from_str_radix(text, 16).ok()
}

// An address and the value after it.
fn addressed(text: &[u8]) -> Option<(u32, u128)>
    ensures { (address width value : ℕ) → address < 2 ^ 32 → 0 < width → width ≤ 128 → value < 2 ^ width
        → text.now ≡ decimal address ++ 32 ∷ hex_digits (digit_count width) value
        → result ≡ Some (record { 0 = address; 1 = value }) }
{
    let (front, rest) = text.split_at(len_before(text, b' '));
    let rest = strip(rest, b" ")?;
    let address = number_of(front)?;
    let value = value_of(rest)?;
    Some((address, value))
}

// The address and the value that the rest of a row's line spells. Other texts may give something, too.
pub(crate) fn cell_of(row: &Row, rest: &[u8]) -> Option<(u32, u128)>
    requires { (circuit : FlatCircuit) × IsKnown circuit row.now }
    ensures { (address value : ℕ) → address < row.now.count → value < 2 ^ row.now.width → rest.now ≡ tail_of row.now address value → result ≡ Some (record { 0 = address; 1 = value }) }
{
    let text = without_last(rest)?;
    match row.at {
        At::Words(_) => addressed(text),
        At::Register(_) | At::Read(_, _) => {
            let value = value_of(text)?;
            Some((0, value))
        }
    }
}
