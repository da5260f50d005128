//! Numbers among the words.
ghost use Rattle.std.specs.Prelude.{◌≡◌, ◌≤◌, ◌<◌, ◌^◌};
ghost use Rattle.std.specs.Str.{all_ascii_digits};
ghost use Rattle.gg_words.specs.Number.{number_in};

// Whether all bytes of a text are decimal digits.
fn are_digits(text: &str) -> bool
    ensures { result ≡ all_ascii_digits text.now }
{
    for byte in text.as_bytes() {
        if !byte.is_ascii_digit() {
            return false;
        }
    }
    true
}

// The number that a text spells, if it is in this range.
pub(crate) fn number_in(text: &str, least: u32, most: u32) -> Option<u32>
    ensures { result ≡ number_in least most text.now }
{
    // a sign isn't a digit, though `parse` takes a plus
    if !are_digits(text) {
        return None;
    }
    match text.parse::<u32>() {
        Ok(number) if least <= number && number <= most => Some(number),
        _ => None,
    }
}
