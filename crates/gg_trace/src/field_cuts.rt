//! The fields of one line, from left to right.

ghost use Rattle.std.specs.Prelude.{◌≡◌, ℕ, List, ◌∷◌, [], ◌<◌, ◌≤◌, MatchOption, not, length, slice_index};
ghost use Rattle.std.specs.Option.{option_copied};
ghost use Rattle.gg_trace.specs.inside.Parted.{AreFields};
ghost use Rattle.gg_trace.specs.Fields.{is_blank, fields, fields_of_text};
ghost use Rattle.gg_trace.specs.inside.Fields.{fields_left};

use std::marker::Model;

// The fields of a line that are still to be read. A contract sees the list of them.
#[derive(Drop)]
pub(crate) struct Fields<'a> {
    // what follows the last run of blanks, or None if the last field was read
    rest: Option<&'a [u8]>,
}

impl<'a> Model for Fields<'a> {
    ghost use Rattle.std.specs.Prelude.{ℕ, List};
    ghost use Rattle.std.specs.Option.{option_copied};

    ghost Value = { List (List ℕ) };

    ghost use Rattle.gg_trace.specs.inside.Fields.{fields_left};

    ghost view = { λ a. fields_left (option_copied a.rest) };
}

fn is_blank(byte: u8) -> bool
    ensures { result ≡ is_blank byte }
{
    byte == b' ' || byte == b'\t'
}

/// The number of bytes before the first byte that isn't a blank, or before the first blank if `blank` is false.
pub fn run_len(text: &[u8], blank: bool) -> usize
    ensures within { result ≤ length text.now }
    ensures same { (k : ℕ) → k < result → is_blank (slice_index text.now k) ≡ blank }
    ensures ends { result < length text.now → is_blank (slice_index text.now result) ≡ not blank }
{
    for (i, byte) in text.iter().enumerate() {
        if is_blank(*byte) != blank {
            return i;
        }
    }
    text.len()
}

// The first field, and what follows the blanks after it, if there are any.
fn cut_field(text: &[u8]) -> (&[u8], Option<&[u8]>)
    ensures { fields_of_text text.now ≡ result.0.now ∷ fields_left (option_copied result.1) }
{
    let (field, after) = text.split_at(run_len(text, false));
    if after.is_empty() {
        return (field, None);
    }
    let (_, rest) = after.split_at(run_len(after, true));
    (field, Some(rest))
}

impl<'a> Fields<'a> {
    // The fields of this line.
    #[tactic(auto, unfolding(crate::specs::Fields::fields))]
    pub(crate) fn of(line: &'a [u8]) -> Fields<'a>
        ensures { result ≡ fields line.now }
    {
        if line.is_empty() {
            Fields { rest: None }
        } else {
            Fields { rest: Some(line) }
        }
    }

    // The next field, or None if no field is left.
    pub(crate) fn next(&mut self) -> Option<&'a [u8]>
        ensures { MatchOption result
            ((self.old ≡ []) × (self.new ≡ []))
            (λ field. self.old ≡ field.now ∷ self.new) }
    {
        let (field, rest) = cut_field(self.rest?);
        self.rest = rest;
        Some(field)
    }
}

// The number of fields of a line.
#[tactic(auto, using(crate::proofs::FieldLaws::field_count))]
pub(crate) fn count_fields(line: &[u8]) -> usize
    ensures { result ≡ length (fields line.now) }
{
    let mut rest = Fields::of(line);
    let mut count = 0;
    while let Some(_field) = rest.next() {
        count += 1;
    }
    count
}

/// The fields of a line are the only list of fields into which it can be divided.
pub fn fields_part_their_line()
    ensures are { (line : List ℕ) → AreFields line (fields line) }
    ensures only { (line : List ℕ) (others : List (List ℕ)) →
        AreFields line others → others ≡ fields line }
{}
