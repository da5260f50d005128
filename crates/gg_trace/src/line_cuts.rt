//! The lines of a text, from first to last.

ghost use Rattle.std.specs.Prelude.{◌≡◌, ℕ, List, ◌∷◌, [], ◌<◌, ◌≤◌, ◌≢◌, MatchOption, length, slice_index};
ghost use Rattle.std.specs.Str.Lines.{strip_carriage_return};
ghost use Rattle.gg_trace.specs.Fields.{text_lines};
ghost use Rattle.gg_trace.specs.inside.Lined.{AreLines};

use std::marker::Model;

/// The lines of a text that are still to be read. A contract sees the list of them.
#[derive(Drop)]
pub struct Lines<'a> {
    rest: &'a [u8],
}

impl<'a> Model for Lines<'a> {
    ghost use Rattle.std.specs.Prelude.{ℕ, List};

    ghost Value = { List (List ℕ) };

    ghost use Rattle.gg_trace.specs.Fields.{text_lines};

    ghost view = { λ a. text_lines a.rest.now };
}

// The number of bytes before the first line feed.
fn line_len(text: &[u8]) -> usize
    ensures within { result ≤ length text.now }
    ensures before { (k : ℕ) → k < result → slice_index text.now k ≢ 10 }
    ensures ends { result < length text.now → slice_index text.now result ≡ 10 }
{
    for (i, byte) in text.iter().enumerate() {
        if *byte == b'\n' {
            return i;
        }
    }
    text.len()
}

// A line without the one carriage return at its end, if it has one.
fn without_return(line: &[u8]) -> &[u8]
    ensures { result.now ≡ strip_carriage_return line.now }
{
    match line {
        [front @ .., b'\r'] => front,
        _ => line,
    }
}

// The first line, and the text after its line end.
fn cut_line(text: &[u8]) -> (&[u8], &[u8])
    requires { 0 < length text.now }
    ensures { text_lines text.now ≡ result.0.now ∷ text_lines result.1.now }
{
    let (line, after) = text.split_at(line_len(text));
    if after.is_empty() {
        return (line, after);
    }
    let (_, rest) = after.split_at(1);
    (without_return(line), rest)
}

impl<'a> Lines<'a> {
    /// The lines of this text.
    pub fn of(text: &'a [u8]) -> Lines<'a>
        ensures { result ≡ text_lines text.now }
    {
        Lines { rest: text }
    }

    /// The next line, or None if no line is left.
    pub fn next(&mut self) -> Option<&'a [u8]>
        ensures { MatchOption result
            ((self.old ≡ []) × (self.new ≡ []))
            (λ line. self.old ≡ line.now ∷ self.new) }
    {
        if self.rest.is_empty() {
            return None;
        }
        let (line, rest) = cut_line(self.rest);
        self.rest = rest;
        Some(line)
    }
}

/// The lines of a text are the only list of lines into which it can be divided.
pub fn lines_part_their_text()
    ensures are { (text : List ℕ) → AreLines text (text_lines text) }
    ensures only { (text : List ℕ) (others : List (List ℕ)) →
        AreLines text others → others ≡ text_lines text }
{}
