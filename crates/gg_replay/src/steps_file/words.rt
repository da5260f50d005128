//! The words of one line, from left to right.

ghost use Rattle.std.specs.Prelude.{◌≡◌, ◌∷◌, [], MatchOption};
ghost use Rattle.std.specs.Option.{option_copied};
ghost use Rattle.gg_replay.specs.steps_file.Words.{words};
ghost use Rattle.gg_replay.specs.inside.Words.{words_left};

use gg_trace::run_len;
use std::marker::Model;

// The words of a line that are still to be read. A contract sees the list of them.
#[derive(Drop)]
pub(crate) struct Words<'a> {
    // the rest of the line after the last blank that was read, or None if the last word was read
    rest: Option<&'a [u8]>,
}

impl<'a> Model for Words<'a> {
    ghost use Rattle.std.specs.Prelude.{ℕ, List};
    ghost use Rattle.std.specs.Option.{option_copied};

    ghost Value = { List (List ℕ) };

    ghost use Rattle.gg_replay.specs.inside.Words.{words_left};

    ghost view = { λ a. words_left (option_copied a.rest) };
}

// The first word, and the rest after its blank, if there is a blank.
fn cut_word(line: &[u8]) -> (&[u8], Option<&[u8]>)
    ensures { words line.now ≡ result.0.now ∷ words_left (option_copied result.1) }
{
    let (word, after) = line.split_at(run_len(line, false));
    if after.is_empty() {
        return (word, None);
    }
    let (_, rest) = after.split_at(1);
    (word, Some(rest))
}

impl<'a> Words<'a> {
    // The words of this line.
    pub(crate) fn of(line: &'a [u8]) -> Words<'a>
        ensures { result ≡ words line.now }
    {
        Words { rest: Some(line) }
    }

    // The next word, or None if no word is left.
    pub(crate) fn next(&mut self) -> Option<&'a [u8]>
        ensures { MatchOption result
            ((self.old ≡ []) × (self.new ≡ []))
            (λ word. self.old ≡ word.now ∷ self.new) }
    {
        let (word, rest) = cut_word(self.rest?);
        self.rest = rest;
        Some(word)
    }
}
