//! The words of a call that aren't a command.
ghost use Rattle.std.specs.Prelude.{◌≡◌, ◌≢◌, ◌++◌, IfOk, string_bytes};
ghost use Rattle.gg_io.specs.Said.{line_of};
ghost use Rattle.gg_io.specs.inside.Endings.{IfRefused};
ghost use Rattle.golden_commands.specs.Lines.{bad_number, cause_text, refused_words, unexpected_word, usage};
ghost use Rattle.golden_commands.specs.Words.{TellsWords};
ghost use Rattle.gg_words.specs.declared.command.WordFault.{WordFault};

use clap::error::ErrorKind;
use gg_io::{Ending, end_with, make_refusal};
use gg_words::WordFault;
use std::alloc::{AllocError, Global};

// A text followed by the usage of each command.
fn with_usage(alloc: Global, text: &str) -> Result<String, AllocError>
    ensures { IfOk result (λ whole. string_bytes whole ≡ text.now ++ usage) }
{
    let mut whole = String::from_str(alloc, text)?;
    whole.push_str(
        "\nusage: golden run CIRCUIT PARTITION TRACE [--capacity K] [--workers W] [--mono]\nusage: golden replay CIRCUIT PARTITION TRACE STEPS [--capacity K]\nusage: golden check CIRCUIT PARTITION [--capacity K]\nusage: golden demo SEED SIZE [--workers W]\nusage: golden save CIRCUIT PARTITION TRACE AT [--capacity K] [--workers W]\nusage: golden resume CIRCUIT PARTITION TRACE SNAP [--capacity K] [--workers W]",
    )?;
    Ok(whole)
}

// The ending for words that `clap` refuses: this word between two texts, and the usage of each command.
fn end_with_usage(alloc: Global, before: &str, word: &str, after: &str) -> Ending
    ensures { IfRefused (λ said. said ≡ record { status = 2; line = line_of (before.now ++ word.now ++ after.now ++ usage) }) result }
{
    match with_usage(alloc, after) {
        Ok(after) => end_with(make_refusal(alloc, 2, before, word, after.as_str())),
        Err(_) => Ending::NoMemory,
    }
}

// The ending for words that `clap` refuses because of this one.
fn end_at_word(alloc: Global, word: &str) -> Ending
    ensures { IfRefused (λ said. said ≡ unexpected_word word.now) result }
{
    end_with_usage(alloc, "golden: words: '", word, "' is unexpected")
}

// Why `clap` refuses words with a kind that isn't for a word.
fn cause_of(kind: ErrorKind) -> &'static str
    ensures { result.now ≡ cause_text kind }
{
    match kind {
        ErrorKind::MissingSubcommand => "no command is given",
        ErrorKind::MissingRequiredArgument => "a file or a number is missing",
        ErrorKind::InvalidValue => "an option has no value",
        ErrorKind::ArgumentConflict => "an option is given twice",
        _ => "not a command",
    }
}

// The ending for words that `clap` refuses with such a kind.
fn end_at_refusal(alloc: Global, kind: ErrorKind) -> Ending
    ensures { IfRefused (λ said. said ≡ refused_words kind) result }
{
    end_with_usage(alloc, "golden: words: ", "", cause_of(kind))
}

// The ending for a value that isn't a number in its range.
fn end_at_number(alloc: Global, value: &str) -> Ending
    ensures { IfRefused (λ said. said ≡ bad_number value.now) result }
{
    end_with(make_refusal(
        alloc,
        2,
        "golden: words: '",
        value,
        "' is not a number in its range: --capacity takes 1 to 4096, --workers 0 to 64, SEED 0 to 4294967295, SIZE 1 to 64, AT 0 to 1000000",
    ))
}

/// The ending for words with this fault.
pub fn end_at_words(alloc: Global, fault: &WordFault) -> Ending
    ensures { IfRefused (λ said. (fault.now ≢ WordFault.NoMemory) × TellsWords fault.now said) result }
{
    match fault {
        WordFault::Unexpected(word) => end_at_word(alloc, word.as_str()),
        WordFault::Refused(kind) => end_at_refusal(alloc, *kind),
        WordFault::WrongNumber(value) => end_at_number(alloc, value.as_str()),
        WordFault::NoMemory => Ending::NoMemory,
    }
}
