//! Reads the words of a call.
ghost use Rattle.std.specs.Prelude.{◌≡◌, ◌≢◌, ℕ, ◌⊎◌, [], true, List, IfOk, IfErr, IsErr, MatchResult, Result, Ok, Err};
ghost use Rattle.clap.specs.Walk.{first_of, rows_of};
ghost use Rattle.clap.specs.Matches.{found_of, has_subcommand};
ghost use Rattle.clap.specs.Simple.{subcommand_rows_of, subcommand_of};
ghost use Rattle.clap.specs.Faults.{fault_of};
ghost use Rattle.clap.specs.Kinds.{IsAmong};
ghost use Rattle.gg_words.specs.Line.{golden_app};
ghost use Rattle.gg_words.specs.Unexpected.{IsUnexpected, has_unexpected, is_for_word};
ghost use Rattle.gg_words.specs.Number.{judged, number_of};
ghost use Rattle.gg_words.specs.inside.Meaning.{Answers, HasWords, SaysFault};
ghost use Rattle.gg_words.specs.Meaning.{FoundSays, IfWordFault, IsCommand, IsWordFault, at_of, capacity_of, check_of, demo_of, is_set, replay_of, resume_of, run_of, save_of, text_of, texts, workers_of};
ghost use Rattle.gg_words.specs.declared.command.Cmd.{Cmd};
ghost use Rattle.gg_words.specs.declared.command.WordFault.{WordFault};

use crate::command::{Cmd, WordFault};
use crate::laws::{one_meaning, words_are_given};
use crate::line::golden_line;
use crate::numbers::number_in;
use clap::ArgMatches;
use clap::error::ErrorKind;
use gg_bits::{CAPACITY_LIMIT, GREATEST_SEED, LATEST_CYCLE, MOST_STAGES, MOST_WORKERS, Name};
use std::alloc::{AllocError, Global};

// The text that was given to an argument.
fn name_of(alloc: Global, matches: &ArgMatches<'_>, id: &str) -> Result<Name, AllocError>
    ensures { IfOk result (λ name. name ≡ text_of id.now (rows_of (found_of matches.now))) }
{
    Ok(Name::from(String::from_str(alloc, matches.get_str(id).unwrap_or(""))?))
}

// Whether an option without a value was given.
fn is_set(matches: &ArgMatches<'_>, id: &str) -> bool
    ensures { result ≡ is_set id.now (rows_of (found_of matches.now)) }
{
    match matches.get_str(id) {
        Some(text) => text == "true",
        None => false,
    }
}

// The fault of a value that isn't a number in its range.
fn no_number(alloc: Global, value: &str) -> WordFault
    ensures { SaysFault {T = ℕ} result (Err value.now) }
{
    match String::from_str(alloc, value) {
        Ok(text) => WordFault::WrongNumber(Name::from(text)),
        Err(_) => WordFault::NoMemory,
    }
}

// A value as a number in its range.
fn judged(alloc: Global, text: &str, least: u32, most: u32) -> Result<u32, WordFault>
    ensures { Answers result (judged least most text.now) }
{
    match number_in(text, least, most) {
        Some(number) => Ok(number),
        None => Err(no_number(alloc, text)),
    }
}

// The number of an option, if it is in its range, or the option's default.
fn number_of(
    alloc: Global,
    matches: &ArgMatches<'_>,
    id: &str,
    least: u32,
    most: u32,
    default: u32,
) -> Result<u32, WordFault>
    ensures { Answers result (number_of least most default (first_of id.now (rows_of (found_of matches.now)))) }
{
    match matches.get_str(id) {
        None => Ok(default),
        Some(text) => judged(alloc, text, least, most),
    }
}

// The number of a word, if it is in its range.
fn number_at(
    alloc: Global,
    matches: &ArgMatches<'_>,
    id: &str,
    least: u32,
    most: u32,
) -> Result<u32, WordFault>
    ensures { Answers result (judged least most (text_of id.now (rows_of (found_of matches.now)))) }
{
    judged(alloc, matches.get_str(id).unwrap_or(""), least, most)
}

// The capacity of channels.
fn capacity_of(alloc: Global, matches: &ArgMatches<'_>) -> Result<u32, WordFault>
    ensures { Answers result (capacity_of (rows_of (found_of matches.now))) }
{
    number_of(alloc, matches, "capacity", 1, CAPACITY_LIMIT, 2)
}

// The number of workers.
fn workers_of(alloc: Global, matches: &ArgMatches<'_>) -> Result<u32, WordFault>
    ensures { Answers result (workers_of (rows_of (found_of matches.now))) }
{
    number_of(alloc, matches, "workers", 0, MOST_WORKERS, 0)
}

// The command `run`.
fn run_of(alloc: Global, matches: &ArgMatches<'_>) -> Result<Cmd, WordFault>
    ensures { Answers result (run_of (rows_of (found_of matches.now))) }
{
    let capacity = capacity_of(alloc, matches)?;
    let workers = workers_of(alloc, matches)?;
    Ok(Cmd::Run {
        circuit: name_of(alloc, matches, "circuit")?,
        partition: name_of(alloc, matches, "partition")?,
        trace: name_of(alloc, matches, "trace")?,
        capacity,
        workers,
        mono: is_set(matches, "mono"),
    })
}

// The command `replay`.
fn replay_of(alloc: Global, matches: &ArgMatches<'_>) -> Result<Cmd, WordFault>
    ensures { Answers result (replay_of (rows_of (found_of matches.now))) }
{
    let capacity = capacity_of(alloc, matches)?;
    Ok(Cmd::Replay {
        circuit: name_of(alloc, matches, "circuit")?,
        partition: name_of(alloc, matches, "partition")?,
        trace: name_of(alloc, matches, "trace")?,
        steps: name_of(alloc, matches, "steps")?,
        capacity,
    })
}

// The command `check`.
fn check_of(alloc: Global, matches: &ArgMatches<'_>) -> Result<Cmd, WordFault>
    ensures { Answers result (check_of (rows_of (found_of matches.now))) }
{
    let capacity = capacity_of(alloc, matches)?;
    Ok(Cmd::Check {
        circuit: name_of(alloc, matches, "circuit")?,
        partition: name_of(alloc, matches, "partition")?,
        capacity,
    })
}

// The command `demo`.
fn demo_of(alloc: Global, matches: &ArgMatches<'_>) -> Result<Cmd, WordFault>
    ensures { Answers result (demo_of (rows_of (found_of matches.now))) }
{
    Ok(Cmd::Demo {
        seed: number_at(alloc, matches, "seed", 0, GREATEST_SEED)?,
        size: number_at(alloc, matches, "size", 1, MOST_STAGES)?,
        workers: workers_of(alloc, matches)?,
    })
}

// The cycle of a snapshot.
fn at_of(alloc: Global, matches: &ArgMatches<'_>) -> Result<u32, WordFault>
    ensures { Answers result (at_of (rows_of (found_of matches.now))) }
{
    number_at(alloc, matches, "at", 0, LATEST_CYCLE)
}

// The command `save`.
fn save_of(alloc: Global, matches: &ArgMatches<'_>) -> Result<Cmd, WordFault>
    ensures { Answers result (save_of (rows_of (found_of matches.now))) }
{
    let at = at_of(alloc, matches)?;
    let capacity = capacity_of(alloc, matches)?;
    let workers = workers_of(alloc, matches)?;
    Ok(Cmd::Save {
        circuit: name_of(alloc, matches, "circuit")?,
        partition: name_of(alloc, matches, "partition")?,
        trace: name_of(alloc, matches, "trace")?,
        at,
        capacity,
        workers,
    })
}

// The command `resume`.
fn resume_of(alloc: Global, matches: &ArgMatches<'_>) -> Result<Cmd, WordFault>
    ensures { Answers result (resume_of (rows_of (found_of matches.now))) }
{
    let capacity = capacity_of(alloc, matches)?;
    let workers = workers_of(alloc, matches)?;
    Ok(Cmd::Resume {
        circuit: name_of(alloc, matches, "circuit")?,
        partition: name_of(alloc, matches, "partition")?,
        trace: name_of(alloc, matches, "trace")?,
        snap: name_of(alloc, matches, "snap")?,
        capacity,
        workers,
    })
}

// The command that was found.
fn command_of(alloc: Global, matches: &ArgMatches<'_>) -> Result<Cmd, WordFault>
    requires { HasWords (subcommand_rows_of matches.now) }
    ensures { (said : Result Cmd (List ℕ)) × FoundSays (subcommand_rows_of matches.now) said × Answers result said }
{
    let (name, inner) = matches.subcommand().unwrap();
    match name {
        "run" => run_of(alloc, inner),
        "replay" => replay_of(alloc, inner),
        "check" => check_of(alloc, inner),
        "demo" => demo_of(alloc, inner),
        "save" => save_of(alloc, inner),
        _ => resume_of(alloc, inner),
    }
}

// Whether a refusal of this kind is because of one of the words.
fn is_for_word(kind: ErrorKind) -> bool
    ensures { result ≡ is_for_word kind }
{
    matches!(
        kind,
        ErrorKind::UnknownArgument | ErrorKind::InvalidSubcommand | ErrorKind::TooManyValues
    )
}

// Whether `clap` refuses words because of one of them.
fn has_unexpected(alloc: Global, words: &[String]) -> Result<bool, AllocError>
    ensures { IfOk result (λ has. has ≡ has_unexpected (texts words.now)) }
{
    match golden_line(alloc)?.try_get_matches_from(words) {
        Ok(_) => Ok(false),
        Err(error) => match error.kind() {
            ErrorKind::OutOfMemory => Err(AllocError),
            kind => Ok(is_for_word(kind)),
        },
    }
}

// The word that makes `clap` refuse the words.
fn unexpected_word<'a>(alloc: Global, words: &'a [String]) -> Result<&'a str, AllocError>
    requires { has_unexpected (texts words.now) ≡ true }
    ensures { IfOk result (λ word. IsUnexpected (texts words.now) word.now) }
{
    let mut place = 0;
    while !has_unexpected(alloc, &words[..place + 1])? {
        place += 1;
    }
    Ok(words[place].as_str())
}

// The fault of words that `clap` refuses because of one of them.
fn unexpected(alloc: Global, words: &[String]) -> Result<WordFault, AllocError>
    requires { has_unexpected (texts words.now) ≡ true }
    ensures { IfOk result (IfWordFault (texts words.now)) }
{
    let word = unexpected_word(alloc, words)?;
    Ok(WordFault::Unexpected(Name::from(String::from_str(alloc, word)?)))
}

// The fault of words that `clap` refuses with this kind.
fn refusal_of(alloc: Global, words: &[String], kind: ErrorKind) -> WordFault
    requires { (kind ≡ ErrorKind.OutOfMemory) ⊎ IsAmong kind (fault_of golden_app (texts words.now)) }
    ensures { IfWordFault (texts words.now) result }
{
    match kind {
        ErrorKind::OutOfMemory => WordFault::NoMemory,
        _ if is_for_word(kind) => unexpected(alloc, words).unwrap_or(WordFault::NoMemory),
        _ => WordFault::Refused(kind),
    }
}

// Reads the words.
fn read_words(alloc: Global, words: &[String]) -> Result<Cmd, WordFault>
    ensures { MatchResult result (IsCommand (texts words.now)) (IfWordFault (texts words.now)) }
{
    words_are_given();
    let line = golden_line(alloc)?;
    match line.try_get_matches_from(words) {
        Ok(matches) => command_of(alloc, &matches),
        Err(error) => Err(refusal_of(alloc, words, error.kind())),
    }
}

/// The command that these words are. The first word is the program's own name, and is ignored.
///
/// The commands, as `clap` reads them, are:
///
/// - `run CIRCUIT PARTITION TRACE [--capacity K] [--workers W] [--mono]`
/// - `replay CIRCUIT PARTITION TRACE STEPS [--capacity K]`
/// - `check CIRCUIT PARTITION [--capacity K]`
/// - `demo SEED SIZE [--workers W]`
/// - `save CIRCUIT PARTITION TRACE AT [--capacity K] [--workers W]`
/// - `resume CIRCUIT PARTITION TRACE SNAP [--capacity K] [--workers W]`
///
/// Options may be anywhere after the command's name, at most once each. A value is given after `=` or as the next word.
/// After `--` each word is a file or a number, by its place, so a file name that begins with `-` needs `--` before it.
/// K is 1 to 4,096, and 2 by default. W is 0 to 64, and 0 by default. SEED is 0 to 4,294,967,295, SIZE is 1 to 64, and
/// AT is 0 to 1,000,000. A number is one or more decimal digits, and may have leading zeros.
///
/// # Errors
///
/// Returns `Unexpected` with the word that makes `clap` refuse the words, also if it is a word for help. Returns
/// `Refused` if `clap` refuses them for another reason. Otherwise returns `WrongNumber` with the first value, in the
/// order SEED, SIZE, AT, K, W, that isn't a number in its range. Returns `NoMemory` if an allocation fails.
///
/// # Examples
///
/// ```rust
/// // `given` has the words `golden`, `check`, `adder.fir`, `cut.json` and `--capacity=4`.
/// let cmd = words(alloc, &given)?;
/// // `cmd` is `Cmd::Check` with the circuit `adder.fir`, the partition `cut.json` and the capacity 4.
/// ```
///
/// With `--capacity=0` the result is `WrongNumber` with `0`, because a capacity is at least 1.
pub fn words(alloc: Global, words: &[String]) -> Result<Cmd, WordFault>
    // The result is the command that the words are.
    ensures command { IfOk result (IsCommand (texts words.now)) }
    // A fault is one of the words, or `NoMemory`.
    ensures fault { IfErr result (IfWordFault (texts words.now)) }
    // A command is returned, or `NoMemory`.
    ensures complete { (cmd : Cmd) → IsCommand (texts words.now) cmd →
        MatchResult result (λ given. given ≡ cmd) (λ given. given ≡ WordFault.NoMemory) }
    // Words with a fault aren't a command.
    ensures due { (fault : WordFault) → IsWordFault (texts words.now) fault → IsErr result }
    // If a fault other than `NoMemory` is returned, the words aren't a command.
    ensures none { IfErr result (λ given. given ≢ WordFault.NoMemory → (cmd : Cmd) → IsCommand (texts words.now) cmd → ⊥) }
{
    one_meaning();
    read_words(alloc, words)
}
