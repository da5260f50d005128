//! How faults are printed.
ghost use Rattle.std.specs.Prelude.{◌≡◌, ◌∷◌, ◌++◌};
ghost use Rattle.std.specs.Fmt.{WritesOnOk};
ghost use Rattle.gg_shape.specs.FaultText.{behind_blanks, key_name, limit_name, on_line, word_name};

use crate::fault::{CheckFault, Fault, Limit, MemoryKey, Word};
use gg_ast::Report;
use gg_bits::Name;
use std::error::Error;
use std::fmt;

/// The fault's code and its data, as the program prints them after `golden: circuit: `.
impl fmt::Display for Fault {
    ghost use Rattle.std.specs.Prelude.{Some};
    ghost use Rattle.gg_shape.specs.FaultText.{fault_text};

    ghost output = { λ fault. Some (fault_text fault) };

    fn fmt<W: fmt::Write>(&self, f: &mut fmt::Formatter<W>) -> fmt::Result {
        match self {
            Fault::MissingTop { name } => write!(f, "F1 {name}"),
            Fault::RepeatedName { line, name } => write_about(f, "F2", *line, name.as_str()),
            Fault::UnknownName { line, name } => write_about(f, "F3", *line, name.as_str()),
            Fault::SecondConnection { line, name } => write_about(f, "F4", *line, name.as_str()),
            Fault::Unconnected { line, name } => write_about(f, "F5", *line, name.as_str()),
            Fault::ConnectedSource { line, name } => write_about(f, "F6", *line, name.as_str()),
            Fault::ModuleRing { modules } => write_names(f, "F7", modules.as_slice()),
            Fault::MemoryField { line, key } => write_about(f, "F8", *line, key_text(*key)),
            Fault::WrongKind { line, word } => write_about(f, "F9", *line, word_text(*word)),
            Fault::WrongWidth { line, width } => write!(f, "F10 line {line} {width}"),
            Fault::WrongParameter { line, word } => write_about(f, "F11", *line, word_text(*word)),
            Fault::LiteralTooLarge { line } => write!(f, "F12 line {line}"),
            Fault::TooWide { line, source, sink } => write!(f, "F13 line {line} {source} {sink}"),
            Fault::WrongClock { line, name } => write_about(f, "F14", *line, name.as_str()),
            Fault::OverLimit { limit, count } => write!(f, "F15 {} {count}", limit_text(*limit)),
            Fault::Loop { paths } => write_names(f, "F16", paths.as_slice()),
        }
    }
}

impl Error for Fault {}

/// The fault's text, or that an allocation failed.
impl fmt::Display for CheckFault {
    ghost use Rattle.std.specs.Prelude.{Some};
    ghost use Rattle.gg_shape.specs.inside.FaultText.{refusal_text};

    ghost output = { λ refusal. Some (refusal_text refusal) };

    fn fmt<W: fmt::Write>(&self, f: &mut fmt::Formatter<W>) -> fmt::Result {
        match self {
            CheckFault::F(fault) => write!(f, "{fault}"),
            CheckFault::NoMemory => f.write_str("out of memory"),
        }
    }
}

impl Error for CheckFault {}

// Writes a code, a line, and what the fault is about.
fn write_about<W: fmt::Write>(
    f: &mut fmt::Formatter<W>,
    code: &str,
    line: u64,
    about: &str,
) -> fmt::Result
    ensures { WritesOnOk W.Write.write_str_gives f.old result (on_line code.now line ++ 32 ∷ about.now) f.new }
{
    write!(f, "{code} line {line} {about}")
}

// Writes a code, and names with a blank before each.
fn write_names<W: fmt::Write>(f: &mut fmt::Formatter<W>, code: &str, names: &[Name]) -> fmt::Result
    ensures { WritesOnOk W.Write.write_str_gives f.old result (code.now ++ behind_blanks names.now) f.new }
{
    f.write_str(code)?;
    for name in names {
        write!(f, " {name}")?;
    }
    Ok(())
}

// The first word of a field of a memory.
fn key_text(key: MemoryKey) -> &'static str
    ensures { result.now ≡ key_name key }
{
    match key {
        MemoryKey::DataType => "data-type",
        MemoryKey::Depth => "depth",
        MemoryKey::ReadLatency => "read-latency",
        MemoryKey::WriteLatency => "write-latency",
        MemoryKey::ReadUnderWrite => "read-under-write",
    }
}

// The word of a count.
fn limit_text(limit: Limit) -> &'static str
    ensures { result.now ≡ limit_name limit }
{
    match limit {
        Limit::Depth => "depth",
        Limit::Signals => "signals",
        Limit::Memory => "memory",
        Limit::Words => "words",
        Limit::Instances => "instances",
    }
}

// The name of an operation, `connect`, or the first word of a statement.
fn word_text(word: Word) -> &'static str
    ensures { result.now ≡ word_name word }
{
    match word {
        Word::Unary(operation) => operation.text(),
        Word::Binary(operation) => operation.text(),
        Word::Fixed(operation) => operation.text(),
        Word::Mux => "mux",
        Word::Connect => "connect",
        Word::Register => "reg",
        Word::Memory => "mem",
        Word::Stop => "stop",
        Word::Report(Report::Printf) => "printf",
        Word::Report(Report::Assert) => "assert",
        Word::Report(Report::Assume) => "assume",
        Word::Report(Report::Cover) => "cover",
    }
}
