//! The words of the grammar: operations, and the first words of lines.
ghost use Rattle.std.specs.Prelude.{◌≡◌};
ghost use Rattle.gg_ast.specs.inside.Words.{operation_of, head_words, tail_words, field_words, second_words, keyword_of};
ghost use Rattle.gg_bits.specs.Lists.{find_word};

use crate::module::Direction;
use crate::statement::Report;
use gg_bits::{Op1, Op2, OpN};

/// An operation of an expression, by how many operands and parameters it takes.
#[derive(Clone, Copy)]
pub enum Operation {
    /// On one value.
    Unary(Op1),
    /// On two values.
    Binary(Op2),
    /// On one value, with parameters.
    Fixed(OpN),
    /// `mux`, on three values.
    Mux,
}

/// The first word of a memory's field.
#[derive(Clone, Copy)]
pub enum FieldWord {
    /// `data-type`.
    DataType,
    /// `depth`.
    Depth,
    /// `read-latency`.
    ReadLatency,
    /// `write-latency`.
    WriteLatency,
    /// `reader`.
    Reader,
    /// `writer`.
    Writer,
    /// `read-under-write`.
    ReadUnderWrite,
}

/// The form of a line, by its first word.
#[derive(Clone, Copy)]
pub enum Keyword {
    /// `FIRRTL`, before the version.
    Version,
    /// `circuit`.
    Circuit,
    /// `module`.
    Module,
    /// `input` or `output`.
    Port(Direction),
    /// `wire`.
    Wire,
    /// `node`.
    Node,
    /// `reg`.
    Register,
    /// `reset`, the reset of the register above.
    Reset,
    /// `inst`.
    Instance,
    /// `mem`.
    Memory,
    /// The first word of a memory's field.
    Field(FieldWord),
    /// `skip`.
    Skip,
    /// `stop`.
    Stop,
    /// `printf`, `assert`, `assume` or `cover`.
    Report(Report),
    /// `public`, before `module`.
    Public,
    /// `connect`, a connection.
    Connect,
    /// `invalidate`, of a sink.
    Invalidate,
    /// `regreset`, a register with a reset.
    Regreset,
}

/// The operation that a word names. None if it names no operation.
pub fn find_operation(word: &str) -> Option<Operation>
    ensures { result ≡ operation_of word.now }
{
    if let Some(op) = Op1::from_text(word) {
        return Some(Operation::Unary(op));
    }
    if let Some(op) = Op2::from_text(word) {
        return Some(Operation::Binary(op));
    }
    if let Some(op) = OpN::from_text(word) {
        return Some(Operation::Fixed(op));
    }
    if word == "mux" {
        Some(Operation::Mux)
    } else {
        None
    }
}

// The form of a line that begins with one of the words of `head_words`.
fn head_keyword(word: &str) -> Option<Keyword>
    ensures { result ≡ find_word word.now head_words }
{
    match word {
        "FIRRTL" => Some(Keyword::Version),
        "circuit" => Some(Keyword::Circuit),
        "module" => Some(Keyword::Module),
        "input" => Some(Keyword::Port(Direction::Input)),
        "output" => Some(Keyword::Port(Direction::Output)),
        "wire" => Some(Keyword::Wire),
        "node" => Some(Keyword::Node),
        "reg" => Some(Keyword::Register),
        _ => None,
    }
}

// The form of a line that begins with one of the words of `tail_words`.
fn tail_keyword(word: &str) -> Option<Keyword>
    ensures { result ≡ find_word word.now tail_words }
{
    match word {
        "reset" => Some(Keyword::Reset),
        "inst" => Some(Keyword::Instance),
        "mem" => Some(Keyword::Memory),
        "skip" => Some(Keyword::Skip),
        "stop" => Some(Keyword::Stop),
        "printf" => Some(Keyword::Report(Report::Printf)),
        "assert" => Some(Keyword::Report(Report::Assert)),
        "assume" => Some(Keyword::Report(Report::Assume)),
        "cover" => Some(Keyword::Report(Report::Cover)),
        _ => None,
    }
}

// The form of a line that begins with the word of a memory's field.
fn field_keyword(word: &str) -> Option<Keyword>
    ensures { result ≡ find_word word.now field_words }
{
    match word {
        "data-type" => Some(Keyword::Field(FieldWord::DataType)),
        "depth" => Some(Keyword::Field(FieldWord::Depth)),
        "read-latency" => Some(Keyword::Field(FieldWord::ReadLatency)),
        "write-latency" => Some(Keyword::Field(FieldWord::WriteLatency)),
        "reader" => Some(Keyword::Field(FieldWord::Reader)),
        "writer" => Some(Keyword::Field(FieldWord::Writer)),
        "read-under-write" => Some(Keyword::Field(FieldWord::ReadUnderWrite)),
        _ => None,
    }
}

// The form of a line that begins with a word of the second spelling.
fn second_keyword(word: &str) -> Option<Keyword>
    ensures { result ≡ find_word word.now second_words }
{
    match word {
        "public" => Some(Keyword::Public),
        "connect" => Some(Keyword::Connect),
        "invalidate" => Some(Keyword::Invalidate),
        "regreset" => Some(Keyword::Regreset),
        _ => None,
    }
}

/// The form of a line by its first word, if that isn't the name of a sink.
pub fn find_keyword(word: &str) -> Option<Keyword>
    ensures { result ≡ keyword_of word.now }
{
    head_keyword(word)
        .or(tail_keyword(word))
        .or(field_keyword(word))
        .or(second_keyword(word))
}
