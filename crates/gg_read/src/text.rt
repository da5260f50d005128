//! The text of a circuit, line by line.
ghost use Rattle.std.specs.Prelude.{◌≡◌, ℕ, ◌+◌, ◌<◌, ◌≤◌, ◌^◌, Err, length, IfOk, IfErr, MatchResult};
ghost use Rattle.std.specs.Str.{IsUtf8};
ghost use Rattle.gg_ast.specs.Tree.{CircuitTree};
ghost use Rattle.gg_read.specs.Causes.{IsFaultOf};
ghost use Rattle.gg_read_row.specs.inside.LineRows.{AreNamesOfLine};
ghost use Rattle.gg_read.specs.inside.Stages.{line_of, IsStage, IsRowOf, IsPlaced, IsStep, IsMissed, TellsBlank};
ghost use Rattle.gg_read.specs.Text.{LineTokens, IsFaultLine, HasNoFaultLine, Spells, HasReadFault};

use crate::fault::{is_too_deep, line_fault};
use crate::stage::{Stage, advance, finish};
use gg_ast::Circuit;
use gg_bits::Name;
use gg_lex::{LexedLine, Tok, lex};
use gg_read_row::{LineRow, RowFault, read_row};
use std::alloc::Global;

/// Why no circuit was read.
#[derive(Debug, Drop)]
pub enum ReadFault {
    /// The bytes are not UTF-8.
    NotText,
    /// This line, counted from 1, is not valid at its position.
    Syntax { line: u64 },
    /// This line is not valid at its position, and `word` is its first word or symbol that is left out of the language.
    Outside { line: u64, word: Name },
    /// At some token of this line the `(` from its beginning up to the token outnumber the `)` by more than 256. They
    /// may be fewer before: a `)` and then 257 `(` are not too deep.
    TooDeep { line: u64 },
    /// An allocation failed. This has no cause in the text.
    NoMemory,
}

/// The circuit that a text spells (FIRRTL Specification, "Grammar"), if no line of it is at fault.
///
/// There must be fewer than 2 ^ 32 bytes, so that lines and modules can be counted. The text is read once.
///
/// # Errors
///
/// Returns `NotText` exactly if the bytes are not UTF-8. Otherwise the line at fault is the first that is not valid at
/// its position or is too deep, even if it spells a row. If there is none and the text is incomplete, it is the line
/// after the last. The fault is `TooDeep` if at some token of the line the count of `(` less the count of `)` is above
/// 256. Otherwise it is `Outside` with the line's first word that is left out of the language, or `Syntax` if there is
/// none. Returns `NoMemory` if an allocation fails; this has no cause in the text.
///
/// # Examples
///
/// ```rust
/// let circuit = read_circuit(alloc, b"circuit Empty :\n  module Empty :\n    skip\n")?;
/// // `circuit.name()` is `Empty`. Its only module has one statement, `skip` on line 3.
/// ```
///
/// With `when a :` in place of `skip` the result is `Outside` with line 3 and the word `when`.
pub fn read_circuit(alloc: Global, bytes: &[u8]) -> Result<Circuit, ReadFault>
    requires { length bytes.now < 2 ^ 32 }
    ensures circuit { IfOk result (Spells bytes.now) }
    ensures faultless { IfOk result (λ _. HasNoFaultLine bytes.now) }
    ensures fault { IfErr result (HasReadFault bytes.now) }

    // a text that spells a circuit without a fault line gives just that circuit, a text with a fault line just its
    // fault, and bytes that are not UTF-8 just `NotText`; in the first two cases `NoMemory` may come too
    ensures only_circuit { (c : CircuitTree) → Spells bytes.now c → HasNoFaultLine bytes.now → MatchResult result (λ d. d ≡ c) (λ fault. fault ≡ ReadFault.NoMemory) }
    ensures only_fault { (n : ℕ) (line : LineTokens) → IsUtf8 bytes.now → IsFaultLine bytes.now n line → MatchResult result (λ _. ⊥) (IsFaultOf n line.tokens) }
    ensures only_not_text { (IsUtf8 bytes.now → ⊥) → result ≡ Err ReadFault.NotText }
{
    match std::str::from_utf8(bytes) {
        Ok(text) => read_text(alloc, text),
        Err(_) => Err(ReadFault::NotText),
    }
}

// The circuit that a text spells, or its fault line.
fn read_text(alloc: Global, text: &str) -> Result<Circuit, ReadFault>
    requires { length text.now < 2 ^ 32 }
    ensures circuit { IfOk result (Spells text.now) }
    ensures faultless { IfOk result (λ _. HasNoFaultLine text.now) }
    ensures fault { IfErr result (HasReadFault text.now) }
{
    let mut stage = Stage::Start;
    let mut number: u64 = 0;
    for line in text.lines() {
        number += 1;
        stage = next_stage(alloc, stage, number, line)?;
    }
    finish(stage, number + 1)
}

// The stage after one more line, or the line's fault.
fn next_stage(alloc: Global, stage: Stage, number: u64, line: &str) -> Result<Stage, ReadFault>
    requires stage { IsStage stage number }
    ensures { IsStep stage number line.now result }
{
    let lexed = match lex(alloc, line) {
        Ok(lexed) => lexed,
        Err(_) => {
            drop(stage);
            return Err(ReadFault::NoMemory);
        }
    };
    if is_blank(&lexed) {
        return Ok(stage);
    }
    match placed(alloc, stage, number, &lexed) {
        Ok(next) => Ok(next),
        Err(fault) => Err(missed(alloc, number, lexed.tokens.as_slice(), fault)),
    }
}

// The fault of a line with this number.
fn missed(alloc: Global, number: u64, tokens: &[Tok], fault: RowFault) -> ReadFault
    ensures { IsMissed fault number tokens.now result }
{
    match fault {
        RowFault::NoForm => line_fault(alloc, number, tokens),
        RowFault::NoMemory => ReadFault::NoMemory,
    }
}

// Whether a line is blank.
fn is_blank(lexed: &LexedLine) -> bool
    ensures { TellsBlank (line_of lexed.now) result }
{
    lexed.tokens.is_empty() && lexed.bad.is_none()
}

// The stage after a line that is a row, is valid at its position and is not too deep.
fn placed(alloc: Global, stage: Stage, number: u64, lexed: &LexedLine) -> Result<Stage, RowFault>
    requires stage { IsStage stage number }
    ensures { IsPlaced stage number (line_of lexed.now) result }
{
    match whole_row(alloc, lexed) {
        Ok(row) => advance(alloc, stage, number, row),
        Err(fault) => {
            drop(stage);
            Err(fault)
        }
    }
}

// The row of a line, whatever its position. The whole line spells it, and at no token are too many brackets open.
fn whole_row(alloc: Global, lexed: &LexedLine) -> Result<LineRow, RowFault>
    ensures row { IsRowOf (line_of lexed.now) result }
    ensures named { IfOk result AreNamesOfLine }
{
    if lexed.bad.is_some() {
        return Err(RowFault::NoForm);
    }
    if is_too_deep(lexed.tokens.as_slice()) {
        return Err(RowFault::NoForm);
    }
    read_row(alloc, lexed.tokens.as_slice())
}
