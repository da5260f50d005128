//! Why a line is at fault.
ghost use Rattle.std.specs.Prelude.{◌≡◌, ◌∷◌, [], map, bytes_eq, MatchBool, IfOk};
ghost use Rattle.std.specs.List.{list_any};
ghost use Rattle.gg_read.specs.Causes.{IsFaultOf};
ghost use Rattle.gg_read.specs.Text.{IsTooDeep, opened, closed, first_outside, outside_text, is_outside_word};

use crate::text::ReadFault;
use gg_bits::{DEEPEST, Name};
use gg_lex::{Symbol, Tok};
use std::alloc::{AllocError, Global};

// The fault of the fault line with this number and these tokens.
pub(crate) fn line_fault(alloc: Global, line: u64, tokens: &[Tok]) -> ReadFault
    ensures { IsFaultOf line tokens.now result }
{
    if is_too_deep(tokens) {
        return ReadFault::TooDeep { line };
    }
    match first_outside(alloc, tokens) {
        Ok(Some(word)) => ReadFault::Outside { line, word },
        Ok(None) => ReadFault::Syntax { line },
        Err(_) => ReadFault::NoMemory,
    }
}

// Whether at some token the `(` from the line's beginning up to it outnumber the `)` by more than 256.
pub(crate) fn is_too_deep(tokens: &[Tok]) -> bool
    ensures { MatchBool result (IsTooDeep tokens.now) (IsTooDeep tokens.now → ⊥) }
{
    let mut opened: usize = 0;
    let mut closed: usize = 0;
    for token in tokens {
        opened += opens(token);
        closed += closes(token);
        if DEEPEST + closed < opened {
            return true;
        }
    }
    false
}

// How many brackets a token opens.
fn opens(token: &Tok) -> usize
    ensures { result ≡ opened (token.now ∷ []) }
{
    match token {
        Tok::Symbol(Symbol::OpenParen) => 1,
        _ => 0,
    }
}

// How many brackets a token closes.
fn closes(token: &Tok) -> usize
    ensures { result ≡ closed (token.now ∷ []) }
{
    match token {
        Tok::Symbol(Symbol::CloseParen) => 1,
        _ => 0,
    }
}

// The first of the tokens that is an outside word: a word or symbol that this part of the language leaves out.
fn first_outside(alloc: Global, tokens: &[Tok]) -> Result<Option<Name>, AllocError>
    ensures { IfOk result (λ found. found ≡ first_outside tokens.now) }
{
    for token in tokens {
        if let Some(word) = outside_text(alloc, token)? {
            return Ok(Some(word));
        }
    }
    Ok(None)
}

// The outside word that a token is, as it is written.
fn outside_text(alloc: Global, token: &Tok) -> Result<Option<Name>, AllocError>
    ensures { IfOk result (λ found. found ≡ outside_text token.now) }
{
    match token {
        Tok::Word(word) => {
            if is_outside_word(word.as_str()) {
                return Ok(Some(word.clone()?));
            }
            Ok(None)
        }
        Tok::Symbol(symbol) => outside_symbol(alloc, *symbol),
        _ => Ok(None),
    }
}

// The symbol as it is written, if it is left out of the language.
fn outside_symbol(alloc: Global, symbol: Symbol) -> Result<Option<Name>, AllocError>
    ensures { IfOk result (λ found. found ≡ outside_text (Tok.Symbol symbol)) }
{
    match symbol {
        Symbol::PartialConnect => some_name(alloc, "<-"),
        Symbol::OpenBracket => some_name(alloc, "["),
        Symbol::OpenBrace => some_name(alloc, "{"),
        Symbol::OpenAnnotations => some_name(alloc, "%["),
        _ => Ok(None),
    }
}

// A new name with a copy of this text.
fn some_name(alloc: Global, text: &str) -> Result<Option<Name>, AllocError>
    ensures { IfOk result (λ found. found ≡ Some text.now) }
{
    let owned = String::from_str(alloc, text)?;
    Ok(Some(Name::from(owned)))
}

// The words that are left out of the language.
static OUTSIDE: [&str; 26] = [
    "when",
    "else",
    "extmodule",
    "intmodule",
    "cmem",
    "smem",
    "infer",
    "attach",
    "layer",
    "layerblock",
    "group",
    "define",
    "parameter",
    "defname",
    "Analog",
    "Fixed",
    "Interval",
    "AsyncReset",
    "Reset",
    "Probe",
    "flip",
    "asClock",
    "asAsyncReset",
    "asFixedPoint",
    "asInterval",
    "readwriter",
];

// Whether a word is one of these.
fn is_one_of(words: &[&str], word: &str) -> bool
    ensures { result ≡ list_any (bytes_eq word.now) (map (λ w. w.now) words.now) }
{
    words.contains(&word)
}

// Whether a word is left out of the language.
fn is_outside_word(word: &str) -> bool
    ensures { result ≡ is_outside_word word.now }
{
    is_one_of(&OUTSIDE, word)
}
