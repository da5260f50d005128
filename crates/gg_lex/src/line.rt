//! The tokens of a line.
ghost use Rattle.std.specs.Prelude.{◌≡◌, ℕ, ◌-◌, ◌≤◌, List, take, drop, Option, length, IfOk, IfErr, IfSome, MatchOption, MatchResult};
ghost use Rattle.gg_lex.specs.Tokens.{IsToken, IsText, token_of, BeginsNoToken};
ghost use Rattle.gg_lex.specs.Lines.{Lexes, AreTokens, FailsAt, after_blanks};
ghost use Rattle.gg_lex.specs.inside.Lines.{HasCause, IsFaultAt};
ghost use Rattle.gg_lex.specs.inside.NextToken.{IsNextToken, EndsOrFails};

use crate::bytes::{Class, run_len};
use crate::ends::is_end;
use crate::fronts::first_token;
use crate::token::{LexFault, LexedLine, NextToken, Tok, TokenKind};
use gg_bits::Name;
use std::alloc::{AllocError, Global};

/// The tokens of a line, each the longest possible (FIRRTL Specification, "Notes on Syntax", "Comments", "Info").
///
/// File information and a comment at the line's end are not tokens.
///
/// # Errors
///
/// Returns `At` with the first byte that begins no token. Returns `NoMemory` if an allocation fails.
pub fn tokens(alloc: Global, line: &str) -> Result<Vec<Tok>, LexFault>
    ensures tokens { IfOk result (λ tokens. AreTokens tokens.items line.now) }
    ensures fault { IfErr result (λ fault. HasCause fault line.now) }

    // a line with tokens gives just these, a line that fails at a place gives just this place; only `NoMemory` may come
    // too
    ensures only_tokens { (ts : List Tok) → AreTokens ts line.now → MatchResult result (λ tokens. tokens.items ≡ ts) (λ fault. fault ≡ LexFault.NoMemory) }
    ensures only_fault { (ts : List Tok) (place : ℕ) → FailsAt ts line.now place → MatchResult result (λ _. ⊥) (λ fault. IsFaultAt fault place) }
{
    match lex(alloc, line) {
        Ok(lexed) => {
            let LexedLine { tokens, bad } = lexed;
            match bad {
                None => Ok(tokens),
                Some(place) => Err(LexFault::At(place)),
            }
        }
        Err(_) => Err(LexFault::NoMemory),
    }
}

/// The tokens of a line up to the first byte that begins none, and that byte's place, if there is one (FIRRTL
/// Specification, "Notes on Syntax", "Comments", "Info").
///
/// # Errors
///
/// Returns `AllocError` if an allocation fails.
pub fn lex(alloc: Global, line: &str) -> Result<LexedLine, AllocError>
    ensures answer { IfOk result (λ lexed. Lexes line.now lexed.tokens.items lexed.bad) }
    ensures only { IfOk result (λ lexed. (ts : List Tok) (bad : Option ℕ) → Lexes line.now ts bad → (lexed.tokens.items ≡ ts) × (lexed.bad ≡ bad)) }
{
    let mut tokens = Vec::new(alloc);
    let mut rest = line;
    while let Some(next) = next_token(rest) {
        let token = make_token(alloc, next.kind, next.text)?;
        tokens.push(token)?;
        rest = next.after;
    }
    let bad = bad_place(line, rest);
    Ok(LexedLine { tokens, bad })
}

/// A line is read in at most one way: it has one list of tokens, or fails at one place.
pub fn one_reading()
    ensures { (line : List ℕ) (ts us : List Tok) (bad other : Option ℕ) → Lexes line ts bad → Lexes line us other → (ts ≡ us) × (bad ≡ other) }
{}

/// Each line has tokens or fails at some place, whatever its bytes are.
pub fn every_line()
    ensures { (line : List ℕ) → (ts : List Tok) × (bad : Option ℕ) × Lexes line ts bad }
{}

// The first token after the blanks, if there is one.
fn next_token<'a>(rest: &'a str) -> Option<NextToken<'a>>
    ensures { MatchOption result (BeginsNoToken (after_blanks rest.now)) (IsNextToken rest.now) }
{
    let blanks = run_len(rest.as_bytes(), Class::Blank);
    let (_, start) = rest.split_at(blanks);
    match first_token(start.as_bytes()) {
        None => None,
        Some(front) => {
            let (text, after) = start.split_at(front.length);
            Some(NextToken {
                kind: front.kind,
                text,
                after,
            })
        }
    }
}

// The token of a text of this kind.
fn make_token(alloc: Global, kind: TokenKind, text: &str) -> Result<Tok, AllocError>
    requires { IsToken kind text.now }
    ensures { IfOk result (λ token. token ≡ token_of kind text.now) }
{
    match kind {
        TokenKind::Word => Ok(Tok::Word(Name::from_str(alloc, text)?)),
        TokenKind::Number => Ok(Tok::Number(Name::from_str(alloc, text)?)),
        TokenKind::Text => Ok(Tok::Text(Name::from_str(alloc, between_quotes(text))?)),
        TokenKind::Symbol(symbol) => Ok(Tok::Symbol(symbol)),
    }
}

// What is between the quotes of a text.
fn between_quotes(text: &str) -> &str
    requires { IsText text.now }
    ensures { result.now ≡ take (length text.now - 2) (drop 1 text.now) }
{
    let (_, rest) = text.split_at(1);
    let (quoted, _) = rest.split_at(rest.len() - 1);
    quoted
}

// The place of the byte after the blanks, unless the line may end where `rest` is left of it.
fn bad_place(line: &str, rest: &str) -> Option<u64>
    requires { length rest.now ≤ length line.now }
    ensures { EndsOrFails line.now rest.now result }
{
    if is_end(rest.as_bytes()) {
        return None;
    }
    let left = rest.len() - run_len(rest.as_bytes(), Class::Blank);
    Some((line.len() - left) as u64)
}
