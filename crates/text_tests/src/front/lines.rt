//! Lines and their tokens, worked by hand from the table of tokens.
use super::calls::Row;
use super::sources::Source::Whole;
use gg_lex::{LexFault, Tok, lex, tokens};
use std::alloc::{AllocError, Global};

// Adds the tokens of a line up to its first bad place, and that place after `!`.
pub(crate) fn tell_lexed(out: &mut String, alloc: Global, line: &str) -> Result<(), AllocError> {
    let lexed = lex(alloc, line)?;
    put_tokens(out, lexed.tokens.as_slice(), lexed.bad)
}

// Adds the tokens of a line, or its bad place after `!`.
pub(crate) fn tell_tokens(out: &mut String, alloc: Global, line: &str) -> Result<(), AllocError> {
    match tokens(alloc, line) {
        Ok(found) => put_tokens(out, found.as_slice(), None),
        Err(LexFault::At(place)) => put_tokens(out, &[], Some(place)),
        Err(LexFault::NoMemory) => out.push_str("out of memory"),
    }
}

// Adds tokens, and a place after `!`, if there is one.
fn put_tokens(out: &mut String, tokens: &[Tok], bad: Option<u64>) -> Result<(), AllocError> {
    for token in tokens {
        put_token(out, token)?;
    }
    match bad {
        None => Ok(()),
        Some(place) => write!(out, "!{place}"),
    }
}

// Adds a token and a blank: a word or a symbol as written, a number after `#`, a text in quotes.
fn put_token(out: &mut String, token: &Tok) -> Result<(), AllocError> {
    match token {
        Tok::Word(name) => write!(out, "{name} "),
        Tok::Number(digits) => write!(out, "#{digits} "),
        Tok::Text(quoted) => write!(out, "\"{quoted}\" "),
        Tok::Symbol(symbol) => write!(out, "{} ", symbol.text()),
    }
}

// Lines through `lex`.
pub(crate) static LEXED: [Row; 40] = [
    (Whole(""), ""),
    (Whole(" \t "), ""),
    (Whole("a<-1"), "a <- #1 "),
    (Whole("a-1"), "a- #1 "),
    (Whole("a1-b2"), "a1-b #2 "),
    (Whole("_x$1 - "), "_x$1 !5"),
    (Whole("a-_"), "a- _ "),
    (
        Whole("\tread-under-write\t=> old"),
        "read-under-write => old ",
    ),
    (Whole("-12 007"), "#-12 #007 "),
    (Whole("+5"), "!0"),
    (Whole("--5"), "!0"),
    (Whole("0b12"), "#0b1 #2 "),
    (
        Whole("0b2 0o8 0hG 0x1 0B1 0d"),
        "#0 b2 #0 o8 #0 hG #0 x1 #0 B1 #0 d ",
    ),
    (Whole("0b01 0o07 0d09 0h0aF"), "#0b01 #0o07 #0d09 #0h0aF "),
    (Whole("0h-3 -0h3 0d-5 -0"), "#0h-3 #-0h3 #0d-5 #-0 "),
    (Whole("-0h-8"), "#-0 h- #8 "),
    (Whole("0b--1"), "#0 b-- #1 "),
    (Whole("--0b1"), "!0"),
    (Whole("00b1 0hfFg 0o7-1"), "#00 b1 #0hfF g #0o7 #-1 "),
    (Whole("a-0h1"), "a- #0h1 "),
    (Whole("UInt<-1>"), "UInt <- #1 > "),
    (Whole("UInt<1>(0h0)"), "UInt < #1 > ( #0h0 ) "),
    (Whole("\"a\\\"b\""), "\"a\\\"b\" "),
    (Whole("\"\\\\\" \"\""), "\"\\\\\" \"\" "),
    (Whole("x \"ab"), "x !2"),
    (Whole("x \"ab\\"), "x !2"),
    (Whole("\"a;b\"; c"), "\"a;b\" "),
    (Whole("a ; \"b @["), "a "),
    (Whole("x @[A.scala 1:2] @[b\\]c] ; end"), "x "),
    (Whole("x@[a\\\\]"), "x !1"),
    (Whole("x @[a] @[b"), "x !2"),
    (Whole("skip @[x] when"), "skip !5"),
    (Whole("@[é]"), ""),
    (Whole("@"), "!0"),
    (Whole("%["), "%[ "),
    (Whole("% ["), "!0"),
    (Whole("x \r"), "x !2"),
    (Whole("\"é\" é"), "\"é\" !5"),
    (Whole("<==>=<>:,.()[]{}"), "<= => = < > : , . ( ) [ ] { } "),
    (Whole("UInt<8>(\"hf\")"), "UInt < #8 > ( \"hf\" ) "),
];

// Lines through `tokens`.
pub(crate) static TOKENS: [Row; 2] = [
    (Whole("node a = b"), "node a = b "),
    (Whole("node #"), "!5"),
];
