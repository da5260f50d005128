//! Tokens, their kinds and symbols (FIRRTL Specification, "Notes on Syntax").
use gg_bits::Name;
use std::error::Error;
use std::fmt;

/// A token of a line (FIRRTL Specification, "Notes on Syntax" and the terminals of "Grammar"). Words, numbers and texts
/// keep their spelling.
#[derive(Clone, PartialEq, Eq, Drop)]
pub enum Tok {
    /// A letter or `_`, then letters, digits, `_` and `$`, then dashes and letters.
    Word(Name),
    /// Decimal digits, with or without a `-` before them. Or a number with its radix, such as `0h1f`: `0`, the letter
    /// of the radix (`b`, `o`, `d` or `h`) and its digits, with at most one `-`, before the `0` or before the digits.
    Number(Name),
    /// What is between two quotes, its backslashes included.
    Text(Name),
    /// One of the symbols of the grammar, which are not words.
    Symbol(Symbol),
}

/// A symbol of the grammar.
#[derive(Clone, Copy, PartialEq, Eq)]
pub enum Symbol {
    /// `<=`
    Connect,
    /// `=>`
    Arrow,
    /// `<-`
    PartialConnect,
    /// `:`
    Colon,
    /// `,`
    Comma,
    /// `.`
    Dot,
    /// `(`
    OpenParen,
    /// `)`
    CloseParen,
    /// `<`
    Less,
    /// `>`
    Greater,
    /// `=`
    Equals,
    /// `[`
    OpenBracket,
    /// `]`
    CloseBracket,
    /// `{`
    OpenBrace,
    /// `}`
    CloseBrace,
    /// `%[`
    OpenAnnotations,
}

/// Which kind of token some bytes are.
#[derive(Clone, Copy, PartialEq, Eq)]
pub enum TokenKind {
    /// The bytes are a `Tok::Word`.
    Word,
    /// The bytes are a `Tok::Number`, its sign included.
    Number,
    /// The bytes are a `Tok::Text`, both of its quotes included.
    Text,
    /// The bytes are how this symbol is written.
    Symbol(Symbol),
}

// A token at the front of some bytes.
#[derive(Clone, Copy)]
pub(crate) struct Front {
    pub(crate) kind: TokenKind,
    // How many bytes it has.
    pub(crate) length: usize,
}

// A token's bytes in a line, and what follows them.
#[derive(Clone, Copy)]
pub(crate) struct NextToken<'a> {
    pub(crate) kind: TokenKind,
    pub(crate) text: &'a str,
    pub(crate) after: &'a str,
}

/// The tokens of a line up to the first byte that begins none, and that byte's place, if there is one.
#[derive(Drop)]
pub struct LexedLine {
    /// The tokens before that byte, or all of the line's, in its order.
    pub tokens: Vec<Tok>,
    /// The place of that byte, counted from 0 in the line.
    pub bad: Option<u64>,
}

/// Why a line has no tokens.
#[derive(Clone, Copy, Debug, PartialEq, Eq)]
pub enum LexFault {
    /// The first byte that begins no token, counted from 0 in the line.
    At(u64),
    /// An allocation failed. This has no cause in the line.
    NoMemory,
}

impl fmt::Display for LexFault {
    ghost use Rattle.std.specs.Prelude.{Some};
    ghost use Rattle.gg_lex.specs.inside.FaultText.{fault_text};

    ghost output = { λ fault. Some (fault_text fault) };

    fn fmt<W: fmt::Write>(&self, f: &mut fmt::Formatter<W>) -> fmt::Result {
        match self {
            LexFault::At(place) => write!(f, "no token begins at byte {place}"),
            LexFault::NoMemory => f.write_str("out of memory"),
        }
    }
}

impl Error for LexFault {}
