//! The tokens of a line of FIRRTL text.
//!
//! `tokens` returns exactly the tokens of a line, each the longest possible, or the place of the first byte that begins
//! no token. `lex` also returns the tokens before that place; a reader names the line's fault by them. Each line has
//! tokens or fails at some place (`every_line`), and in only one way (`one_reading`).
#![tactic(auto)]

mod bytes;
mod ends;
mod fronts;
mod line;
mod longest;
mod symbols;
mod token;

pub use line::{every_line, lex, one_reading, tokens};
pub use token::{LexFault, LexedLine, Symbol, Tok, TokenKind};
