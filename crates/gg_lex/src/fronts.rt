//! The first token of some bytes: its kind and length.
ghost use Rattle.std.specs.Prelude.{◌≡◌, ◌<◌, length, slice_index, IfSome, IfNone, IsTrue};
ghost use Rattle.gg_lex.specs.Bytes.{starts_word};
ghost use Rattle.gg_lex.specs.inside.Bytes.{begins_number};
ghost use Rattle.gg_lex.specs.Tokens.{IsFirst};
ghost use Rattle.gg_lex.specs.inside.Fronts.{FindsToken, LeadsSymbol, IsFrontOfTwo};

use crate::bytes::{begins_number, starts_word};
use crate::longest::{number_len, text_len, word_len};
use crate::symbols::{symbol_of_one, symbol_of_two};
use crate::token::{Front, Symbol, TokenKind};

// The first token, if the bytes begin with one.
pub(crate) fn first_token(bytes: &[u8]) -> Option<Front>
    ensures { FindsToken bytes.now result }
{
    if bytes.is_empty() {
        return None;
    }
    let first = bytes[0];
    if starts_word(first) {
        Some(first_word(bytes))
    } else if begins_number(first) {
        first_number(bytes)
    } else if first == b'"' {
        first_text(bytes)
    } else {
        first_symbol(bytes)
    }
}

// The first token where a word begins.
fn first_word(bytes: &[u8]) -> Front
    requires nonempty { 0 < length bytes.now }
    requires begins { IsTrue (starts_word (slice_index bytes.now 0)) }
    ensures { IsFirst result.kind bytes.now result.length }
{
    Front {
        kind: TokenKind::Word,
        length: word_len(bytes),
    }
}

// The first token of bytes that begin with a sign or a digit.
fn first_number(bytes: &[u8]) -> Option<Front>
    requires nonempty { 0 < length bytes.now }
    requires begins { IsTrue (begins_number (slice_index bytes.now 0)) }
    ensures { FindsToken bytes.now result }
{
    match number_len(bytes) {
        Some(length) => Some(Front {
            kind: TokenKind::Number,
            length,
        }),
        None => None,
    }
}

// The first token of bytes that begin with a quote.
fn first_text(bytes: &[u8]) -> Option<Front>
    requires nonempty { 0 < length bytes.now }
    requires begins { slice_index bytes.now 0 ≡ 34 }
    ensures { FindsToken bytes.now result }
{
    match text_len(bytes) {
        Some(length) => Some(Front {
            kind: TokenKind::Text,
            length,
        }),
        None => None,
    }
}

// The first token of bytes that can begin with no other token than a symbol.
fn first_symbol(bytes: &[u8]) -> Option<Front>
    requires { LeadsSymbol bytes.now }
    ensures { FindsToken bytes.now result }
{
    if let Some(symbol) = leading_symbol_of_two(bytes) {
        return Some(Front {
            kind: TokenKind::Symbol(symbol),
            length: 2,
        });
    }
    match symbol_of_one(bytes[0]) {
        Some(symbol) => Some(Front {
            kind: TokenKind::Symbol(symbol),
            length: 1,
        }),
        None => None,
    }
}

// The symbol that the first two bytes are.
fn leading_symbol_of_two(bytes: &[u8]) -> Option<Symbol>
    ensures found { IfSome result (IsFrontOfTwo bytes.now) }
    ensures none { IfNone result ((symbol : Symbol) → IsFrontOfTwo bytes.now symbol → ⊥) }
{
    if bytes.len() < 2 {
        None
    } else {
        symbol_of_two(bytes[0], bytes[1])
    }
}
