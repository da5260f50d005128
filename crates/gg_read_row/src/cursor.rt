//! A cursor over the tokens of a line.
ghost use Rattle.std.specs.Prelude.{◌≡◌, [], ◌∷◌, ◌++◌, MatchBool, MatchResult, is_some, length};
ghost use Rattle.gg_read_row.specs.inside.Reading.{Reads, Passes, Finds, TakesName, more_names_at, names_at, symbol_at, word_at, name_at, natural_at, digits_at, operation_at, is_second, end_at, text_at, keyword_at, is_invalid, is_connection};

use crate::digits::{Digits, natural_value, number_digits, text_digits};
use gg_ast::{Keyword, Operation, find_keyword, find_operation, is_name};
use gg_bits::{Name, Names};
use gg_lex::{Symbol, Tok};
use std::alloc::{AllocError, Global};
use std::marker::Model;

/// Why nothing was read.
#[derive(Clone, Copy, Debug, Drop)]
pub enum RowFault {
    /// The tokens don't have the requested form.
    NoForm,
    /// An allocation failed.
    NoMemory,
}

impl From<AllocError> for RowFault {
    ghost use Rattle.gg_read_row.specs.declared.cursor.RowFault.TheVariants.{NoMemory};

    ghost from_gives = { λ error fault. fault ≡ NoMemory };

    fn from(_error: AllocError) -> RowFault {
        RowFault::NoMemory
    }
}

// The tokens of a line that are left to read. A contract sees them as their list.
#[derive(Drop)]
pub(crate) struct Cursor<'a> {
    rest: &'a [Tok],
}

impl<'a> Model for Cursor<'a> {
    ghost use Rattle.std.specs.Prelude.{List};
    ghost use Rattle.gg_lex.specs.declared.token.Tok.{Tok};

    ghost Value = { List Tok };

    ghost view = { λ cursor. cursor.rest.now };
}

impl<'a> Cursor<'a> {
    // A cursor before the first token.
    pub(crate) fn new(tokens: &'a [Tok]) -> Cursor<'a>
        ensures { result ≡ tokens.now }
    {
        Cursor { rest: tokens }
    }

    // Passes over this symbol if it is the next token, and returns whether it is.
    pub(crate) fn skip(&mut self, symbol: Symbol) -> bool
        ensures { MatchBool result (symbol_at symbol self.old ≡ Some self.new) ((symbol_at symbol self.old ≡ None) × (self.new ≡ self.old)) }
    {
        match self.rest {
            [Tok::Symbol(found), rest @ ..] if found.text() == symbol.text() => {
                self.rest = rest;
                true
            }
            _ => false,
        }
    }

    // Passes over this word if it is the next token, and returns whether it is.
    pub(crate) fn skip_word(&mut self, word: &str) -> bool
        ensures { MatchBool result (word_at word.now self.old ≡ Some self.new) ((word_at word.now self.old ≡ None) × (self.new ≡ self.old)) }
    {
        match self.rest {
            [Tok::Word(found), rest @ ..] if found.as_str() == word => {
                self.rest = rest;
                true
            }
            _ => false,
        }
    }

    // Passes over this symbol.
    pub(crate) fn symbol(&mut self, symbol: Symbol) -> Result<(), RowFault>
        ensures { Passes result self.new (symbol_at symbol self.old) }
    {
        if self.skip(symbol) {
            Ok(())
        } else {
            Err(RowFault::NoForm)
        }
    }

    // Passes over this word.
    pub(crate) fn word(&mut self, word: &str) -> Result<(), RowFault>
        ensures { Passes result self.new (word_at word.now self.old) }
    {
        if self.skip_word(word) {
            Ok(())
        } else {
            Err(RowFault::NoForm)
        }
    }

    // A name, which is a word without a dash.
    pub(crate) fn name(&mut self) -> Result<Name, RowFault>
        ensures { Reads (λ name. name) result self.new (name_at self.old) }
    {
        match self.rest {
            [Tok::Word(found), rest @ ..] if is_name(found.as_str()) => {
                self.rest = rest;
                Ok(found.clone()?)
            }
            _ => Err(RowFault::NoForm),
        }
    }

    // One or more names, up to the end.
    pub(crate) fn names(&self, alloc: Global) -> Result<Names, RowFault>
        ensures { Finds (λ names. names) result (names_at self.now) }
    {
        match self.rest {
            [] => Err(RowFault::NoForm),
            _ => all_names(alloc, self.rest),
        }
    }

    // A number without a sign, at most 4,294,967,295.
    pub(crate) fn natural(&mut self) -> Result<u32, RowFault>
        ensures { Reads (λ n. n) result self.new (natural_at self.old) }
    {
        match self.rest {
            [Tok::Number(found), rest @ ..] => match natural_value(found.as_str()) {
                Some(value) => {
                    self.rest = rest;
                    Ok(value)
                }
                None => Err(RowFault::NoForm),
            },
            _ => Err(RowFault::NoForm),
        }
    }

    // The digits of a literal's number: a number, or a text that begins with the letter of its radix.
    pub(crate) fn digits(&mut self, alloc: Global) -> Result<Digits, RowFault>
        ensures { Reads (λ d. d) result self.new (digits_at self.old) }
    {
        match self.rest {
            [Tok::Number(found), rest @ ..] => {
                self.rest = rest;
                number_digits(alloc, found.as_bytes())
            }
            [Tok::Text(found), rest @ ..] => {
                self.rest = rest;
                text_digits(alloc, found.as_bytes())
            }
            _ => Err(RowFault::NoForm),
        }
    }

    // A word that names an operation.
    pub(crate) fn operation(&mut self) -> Result<Operation, RowFault>
        ensures { Reads (λ o. o) result self.new (operation_at self.old) }
    {
        match self.rest {
            [Tok::Word(found), rest @ ..] => match find_operation(found.as_str()) {
                Some(op) => {
                    self.rest = rest;
                    Ok(op)
                }
                None => Err(RowFault::NoForm),
            },
            _ => Err(RowFault::NoForm),
        }
    }

    // Whether the token after the next is this symbol.
    pub(crate) fn is_second(&self, symbol: Symbol) -> bool
        ensures { result ≡ is_second symbol self.now }
    {
        match self.rest {
            [_, rest @ ..] => {
                let mut second = Cursor::new(rest);
                second.skip(symbol)
            }
            [] => false,
        }
    }

    // How many tokens are left.
    pub(crate) fn len(&self) -> usize
        ensures { result ≡ length self.now }
    {
        self.rest.len()
    }

    // Whether nothing is left.
    pub(crate) fn is_empty(&self) -> bool
        ensures { MatchBool result (end_at self.now ≡ Some self.now) (end_at self.now ≡ None) }
    {
        match self.rest {
            [] => true,
            _ => false,
        }
    }

    // Whether a text is the next token.
    pub(crate) fn is_text(&self) -> bool
        ensures { result ≡ is_some (text_at self.now) }
    {
        match self.rest {
            [Tok::Text(_), ..] => true,
            _ => false,
        }
    }

    // A text, as it is between its quotation marks.
    pub(crate) fn text(&mut self) -> Result<Name, RowFault>
        ensures { Reads (λ text. text) result self.new (text_at self.old) }
    {
        match self.rest {
            [Tok::Text(found), rest @ ..] => {
                self.rest = rest;
                Ok(found.clone()?)
            }
            _ => Err(RowFault::NoForm),
        }
    }

    // The first word of a line, if that isn't the name of a sink.
    pub(crate) fn keyword(&mut self) -> Result<Keyword, RowFault>
        ensures { Reads (λ k. k) result self.new (keyword_at self.old) }
    {
        match self.rest {
            [Tok::Word(found), rest @ ..] => match find_keyword(found.as_str()) {
                Some(keyword) => {
                    self.rest = rest;
                    Ok(keyword)
                }
                None => Err(RowFault::NoForm),
            },
            _ => Err(RowFault::NoForm),
        }
    }

    // Whether the two tokens after the next are `is invalid`.
    fn is_invalid(&self) -> bool
        ensures { result ≡ is_invalid self.now }
    {
        match self.rest {
            [_, Tok::Word(is), Tok::Word(invalid), ..] => is.as_str() == "is"
                && invalid.as_str() == "invalid",
            _ => false,
        }
    }

    // Whether the line begins with a sink, so that its first word is a name.
    pub(crate) fn is_connection(&self) -> bool
        ensures { result ≡ is_connection self.now }
    {
        self.is_second(Symbol::Connect) || self.is_second(Symbol::Dot) || self.is_invalid()
    }

    // Checks that no token is left.
    pub(crate) fn end(&mut self) -> Result<(), RowFault>
        ensures { Passes result self.new (end_at self.old) }
    {
        match self.rest {
            [] => Ok(()),
            _ => Err(RowFault::NoForm),
        }
    }
}

// The names that the tokens are; each token has to be one.
fn all_names(alloc: Global, tokens: &[Tok]) -> Result<Names, RowFault>
    ensures { Finds (λ names. names) result (more_names_at [] tokens.now) }
{
    let mut names = Vec::new(alloc);
    for token in tokens {
        add_name(&mut names, token)?;
    }
    Ok(Names::from(names))
}

// Adds the name that a token is, as the last.
fn add_name(names: &mut Vec<Name>, token: &Tok) -> Result<(), RowFault>
    ensures { TakesName result names.old.items token.now names.new.items }
{
    match token {
        Tok::Word(word) if is_name(word.as_str()) => push_name(names, word.clone()?),
        _ => Err(RowFault::NoForm),
    }
}

// Adds a name as the last.
fn push_name(names: &mut Vec<Name>, name: Name) -> Result<(), RowFault>
    ensures { MatchResult result (λ _. names.new.items ≡ names.old.items ++ name ∷ []) (λ fault. fault ≡ RowFault.NoMemory) }
{
    match names.push(name) {
        Ok(()) => Ok(()),
        Err(error) => Err(RowFault::from(AllocError::from(error))),
    }
}
