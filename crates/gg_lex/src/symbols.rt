//! Symbols: how each is written, and the longest at the front of some bytes.
ghost use Rattle.std.specs.Prelude.{◌≡◌, ◌∷◌, [], IfSome, IfNone};
ghost use Rattle.gg_lex.specs.Tokens.{spelling};

use crate::token::Symbol;

impl Symbol {
    /// How the symbol is written.
    pub fn text(self) -> &'static str
        ensures { result.now ≡ spelling self }
    {
        match self {
            Symbol::Connect => "<=",
            Symbol::Arrow => "=>",
            Symbol::PartialConnect => "<-",
            Symbol::Colon => ":",
            Symbol::Comma => ",",
            Symbol::Dot => ".",
            Symbol::OpenParen => "(",
            Symbol::CloseParen => ")",
            Symbol::Less => "<",
            Symbol::Greater => ">",
            Symbol::Equals => "=",
            Symbol::OpenBracket => "[",
            Symbol::CloseBracket => "]",
            Symbol::OpenBrace => "{",
            Symbol::CloseBrace => "}",
            Symbol::OpenAnnotations => "%[",
        }
    }
}

// The symbol that these two bytes are.
pub(crate) fn symbol_of_two(first: u8, second: u8) -> Option<Symbol>
    ensures found { IfSome result (λ symbol. spelling symbol ≡ first ∷ second ∷ []) }
    ensures none { IfNone result ((symbol : Symbol) → spelling symbol ≡ first ∷ second ∷ [] → ⊥) }
{
    match first {
        b'<' if second == b'=' => Some(Symbol::Connect),
        b'<' if second == b'-' => Some(Symbol::PartialConnect),
        b'=' if second == b'>' => Some(Symbol::Arrow),
        b'%' if second == b'[' => Some(Symbol::OpenAnnotations),
        _ => None,
    }
}

// The symbol that this byte is.
pub(crate) fn symbol_of_one(byte: u8) -> Option<Symbol>
    ensures found { IfSome result (λ symbol. spelling symbol ≡ byte ∷ []) }
    ensures none { IfNone result ((symbol : Symbol) → spelling symbol ≡ byte ∷ [] → ⊥) }
{
    match byte {
        b':' => Some(Symbol::Colon),
        b',' => Some(Symbol::Comma),
        b'.' => Some(Symbol::Dot),
        b'(' => Some(Symbol::OpenParen),
        b')' => Some(Symbol::CloseParen),
        b'<' => Some(Symbol::Less),
        b'>' => Some(Symbol::Greater),
        b'=' => Some(Symbol::Equals),
        b'[' => Some(Symbol::OpenBracket),
        b']' => Some(Symbol::CloseBracket),
        b'{' => Some(Symbol::OpenBrace),
        b'}' => Some(Symbol::CloseBrace),
        _ => None,
    }
}
