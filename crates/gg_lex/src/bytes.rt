//! Classes of bytes, and the run of one class at the front of some bytes.
ghost use Rattle.std.specs.Prelude.{◌≡◌, ◌≤◌, length};
ghost use Rattle.std.specs.List.{prefix_len};
ghost use Rattle.gg_lex.specs.inside.Bytes.{is_in_class, begins_number};
ghost use Rattle.gg_lex.specs.Bytes.{starts_word};
ghost use Rattle.gg_lex.specs.inside.Fronts.{TellsDigits};

// A class of bytes. A run is made of bytes of one class.
#[derive(Clone, Copy, PartialEq, Eq)]
pub(crate) enum Class {
    // A space or a tab.
    Blank,
    // A letter, a digit, `_` or `$`.
    WordByte,
    // A letter or `-`.
    TailByte,
    // `0` or `1`.
    BinaryDigit,
    // `0` to `7`.
    OctalDigit,
    // `0` to `9`.
    DecimalDigit,
    // `0` to `9`, or a letter from `a` to `f` of either case.
    HexDigit,
}

impl Class {
    // Whether a byte is of this class.
    pub(crate) fn has(self, byte: u8) -> bool
        ensures { result ≡ is_in_class self byte }
    {
        match self {
            Class::Blank => byte == b' ' || byte == b'\t',
            Class::WordByte => byte.is_ascii_alphanumeric() || byte == b'_' || byte == b'$',
            Class::TailByte => byte.is_ascii_alphabetic() || byte == b'-',
            Class::BinaryDigit => byte == b'0' || byte == b'1',
            Class::OctalDigit => b'/' < byte && byte < b'8',
            Class::DecimalDigit => byte.is_ascii_digit(),
            Class::HexDigit => byte.is_ascii_hexdigit(),
        }
    }
}

// Whether a word may begin with this byte.
pub(crate) fn starts_word(byte: u8) -> bool
    ensures { result ≡ starts_word byte }
{
    byte.is_ascii_alphabetic() || byte == b'_'
}

// Whether a number may begin with this byte.
pub(crate) fn begins_number(byte: u8) -> bool
    ensures { result ≡ begins_number byte }
{
    byte == b'-' || byte.is_ascii_digit()
}

// The class of the digits of the radix that has this letter.
pub(crate) fn digits_behind(letter: u8) -> Option<Class>
    ensures { TellsDigits letter result }
{
    match letter {
        b'b' => Some(Class::BinaryDigit),
        b'o' => Some(Class::OctalDigit),
        b'd' => Some(Class::DecimalDigit),
        b'h' => Some(Class::HexDigit),
        _ => None,
    }
}

// How many bytes at the front are of this class.
pub(crate) fn run_len(bytes: &[u8], class: Class) -> usize
    ensures length { result ≡ prefix_len (is_in_class class) bytes.now }
    ensures within { result ≤ length bytes.now }
{
    bytes.iter().take_while(|byte| class.has(**byte)).count()
}
