//! The test whether a text is a name.
ghost use Rattle.std.specs.Prelude.{◌≡◌};
ghost use Rattle.std.specs.List.{list_all};
ghost use Rattle.gg_ast.specs.Names.{is_name, is_name_byte};

/// Whether a text is a name: a letter or `_`, then letters, digits, `_` and `$` (FIRRTL Specification, "Notes on
/// Syntax": identifiers).
pub fn is_name(text: &str) -> bool
    ensures { result ≡ is_name text.now }
{
    match text.as_bytes() {
        [first, rest @ ..] => (first.is_ascii_alphabetic() || *first == b'_')
            && are_name_bytes(rest),
        [] => false,
    }
}

// Whether each of the bytes may be in a name.
fn are_name_bytes(bytes: &[u8]) -> bool
    ensures { result ≡ list_all is_name_byte bytes.now }
{
    bytes.iter().all(|byte| is_name_byte(*byte))
}

// A letter, a digit, `_` or `$`.
fn is_name_byte(byte: u8) -> bool
    ensures { result ≡ is_name_byte byte }
{
    byte.is_ascii_alphanumeric() || byte == b'_' || byte == b'$'
}
