//! What may follow the last token of a line: file information, and a comment.
ghost use Rattle.std.specs.Prelude.{◌≡◌, ◌+◌, ◌<◌, ◌↔◌, length, IsTrue};
ghost use Rattle.gg_lex.specs.Lines.{IsEnd, IsComment, OpensInfo, ClosesBehind, after_blanks};
ghost use Rattle.gg_lex.specs.inside.Ends.{FindsBracket, FindsInfo};

use crate::bytes::{Class, run_len};

// Whether the line may end here: any number of file informations, and then a comment or nothing, with blanks before
// each.
pub(crate) fn is_end(bytes: &[u8]) -> bool
    ensures { IsTrue result ↔ IsEnd bytes.now }
{
    let mut rest = bytes;
    loop {
        let start = skip_blanks(rest);
        match info_len(start) {
            Some(length) => rest = &start[length..],
            None => return is_comment(start),
        }
    }
}

// Whether nothing is left, or a comment.
fn is_comment(bytes: &[u8]) -> bool
    ensures { IsTrue result ↔ IsComment bytes.now }
{
    bytes.is_empty() || bytes[0] == b';'
}

// The bytes without the blanks at their front.
fn skip_blanks(bytes: &[u8]) -> &[u8]
    ensures { result.now ≡ after_blanks bytes.now }
{
    &bytes[run_len(bytes, Class::Blank)..]
}

// The length of the file information at the front, if there is any.
fn info_len(bytes: &[u8]) -> Option<usize>
    ensures { FindsInfo bytes.now result }
{
    if !opens_info(bytes) {
        return None;
    }
    match closing_bracket(bytes) {
        Some(at) => Some(at + 2),
        None => None,
    }
}

// Whether file information begins here.
fn opens_info(bytes: &[u8]) -> bool
    ensures { IsTrue result ↔ OpensInfo bytes.now }
{
    bytes.len() >= 2 && bytes[0] == b'@' && bytes[1] == b'['
}

// The first place, except 0, that has no backslash and is followed by a `]`.
fn closing_bracket(bytes: &[u8]) -> Option<usize>
    ensures { FindsBracket bytes.now result }
{
    let mut at = 1;
    while at + 1 < bytes.len() {
        if closes_behind(bytes, at) {
            return Some(at);
        }
        at += 1;
    }
    None
}

// Whether this place has no backslash and is followed by a `]`.
fn closes_behind(bytes: &[u8], at: usize) -> bool
    requires { at + 1 < length bytes.now }
    ensures { IsTrue result ↔ ClosesBehind bytes.now at }
{
    bytes[at] != b'\\' && bytes[at + 1] == b']'
}
