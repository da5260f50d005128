//! Cuts of a text.
ghost use Rattle.std.specs.Prelude.{◌≡◌, ◌≢◌, ℕ, ◌<◌, ◌≤◌, ◌++◌, ◌∷◌, [], List, MatchOption, length, slice_index};
ghost use Rattle.gg_snap.specs.text.Standing.{pieces};

// The rest of a text after these bytes, if it begins with them.
pub(crate) fn strip<'a>(text: &'a [u8], front: &[u8]) -> Option<&'a [u8]>
    ensures { MatchOption result ((rest : List ℕ) → text.now ≢ front.now ++ rest) (λ rest. text.now ≡ front.now ++ rest.now) }
{
    if !text.starts_with(front) {
        return None;
    }
    let (_, rest) = text.split_at(front.len());
    Some(rest)
}

// The text without its last byte.
pub(crate) fn without_last(text: &[u8]) -> Option<&[u8]>
    ensures { (front : List ℕ) (last : ℕ) → text.now ≡ front ++ last ∷ [] → MatchOption result ⊥ (λ found. found.now ≡ front) }
{
    match text {
        [front @ .., _] => Some(front),
        [] => None,
    }
}

// The number of bytes before the first one that is `byte`; all, if none is.
pub(crate) fn len_before(text: &[u8], byte: u8) -> usize
    ensures within { result ≤ length text.now }
    ensures before { (k : ℕ) → k < result → slice_index text.now k ≢ byte }
    ensures found { result < length text.now → slice_index text.now result ≡ byte }
{
    for (i, other) in text.iter().enumerate() {
        if *other == byte {
            return i;
        }
    }
    text.len()
}

// The first line of a text, with its line feed, and the rest of the text.
pub(crate) fn cut_piece(text: &[u8]) -> (&[u8], &[u8])
    requires { 0 < length text.now }
    ensures cut { pieces text.now ≡ result.0.now ∷ pieces result.1.now }
    ensures shorter { length result.1.now < length text.now }
{
    let len = len_before(text, b'\n');
    if len == text.len() {
        return (text, &[]);
    }
    text.split_at(len + 1)
}
