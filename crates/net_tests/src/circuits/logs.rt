//! gg_replay: a log can be built and a line can be written with ample memory.
use gg_net::Wire;
use gg_replay::{Log, channel_line};
use std::alloc::{AllocError, Global};
use std::process::Abort;

// Name, width, counts and tokens of a channel, and its line.
static LINES: [(&str, u32, (u64, u64), &[u128], &str); 2] = [
    ("reset", 1, (1, 1), &[1], "reset 1/1 1\n"),
    ("out", 8, (2, 1), &[0, 0], "out 2/1 00 00\n"),
];

// Whether the line of a channel is this text.
fn is_line(
    alloc: Global,
    name: &str,
    width: u32,
    counts: (u64, u64),
    tokens: &[u128],
    text: &str,
) -> Result<bool, AllocError> {
    let line = channel_line(alloc, name, width, counts.0, counts.1, tokens)?;
    Ok(line.as_str() == text)
}

// Checks the line of each channel.
pub(crate) fn check_lines(rt: &impl Abort, alloc: Global) {
    for (name, width, counts, tokens, text) in &LINES {
        let is_right = is_line(alloc, name, *width, *counts, tokens, text) == Ok(true);
        assert!(rt; is_right, "{text}");
    }
}

// Two channels. Only the second opens with a token.
static WIRES: [Wire; 2] = [
    Wire {
        producer: 0,
        out: 0,
        consumer: 1,
        place: 0,
        capacity: 1,
        first: None,
    },
    Wire {
        producer: 0,
        out: 1,
        consumer: 1,
        place: 1,
        capacity: 1,
        first: Some(0),
    },
];

// Whether a log of these channels has only the token that the second opens with.
pub(crate) fn has_first_token(alloc: Global) -> Result<bool, AllocError> {
    let log = Log::new(alloc, &WIRES)?;
    Ok(log.tokens(0).is_empty() && log.tokens(1) == [0].as_slice())
}
