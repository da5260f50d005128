//! Cases: a circuit, partitions of it, and expected results, as texts. A case is a paragraph.
//!
//! ```text
//! # A line that begins so says what the case is about.
//! circuit pair
//! trace | cycle x | 0 0f | 1 81
//! on {"units":["a","b"]}
//! keeps 11 83
//! ```
//!
//! `circuit` has the name of a circuit (`memory` is one of latency 0), and `trace` the lines of a trace, each after a bar. Each line `on` has a
//! partition. `keeps` has the values that the last machine, a tray, keeps at the end, one for each cycle. networks.rt and workers/runs.rt describe
//! the other lines of their cases.
use crate::texts::Circuit::Memory;
use crate::texts::{
    BACK, COUNTER, Circuit, DEEP, FORK, FOUR, FOUR_PORTS, PAIR, SUMS, TOGGLE, text_of,
};
use std::alloc::{AllocError, Global};

// Circuits by name.
static CIRCUITS: [(&str, &str); 9] = [
    ("back", BACK),
    ("counter", COUNTER),
    ("deep", DEEP),
    ("fork", FORK),
    ("four", FOUR),
    ("four_ports", FOUR_PORTS),
    ("pair", PAIR),
    ("sums", SUMS),
    ("toggle", TOGGLE),
];

// The memory of latency 0.
static MEMORY: Circuit = Memory("read-latency => 0", "read-under-write => undefined");

// The rest of the first line of a case that begins with this word. Empty if there is no such line.
pub(crate) fn field<'a>(case: &'a str, key: &str) -> &'a str {
    for line in case.lines() {
        if let Some(rest) = line.strip_prefix(key) {
            return rest;
        }
    }
    ""
}

// Whether a word is one of these.
fn is_key(word: &str, keys: &[&str]) -> bool {
    for key in keys {
        if *key == word {
            return true;
        }
    }
    false
}

// Whether each line of a case begins with one of these words, or says what the case is about.
pub(crate) fn is_known(case: &str, keys: &[&str]) -> bool {
    for line in case.lines() {
        let word = match line.split_once(' ') {
            Some((word, _)) => word,
            None => line,
        };
        if !line.is_empty() && word != "#" && !is_key(word, keys) {
            return false;
        }
    }
    true
}

// The text of a case's circuit. It is empty if there is none of its name.
pub(crate) fn circuit_of(alloc: Global, case: &str) -> Result<String, AllocError> {
    let wanted = field(case, "circuit ");
    if wanted == "memory" {
        return text_of(alloc, &MEMORY);
    }
    for (name, text) in &CIRCUITS {
        if *name == wanted {
            return String::from_str(alloc, text);
        }
    }
    Ok(String::new(alloc))
}

// The text of a case's trace.
pub(crate) fn trace_of(alloc: Global, case: &str) -> Result<String, AllocError> {
    let mut text = String::new(alloc);
    for line in field(case, "trace | ").split(" | ") {
        text.push_str(line)?;
        text.push_str("\n")?;
    }
    Ok(text)
}
