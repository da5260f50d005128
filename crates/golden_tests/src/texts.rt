//! Texts in rows: how one is written there, texts that have a name, and texts with a line changed.
use crate::tables::named::{CIRCUITS, CLOCKED, MORE};
use std::alloc::{AllocError, Global};

// Adds the lines of a text. A bar comes before each. Returns false if there is none before the first.
pub(crate) fn push_lines(text: &mut Vec<u8>, lines: &str) -> Result<bool, AllocError> {
    if lines == "|" {
        text.push(b'\n')?;
        return Ok(true);
    }
    let Some(lines) = lines.strip_prefix("| ") else {
        return Ok(false);
    };
    for line in lines.split(" | ") {
        text.extend_from_slice(line.as_bytes())?;
        text.push(b'\n')?;
    }
    Ok(true)
}

// The byte of a backslash and this byte. For `x` it is a byte that is no text.
fn unescaped(byte: u8) -> u8 {
    match byte {
        b'n' => b'\n',
        b'r' => b'\r',
        b't' => b'\t',
        b'x' => 0xff,
        other => other,
    }
}

// Adds the text of a string in quotes. `string` is the rest after its first quote. Returns false if it has no end.
fn push_quoted(text: &mut Vec<u8>, string: &str) -> Result<bool, AllocError> {
    let Some(inner) = string.strip_suffix('"') else {
        return Ok(false);
    };
    let mut is_escaped = false;
    for byte in inner.as_bytes() {
        if is_escaped {
            text.push(unescaped(*byte))?;
            is_escaped = false;
        } else if *byte == b'\\' {
            is_escaped = true;
        } else {
            text.push(*byte)?;
        }
    }
    Ok(!is_escaped)
}

// Adds a text that comes after a colon: a string in quotes, or the text as it is. It has no end of a line.
pub(crate) fn push_text(text: &mut Vec<u8>, written: &str) -> Result<bool, AllocError> {
    if let Some(string) = written.strip_prefix('"') {
        return push_quoted(text, string);
    }
    text.extend_from_slice(written.as_bytes())?;
    Ok(true)
}

// The text of this name, in these texts. It is empty if there is none.
fn text_in(alloc: Global, texts: &str, name: &str) -> Result<Vec<u8>, AllocError> {
    let mut text = Vec::new(alloc);
    let mut is_in = false;
    for line in texts.lines() {
        if !line.starts_with('|') {
            is_in = line == name;
        } else if is_in {
            push_lines(&mut text, line)?;
        }
    }
    Ok(text)
}

// The text of this name. It is empty if there is none.
pub(crate) fn named_text(alloc: Global, name: &str) -> Result<Vec<u8>, AllocError> {
    let circuit = text_in(alloc, CIRCUITS, name)?;
    if !circuit.is_empty() {
        return Ok(circuit);
    }
    let more = text_in(alloc, MORE, name)?;
    if !more.is_empty() {
        return Ok(more);
    }
    text_in(alloc, CLOCKED, name)
}

// How many lines a text has. The last one may have no end.
pub(crate) fn lines_in(text: &[u8]) -> u64 {
    let mut lines: u64 = 0;
    let mut is_open = false;
    for byte in text {
        if !is_open {
            lines = lines.saturating_add(1);
        }
        is_open = *byte != b'\n';
    }
    lines
}

// The first `lines` lines of a text, with these bytes in the place of a line, counted from 1 (0: of none).
pub(crate) fn edited(
    alloc: Global,
    text: &[u8],
    lines: u64,
    changed: u64,
    by: &[u8],
) -> Result<Vec<u8>, AllocError> {
    let mut out = Vec::new(alloc);
    let mut number: u64 = 1;
    for byte in text {
        if number > lines {
            break;
        }
        if number != changed {
            out.push(*byte)?;
        }
        if *byte == b'\n' {
            if number == changed {
                out.extend_from_slice(by)?;
            }
            number = number.saturating_add(1);
        }
    }
    Ok(out)
}
