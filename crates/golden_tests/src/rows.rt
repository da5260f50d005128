//! Rows, as texts, and their check.
//!
//! A row is a call, the files that it is lent, what fails, and how it ends. A paragraph that begins with `given` has what all rows below share.
//!
//! ```text
//! given
//! # A line that begins so says what the rows are about.
//! $ golden run k1.fir p.json k1.trace, in each way
//! k1.fir = counter, line 10 | out <= n
//! k1.trace | cycle reset | 0 1 | 1 0
//!
//! p.json: {} -> prints after 3 loads | cycle out | 0 01 | 1 01
//! p.json: {"units":["c"]} -> status 6 after 2 loads | golden: partition: P2 c
//!
//! $ golden run k1.fir p.json k1.trace
//! p.json: {}
//! out fails at put 2, byte 3
//! out: "cycle out\n0 01\n1 0"
//! status 4 after 3 loads | golden: cannot write
//! ```
//!
//! After a bar comes a line with its end, after a colon a text as it is or a string in quotes. A text goes on where the next line begins with a bar.
//! After `=` comes the name of a text in tables/named.rt. It may have a line replaced, be cut to its first lines, or go on. An arrow is the end of a
//! line.
//!
//! A row ends with `prints` (status 0, one put on `out` for each line), with `saves` (status 0, one put), with `status` (the text after it is on
//! `err`; the text on `out` comes before it), or with `usage` (status 2, nothing is loaded, and the usage follows on `err`).
use crate::row::Row;
use std::alloc::Global;
use std::test::Fail;
use std::thread::Threads;

// Whether a paragraph has what all rows below share.
fn is_given(paragraph: &str) -> bool {
    paragraph.trim_start().starts_with("given\n")
}

// Checks a row that is read, up to this line of a text.
fn check_row<R: Threads + Sync>(
    rt: &R,
    alloc: Global,
    table: &str,
    line: u64,
    row: &mut Row<'_>,
) -> Result<(), Fail> {
    if !row.finish(alloc)? {
        return Err(Fail::new(format_args!(
            "{table}: what stands up to line {line} of the text is no row"
        )));
    }
    let answer = row.answer(rt, alloc)?;
    if row.ends_by(&answer) {
        return Ok(());
    }
    let (status, loads, puts) = (answer.status, answer.loads, answer.puts);
    let out = std::str::from_utf8(answer.out.as_slice()).unwrap_or("no text");
    let err = std::str::from_utf8(answer.err.as_slice()).unwrap_or("no text");
    let words = row.words;
    Err(Fail::new(format_args!(
        "{table}, the row up to line {line} of the text: {words}: status {status} after {loads} loads, {puts} puts, {err}{out}"
    )))
}

// Checks the rows of a paragraph that comes after this line of a text. Returns how many there are.
fn check_paragraph<R: Threads + Sync>(
    rt: &R,
    alloc: Global,
    table: &str,
    mut line: u64,
    given: &str,
    paragraph: &str,
) -> Result<u64, Fail> {
    let mut rows: u64 = 0;
    let mut row = Row::new(alloc);
    let mut is_read = row.take_all(alloc, given)?;
    for text in paragraph.lines() {
        if row.ends_before(text) {
            check_row(rt, alloc, table, line, &mut row)?;
            rows = rows.saturating_add(1);
            row = Row::new(alloc);
            is_read = row.take_all(alloc, given)?;
        }
        line = line.saturating_add(1);
        if !is_read || !row.take(alloc, text)? {
            return Err(Fail::new(format_args!(
                "{table}: line {line} of the text can't be read: {text}"
            )));
        }
    }
    check_row(rt, alloc, table, line, &mut row)?;
    Ok(rows.saturating_add(1))
}

// Checks each row of a text. A failure shows its place, and how it ended.
//
// # Errors
//
// Returns a failure if there is no row, if one can't be read or if its call ends otherwise, or if an allocation fails.
pub(crate) fn check_rows<R: Threads + Sync>(
    rt: &R,
    alloc: Global,
    table: &str,
    text: &str,
) -> Result<(), Fail> {
    let mut given = String::new(alloc);
    let mut line: u64 = 0;
    let mut rows: u64 = 0;
    for paragraph in text.split("\n\n") {
        if is_given(paragraph) {
            given = String::from_str(alloc, paragraph)?;
        } else {
            let found = check_paragraph(rt, alloc, table, line, given.as_str(), paragraph)?;
            rows = rows.saturating_add(found);
        }
        line = line
            .saturating_add(paragraph.lines().count() as u64)
            .saturating_add(1);
    }
    if rows == 0 {
        return Err(Fail::new(format_args!("{table}: there is no row")));
    }
    Ok(())
}
