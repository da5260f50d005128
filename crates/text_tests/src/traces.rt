//! gg_trace: texts with their columns, or with their first fault, and printed rows, all worked by hand.
use crate::ports::Inputs::{self, Reset, XAndY};
use crate::ports::ports_of;
use gg_trace::TraceFault::{
    self, FieldCount, Heading, NoMemory, NotHexadecimal, RowNumber, TooManyRows, TooWide,
};
use gg_trace::{Trace, header_text, read_trace, row_text};
use itoa::Buffer;
use std::alloc::{AllocError, Global};

// The place of a port, the values of its column, and the last row (empty: there is none).
type Column = (usize, &'static [u128], &'static [u128]);

// The ports, a text, and the expected column, or its first fault.
type Read = (Inputs, &'static [u8], Result<Column, TraceFault>);

static TEXTS: [Read; 31] = [
    (
        Reset,
        b"cycle reset\n0 1\n1 0\n2 0\n3 0\n",
        Ok((0, &[1, 0, 0, 0], &[0])),
    ),
    (Reset, b"cycle reset", Ok((0, &[], &[]))),
    (Reset, b"cycle reset\n", Ok((0, &[], &[]))),
    (Reset, b"cycle reset\n0 0001\n", Ok((0, &[1], &[1]))),
    (
        Reset,
        b"cycle\t \treset\r\n0 \t1\r\n1\t0",
        Ok((0, &[1, 0], &[0])),
    ),
    (Reset, b"cycle reset\n0 0\n1 1", Ok((0, &[0, 1], &[1]))),
    // names in another order than the ports
    (
        XAndY,
        b"cycle y x\n0 f 0A\n1 00 ff",
        Ok((0, &[10, 255], &[255, 0])),
    ),
    (
        XAndY,
        b"cycle y x\n0 f 0A\n1 00 ff",
        Ok((1, &[15, 0], &[255, 0])),
    ),
    (Reset, b"", Err(Heading { field: 0 })),
    (Reset, b"\ncycle reset\n", Err(Heading { field: 0 })),
    (Reset, b"  \n", Err(Heading { field: 0 })),
    (Reset, b"Cycle reset\n", Err(Heading { field: 0 })),
    (Reset, b"cycle\n", Err(Heading { field: 1 })),
    (Reset, b"cycle rst\n", Err(Heading { field: 1 })),
    (Reset, b"cycle reset \n", Err(Heading { field: 2 })),
    (Reset, b"cycle reset reset\n", Err(Heading { field: 2 })),
    (Reset, b"cycle reset\n1 0\n", Err(RowNumber { row: 0 })),
    (Reset, b"cycle reset\n00 0\n", Err(RowNumber { row: 0 })),
    (Reset, b"cycle reset\n0 0\n  \n", Err(RowNumber { row: 1 })),
    (
        Reset,
        b"cycle reset\n0 g\n",
        Err(NotHexadecimal { row: 0, field: 1 }),
    ),
    (
        Reset,
        b"cycle reset\n0 \n",
        Err(NotHexadecimal { row: 0, field: 1 }),
    ),
    (
        Reset,
        b"cycle reset\n0 1\r",
        Err(NotHexadecimal { row: 0, field: 1 }),
    ),
    (
        Reset,
        b"cycle reset\n0 \xff\n",
        Err(NotHexadecimal { row: 0, field: 1 }),
    ),
    (
        Reset,
        b"cycle reset\n0 0x1\n",
        Err(NotHexadecimal { row: 0, field: 1 }),
    ),
    (
        Reset,
        b"cycle reset\n0 2\n",
        Err(TooWide { row: 0, field: 1 }),
    ),
    (
        Reset,
        b"cycle reset\n0 0\n1 100000000000000000000000000000000\n",
        Err(TooWide { row: 1, field: 1 }),
    ),
    (
        Reset,
        b"cycle reset\n0\n",
        Err(FieldCount { row: 0, count: 1 }),
    ),
    (
        Reset,
        b"cycle reset\n0 0\n\n",
        Err(FieldCount { row: 1, count: 0 }),
    ),
    (
        Reset,
        b"cycle reset\n5 x 2\n",
        Err(FieldCount { row: 0, count: 3 }),
    ),
    // the first faulty field is reported, and its digits are checked before its width
    (
        XAndY,
        b"cycle y x\n0 10 -1\n",
        Err(TooWide { row: 0, field: 1 }),
    ),
    (XAndY, b"cycle y\n0 0\n", Err(Heading { field: 2 })),
];

// The trace of a text with these ports.
fn read(alloc: Global, inputs: Inputs, text: &[u8]) -> Result<Trace, TraceFault> {
    let ports = ports_of(alloc, inputs)?;
    read_trace(alloc, &ports, text)
}

// Whether a trace has this column, this last row, and no further rows.
fn has(alloc: Global, trace: &Trace, column: &Column) -> bool {
    let (input, values, last) = *column;
    if input >= trace.inputs() || trace.rows() != values.len() as u64 {
        return false;
    }
    if trace.rows() > 0 && trace.row(trace.rows() - 1) != last {
        return false;
    }
    match trace.column(alloc, input) {
        Ok(found) => found.as_slice() == values,
        Err(_) => false,
    }
}

// A row that fails is shown by its place and its expected answer.
#[test]
fn texts(rt: HostRuntime) {
    for (place, (inputs, text, want)) in TEXTS.iter().enumerate() {
        let is_right = match read(rt.alloc(), *inputs, text) {
            Ok(trace) => match want {
                Ok(column) => has(rt.alloc(), &trace, column),
                Err(_) => false,
            },
            Err(fault) => *want == Err(fault),
        };
        assert!(rt; is_right, "{place}: {want:?}");
    }
}

// How many rows are kept of a trace of three, and the rest.
static FIRST: [(u64, Column); 3] = [
    (2, (0, &[10, 11], &[11, 2])),
    (2, (1, &[1, 2], &[11, 2])),
    (0, (1, &[], &[])),
];

// Whether the first rows of a trace of three, `rows` of them, have this column and this last row.
fn has_first(alloc: Global, rows: u64, column: &Column) -> bool {
    match read(alloc, XAndY, b"cycle x y\n0 a 1\n1 b 2\n2 c 3\n") {
        Ok(trace) => rows <= trace.rows() && has(alloc, &trace.first_rows(rows), column),
        Err(_) => false,
    }
}

#[test]
fn first_rows(rt: HostRuntime) {
    for (rows, column) in &FIRST {
        assert!(rt; has_first(rt.alloc(), *rows, column), "{rows}: {column:?}");
    }
}

// How many rows are read of a trace with this many rows and no ports.
fn rows_of(alloc: Global, rows: u64) -> Result<u64, TraceFault> {
    let mut text = String::from_str(alloc, "cycle\n")?;
    for row in 0..rows {
        text.push_str(Buffer::new().format(row))?;
        text.push_str("\n")?;
    }
    match read(alloc, Inputs::None, text.as_bytes()) {
        Ok(trace) => Ok(trace.rows()),
        Err(fault) => Err(fault),
    }
}

#[test]
fn the_last_row(rt: HostRuntime) {
    assert!(rt; rows_of(rt.alloc(), 1_000_000) == Ok(1_000_000));
}

#[test]
fn a_row_too_many(rt: HostRuntime) {
    assert!(rt; rows_of(rt.alloc(), 1_000_001) == Err(TooManyRows { row: 1_000_000 }));
}

// The ports, a row's number and values, the header, and the row's line.
type Printed = (Inputs, u64, &'static [u128], &'static str, &'static str);

static LINES: [Printed; 4] = [
    (XAndY, 0, &[0, 0], "cycle x y\n", "0 00 0\n"),
    (XAndY, 10, &[10, 15], "cycle x y\n", "10 0a f\n"),
    (XAndY, 999_999, &[255, 8], "cycle x y\n", "999999 ff 8\n"),
    (Inputs::None, 7, &[], "cycle\n", "7\n"),
];

// Whether the header and the row are printed so.
fn is_printed(alloc: Global, printed: &Printed) -> Result<bool, AllocError> {
    let (inputs, row, values, header, line) = *printed;
    let ports = ports_of(alloc, inputs)?;
    if values.len() != ports.as_slice().len() {
        return Ok(false);
    }
    let is_header = header_text(alloc, &ports)?.as_str() == header;
    Ok(is_header && row_text(alloc, &ports, row, values)?.as_str() == line)
}

// Faults and their texts.
static FAULTS: [(TraceFault, &str); 7] = [
    (Heading { field: 2 }, "T1 field 2"),
    (RowNumber { row: 3 }, "T2 row 3"),
    (NotHexadecimal { row: 3, field: 1 }, "T3 row 3 field 1"),
    (TooWide { row: 0, field: 1 }, "T4 row 0 field 1"),
    (FieldCount { row: 0, count: 1 }, "T5 row 0 1"),
    (TooManyRows { row: 1_000_000 }, "T6 row 1000000"),
    (NoMemory, "out of memory"),
];

#[test]
fn printed(rt: HostRuntime) {
    for line in &LINES {
        assert!(rt; is_printed(rt.alloc(), line) == Ok(true), "{:?}", line.4);
    }
    for (fault, text) in &FAULTS {
        let is_told = match format!(in rt.alloc(); "{fault}") {
            Ok(told) => told.as_str() == *text,
            Err(_) => false,
        };
        assert!(rt; is_told, "{text:?}");
    }
}
