//! One row: its number, and a value for each port.

ghost use Rattle.std.specs.Prelude.{◌≡◌, ◌≢◌, ℕ, ◌+◌, ◌<◌, ◌≤◌, ◌∷◌, decimal, drop, MatchResult, length, slice_index};
ghost use Rattle.std.specs.Bool.{OnTrue, OnFalse};
ghost use Rattle.gg_trace.specs.Fields.{fields};
ghost use Rattle.gg_trace.specs.Cells.{IsCell, hexadecimal};
ghost use Rattle.gg_trace.specs.Header.{field};
ghost use Rattle.gg_trace.specs.inside.Places.{ArePlaces, AreCells, AreValues, HasValueFault, HasValuesFault, ReadsRow, HasRowFault};

use crate::cells::{CellFault, value_of};
use crate::faults::TraceFault;
use crate::field_cuts::{Fields, count_fields};
use crate::texts::same_bytes;
use gg_bits::CYCLE_LIMIT;
use gg_flat::Port;
use itoa::Buffer;

// The value of a field, which is field `at` of row `row`.
//
// # Errors
//
// Returns `NotHexadecimal` if the field isn't hexadecimal, or `TooWide` if its number doesn't fit the width.
fn read_value(text: &[u8], width: u32, row: u64, at: u64) -> Result<u128, TraceFault>
    requires { width ≤ 128 }
    ensures { MatchResult result
        (λ value. IsCell width text.now × (value ≡ hexadecimal text.now))
        (HasValueFault width text.now row at) }
{
    match value_of(text, width) {
        Ok(value) => Ok(value),
        Err(CellFault::NotHexadecimal) => Err(TraceFault::NotHexadecimal { row, field: at }),
        Err(CellFault::TooWide) => Err(TraceFault::TooWide { row, field: at }),
    }
}

// Writes the values of the fields after a row's number, each at its port's place: the field at place g is the value of
// port `places[g]`. A fault carries `row`.
//
// # Errors
//
// Returns `NotHexadecimal` or `TooWide` with the first field that isn't a value of its port. The values before it are
// written.
fn read_values(
    ports: &[Port],
    places: &[usize],
    cells: &mut Fields,
    row: u64,
    values: &mut [u128],
) -> Result<(), TraceFault>
    requires places { ArePlaces ports.now places.now }
    requires size { length values.old ≡ length ports.now }
    requires count { length cells.old ≡ length places.now }
    ensures { let count = length places.now in
        MatchResult result
        (λ _. AreCells ports.now places.now cells.old count × AreValues places.now cells.old values.new count)
        (HasValuesFault ports.now places.now cells.old row) }
{
    let mut at = 0;
    while let Some(text) = cells.next() {
        let place = places[at];
        values[place] = read_value(text, ports[place].ty.width, row, at as u64 + 1)?;
        at += 1;
    }
    Ok(())
}

// Whether a text is this number in decimal.
fn is_decimal(text: &[u8], number: u64) -> bool
    ensures same { OnTrue result (text.now ≡ decimal number) }
    ensures differ { OnFalse result (text.now ≢ decimal number) }
{
    let mut buffer = Buffer::new();
    same_bytes(text, buffer.format(number).as_bytes())
}

// Writes the values of row `row`, from its text `line`, each at its port's place: field g + 1 is the value of port
// `places[g]`.
//
// # Errors
//
// Returns the first fault of the row, in this order: `TooManyRows` if the trace has too many rows, `FieldCount` if the
// line doesn't have as many fields as the header, `RowNumber` if its first field isn't the row's number, and
// `NotHexadecimal` or `TooWide` with the first field that isn't a value of its port. Values before that field may be
// written.
pub(crate) fn read_row(
    ports: &[Port],
    places: &[usize],
    line: &[u8],
    row: u64,
    values: &mut [u128],
) -> Result<(), TraceFault>
    requires places { ArePlaces ports.now places.now }
    requires size { length values.old ≡ length ports.now }
    ensures { MatchResult result
        (λ _. ReadsRow ports.now places.now row (fields line.now) values.new)
        (HasRowFault ports.now places.now row (fields line.now)) }
{
    if row >= CYCLE_LIMIT {
        return Err(TraceFault::TooManyRows { row });
    }
    let count = count_fields(line);
    if count != places.len() + 1 {
        return Err(TraceFault::FieldCount {
            row,
            count: count as u64,
        });
    }
    let mut cells = Fields::of(line);
    match cells.next() {
        Some(first) if is_decimal(first, row) => read_values(
            ports, places, &mut cells, row, values,
        ),
        _ => Err(TraceFault::RowNumber { row }),
    }
}
