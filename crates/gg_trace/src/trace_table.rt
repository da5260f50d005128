//! An input trace: a value for each port in each row.

ghost use Rattle.std.specs.Prelude.{◌≡◌, ℕ, ◌+◌, ◌*◌, ◌<◌, ◌≤◌, [], IfOk, map, take, length, slice_index, slice_index_or};
ghost use Rattle.std.specs.List.{range_with_len};
ghost use Rattle.gg_bits.specs.Limits.{cycle_limit};
ghost use Rattle.gg_trace.specs.Table.{row_of};
ghost use Rattle.gg_trace.specs.inside.Table.{table_of};

use std::alloc::{AllocError, Global};
use std::marker::Model;

/// An input trace: for each port, in port order, a column with one value for each row. A contract sees the count of
/// rows and the columns.
pub struct Trace {
    rows: usize,
    inputs: usize,
    // row by row, each with a value for each port
    cells: Vec<u128>,
}

impl Drop for Trace {
    fn drop(self) {
        let Self {
            rows: _,
            inputs: _,
            cells,
        } = self;
        drop(cells);
    }
}

impl Model for Trace {
    ghost use Rattle.std.specs.Prelude.{◌≡◌, ◌*◌, ◌≤◌, length};
    ghost use Rattle.gg_bits.specs.Limits.{cycle_limit};
    ghost use Rattle.gg_trace.specs.inside.Table.{Table, table_of};

    ghost Value = { Table };

    ghost view = { λ a. table_of a.rows a.inputs a.cells.items };

    ghost invariant = { λ a. (length a.cells.items ≡ a.rows * a.inputs) × (a.rows ≤ cycle_limit) };
}

impl Trace {
    // The trace of the values in `cells`, row by row, `inputs` values for each.
    pub(crate) fn of(rows: usize, inputs: usize, cells: Vec<u128>) -> Trace
        requires size { length cells.items ≡ rows * inputs }
        requires limit { rows ≤ cycle_limit }
        ensures { result ≡ table_of rows inputs cells.items }
    {
        Trace {
            rows,
            inputs,
            cells,
        }
    }

    /// The number of rows, at most 1,000,000.
    pub fn rows(&self) -> u64
        ensures count { result ≡ self.now.rows }
        ensures limit { result ≤ cycle_limit }
    {
        self.rows as u64
    }

    /// The number of ports.
    pub fn inputs(&self) -> usize
        ensures { result ≡ length self.now.columns }
    {
        self.inputs
    }

    /// The first `rows` rows. Does not allocate.
    pub fn first_rows(self, rows: u64) -> Trace
        requires { rows ≤ self.rows }
        ensures { result ≡ record { rows = rows; columns = map (take rows) self.columns } }
    {
        let Self {
            rows: _,
            inputs,
            mut cells,
        } = self;
        cells.truncate(rows as usize * inputs);
        Trace {
            rows: rows as usize,
            inputs,
            cells,
        }
    }

    /// The values of one row, in port order.
    pub fn row(&self, row: u64) -> &[u128]
        requires { row < self.now.rows }
        ensures values { result.now ≡ row_of self.now.columns row }
        ensures count { length result.now ≡ length self.now.columns }
        ensures at { (i : ℕ) → i < length self.now.columns →
            slice_index result.now i ≡ slice_index (slice_index_or self.now.columns i []) row }
    {
        let from = row as usize * self.inputs;
        &self.cells[from..from + self.inputs]
    }

    /// The column of the port at this place: its value in each row.
    ///
    /// # Errors
    ///
    /// Returns `AllocError` if an allocation fails.
    pub fn column(&self, alloc: Global, input: usize) -> Result<Vec<u128>, AllocError>
        requires { input < length self.now.columns }
        ensures { IfOk result (λ column. column.items ≡ slice_index_or self.now.columns input []) }
    {
        column_of(alloc, self.cells.as_slice(), self.rows, self.inputs, input)
    }
}

// The value at place `input` of each row.
fn column_of(
    alloc: Global,
    cells: &[u128],
    rows: usize,
    inputs: usize,
    input: usize,
) -> Result<Vec<u128>, AllocError>
    requires size { length cells.now ≡ rows * inputs }
    requires within { input < inputs }
    ensures { IfOk result (λ column. column.items ≡ map (λ r. slice_index cells.now (r * inputs + input)) (range_with_len 0 rows)) }
{
    let mut column = Vec::new(alloc);
    for row in 0..rows {
        column.push(cells[row * inputs + input])?;
    }
    Ok(column)
}
