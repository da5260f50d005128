//! Reading the whole text of a trace.

ghost use Rattle.std.specs.Prelude.{◌⊎◌, ◌≡◌, ℕ, ◌+◌, ◌*◌, ◌<◌, ◌≤◌, [], List, IfOk, IfErr, MatchResult, drop, map, length, slice_index_or};
ghost use Rattle.gg_trace.specs.Fields.{fields};
ghost use Rattle.gg_trace.specs.Ports.{HasDistinctNames};
ghost use Rattle.gg_trace.specs.declared.faults.TraceFault.{TraceFault};
ghost use Rattle.gg_trace.specs.Trace.{Columns, HaveWidths, HasFault, IsFirstFault, IfFirstFault};

use crate::faults::TraceFault;
use crate::heading::read_header;
use crate::line_cuts::Lines;
use crate::row_values::read_row;
use crate::trace_table::Trace;
use gg_flat::{Port, Ports};
use std::alloc::Global;

// The first line, or an empty line if there is none.
fn first_line<'a>(lines: &mut Lines<'a>) -> &'a [u8]
    ensures header { slice_index_or (map fields lines.old) 0 [] ≡ fields result.now }
    ensures rows { drop 1 (map fields lines.old) ≡ map fields lines.new }
{
    match lines.next() {
        Some(line) => line,
        None => &[],
    }
}

// The columns of a text, or its first fault.
fn read_lines(alloc: Global, ports: &[Port], bytes: &[u8]) -> Result<Trace, TraceFault>
    requires { HasDistinctNames ports.now }
    ensures { MatchResult result
        (λ trace. Columns ports.now bytes.now trace.rows trace.columns)
        (IfFirstFault ports.now bytes.now) }
{
    let mut lines = Lines::of(bytes);
    let places = read_header(alloc, ports, first_line(&mut lines))?;
    let mut values = vec![in alloc; 0u128; ports.len()]?;
    let mut cells = Vec::new(alloc);
    let mut rows = 0;
    while let Some(line) = lines.next() {
        read_row(ports, &places, line, rows as u64, &mut values)?;
        cells.extend_from_slice(&values)?;
        rows += 1;
    }
    Ok(Trace::of(rows, ports.len(), cells))
}

/// Reads an input trace: the columns of its text, one for each port, or its first fault.
///
/// The header is `cycle` and the names of all ports, each once, in any order. Row r is r in decimal, followed by a
/// value for each port in hexadecimal. The first fault is the header's fault, if it has one, otherwise the first fault
/// of the first faulty row. In a row the limit of rows comes first, then the count of fields, the row's number, and the
/// values from left to right.
///
/// The ports have to have different names.
///
/// # Errors
///
/// Returns the first fault of the text, or `NoMemory` if an allocation fails.
///
/// # Examples
///
/// ```rust
/// // `ports` are `x` of 8 bits and `y` of 4 bits.
/// let trace = read_trace(alloc, &ports, b"cycle y x\n0 f 0a\n1 0 ff\n")?;
/// // `trace.rows()` is 2. In port order `trace.row(0)` is `[10, 15]`, and `trace.row(1)` is `[255, 0]`.
/// ```
///
/// With `10` in place of `f` the result is `TooWide` with row 0 and field 1.
pub fn read_trace(alloc: Global, ports: &Ports, bytes: &[u8]) -> Result<Trace, TraceFault>
    requires { HasDistinctNames ports.now }
    // The trace has the columns of the text, and each value fits its port.
    ensures columns { IfOk result (λ trace. Columns ports.now bytes.now trace.rows trace.columns) }
    ensures widths { IfOk result (λ trace. HaveWidths ports.now trace.rows trace.columns) }
    // A text that is read has none of the faults.
    ensures clean { IfOk result (λ _. (fault : TraceFault) → ¬ HasFault ports.now bytes.now fault) }
    // A fault is the text's first, or `NoMemory`.
    ensures fault { IfErr result (IfFirstFault ports.now bytes.now) }
    // A text with columns is read, unless an allocation fails.
    ensures complete { (n : ℕ) (columns : List (List ℕ)) → Columns ports.now bytes.now n columns →
        MatchResult result (λ trace. (trace.rows ≡ n) × (trace.columns ≡ columns)) (λ given. given ≡ TraceFault.NoMemory) }
    // A text with a first fault is refused with it, unless an allocation fails.
    ensures due { (first : TraceFault) → IsFirstFault ports.now bytes.now first →
        MatchResult result (λ _. ⊥) (λ given. (given ≡ first) ⊎ (given ≡ TraceFault.NoMemory)) }
{
    read_lines(alloc, ports.as_slice(), bytes)
}
