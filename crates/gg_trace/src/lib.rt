//! Reads input traces and prints output traces, exactly.
//!
//! An input trace has a value for each port of a circuit's top in each cycle. `read_trace` returns the columns of the
//! whole text, or the first fault. Unless an allocation fails, a text that has columns is read, and a text that has a
//! fault is refused with its first fault. `header_text` and `row_text` return the exact bytes of the lines of an output
//! trace. A value that is printed is read again as the same value. `Lines` returns the lines of any text, one after
//! another. `run_len` returns the length of the run of blanks, or of other bytes, at the beginning of a text.
//! `same_bytes` compares two texts. `acts` returns whether a stop acts: its condition is one, and its clock has an
//! edge. `row_count` (specs/Last) is the number of rows of a run that a stop may end.
#![tactic(auto)]

mod cells;
mod faults;
mod field_cuts;
mod heading;
mod laws;
mod line_cuts;
mod port_table;
mod printing;
mod reading;
mod row_values;
mod stops;
mod texts;
mod trace_table;

pub use faults::TraceFault;
pub use field_cuts::{fields_part_their_line, run_len};
pub use laws::one_first_fault;
pub use line_cuts::{Lines, lines_part_their_text};
pub use printing::{header_text, printed_values_are_read, row_text};
pub use reading::read_trace;
pub use stops::{acts, rows_end_at_halts};
pub use texts::same_bytes;
pub use trace_table::Trace;
