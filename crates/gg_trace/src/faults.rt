//! What can be wrong with an input trace.

ghost use Rattle.std.specs.Prelude.{◌≡◌};
ghost use Rattle.gg_trace.specs.declared.faults.TraceFault.TheVariants.{NoMemory};

use std::alloc::{AllocError, AllocFailed};
use std::error::Error;
use std::fmt;

/// What is wrong with an input trace. Rows and fields are counted from 0. The header isn't a row. The text of each
/// fault begins with the code given here, except that `NoMemory` has no code.
#[derive(Clone, Copy, Debug, Drop, PartialEq, Eq)]
pub enum TraceFault {
    /// T1: a field of the header is invalid at its position, or names are missing.
    Heading {
        /// The field, or the count of fields if names are missing.
        field: u64,
    },
    /// T2: field 0 of a row isn't the row's number.
    RowNumber {
        /// The row.
        row: u64,
    },
    /// T3: a value is empty, or not hexadecimal.
    NotHexadecimal {
        /// The row.
        row: u64,
        /// The field.
        field: u64,
    },
    /// T4: a value doesn't fit its input's width.
    TooWide {
        /// The row.
        row: u64,
        /// The field.
        field: u64,
    },
    /// T5: a row doesn't have as many fields as the header.
    FieldCount {
        /// The row.
        row: u64,
        /// Its count of fields.
        count: u64,
    },
    /// T6: there are more than 1,000,000 rows.
    TooManyRows {
        /// The first row above the limit: 1,000,000.
        row: u64,
    },
    /// An allocation failed.
    NoMemory,
}

impl From<AllocError> for TraceFault {
    ghost from_gives = { λ _ fault. fault ≡ NoMemory };

    fn from(_error: AllocError) -> TraceFault {
        TraceFault::NoMemory
    }
}

impl<T: Drop> From<AllocFailed<T>> for TraceFault {
    ghost from_gives = { λ _ fault. fault ≡ NoMemory };

    fn from(_error: AllocFailed<T>) -> TraceFault {
        TraceFault::NoMemory
    }
}

/// The fault's code and its numbers, as the program prints them after `golden: trace: `.
impl fmt::Display for TraceFault {
    ghost use Rattle.std.specs.Prelude.{Some};
    ghost use Rattle.gg_trace.specs.FaultText.{fault_words};

    ghost output = { λ fault. Some (fault_words fault) };

    fn fmt<W: fmt::Write>(&self, f: &mut fmt::Formatter<W>) -> fmt::Result {
        match self {
            TraceFault::Heading { field } => write!(f, "T1 field {field}"),
            TraceFault::RowNumber { row } => write!(f, "T2 row {row}"),
            TraceFault::NotHexadecimal { row, field } => write!(f, "T3 row {row} field {field}"),
            TraceFault::TooWide { row, field } => write!(f, "T4 row {row} field {field}"),
            TraceFault::FieldCount { row, count } => write!(f, "T5 row {row} {count}"),
            TraceFault::TooManyRows { row } => write!(f, "T6 row {row}"),
            TraceFault::NoMemory => f.write_str("out of memory"),
        }
    }
}

impl Error for TraceFault {}
