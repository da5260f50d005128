//! Values, types and operations of lowered FIRRTL, and the small types and limits that every crate shares.
//!
//! A value is a bit pattern of at most 128 bits. It encodes a whole number, signed where its type is `SInt` (FIRRTL
//! Specification, "Ground Types"). The crate promises, for each primitive operation of the specification:
//!
//! - the pattern that it computes is the pattern of the operation's meaning over the whole numbers;
//! - the type that it returns is the specification's, and otherwise the first thing that is wrong.
//!
//! No call of an operation allocates. The crate also has the spelling of each operation, in both directions, and the
//! limits of the program: a constant is the number of the same name in `specs/Limits`, where there is one. `Paths`
//! numbers paths in their order, no two of them equal.
#![tactic(auto)]

mod arithmetic;
mod binary;
mod bitwise;
mod choice;
mod compare;
mod flags;
mod judge;
mod limits;
mod lists;
mod name;
mod ops;
mod parametric;
mod paths;
mod patterns;
mod shifts;
mod spelling;
mod types;
mod unary;

pub use binary::{apply2, apply2_to, result2, shifted_width};
pub use choice::{mux, result_mux};
pub use flags::either;
pub use limits::{
    CAPACITY_LIMIT, CIRCUIT_LIMIT, CYCLE_LIMIT, DEEPEST, GREATEST_SEED, LATEST_CYCLE,
    MOST_CHANNELS, MOST_STAGES, MOST_UNITS, MOST_WORKERS, PARTITION_LIMIT, SNAP_LIMIT, STEPS_LIMIT,
    TRACE_LIMIT, TRAY_ROWS,
};
pub use lists::{Ids, Items, Names, copied};
pub use name::Name;
pub use ops::{Op1, Op2, OpN};
pub use parametric::{apply_const, apply_const_to, result_const};
pub use paths::{AddError, Paths};
pub use patterns::extend;
pub use types::{Bad, Kind, Ty, Val};
pub use unary::{apply1, apply1_to, result1};
