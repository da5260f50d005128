//! The rows of a circuit's text in lowered FIRRTL: from the tokens of a line to the row that they spell.
//!
//! `read_row` returns exactly the row that the tokens of a line spell (`SpellsRow`, by cases on the grammar), or that
//! they spell none, and the names in the row are names. The tokens spell at most one row (`one_row`), and names are
//! words without a dash (`name_is_a_word`). Only `NoMemory` has no cause in the tokens. This crate doesn't say which
//! rows are valid after which.
#![tactic(auto)]

mod cursor;
mod digits;
mod expression;
mod field;
mod laws;
mod registers;
mod row;
mod stops;

pub use cursor::RowFault;
pub use laws::{name_is_a_word, one_row};
pub use row::{LineRow, read_row};
