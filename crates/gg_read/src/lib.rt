//! The reader: from the text of a circuit in lowered FIRRTL to its tree.
//!
//! `read_circuit` returns exactly the circuit that a text spells, if no line of the text is at fault. Otherwise it
//! returns exactly why not: the bytes are not UTF-8, or a line is at fault, with its number and the first of three
//! causes that holds there. A text spells at most one circuit (`one_circuit`) and has at most one fault line
//! (`one_fault_line`). A text that is UTF-8 has one of the two (`every_text`). It has both only if the line has too
//! many open brackets (`spelt_but_too_deep`). The names of a circuit that a text spells are names (`spelt_names`). Only `NoMemory` has no cause in the text. What a single line spells is
//! defined in gg_read_row.
#![tactic(auto)]

mod fault;
mod laws;
mod printed;
mod stage;
mod text;

pub use laws::{every_text, one_circuit, one_fault_line, spelt_but_too_deep, spelt_names};
pub use text::{ReadFault, read_circuit};
