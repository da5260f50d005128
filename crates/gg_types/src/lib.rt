//! The types of a circuit's names and expressions, and the faults in them (FIRRTL Specification, "Ground Types",
//! "Primitive Operations", "Expressions", "Connects", "Instances", "Memories").
//!
//! `specs/` defines the type of each name and expression, and the faults F9 to F14 (`type_faults`), in the order of the
//! text: the faults of operands before the faults of their operation, from left to right, and at one place the least.
//! gg_types_rules finds the first of them.
//!
//! A [`Typed`] is a circuit with none of the faults F1 to F14. It has the type of each name, and an order of the
//! modules: each comes after all modules that it has instances of. A port of an instance has the type that is written
//! in its module, which may come later in the text. `Typed::clock` returns the Clock input that a reference follows.
//!
//! `literal` returns the type and the pattern of a literal. `is_width` is the test of a type's width. `ground_type` is
//! the type of a signal. `said_type` and `said_depth` are what the fields of a memory say, and `bank_of` is the memory
//! that they make.
#![tactic(auto)]

mod checked;
mod inputs;
mod literals;
mod lookup;
mod memory;
mod sort;
mod way;
mod widths;

pub use checked::Typed;
pub use inputs::is_clock_input;
pub use literals::literal;
pub use lookup::sort_of_name;
pub use memory::{Bank, bank_of, ground_type, said_depth, said_type};
pub use sort::{Own, Sort, Typing, sort_of};
pub use way::Way;
pub use widths::is_width;
