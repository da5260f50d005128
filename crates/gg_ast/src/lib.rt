//! A circuit in lowered FIRRTL as a tree: what its text says, and nothing that is concluded from it.
//!
//! A circuit is a list of modules in the order of the file. A module is a list of ports and a list of statements, each
//! with its line (FIRRTL Specification, "Circuits and Modules", "Statements", "Expressions"). Only one thing is checked
//! here: that names are names (`is_name`). They may clash or be unknown, widths may be out of range and literals too
//! large.
//!
//! The crate promises:
//!
//! - a circuit that is built row by row has just these rows, in their order and on their lines (`rows_of`);
//! - two circuits with the same rows are the same (`one_tree`);
//! - a name has no dot and no dash (`Circuit::names_are_words`);
//! - `Circuit::module` returns the first module of a name;
//! - `find_operation` and `find_keyword` return what a word of the grammar names, and nothing for any other word.
//!
//! Contracts see expressions as terms, and lists as lists: the values that they compare have no addresses.
#![tactic(auto)]

mod circuit;
mod expression;
mod laws;
mod module;
mod names;
mod statement;
mod words;

pub use circuit::Circuit;
pub use expression::{Expr, ExprKind, Literal, Radix, Reference};
pub use laws::one_tree;
pub use module::{Direction, GroundType, Module, Port};
pub use names::is_name;
pub use statement::{
    Argument, Arguments, Field, Fields, MemoryField, ReadUnderWrite, Report, Reset, Stmt, StmtKind,
};
pub use words::{FieldWord, Keyword, Operation, find_keyword, find_operation};
