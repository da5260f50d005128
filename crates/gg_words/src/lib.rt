//! The words of a call, read as a command.
//!
//! The command line is defined in the terms of `clap`: `golden_app` is what `clap` reads of it. Therefore `fault_of
//! golden_app` says which words `clap` refuses, and `subcommand_of golden_app` what it finds in words that it takes.
//! `clap` reads all values as texts. This crate checks the numbers. For all words the crate promises:
//!
//! - [`words`] returns the command, or the word that makes `clap` refuse the words, or the kind of any other refusal by
//!   `clap`, or the first value that isn't a number in its range. It returns each of these exactly when it applies,
//!   unless an allocation fails;
//! - words are at most one command, and a command is neither refused by `clap` nor has such a value. At most one word
//!   is unexpected ([`one_meaning`]);
//! - if `clap` takes the words, each word that the command requires is given ([`words_are_given`]);
//! - the numbers of a command are in their ranges ([`numbers_are_in_range`]).
#![tactic(auto)]

mod command;
mod laws;
mod line;
mod numbers;
mod reading;

pub use command::{Cmd, WordFault};
pub use laws::{numbers_are_in_range, one_meaning, words_are_given};
pub use reading::words;
