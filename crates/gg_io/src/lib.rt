//! The outside: where files are loaded from, where text is written, and what workers pass at each turn.
//!
//! [`Shelf`], [`Sink`] and [`Gate`] are traits with a written meaning. An answer about a file or an output therefore
//! has a cause that the program can't make up. The model of a shelf is its files by name, each of them known or
//! unknown, and two counts for each name: its faults and its cut loads. The model of an output is the bytes that were
//! written to it, known or unknown, and two counts: its faults and its refused puts (which returned `NoMemory`). Counts
//! never fall.
//!
//! - A load returns `Failed` only if the faults of its name rose. It returns `TooLong` only if the cut loads of its name
//!   rose and the file, where it is known, is longer than the limit. A load that succeeds is within the limit and, where
//!   the file is known, returns all of it.
//! - A put that succeeds writes all of its bytes. It returns `Failed` only if the faults rose; then a first part of its
//!   bytes may have been written. It returns `NoMemory` only if the refused puts rose; then nothing was written.
//!
//! [`MemShelf`] and [`MemSink`] are in memory. Such a shelf returns `Failed` exactly if its list says so or it has no
//! file of that name. Such an output returns `Failed` only if its list says so; a put that is listed never succeeds,
//! but may return `NoMemory`. [`SureShelf`] and [`SureSink`] never return `Failed`. [`FileShelf`] and [`StreamSink`]
//! are the system's files and streams. Their contents are unknown to contracts, and what the system reads and writes is
//! trusted. Only a load or a put can change their counts. Each shelf of this crate has one count of faults and one of
//! cut loads, for all names. A function for any shelf can't know that, so its line has the name of a load that failed.
//!
//! A command loads its files one after another, checks each, and then writes a text. An order of files says which file
//! comes next, which bytes of it are accepted, and what is reported for the others. It doesn't say what the files are.
//! A command ends if a file is refused, after each file before it was accepted; if a put fails; if an allocation fails;
//! or with its whole text (`Ends`). For a function that returns an [`Ending`] its clause is `EndedOn`.
//!
//! [`load`] loads a file within its limit, [`put`] puts a part of the text, and [`report`] writes the line on why a
//! command stopped. Their lines begin with `golden: `.
#![tactic(auto)]

mod counts;
mod endings;
mod file_shelf;
mod files;
mod loading;
mod mem_files;
mod mem_shelf;
mod mem_sink;
mod output;
mod stream_sink;
mod turns;
mod writing;

pub use endings::{Ending, Refusal, end_with, make_refusal, text_with_number};
pub use file_shelf::FileShelf;
pub use files::{LoadFail, Shelf};
pub use loading::load;
pub use mem_files::{MemFiles, hold};
pub use mem_shelf::{MemShelf, SureShelf};
pub use mem_sink::{FailingPut, MemSink, SureSink};
pub use output::{PutFail, Sink};
pub use stream_sink::StreamSink;
pub use turns::{Gate, NoGate};
pub use writing::{put, report};
