//! Snapshots of a circuit as texts.
//!
//! The text of a snapshot is a function of a flat circuit, its tree of instances, a cycle and a state before it (`specs/Lines`,
//! `specs/Table`). Two lines give the version and the cycle. Each value that isn't 0 has a line of its own, in a fixed order:
//! registers, read registers, pipes, memories.
//!
//! - `snap_text` writes the text of a snapshot.
//! - `read_snap` reads it again. It refuses any other text, with the first line that can't be in any snapshot of the circuit.
//! - `one_snapshot` is a law: a text is the snapshot of at most one cycle and one state, and then it has no fault. It has at most one first fault.
//! - `trees_can_save` is a law: which circuits can be saved.
//! - `StateDraft` is a state that is put together from the states of parts.

mod cutting;
mod draft;
mod fault;
mod heading;
mod laws;
mod parsing;
mod reading;
mod row;
mod snap;
mod table;
mod writing;

pub use draft::StateDraft;
pub use fault::SnapFault;
pub use laws::{one_snapshot, trees_can_save};
pub use snap::{Snap, read_snap, snap_text};
