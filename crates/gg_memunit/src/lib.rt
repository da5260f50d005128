//! A memory as a machine of its own. Its ports are served one by one.
//!
//! A memory of a circuit can be a machine of its own. The machine's ins are the fields of the memory's ports, and its
//! outs are the data of the readers. Its host does one access at a time. The crate promises:
//!
//! - [`MemUnit`] is such a machine. Each step changes it as the definitions of gg_node say. A `serve` does one access,
//!   in the order that a memory requires: late readers of old words, then writers, then late readers of new words. A
//!   port is also served if its clock has no edge in the cycle, and then nothing changes;
//! - after all ports of a memory were served, it has the contents that it would have after the cycle in a piece
//!   (`served_through`).
//!
//! Only `with_clocks` and `from_state` allocate.
#![tactic(auto)]

mod access;
mod laws;
mod ports;
mod unit;

pub use laws::served_through;
pub use unit::MemUnit;
