//! Partition files: which instances become units, which of them share a host, which memories are hosts of their own,
//! the capacities of channels, whether channels are direct, which channels hold a token from the start, the periods of
//! clocks, and the models of bridges.
//!
//! A partition file is a JSON text (RFC 8259): an object with optional keys. The keys that it may have are in one list,
//! in the order of their checks (`keys` of specs/Keys, and `KEYS` of src/keys.rt). This list determines the first key
//! with a value of a wrong shape, and which keys are unknown. The crate promises that `read_partition` returns the
//! request that the bytes hold (`IsPartition`), or the key that is wrong (`IsRefused`), or `NoMemory`. A request has at
//! most as many entries of each kind as the file has bytes (`HasAtMost`).
#![tactic(auto)]

mod fault;
mod keys;
mod laws;
mod lists;
mod reader;
mod request;
mod shapes;

pub use fault::PartFault;
pub use laws::{capacities_in_order, clocks_in_order, least_unknown, one_answer};
pub use reader::read_partition;
pub use request::{BridgeEntry, Bridges, Capacities, Clocks, Groups, Request};
