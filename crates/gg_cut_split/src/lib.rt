//! What each machine of a cut has: its channels, signals and memories.
//!
//! A machine makes the signals that belong to it by the tree of instances and that no channel carries, and the
//! signals of the channels that it gives. It takes the signals of the channels that it takes (`Makes` and `Takes` in
//! gg_cut_plan's `specs/Plan`), all before channels are routed. If what is listed is apart, the crate promises:
//!
//! - `ends_of` gives the numbers of the machines, and the machine of each port of the top, with bridges by any entries;
//! - `split` gives the channels in their order. For each machine it gives exactly the signals that the machine makes or
//!   takes, along the order of evaluation, and exactly the memories that belong to it (`IsShareOf` in
//!   `specs/inside/Share`);
//! - what the hub, a unit or a memory has makes a part of the circuit (`IsChoice` in gg_part): for each signal that
//!   it makes, it makes or takes all that the signal's driver, register or memory names.
//!
//! `sides_of` gives the channels that each machine takes and gives, by any list of channels. `owned_of` gives the channels before the routing, and
//! the owners of signals and memories.
//!
//! One pass over the order gives all machines their signals. It uses a table of the channel of each signal and a
//! table of the owner of each signal.
//!
//! Two modules have only laws: `closed` says that the machines of a cut are closed, `again` that duplicate units have the same, with other numbers.
#![tactic(auto)]

mod again;
mod beginning;
mod channels;
mod closed;
mod ends;
mod lists;
mod owned;
mod parting;
mod pile;
mod ports;
mod share;
mod spread;
mod tables;

pub use again::units_stand_again;
pub use closed::{
    channels_once, listed_apart, machine_closed, machine_makes_part, owner_at_end, owner_by_path,
};
pub use ends::{Ends, ends_of};
pub use lists::{filled, set_named};
pub use owned::{Owned, owned_of};
pub use parting::split;
pub use pile::Pile;
pub use ports::put_ports;
pub use share::{Share, Split};
pub use spread::{Sides, sides_of};
