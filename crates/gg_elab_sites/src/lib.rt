//! The definition of a circuit's flat circuit, and what each module declares, read once for building it.
//!
//! The crate is between the checks of a circuit (gg_types) and the crates that make its flat circuit: gg_elab_tree
//! states laws of it, and gg_elab builds it. The definition `IsFlat` is here.
//!
//! The signals of a circuit are the signals of its top and of every instance below it, by their paths (`flat_signals`).
//! The same holds for its memories (`flat_memories`). A name that is written at a site means the signal with the site's
//! path followed by the name (`named`). An instance's input is connected in the module that holds the instance.
//!
//! A flat circuit is a circuit's flat circuit (`IsFlat`) if it has exactly these parts:
//!
//! - these signals, each with its type and a driver. The driver means what the signal's connection, expression,
//!   register or memory says, and names the same signals;
//! - the registers, in the order of the signals;
//! - these memories, a module's before its instances' memories;
//! - the ports of the top, and after its outputs the stops of all sites;
//! - a clock for each Clock input of the top. A register, or a port of a memory, follows the clock that the Clock input
//!   of its site leads to.
//!
//! A stop has a signal of one bit, its condition, named `stop:` and its number in its module.
//!
//! A line has a node for each part of its expression, in postfix order (`connected_line`).
//!
//! The crate promises:
//!
//! - `one_flat`: a circuit has at most one flat circuit;
//! - `digests` returns, for each module, its own signals, the instances that it holds, its memories, its stops, and
//!   what each sink is connected to (`AreDigests`);
//! - `places` lists the top and the instances below it, each after what holds it (`all_sites`), with the clocks that
//!   its Clock inputs follow (`IsPlaceIn`);
//! - `clock_of` and `port_clock` return the Clock input that an expression, or a port of a memory, follows in its
//!   module;
//! - `table_of` has the paths and the types of all their signals, and the paths of all their memories, in order;
//! - `value_type` is the type of what a reference names, if that is a value.
//!
//! The definitions are total: what isn't known, or doesn't fit, is 0. This never occurs in a circuit that passed the
//! checks.
//!
//! The sites of a circuit are its top and the instances below it (`sites_of`). Four counts are made over the sites,
//! without building them: the depth of the deepest, the signals, the words of all memories and the instances. The first
//! memory in the text that is too deep is found as well. The crate promises:
//!
//! - `count` returns each count as it is defined over the sites (`counts_of`). Each count takes one pass over the
//!   modules, regardless of the number of sites. A count saturates at 18,446,744,073,709,551,615;
//! - `Counts::excess` is the first count above its limit, or none.
//!
//! The caller passes the number of each module's own signals.
#![tactic(auto)]

mod clocks;
mod connections;
mod counts;
mod digest;
mod known;
mod laws;
mod names;
mod own;
mod pass;
mod sites;
mod stops;
mod table;

pub use clocks::{clock_count, clock_of, port_clock};
pub use connections::{Sinks, Source};
pub use counts::{Counts, Excess, Measure, count};
pub use digest::{Digest, Instance, OwnMemory, digests};
pub use known::value_type;
pub use laws::one_flat;
pub use names::{dotted, field_name, joined};
pub use own::{Origin, OwnSignal};
pub use sites::{Around, Place, Step, places};
pub use stops::OwnStop;
pub use table::{Table, add_path, number, table_of};
