//! `Request`: the contents of a partition file.
use gg_bits::{Items, Name, Names};

/// Lists of names. A contract sees them as the list of the lists of their bytes.
pub type Groups = Items<Names>;

/// Names, each with a number. A contract sees them as the list of pairs.
pub type Capacities = Items<(Name, u64)>;

/// Names of clocks, each with a ratio: the number of its edges, and the number of base ticks for these.
pub type Clocks = Items<(Name, (u64, u64))>;

/// A bridge that is attached to the circuit's top.
pub struct BridgeEntry {
    /// The bridge's name.
    pub name: Name,
    /// The output ports that it sees.
    pub sees: Names,
    /// The input ports that it drives.
    pub drives: Names,
}

impl Drop for BridgeEntry {
    fn drop(self) {
        let Self { name, sees, drives } = self;
        drop(name);
        drop(sees);
        drop(drives);
    }
}

/// The bridges that are attached, in the order of the file.
pub type Bridges = Items<BridgeEntry>;

/// The contents of a partition file.
pub struct Request {
    /// The paths of the instances that become units.
    pub units: Names,
    /// The lists of units that share a host.
    pub share: Groups,
    /// The paths of the memories that become hosts of their own.
    pub memories: Names,
    /// The capacities of channels, by name, in the order of the names' bytes.
    pub capacity: Capacities,
    /// Whether channels that the hub only passes on are led past it.
    pub direct: bool,
    /// The names of the channels that hold a token from the start.
    pub pipe: Names,
    /// The ratios of clocks, by name, in the order of the names' bytes.
    pub clocks: Clocks,
    /// The bridges.
    pub bridges: Bridges,
}

impl Drop for Request {
    fn drop(self) {
        let Self {
            units,
            share,
            memories,
            capacity,
            direct: _,
            pipe,
            clocks,
            bridges,
        } = self;
        drop(units);
        drop(share);
        drop(memories);
        drop(capacity);
        drop(pipe);
        drop(clocks);
        drop(bridges);
    }
}
