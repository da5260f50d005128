//! `Plan`: what a cut makes of a design.
use crate::listed::Listed;
use gg_bits::{Ids, Items, Name, Ty};
use gg_clocks::Ratios;
use gg_flat::Piece;
use gg_part::Part;

/// What the machine of a bridge does: it answers what it takes as its model does.
pub struct BridgeBody {
    /// The bridge's name.
    pub name: Name,
    /// Its model.
    pub model: Piece,
    /// For each channel that it takes, the place of the port among the ports that it sees.
    pub ins: Ids,
    /// For each channel that it gives, the place of the port among the ports that it drives.
    pub outs: Ids,
}

impl Drop for BridgeBody {
    fn drop(self) {
        let Self {
            name,
            model,
            ins,
            outs,
        } = self;
        drop(name);
        drop(model);
        drop(ins);
        drop(outs);
    }
}

/// What a machine does.
#[derive(Drop)]
pub enum Body {
    /// The hub or a unit: it runs a part of the circuit.
    Cut(Part),
    /// A listed memory: a part of the circuit that has just this memory. Its ports are served one by one.
    Memory(Part),
    /// Gives the column of a top input, which has this place among the top's inputs that no bridge drives.
    Source(u32),
    /// Keeps the values of a top output or of a stop.
    Tray,
    /// A model in the host's own code.
    Bridge(BridgeBody),
}

/// A machine. Channels are named by their numbers.
pub struct Machine {
    /// `hub:`, a unit's or a memory's path, `in:` or `out:` and the name of a top port, `halt:` and the path of a stop, or `bridge:` and
    /// the name of a bridge.
    pub name: Name,
    /// The number of its host.
    pub host: u32,
    /// What the machine does.
    pub body: Body,
    /// The channels that it takes, ascending.
    pub ins: Ids,
    /// The channels that it gives, ascending. Several may carry one of its signals.
    pub outs: Ids,
}

impl Drop for Machine {
    fn drop(self) {
        let Self {
            name,
            host: _,
            body,
            ins,
            outs,
        } = self;
        drop(name);
        drop(body);
        drop(ins);
        drop(outs);
    }
}

/// A channel. Machines and channels are named by their numbers.
pub struct Channel {
    /// The number in the circuit of the signal that it carries, as its consumer takes it.
    pub signal: u32,
    /// The path of the signal.
    pub name: Name,
    /// The type of the signal.
    pub ty: Ty,
    /// The machine that gives it.
    pub producer: u32,
    /// The machine that takes it.
    pub consumer: u32,
    /// How many tokens it holds at most.
    pub capacity: u32,
    /// Whether the token 0 is in it at the start.
    pub pipe: bool,
    /// The in-channels of its producer that it depends on in a cycle, ascending.
    pub needs: Ids,
}

impl Drop for Channel {
    fn drop(self) {
        let Self {
            signal: _,
            name,
            ty: _,
            producer: _,
            consumer: _,
            capacity: _,
            pipe: _,
            needs,
        } = self;
        drop(name);
        drop(needs);
    }
}

/// The plan of a cut: the hub, the units, the listed memories, the sources, the trays and the bridges; the channels between them; what the
/// request lists; and how often the circuit's clocks have an edge.
pub struct Plan {
    /// The machines, by number.
    pub machines: Items<Machine>,
    /// The channels, by number.
    pub channels: Items<Channel>,
    /// What the request lists.
    pub listed: Listed,
    /// The ratios of the circuit's clocks, in order.
    pub ratios: Ratios,
}

impl Drop for Plan {
    fn drop(self) {
        let Self {
            machines,
            channels,
            listed,
            ratios,
        } = self;
        drop(machines);
        drop(channels);
        drop(listed);
        drop(ratios);
    }
}
