//! `Shape`: how the machines of a network are connected.
use gg_bits::{Ids, Items};

/// A channel. Machines are given by their numbers, ins and outs by their places.
#[derive(Clone, Copy, PartialEq, Eq, Drop)]
pub struct Wire {
    /// The machine that gives the channel's tokens.
    pub producer: u32,
    /// The place of the producer's out.
    pub out: u32,
    /// The machine that takes the channel's tokens.
    pub consumer: u32,
    /// The place of the consumer's in.
    pub place: u32,
    /// The most tokens that the channel's queue may hold.
    pub capacity: u32,
    /// The token that is in the queue before the first cycle, if there is one.
    pub first: Option<u128>,
}

/// A port that is served.
pub struct ServedPort {
    /// The port's number. Readers are numbered first, then writers.
    pub number: u32,
    /// The places of the port's fields among the ins of its machine.
    pub fields: Ids,
}

impl Drop for ServedPort {
    fn drop(self) {
        let Self { number: _, fields } = self;
        drop(fields);
    }
}

/// The host and the thread of a machine, and the channels at its ins and outs.
pub struct Station {
    /// The number of the host.
    pub host: u32,
    /// The thread of the host.
    pub thread: u32,
    /// The channels at the ins, by place.
    pub ins: Ids,
    /// The channels at the outs, by place.
    pub outs: Ids,
    /// The ports that are served in a cycle, in their order.
    pub ports: Items<ServedPort>,
}

impl Drop for Station {
    fn drop(self) {
        let Self {
            host: _,
            thread: _,
            ins,
            outs,
            ports,
        } = self;
        drop(ins);
        drop(outs);
        drop(ports);
    }
}

/// The machines and channels of a network, by number, and the number of cycles that it has to do.
pub struct Shape {
    /// The machines.
    pub stations: Vec<Station>,
    /// The channels.
    pub wires: Vec<Wire>,
    /// The number of cycles that the network has to do.
    pub end: u64,
}

impl Drop for Shape {
    fn drop(self) {
        let Self {
            stations,
            wires,
            end: _,
        } = self;
        drop(stations);
        drop(wires);
    }
}
