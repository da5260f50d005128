//! `Event` and `StepRefusal`: the steps of a network, and why one is refused.

/// A step of a network. Channels, machines and ports are given by their numbers.
#[derive(Clone, Copy, PartialEq, Eq, Drop)]
pub enum Event {
    /// The front token of a channel goes into the latch of its consumer.
    Latch {
        /// The channel.
        channel: u32,
    },
    /// The token of a channel goes to the back of its queue.
    Fire {
        /// The channel.
        channel: u32,
    },
    /// One access of a memory that is served port by port.
    Serve {
        /// The memory's machine.
        machine: u32,
        /// The port. Readers are numbered first, then writers.
        port: u32,
    },
    /// A machine finishes its cycle.
    Finish {
        /// The machine.
        machine: u32,
    },
}

/// Why a step is refused: the first of its conditions that fails.
#[derive(Clone, Copy, Debug, PartialEq, Eq, Drop)]
pub enum StepRefusal {
    /// The channel, the machine or the port doesn't exist.
    Stranger,
    /// The machine has done all its cycles.
    Ended,
    /// The latch already has its token of this cycle.
    Latched,
    /// The token of this cycle was already given.
    Fired,
    /// The queue of this channel is empty.
    NoToken {
        /// The channel.
        channel: u32,
    },
    /// The token of this channel is needed and isn't latched yet.
    NeedsInput {
        /// The channel.
        channel: u32,
    },
    /// The queue of this channel is full.
    Full {
        /// The channel.
        channel: u32,
        /// The number of tokens in the queue.
        len: u32,
    },
    /// The port isn't due: another port is, or none.
    Order {
        /// The port that is due, or the number of the machine's ports if none is due.
        due: u32,
    },
    /// The token of this channel wasn't given in this cycle yet.
    Unfired {
        /// The channel.
        channel: u32,
    },
    /// This port is due and wasn't served in this cycle yet.
    Unserved {
        /// The port.
        port: u32,
    },
}
