//! `Wire`: a channel by its signals and its two ends.

/// A channel: its signals, and the machines that give and take its values, all by their numbers. What the producer gives is what the
/// consumer takes, so in each cycle both signals have one value.
#[derive(Clone, Copy, PartialEq, Eq)]
pub struct Wire {
    /// The number in the circuit of the signal that the consumer takes.
    pub signal: u32,
    /// The number in the circuit of the signal that gives the channel's value in the producer.
    pub given: u32,
    /// The machine that gives its values.
    pub producer: u32,
    /// The machine that takes them.
    pub consumer: u32,
}
