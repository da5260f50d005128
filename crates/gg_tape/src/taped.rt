//! Signals and registers as a tape has them.
use crate::code::Stretch;

// Where the value of a signal comes from in a cycle.
#[derive(Clone, Copy)]
pub(crate) enum Origin {
    // The input at this place.
    FromInput(u32),
    // The register with this number.
    FromRegister(u32),
    // The word of the memory with this number, at the address and with the enable that these signals have.
    FromMemory(u32, u32, u32),
    // The read register of the reader with the second number, of the memory with the first.
    FromReader(u32, u32),
    // The signal with this number: its line is a reference to it, of kind `UInt`.
    FromSignal(u32),
    // The line that these instructions compute.
    FromLine(Stretch),
}

// A signal, and where its value comes from.
#[derive(Clone, Copy)]
pub(crate) struct TapedSignal {
    // Its number.
    pub(crate) signal: u32,
    // Where its value comes from.
    pub(crate) origin: Origin,
}

// The instructions of a reset's lines.
#[derive(Clone, Copy)]
pub(crate) struct TapedReset {
    // Those of its condition.
    pub(crate) condition: Stretch,
    // Those of its init.
    pub(crate) init: Stretch,
}

// A register: its clock, and the instructions of its lines.
#[derive(Clone, Copy)]
pub(crate) struct TapedRegister {
    // The clock that it follows; none: every tick.
    pub(crate) clock: Option<u32>,
    // The instructions of its reset, if it has one.
    pub(crate) reset: Option<TapedReset>,
    // The instructions of its connection, if it has one.
    pub(crate) next: Option<Stretch>,
}
