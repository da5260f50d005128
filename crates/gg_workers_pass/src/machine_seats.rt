//! `MachineSeats`: the seats of one machine.

/// The seats of the channels of one machine. `S` are the seats that take, and `T` the seats that put.
#[derive(Drop)]
pub struct MachineSeats<S, T> {
    /// The number of the machine.
    pub machine: u32,
    /// The seats at its ins, by place.
    pub takes: Vec<S>,
    /// The seats at its outs, by place.
    pub puts: Vec<T>,
}
