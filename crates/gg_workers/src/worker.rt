//! `LinkedHost` and `Worker`: the parts of one host and of one thread of the system.
use gg_workers_pass::MachineSeats;

// A host with the seats of its machines, by thread. `S` are the seats that take, and `T` the seats that put.
#[derive(Drop)]
pub(crate) struct LinkedHost<H, S, T> {
    // The number of the host.
    pub(crate) number: usize,
    pub(crate) host: H,
    // The seats of the machine at each thread.
    pub(crate) by_thread: Vec<MachineSeats<S, T>>,
}

// The hosts that one thread of the system steps.
#[derive(Drop)]
pub(crate) struct Worker<H, S, T> {
    // The hosts, in falling order of their numbers.
    pub(crate) linked_hosts: Vec<LinkedHost<H, S, T>>,
}
