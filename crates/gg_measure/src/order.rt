//! `Order`: the steps of one cycle, as they were done one after another.
use gg_net::{Event, Net, Streams};
use gg_node::Host;
use std::alloc::{AllocError, Global};

/// The steps of one cycle of a network, as they were done one after another. An order has no invariant: it says only what
/// is tried next. Therefore an empty order is right, and so is one of another network.
#[derive(Drop)]
pub struct Order {
    events: Vec<Event>,
    // Whether steps are noted.
    is_open: bool,
}

// The number of steps of a cycle: each channel's token is given and taken, each served port is served, and each machine
// ends its cycle.
fn steps_of<H: Host, Z: Streams>(net: &Net<H, Z>) -> usize {
    net.within_limits();
    let mut steps = net.channels().saturating_mul(2);
    for machine in 0..net.machines() {
        let dues = net.dues(machine as u32) as usize;
        steps = steps.saturating_add(dues).saturating_add(1);
    }
    steps
}

impl Order {
    /// Returns an order without steps, with room for the steps of a cycle.
    ///
    /// # Errors
    ///
    /// Returns `AllocError` if an allocation fails.
    pub fn new<H: Host, Z: Streams>(alloc: Global, net: &Net<H, Z>) -> Result<Order, AllocError> {
        Ok(Order {
            events: Vec::with_capacity(alloc, steps_of(net))?,
            is_open: false,
        })
    }

    /// An order without steps and without room, which never notes a step. Allocates nothing.
    pub fn none(alloc: Global) -> Order {
        Order {
            events: Vec::new(alloc),
            is_open: false,
        }
    }

    // Whether it has no steps.
    pub(crate) fn is_empty(&self) -> bool {
        self.events.is_empty()
    }

    // Notes each step after this call.
    pub(crate) fn open(&mut self) {
        self.is_open = true;
    }

    // Notes no step after this call.
    pub(crate) fn close(&mut self) {
        self.is_open = false;
    }

    // Notes a step that was done, if steps are noted and there is room.
    pub(crate) fn note(&mut self, event: Event) {
        if self.is_open && self.events.len() < self.events.capacity() {
            self.events.push_reserved(event);
        }
    }

    /// The steps, as they were done one after another.
    pub fn events(&self) -> &[Event] {
        &self.events
    }
}
