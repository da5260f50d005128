//! `OwnOrder`: the events of a common order that are a worker's own. It has no invariant: it says only what is tried
//! next.
ghost use Rattle.std.specs.Prelude.{◌<◌};

use gg_measure::Order;
use gg_net::{Event, Shape};
use gg_workers_pass::Chosen;
use std::alloc::{AllocError, Global};

// An event of a machine of a worker's hosts.
#[derive(Clone, Copy, Drop)]
pub(crate) struct OwnEvent {
    // How many hosts with lower numbers the worker has.
    pub(crate) before: u32,
    // The thread of the machine at its host.
    pub(crate) thread: u32,
    // The place of the in or the out; 0 if it is neither a latch nor a fire.
    pub(crate) place: u32,
    pub(crate) event: Event,
}

impl OwnEvent {
    // Only the event is chosen, or all ports of its machine.
    pub(crate) fn chosen(&self) -> Chosen {
        match self.event {
            Event::Latch { channel: _ } => Chosen::latch(self.place),
            Event::Fire { channel: _ } => Chosen::fire(self.place),
            Event::Serve {
                machine: _,
                port: _,
            } => Chosen::ports(),
            Event::Finish { machine: _ } => Chosen::end(),
        }
    }
}

// The events of a worker's machines, as they follow each other in a common order.
#[derive(Drop)]
pub(crate) struct OwnOrder {
    pub(crate) events: Vec<OwnEvent>,
}

// The machine of an event, and the place of its in or out; None if there is no such channel.
fn machine_and_place(shape: &Shape, event: Event) -> Option<(u32, u32)> {
    match event {
        Event::Latch { channel } => {
            let wire = shape.wires.as_slice().get(channel as usize)?;
            Some((wire.consumer, wire.place))
        }
        Event::Fire { channel } => {
            let wire = shape.wires.as_slice().get(channel as usize)?;
            Some((wire.producer, wire.out))
        }
        Event::Serve { machine, port: _ } => Some((machine, 0)),
        Event::Finish { machine } => Some((machine, 0)),
    }
}

// The event for the worker that has the host of its machine, and that worker's number. Host h is with worker h mod
// `workers`.
fn own_event(shape: &Shape, event: Event, workers: u32) -> Option<(u32, OwnEvent)>
    requires { 0 < workers }
{
    let (machine, place) = machine_and_place(shape, event)?;
    let station = shape.stations.as_slice().get(machine as usize)?;
    let own = OwnEvent {
        before: station.host / workers,
        thread: station.thread,
        place,
        event,
    };
    Some((station.host % workers, own))
}

// The events of one worker.
fn order_of_worker(
    alloc: Global,
    order: &Order,
    shape: &Shape,
    worker: u32,
    workers: u32,
) -> Result<OwnOrder, AllocError>
    requires { 0 < workers }
{
    let mut events = Vec::new(alloc);
    for event in order.events() {
        if let Some((number, own)) = own_event(shape, *event, workers) {
            if number == worker {
                events.push(own)?;
            }
        }
    }
    Ok(OwnOrder { events })
}

// The events of each worker, by number.
//
// # Errors
//
// Returns `AllocError` if an allocation fails.
pub(crate) fn own_orders(
    alloc: Global,
    order: &Order,
    shape: &Shape,
    workers: u32,
) -> Result<Vec<OwnOrder>, AllocError>
    requires { 0 < workers }
{
    let mut orders = Vec::new(alloc);
    for worker in 0..workers {
        orders.push(order_of_worker(alloc, order, shape, worker, workers)?)?;
    }
    Ok(orders)
}
