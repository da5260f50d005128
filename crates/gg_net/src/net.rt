//! `Net`: a network of machines.
ghost use Rattle.std.specs.Prelude.{◌≡◌, ℕ, ◌<◌, ◌≤◌, length, map, Contains, IfOk};
ghost use Rattle.gg_bits.specs.Limits.{cycle_limit};
ghost use Rattle.gg_node.specs.Machine.{machine_at};
ghost use Rattle.gg_net.specs.Network.{wire_at, queue_at, puts, takes, serves, frame_of};
ghost use Rattle.gg_net.specs.Kept.{Kept};
ghost use Rattle.gg_net.specs.inside.Queue.{IsNewest};
ghost use Rattle.gg_net.specs.inside.Stations.{machines_by};
ghost use Rattle.gg_net.specs.inside.Net.{AreListed, AreOpen, AreParts, IsWithinLimits, Opens, joined};
ghost use Rattle.gg_net.specs.Net.{opening_net};

use crate::located;
use crate::parts::Parts;
use crate::queue::Queue;
use crate::shape::{Shape, Wire};
use gg_flat::Streams;
use gg_node::Host;
use std::alloc::{AllocError, Global};
use std::marker::{Model, PhantomData};

/// A network of machines. A contract sees it as its machines, its channels with their queues, and its end.
pub struct Net<H: Host, Z: Streams> {
    pub(crate) hosts: Vec<H>,
    pub(crate) shape: Shape,
    pub(crate) queues: Vec<Queue>,
    pub(crate) streams: PhantomData<Z>,
}

impl<H: Host + Drop, Z: Streams> Drop for Net<H, Z> {
    fn drop(self) {
        let Self {
            hosts,
            shape,
            queues,
            streams: _,
        } = self;
        drop(hosts);
        drop(shape);
        drop(queues);
    }
}

impl<H: Host, Z: Streams> Model for Net<H, Z> {
    ghost use Rattle.std.specs.Prelude.{map};
    ghost use Rattle.gg_net.specs.Network.{Network};
    ghost use Rattle.gg_net.specs.inside.Net.{net_of, IsNet};

    ghost Value = { Network };

    ghost view = { λ net. net_of (map H.machines net.hosts.items) net.shape.stations.items net.shape.wires.items net.queues.items net.shape.end };

    ghost invariant = { λ net. IsNet Z.flow (map H.machines net.hosts.items) net.shape.stations.items net.shape.wires.items net.queues.items net.shape.end };
}

// The queues of these channels.
fn open_queues(alloc: Global, wires: &[Wire]) -> Result<Vec<Queue>, AllocError>
    requires { (c : ℕ) → c < length wires.now → 0 < (wire_at wires.now c).capacity }
    ensures { IfOk result (λ queues. AreOpen wires.now (length wires.now) queues.items) }
{
    let mut queues = Vec::new(alloc);
    for wire in wires {
        queues.push(Queue::new(alloc, wire.capacity, wire.first)?)?;
    }
    Ok(queues)
}

impl<H: Host, Z: Streams> Net<H, Z> {
    /// Takes a network apart. Each queue has room for its capacity.
    pub fn parts(self) -> Parts<H>
        ensures parts { AreParts Z.flow (map H.machines result.hosts.items) result.shape result.queues.items }
        ensures same { joined (map H.machines result.hosts.items) result.shape result.queues.items ≡ self }
    {
        let Self {
            hosts,
            shape,
            queues,
            streams: _,
        } = self;
        Parts {
            hosts,
            shape,
            queues,
        }
    }

    /// Builds the network of these hosts' machines before the first cycle. Allocates its queues, each with room for its
    /// capacity and with the token that it opens with.
    ///
    /// # Errors
    ///
    /// Returns `AllocError` if an allocation fails.
    ///
    /// # Examples
    ///
    /// Machine 0 is a source with one out, machine 1 a tray with one in, and channel 0 connects them with a capacity of
    /// 2.
    ///
    /// ```text
    /// let mut net: Net<H, Z> = Net::new(alloc, hosts, shape)?;
    /// net.machines()  // 2
    /// net.channels()  // 1
    /// net.cycle(1)    // the first cycle of the flow `Z`
    /// net.newest(0)   // None, because the channel opens without a token
    /// ```
    pub fn new(alloc: Global, hosts: Vec<H>, shape: Shape) -> Result<Net<H, Z>, AllocError>
        requires { Opens Z.flow (map H.machines hosts.items) shape.stations.items shape.wires.items shape.end }
        ensures { IfOk result (λ net. net ≡ opening_net (machines_by (map H.machines hosts.items) shape.stations.items) shape.wires.items shape.end) }
    {
        let queues = open_queues(alloc, &shape.wires)?;
        Ok(Net {
            hosts,
            shape,
            queues,
            streams: PhantomData,
        })
    }

    /// Does nothing. Its contract says that every network has the invariant `Kept`.
    pub fn kept(&self)
        ensures { Kept Z.flow self.now }
    {
        // for the invariant only
        let _ = &self.shape;
    }

    /// Does nothing. Its contract says that every network is within the limits.
    pub fn within_limits(&self)
        ensures { IsWithinLimits (frame_of self.now) }
    {
        // for the invariant only
        let _ = &self.shape;
    }

    /// The shape: how the machines are connected.
    pub fn shape(&self) -> &Shape
        ensures count { length result.now.stations.items ≡ length self.now.machines }
        ensures listed { AreListed (frame_of self.now) result.now.stations.items }
        ensures wires { result.now.wires.items ≡ self.now.wires }
        ensures end { result.now.end ≡ self.now.end }
    {
        &self.shape
    }

    /// The host of a machine, and the machine's thread there.
    pub fn host_and_thread(&self, machine: u32) -> (&H, u32)
        requires { machine < length self.now.machines }
        ensures thread { result.1 < length (H.machines result.0.now) }
        ensures machine { machine_at (H.machines result.0.now) result.1 ≡ machine_at self.now.machines machine }
    {
        let station = &self.shape.stations[machine as usize];
        (located::host_of(&self.hosts, station), station.thread)
    }

    /// The host of a machine.
    pub fn host(&self, machine: u32) -> &H
        requires { machine < length self.now.machines }
        ensures { Contains (H.machines result.now) (machine_at self.now.machines machine) }
    {
        self.host_and_thread(machine).0
    }

    /// The number of cycles that the network has to do.
    pub fn end(&self) -> u64
        ensures { result ≡ self.now.end }
    {
        self.shape.end
    }

    /// The number of machines.
    pub fn machines(&self) -> usize
        ensures { result ≡ length self.now.machines }
    {
        self.shape.stations.len()
    }

    /// The number of channels.
    pub fn channels(&self) -> usize
        ensures { result ≡ length self.now.wires }
    {
        self.shape.wires.len()
    }

    /// The cycle that a machine is in.
    pub fn cycle(&self, machine: u32) -> u64
        requires { machine < length self.now.machines }
        ensures { result ≡ (machine_at self.now.machines machine).cycle }
    {
        located::cycle(&self.hosts, &self.shape.stations[machine as usize])
    }

    /// The number of ports of a machine that were served in this cycle.
    pub fn served(&self, machine: u32) -> u32
        requires { machine < length self.now.machines }
        ensures { result ≡ (machine_at self.now.machines machine).served }
    {
        located::served(&self.hosts, &self.shape.stations[machine as usize])
    }

    /// The number of ports of a machine that are served in a cycle.
    pub fn dues(&self, machine: u32) -> u32
        requires { machine < length self.now.machines }
        ensures { result ≡ length (machine_at self.now.machines machine).ports }
    {
        located::dues(&self.hosts, &self.shape.stations[machine as usize])
    }

    /// The number of ports of a machine's memory, including ports that no step serves. It is 0 if the machine isn't a
    /// memory that is served.
    pub fn port_count(&self, machine: u32) -> u32
        requires { machine < length self.now.machines }
        ensures { result ≡ (machine_at self.now.machines machine).port_count }
    {
        located::port_count(&self.hosts, &self.shape.stations[machine as usize])
    }

    // The cycle that a machine is in, which is within the limit.
    fn counted_cycle(&self, machine: u32) -> u64
        requires { machine < length self.now.machines }
        ensures is { result ≡ (machine_at self.now.machines machine).cycle }
        ensures within { result ≤ cycle_limit }
    {
        self.kept();
        self.within_limits();
        self.cycle(machine)
    }

    /// The number of times that a port of a machine was served, since the first cycle.
    pub fn serves(&self, machine: u32) -> u64
        requires { machine < length self.now.machines }
        ensures { result ≡ serves self.now machine }
    {
        let dues = u64::from(self.dues(machine));
        dues * self.counted_cycle(machine) + u64::from(self.served(machine))
    }

    /// The number of tokens that were put into a channel.
    pub fn puts(&self, channel: u32) -> u64
        requires { channel < length self.now.wires }
        ensures { result ≡ puts self.now channel }
    {
        self.kept();
        // for the invariant only
        let _ = self.end();
        let wire = self.wire(channel);
        let cycle = self.cycle(wire.producer);
        if self.fired(wire.producer, wire.out) {
            cycle + 1
        } else {
            cycle
        }
    }

    /// The number of tokens that were taken from a channel.
    pub fn takes(&self, channel: u32) -> u64
        requires { channel < length self.now.wires }
        ensures { result ≡ takes self.now channel }
    {
        self.kept();
        // for the invariant only
        let _ = self.end();
        let wire = self.wire(channel);
        let cycle = self.cycle(wire.consumer);
        if self.latched(wire.consumer, wire.place) {
            cycle + 1
        } else {
            cycle
        }
    }

    /// The last token that has entered a channel, if it is still in the queue; None if the queue is empty.
    pub fn newest(&self, channel: u32) -> Option<u128>
        requires { channel < length self.now.wires }
        ensures { IsNewest (queue_at self.now.queues channel) result }
    {
        self.queues[channel as usize].newest()
    }
}
