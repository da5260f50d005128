//! `Parts`: a network taken apart, and put together again.
ghost use Rattle.std.specs.Prelude.{◌≡◌, map};
ghost use Rattle.gg_net.specs.inside.Net.{joined, AreParts};

use crate::net::Net;
use crate::queue::Queue;
use crate::shape::Shape;
use gg_flat::Streams;
use gg_node::Host;
use std::marker::PhantomData;

/// The parts of a network.
#[derive(Drop)]
pub struct Parts<H> {
    /// The hosts of the machines.
    pub hosts: Vec<H>,
    /// How the machines are connected.
    pub shape: Shape,
    /// The queues of the channels, by number.
    pub queues: Vec<Queue>,
}

impl<H: Host, Z: Streams> Net<H, Z> {
    /// Puts the parts of a network together.
    pub fn of(parts: Parts<H>) -> Net<H, Z>
        requires { AreParts Z.flow (map H.machines parts.hosts.items) parts.shape parts.queues.items }
        ensures { result ≡ joined (map H.machines parts.hosts.items) parts.shape parts.queues.items }
    {
        Net {
            hosts: parts.hosts,
            shape: parts.shape,
            queues: parts.queues,
            streams: PhantomData,
        }
    }
}
