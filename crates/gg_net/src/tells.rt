//! Facts about single machines and channels of a network.
ghost use Rattle.std.specs.Prelude.{◌≡◌, ◌<◌, length, is_some, Some, MatchOption};
ghost use Rattle.gg_node.specs.Machine.{machine_at, latch_at, flag_at, missing, first_empty};
ghost use Rattle.gg_node.specs.inside.Machine.{due};
ghost use Rattle.gg_node.specs.Step.{AllFired};
ghost use Rattle.gg_node.specs.inside.Step.{AllLatched};
ghost use Rattle.gg_net.specs.Network.{wire_at, queue_at, IsAtIn, IsAtOut};
ghost use Rattle.gg_net.specs.inside.Readings.{due_fields, IsFirstClear, IsFirstEmpty};

use crate::net::Net;
use crate::shape::Wire;
use crate::{located, waits};
use gg_flat::Streams;
use gg_node::Host;

impl<H: Host, Z: Streams> Net<H, Z> {
    // The channel with a number.
    pub(crate) fn wire(&self, channel: u32) -> Wire
        requires { channel < length self.now.wires }
        ensures is { result ≡ wire_at self.now.wires channel }
        ensures producer { result.producer < length self.now.machines }
        ensures out { result.out < length (machine_at self.now.machines result.producer).flags }
        ensures consumer { result.consumer < length self.now.machines }
        ensures place { result.place < length (machine_at self.now.machines result.consumer).latches }
    {
        self.shape.wires[channel as usize]
    }

    // The number of tokens in the queue of a channel.
    pub(crate) fn queued(&self, channel: u32) -> usize
        requires { channel < length self.now.wires }
        ensures { result ≡ length (queue_at self.now.queues channel) }
    {
        self.queues[channel as usize].len()
    }

    // Whether an in of a machine has its token of this cycle.
    pub(crate) fn latched(&self, machine: u32, place: u32) -> bool
        requires there { machine < length self.now.machines }
        requires within { place < length (machine_at self.now.machines machine).latches }
        ensures { result ≡ is_some (latch_at (machine_at self.now.machines machine).latches place) }
    {
        located::latched(&self.hosts, &self.shape.stations[machine as usize], place)
    }

    // Whether an out of a machine has given its token of this cycle.
    pub(crate) fn fired(&self, machine: u32, place: u32) -> bool
        requires there { machine < length self.now.machines }
        requires within { place < length (machine_at self.now.machines machine).flags }
        ensures { result ≡ flag_at (machine_at self.now.machines machine).flags place }
    {
        located::fired(&self.hosts, &self.shape.stations[machine as usize], place)
    }

    // The first in that an out of a machine needs and that has no token yet, if there is one.
    pub(crate) fn missing(&self, machine: u32, place: u32) -> Option<u32>
        requires there { machine < length self.now.machines }
        requires within { place < length (machine_at self.now.machines machine).flags }
        ensures { result ≡ missing (machine_at self.now.machines machine) place }
    {
        located::missing(&self.hosts, &self.shape.stations[machine as usize], place)
    }

    /// The number of the port of a machine that has to be served next. None if no port is left.
    pub fn due(&self, machine: u32) -> Option<u32>
        requires { machine < length self.now.machines }
        ensures { result ≡ due (machine_at self.now.machines machine) }
    {
        located::due(&self.hosts, &self.shape.stations[machine as usize])
    }

    /// The number of ins of a machine.
    pub fn in_count(&self, machine: u32) -> u32
        requires { machine < length self.now.machines }
        ensures { result ≡ length (machine_at self.now.machines machine).latches }
    {
        self.shape.stations[machine as usize].ins.as_slice().len() as u32
    }

    /// The number of outs of a machine.
    pub fn out_count(&self, machine: u32) -> u32
        requires { machine < length self.now.machines }
        ensures { result ≡ length (machine_at self.now.machines machine).flags }
    {
        self.shape.stations[machine as usize].outs.as_slice().len() as u32
    }

    /// The channel at an in of a machine.
    pub fn in_channel(&self, machine: u32, place: u32) -> u32
        requires there { machine < length self.now.machines }
        requires within { place < length (machine_at self.now.machines machine).latches }
        ensures { IsAtIn self.now.wires machine place result }
    {
        self.shape.stations[machine as usize].ins.as_slice()[place as usize]
    }

    /// The channel at an out of a machine.
    pub fn out_channel(&self, machine: u32, place: u32) -> u32
        requires there { machine < length self.now.machines }
        requires within { place < length (machine_at self.now.machines machine).flags }
        ensures { IsAtOut self.now.wires machine place result }
    {
        self.shape.stations[machine as usize].outs.as_slice()[place as usize]
    }

    // The first out of a machine that hasn't given its token of this cycle, if there is one.
    pub(crate) fn first_unfired(&self, machine: u32) -> Option<u32>
        requires { machine < length self.now.machines }
        ensures { MatchOption result (AllFired (machine_at self.now.machines machine)) (IsFirstClear (machine_at self.now.machines machine).flags) }
    {
        let (host, thread) = self.host_and_thread(machine);
        waits::first_unfired(host, thread, self.out_count(machine))
    }

    // The first in of a machine that has no token of this cycle, if there is one.
    pub(crate) fn first_unlatched(&self, machine: u32) -> Option<u32>
        requires { machine < length self.now.machines }
        ensures { MatchOption result (AllLatched (machine_at self.now.machines machine)) (IsFirstEmpty (machine_at self.now.machines machine).latches) }
    {
        let (host, thread) = self.host_and_thread(machine);
        waits::first_unlatched(host, thread, self.in_count(machine))
    }

    // The first in that the port that is due uses and that has no token yet, if there is one.
    pub(crate) fn missing_field(&self, machine: u32, port: u32) -> Option<u32>
        requires there { machine < length self.now.machines }
        requires due { due (machine_at self.now.machines machine) ≡ Some port }
        ensures { result ≡ first_empty (machine_at self.now.machines machine).latches (due_fields (machine_at self.now.machines machine)) }
    {
        let served = self.served(machine);
        let port = &self.shape.stations[machine as usize].ports.as_slice()[served as usize];
        let (host, thread) = self.host_and_thread(machine);
        waits::first_missing(host, thread, port.fields.as_slice())
    }
}
