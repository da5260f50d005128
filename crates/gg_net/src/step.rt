//! `step`: how an event changes a network.
ghost use Rattle.std.specs.Prelude.{◌≡◌, MatchResult};
ghost use Rattle.gg_net.specs.Step.{after_latch, after_serve, Gives, GoesOn, Step, Ready, Refused};
ghost use Rattle.gg_net.specs.declared.event.Event.TheVariants.{Latch, Fire, Serve, Finish};

use crate::event::{Event, StepRefusal};
use crate::located;
use crate::net::Net;
use gg_flat::Streams;
use gg_node::Host;

impl<H: Host, Z: Streams> Net<H, Z> {
    // Puts the front token of a channel into the latch.
    pub(crate) fn latch(&mut self, channel: u32)
        requires { Ready self.old (Latch channel) }
        ensures { self.new ≡ after_latch self.old channel }
    {
        let wire = self.shape.wires[channel as usize];
        let token = self.queues[channel as usize].take();
        located::latch(
            &mut self.hosts,
            &self.shape.stations[wire.consumer as usize],
            wire.place,
            token,
        );
    }

    // Gives the token of a channel.
    pub(crate) fn fire(&mut self, channel: u32)
        requires { Ready self.old (Fire channel) }
        ensures { Gives self.old channel self.new }
    {
        let wire = self.shape.wires[channel as usize];
        let token = located::fire(
            &mut self.hosts,
            &self.shape.stations[wire.producer as usize],
            wire.out,
        );
        self.queues[channel as usize].put(token);
    }

    // Serves a port.
    pub(crate) fn serve(&mut self, machine: u32, port: u32)
        requires { Ready self.old (Serve machine port) }
        ensures { self.new ≡ after_serve self.old machine }
    {
        located::serve(
            &mut self.hosts,
            &self.shape.stations[machine as usize],
            port,
        );
    }

    // Finishes the cycle of a machine.
    pub(crate) fn finish(&mut self, machine: u32)
        requires { Ready self.old (Finish machine) }
        ensures { GoesOn self.old machine self.new }
    {
        located::finish(&mut self.hosts, &self.shape.stations[machine as usize]);
    }

    // Latches the front token of a channel, if that may be done.
    fn try_latch(&mut self, channel: u32) -> Result<(), StepRefusal>
        ensures { MatchResult result (λ _. Step self.old (Latch channel) self.new) (λ refusal. Refused self.old (Latch channel) refusal × (self.new ≡ self.old)) }
    {
        self.judge_latch(channel)?;
        self.latch(channel);
        Ok(())
    }

    // Gives the token of a channel, if that may be done.
    fn try_fire(&mut self, channel: u32) -> Result<(), StepRefusal>
        ensures { MatchResult result (λ _. Step self.old (Fire channel) self.new) (λ refusal. Refused self.old (Fire channel) refusal × (self.new ≡ self.old)) }
    {
        self.judge_fire(channel)?;
        self.fire(channel);
        Ok(())
    }

    // Serves a port, if that may be done.
    fn try_serve(&mut self, machine: u32, port: u32) -> Result<(), StepRefusal>
        ensures { MatchResult result (λ _. Step self.old (Serve machine port) self.new) (λ refusal. Refused self.old (Serve machine port) refusal × (self.new ≡ self.old)) }
    {
        self.judge_serve(machine, port)?;
        self.serve(machine, port);
        Ok(())
    }

    // Finishes the cycle of a machine, if that may be done.
    fn try_finish(&mut self, machine: u32) -> Result<(), StepRefusal>
        ensures { MatchResult result (λ _. Step self.old (Finish machine) self.new) (λ refusal. Refused self.old (Finish machine) refusal × (self.new ≡ self.old)) }
    {
        self.judge_finish(machine)?;
        self.finish(machine);
        Ok(())
    }

    /// Does an event, if it may be done.
    ///
    /// # Errors
    ///
    /// Returns the first condition of the event that fails. The network then stays as it was.
    ///
    /// # Examples
    ///
    /// The network is before its first cycle. Channel 0 leads from machine 0, a source, to machine 1, a tray, and its queue
    /// is empty.
    ///
    /// ```text
    /// net.step(Event::Latch { channel: 0 })   // Err(NoToken { channel: 0 }): the queue is empty
    /// net.step(Event::Fire { channel: 0 })    // Ok(()): the source's token is in the queue
    /// net.step(Event::Fire { channel: 0 })    // Err(Fired): the token of this cycle was already given
    /// net.step(Event::Finish { machine: 0 })  // Ok(()): the source is in its next cycle
    /// net.step(Event::Latch { channel: 0 })   // Ok(()): the token is in the tray's latch
    /// ```
    pub fn step(&mut self, event: Event) -> Result<(), StepRefusal>
        ensures { MatchResult result (λ _. Step self.old event self.new) (λ refusal. Refused self.old event refusal × (self.new ≡ self.old)) }
    {
        match event {
            Event::Latch { channel } => self.try_latch(channel),
            Event::Fire { channel } => self.try_fire(channel),
            Event::Serve { machine, port } => self.try_serve(machine, port),
            Event::Finish { machine } => self.try_finish(machine),
        }
    }
}
