//! Whether an event may be done, and if not, why.
ghost use Rattle.std.specs.Prelude.{◌≡◌, ◌<◌, ◌≤◌, Some, length, MatchResult};
ghost use Rattle.gg_node.specs.Machine.{machine_at};
ghost use Rattle.gg_node.specs.inside.Machine.{due};
ghost use Rattle.gg_net.specs.Network.{wire_at, queue_at};
ghost use Rattle.gg_net.specs.Refusal.{first_without, ins_of_machine, outs_of_machine};
ghost use Rattle.gg_net.specs.Step.{facts_of, Ready, Refused};
ghost use Rattle.gg_net.specs.inside.Readings.{due_channels};
ghost use Rattle.gg_net.specs.declared.event.Event.TheVariants.{Latch, Fire, Serve, Finish};

use crate::event::{Event, StepRefusal};
use crate::net::Net;
use gg_flat::Streams;
use gg_node::Host;

impl<H: Host, Z: Streams> Net<H, Z> {
    // The number of tokens in the queue of a channel, which is at most its capacity.
    fn filled(&self, channel: u32) -> usize
        requires { channel < length self.now.wires }
        ensures count { result ≡ length (queue_at self.now.queues channel) }
        ensures few { result ≤ (wire_at self.now.wires channel).capacity }
    {
        self.kept();
        self.queued(channel)
    }

    // The first channel that a channel needs and that isn't latched, if there is one.
    fn missing_channel(&self, channel: u32) -> Option<u32>
        requires { channel < length self.now.wires }
        ensures { result ≡ first_without (facts_of self.now).taken ((facts_of self.now).needs channel) }
    {
        self.kept();
        let wire = self.wire(channel);
        let Some(place) = self.missing(wire.producer, wire.out) else {
            return None;
        };
        Some(self.in_channel(wire.producer, place))
    }

    // The first channel that a machine gives and hasn't given in its cycle, if there is one.
    fn unfired_channel(&self, machine: u32) -> Option<u32>
        requires { machine < length self.now.machines }
        ensures { result ≡ first_without (facts_of self.now).given (outs_of_machine (facts_of self.now) machine) }
    {
        self.kept();
        let Some(place) = self.first_unfired(machine) else {
            return None;
        };
        Some(self.out_channel(machine, place))
    }

    // The first channel that a machine takes and hasn't taken in its cycle, if there is one.
    fn unlatched_channel(&self, machine: u32) -> Option<u32>
        requires { machine < length self.now.machines }
        ensures { result ≡ first_without (facts_of self.now).taken (ins_of_machine (facts_of self.now) machine) }
    {
        self.kept();
        let Some(place) = self.first_unlatched(machine) else {
            return None;
        };
        Some(self.in_channel(machine, place))
    }

    // The first channel at a field of the port that is due that isn't latched, if there is one.
    fn field_channel(&self, machine: u32, port: u32) -> Option<u32>
        requires there { machine < length self.now.machines }
        requires due { due (machine_at self.now.machines machine) ≡ Some port }
        ensures { result ≡ first_without (facts_of self.now).taken (due_channels self.now machine) }
    {
        self.kept();
        let Some(place) = self.missing_field(machine, port) else {
            return None;
        };
        Some(self.in_channel(machine, place))
    }

    // Whether the front token of a channel may be latched.
    pub(crate) fn judge_latch(&self, channel: u32) -> Result<(), StepRefusal>
        ensures { MatchResult result (λ _. Ready self.now (Latch channel)) (Refused self.now (Latch channel)) }
    {
        if channel as usize >= self.channels() {
            return Err(StepRefusal::Stranger);
        }
        let wire = self.wire(channel);
        if self.cycle(wire.consumer) >= self.end() {
            return Err(StepRefusal::Ended);
        }
        if self.latched(wire.consumer, wire.place) {
            return Err(StepRefusal::Latched);
        }
        if self.queued(channel) == 0 {
            return Err(StepRefusal::NoToken { channel });
        }
        Ok(())
    }

    // Whether the token of a channel may be given.
    pub(crate) fn judge_fire(&self, channel: u32) -> Result<(), StepRefusal>
        ensures { MatchResult result (λ _. Ready self.now (Fire channel)) (Refused self.now (Fire channel)) }
    {
        if channel as usize >= self.channels() {
            return Err(StepRefusal::Stranger);
        }
        let wire = self.wire(channel);
        if self.cycle(wire.producer) >= self.end() {
            return Err(StepRefusal::Ended);
        }
        if self.fired(wire.producer, wire.out) {
            return Err(StepRefusal::Fired);
        }
        if let Some(channel) = self.missing_channel(channel) {
            return Err(StepRefusal::NeedsInput { channel });
        }
        if self.filled(channel) >= wire.capacity as usize {
            let len = wire.capacity;
            return Err(StepRefusal::Full { channel, len });
        }
        Ok(())
    }

    // Whether a port may be served.
    pub(crate) fn judge_serve(&self, machine: u32, port: u32) -> Result<(), StepRefusal>
        ensures { MatchResult result (λ _. Ready self.now (Serve machine port)) (Refused self.now (Serve machine port)) }
    {
        if machine as usize >= self.machines() {
            return Err(StepRefusal::Stranger);
        }
        if port >= self.port_count(machine) {
            return Err(StepRefusal::Stranger);
        }
        if self.cycle(machine) >= self.end() {
            return Err(StepRefusal::Ended);
        }
        if let Some(channel) = self.unfired_channel(machine) {
            return Err(StepRefusal::Unfired { channel });
        }
        let Some(due) = self.due(machine) else {
            return Err(StepRefusal::Order {
                due: self.port_count(machine),
            });
        };
        if due != port {
            return Err(StepRefusal::Order { due });
        }
        if let Some(channel) = self.field_channel(machine, port) {
            return Err(StepRefusal::NeedsInput { channel });
        }
        Ok(())
    }

    // Whether a machine may finish its cycle.
    pub(crate) fn judge_finish(&self, machine: u32) -> Result<(), StepRefusal>
        ensures { MatchResult result (λ _. Ready self.now (Finish machine)) (Refused self.now (Finish machine)) }
    {
        if machine as usize >= self.machines() {
            return Err(StepRefusal::Stranger);
        }
        if self.cycle(machine) >= self.end() {
            return Err(StepRefusal::Ended);
        }
        if let Some(channel) = self.unfired_channel(machine) {
            return Err(StepRefusal::Unfired { channel });
        }
        if let Some(port) = self.due(machine) {
            return Err(StepRefusal::Unserved { port });
        }
        if let Some(channel) = self.unlatched_channel(machine) {
            return Err(StepRefusal::NeedsInput { channel });
        }
        Ok(())
    }

    /// Returns what `step` would return. Does no step.
    ///
    /// # Errors
    ///
    /// Returns the first condition of the event that fails.
    pub fn test(&self, event: Event) -> Result<(), StepRefusal>
        ensures { MatchResult result (λ _. Ready self.now event) (Refused self.now event) }
    {
        match event {
            Event::Latch { channel } => self.judge_latch(channel),
            Event::Fire { channel } => self.judge_fire(channel),
            Event::Serve { machine, port } => self.judge_serve(machine, port),
            Event::Finish { machine } => self.judge_finish(machine),
        }
    }
}
