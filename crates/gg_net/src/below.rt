//! `step_below`: an event of a machine that is below a cycle.
ghost use Rattle.std.specs.Prelude.{◌≡◌, ◌↔◌, ◌<◌, ◌≤◌, true, MatchBool};
ghost use Rattle.gg_net.specs.Step.{Ready, Step};
ghost use Rattle.gg_net.specs.inside.Step.{machine_of, cycle_of};
ghost use Rattle.gg_net.specs.declared.event.Event.TheVariants.{Latch, Fire, Serve, Finish};

use crate::event::Event;
use crate::net::Net;
use gg_flat::Streams;
use gg_node::Host;

impl<H: Host, Z: Streams> Net<H, Z> {
    // Whether the front token of a channel may be latched, by a machine that is below a cycle.
    fn may_latch(&self, channel: u32, cycle: u64) -> bool
        requires { cycle ≤ self.now.end }
        ensures { (result ≡ true) ↔ (Ready self.now (Latch channel) × (cycle_of self.now (Latch channel) < cycle)) }
    {
        self.kept();
        if channel as usize >= self.channels() {
            return false;
        }
        let wire = self.wire(channel);
        let (host, thread) = self.host_and_thread(wire.consumer);
        host.wants(thread, wire.place, cycle) && 0 < self.queued(channel)
    }

    // Whether the token of a channel may be given, by a machine that is below a cycle.
    fn may_fire(&self, channel: u32, cycle: u64) -> bool
        requires { cycle ≤ self.now.end }
        ensures { (result ≡ true) ↔ (Ready self.now (Fire channel) × (cycle_of self.now (Fire channel) < cycle)) }
    {
        self.kept();
        if channel as usize >= self.channels() {
            return false;
        }
        let wire = self.wire(channel);
        let (host, thread) = self.host_and_thread(wire.producer);
        host.gives(thread, wire.out, cycle) && self.queued(channel) < wire.capacity as usize
    }

    // Whether a port may be served, by a machine that is below a cycle.
    fn may_serve(&self, machine: u32, port: u32, cycle: u64) -> bool
        requires { cycle ≤ self.now.end }
        ensures { (result ≡ true) ↔ (Ready self.now (Serve machine port) × (cycle_of self.now (Serve machine port) < cycle)) }
    {
        self.kept();
        if machine as usize >= self.machines() {
            return false;
        }
        if self.cycle(machine) >= cycle {
            return false;
        }
        self.judge_serve(machine, port).is_ok()
    }

    // Whether a machine that is below a cycle may finish its own.
    fn may_finish(&self, machine: u32, cycle: u64) -> bool
        requires { cycle ≤ self.now.end }
        ensures { (result ≡ true) ↔ (Ready self.now (Finish machine) × (cycle_of self.now (Finish machine) < cycle)) }
    {
        self.kept();
        if machine as usize >= self.machines() {
            return false;
        }
        let (host, thread) = self.host_and_thread(machine);
        if host.cycle(thread) >= cycle {
            return false;
        }
        if host.due(thread).is_some() {
            return false;
        }
        if !host.all_fired(thread, self.out_count(machine)) {
            return false;
        }
        host.all_latched(thread, self.in_count(machine))
    }

    /// Does an event of a machine that is below a cycle, exactly if it may be done. Returns whether it was done. If it
    /// wasn't, the network stays as it was.
    pub fn step_below(&mut self, event: Event, cycle: u64) -> bool
        ensures { MatchBool result (Step self.old event self.new × (cycle_of self.old event < cycle)) ((self.new ≡ self.old) × (Ready self.old event → cycle_of self.old event < cycle → ⊥)) }
    {
        self.kept();
        let cycle = cycle.min(self.end());
        match event {
            Event::Latch { channel } => {
                let may = self.may_latch(channel, cycle);
                if may {
                    self.latch(channel);
                }
                may
            }
            Event::Fire { channel } => {
                let may = self.may_fire(channel, cycle);
                if may {
                    self.fire(channel);
                }
                may
            }
            Event::Serve { machine, port } => {
                let may = self.may_serve(machine, port, cycle);
                if may {
                    self.serve(machine, port);
                }
                may
            }
            Event::Finish { machine } => {
                let may = self.may_finish(machine, cycle);
                if may {
                    self.finish(machine);
                }
                may
            }
        }
    }
}
