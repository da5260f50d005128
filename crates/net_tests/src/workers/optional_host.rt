//! A host that may have no thread, and a network with such a host in addition.
ghost use Rattle.std.specs.Prelude.{◌≡◌, ℕ, ◌<◌, [], ◌∷◌, ◌++◌, length, map, is_some, slice_set, IfOk};
ghost use Rattle.std.specs.Option.{option_map_or};
ghost use Rattle.gg_node.specs.Machine.{machine_at, latch_at, flag_at, missing};
ghost use Rattle.gg_node.specs.inside.Machine.{due};
ghost use Rattle.gg_node.specs.Token.{IsToken, IsNextState};
ghost use Rattle.gg_node.specs.inside.Step.{MayLatch, MayFire, MayServe, MayFinish};
ghost use Rattle.gg_node.specs.Step.{with_latch, with_flag, with_served, finished};

use crate::built::TestHost;
use gg_net::{Net, Parts, Streams};
use gg_node::Host;
use std::alloc::{AllocError, Global};

// A host with the threads of another, or with none if no other is in it.
pub(crate) struct OptionalHost<H: Host> {
    host: Option<H>,
}

impl<H: Host> Drop for OptionalHost<H> {
    fn drop(self) {
        let Self { host } = self;
        drop(host);
    }
}

impl<H: TestHost> TestHost for OptionalHost<H> {
    fn kept(&self, cycle: u64) -> Option<u128> {
        match &self.host {
            Some(host) => host.kept(cycle),
            None => None,
        }
    }
}

impl<H: Host> Host for OptionalHost<H> {
    ghost use Rattle.std.specs.Prelude.{[]};
    ghost use Rattle.std.specs.Option.{option_map_or};

    ghost machines = { λ optional. option_map_or H.machines optional.host [] };

    fn threads(&self) -> u32 {
        match &self.host {
            Some(host) => host.threads(),
            None => 0,
        }
    }

    fn cycle(&self, thread: u32) -> u64 {
        match &self.host {
            Some(host) => host.cycle(thread),
            None => 0,
        }
    }

    fn latched(&self, thread: u32, place: u32) -> bool {
        match &self.host {
            Some(host) => host.latched(thread, place),
            None => false,
        }
    }

    fn fired(&self, thread: u32, place: u32) -> bool {
        match &self.host {
            Some(host) => host.fired(thread, place),
            None => false,
        }
    }

    fn missing(&self, thread: u32, place: u32) -> Option<u32> {
        match &self.host {
            Some(host) => host.missing(thread, place),
            None => None,
        }
    }

    fn due(&self, thread: u32) -> Option<u32> {
        match &self.host {
            Some(host) => host.due(thread),
            None => None,
        }
    }

    fn served(&self, thread: u32) -> u32 {
        match &self.host {
            Some(host) => host.served(thread),
            None => 0,
        }
    }

    fn dues(&self, thread: u32) -> u32 {
        match &self.host {
            Some(host) => host.dues(thread),
            None => 0,
        }
    }

    fn port_count(&self, thread: u32) -> u32 {
        match &self.host {
            Some(host) => host.port_count(thread),
            None => 0,
        }
    }

    fn token(&mut self, thread: u32, place: u32) -> u128 {
        match &mut self.host {
            Some(host) => host.token(thread, place),
            None => 0,
        }
    }

    fn latch(&mut self, thread: u32, place: u32, value: u128) {
        match &mut self.host {
            Some(host) => host.latch(thread, place, value),
            None => {}
        }
    }

    fn fire(&mut self, thread: u32, place: u32) -> u128 {
        match &mut self.host {
            Some(host) => host.fire(thread, place),
            None => 0,
        }
    }

    fn serve(&mut self, thread: u32, port: u32) {
        match &mut self.host {
            Some(host) => host.serve(thread, port),
            None => {}
        }
    }

    fn finish(&mut self, thread: u32) {
        match &mut self.host {
            Some(host) => host.finish(thread),
            None => {}
        }
    }
}

// These hosts, and after them one without a thread.
fn optional_hosts_of<H: Host>(
    alloc: Global,
    hosts: Vec<H>,
) -> Result<Vec<OptionalHost<H>>, AllocError>
    ensures { IfOk result (λ all. map ⟦<OptionalHost<H> as Host>⟧.machines all.items ≡ map H.machines hosts.items ++ ([] ∷ [])) }
{
    let mut all = Vec::new(alloc);
    for host in hosts {
        all.push(OptionalHost { host: Some(host) })?;
    }
    all.push(OptionalHost { host: None })?;
    Ok(all)
}

// The network with one host more, which has no thread.
//
// # Errors
//
// Returns `AllocError` if an allocation fails.
pub(crate) fn beside_none<H: Host, Z: Streams>(
    alloc: Global,
    net: Net<H, Z>,
) -> Result<Net<OptionalHost<H>, Z>, AllocError> {
    let Parts {
        hosts,
        shape,
        queues,
    } = net.parts();
    let hosts = optional_hosts_of(alloc, hosts)?;
    Ok(Net::of(Parts {
        hosts,
        shape,
        queues,
    }))
}
