//! `Node`: the hosts of a plan's machines.
ghost use Rattle.std.specs.Prelude.{◌≡◌, ℕ, ◌<◌, None, length, is_some, slice_set};
ghost use Rattle.gg_node.specs.inside.Machine.{IsTray, due};
ghost use Rattle.gg_node.specs.Machine.{machine_at, latch_at, flag_at, missing, kept_value};
ghost use Rattle.gg_node.specs.Token.{IsToken, IsNextState};
ghost use Rattle.gg_node.specs.inside.Step.{MayLatch, MayFire, MayServe, MayFinish};
ghost use Rattle.gg_node.specs.Step.{with_latch, with_flag, with_served, finished};
ghost use Rattle.gg_build.specs.inside.Node.{machine_of, machines_of};

use gg_bridge::{Bridge, Hosted};
use gg_fame1::Unit;
use gg_fame5::Shared;
use gg_memunit::MemUnit;
use gg_node::{Host, Source, Tray};

/// A host of machines of a plan, by their kind.
#[derive(Drop)]
pub enum Node<'a, B: Bridge + Drop> {
    /// The hub, or a single unit.
    Unit(Unit<'a>),
    /// Units with one piece, a thread each.
    Shared(Shared<'a>),
    /// A memory that is served port by port.
    Memory(MemUnit),
    /// Gives the column of a top input.
    Source(Source),
    /// Keeps the values of a top output.
    Tray(Tray),
    /// A bridge, at ports of the top.
    Bridge(Hosted<B>),
}

impl<'a, B: Bridge + Drop> Node<'a, B> {
    /// The value of a cycle that a tray keeps. `None` if the tray doesn't keep it, or if it isn't the host of a tray.
    pub fn value(&self, cycle: u64) -> Option<u128>
        ensures tray { IsTray (machine_of self.now).behaviour → result ≡ kept_value (machine_of self.now) cycle }
        ensures other { ¬ IsTray (machine_of self.now).behaviour → result ≡ None }
    {
        match self {
            Node::Unit(host) => {
                // for the invariant only
                let _ = host.piece();
                None
            }
            Node::Shared(host) => {
                // for the invariant only
                let _ = host.piece();
                None
            }
            Node::Memory(host) => {
                // for the invariant only
                let _ = host.piece();
                None
            }
            Node::Source(host) => {
                // for the invariant only
                let _ = host.column();
                None
            }
            Node::Tray(host) => host.value(cycle),
            Node::Bridge(host) => {
                // for the invariant only
                let _ = host.ins();
                None
            }
        }
    }
}

impl<'a, B: Bridge + Send + Drop> Host for Node<'a, B> {
    ghost machines = { machines_of };

    fn threads(&self) -> u32 {
        match self {
            Node::Unit(host) => host.threads(),
            Node::Shared(host) => host.threads(),
            Node::Memory(host) => host.threads(),
            Node::Source(host) => host.threads(),
            Node::Tray(host) => host.threads(),
            Node::Bridge(host) => host.threads(),
        }
    }

    fn cycle(&self, thread: u32) -> u64 {
        match self {
            Node::Unit(host) => host.cycle(thread),
            Node::Shared(host) => host.cycle(thread),
            Node::Memory(host) => host.cycle(thread),
            Node::Source(host) => host.cycle(thread),
            Node::Tray(host) => host.cycle(thread),
            Node::Bridge(host) => host.cycle(thread),
        }
    }

    fn latched(&self, thread: u32, place: u32) -> bool {
        match self {
            Node::Unit(host) => host.latched(thread, place),
            Node::Shared(host) => host.latched(thread, place),
            Node::Memory(host) => host.latched(thread, place),
            Node::Source(host) => host.latched(thread, place),
            Node::Tray(host) => host.latched(thread, place),
            Node::Bridge(host) => host.latched(thread, place),
        }
    }

    fn fired(&self, thread: u32, place: u32) -> bool {
        match self {
            Node::Unit(host) => host.fired(thread, place),
            Node::Shared(host) => host.fired(thread, place),
            Node::Memory(host) => host.fired(thread, place),
            Node::Source(host) => host.fired(thread, place),
            Node::Tray(host) => host.fired(thread, place),
            Node::Bridge(host) => host.fired(thread, place),
        }
    }

    fn missing(&self, thread: u32, place: u32) -> Option<u32> {
        match self {
            Node::Unit(host) => host.missing(thread, place),
            Node::Shared(host) => host.missing(thread, place),
            Node::Memory(host) => host.missing(thread, place),
            Node::Source(host) => host.missing(thread, place),
            Node::Tray(host) => host.missing(thread, place),
            Node::Bridge(host) => host.missing(thread, place),
        }
    }

    fn due(&self, thread: u32) -> Option<u32> {
        match self {
            Node::Unit(host) => host.due(thread),
            Node::Shared(host) => host.due(thread),
            Node::Memory(host) => host.due(thread),
            Node::Source(host) => host.due(thread),
            Node::Tray(host) => host.due(thread),
            Node::Bridge(host) => host.due(thread),
        }
    }

    fn served(&self, thread: u32) -> u32 {
        match self {
            Node::Unit(host) => host.served(thread),
            Node::Shared(host) => host.served(thread),
            Node::Memory(host) => host.served(thread),
            Node::Source(host) => host.served(thread),
            Node::Tray(host) => host.served(thread),
            Node::Bridge(host) => host.served(thread),
        }
    }

    fn dues(&self, thread: u32) -> u32 {
        match self {
            Node::Unit(host) => host.dues(thread),
            Node::Shared(host) => host.dues(thread),
            Node::Memory(host) => host.dues(thread),
            Node::Source(host) => host.dues(thread),
            Node::Tray(host) => host.dues(thread),
            Node::Bridge(host) => host.dues(thread),
        }
    }

    fn port_count(&self, thread: u32) -> u32 {
        match self {
            Node::Unit(host) => host.port_count(thread),
            Node::Shared(host) => host.port_count(thread),
            Node::Memory(host) => host.port_count(thread),
            Node::Source(host) => host.port_count(thread),
            Node::Tray(host) => host.port_count(thread),
            Node::Bridge(host) => host.port_count(thread),
        }
    }

    fn wants(&self, thread: u32, place: u32, cycle: u64) -> bool {
        match self {
            Node::Unit(host) => host.wants(thread, place, cycle),
            Node::Shared(host) => host.wants(thread, place, cycle),
            Node::Memory(host) => host.wants(thread, place, cycle),
            Node::Source(host) => host.wants(thread, place, cycle),
            Node::Tray(host) => host.wants(thread, place, cycle),
            Node::Bridge(host) => host.wants(thread, place, cycle),
        }
    }

    fn gives(&self, thread: u32, place: u32, cycle: u64) -> bool {
        match self {
            Node::Unit(host) => host.gives(thread, place, cycle),
            Node::Shared(host) => host.gives(thread, place, cycle),
            Node::Memory(host) => host.gives(thread, place, cycle),
            Node::Source(host) => host.gives(thread, place, cycle),
            Node::Tray(host) => host.gives(thread, place, cycle),
            Node::Bridge(host) => host.gives(thread, place, cycle),
        }
    }

    fn all_fired(&self, thread: u32, outs: u32) -> bool {
        match self {
            Node::Unit(host) => host.all_fired(thread, outs),
            Node::Shared(host) => host.all_fired(thread, outs),
            Node::Memory(host) => host.all_fired(thread, outs),
            Node::Source(host) => host.all_fired(thread, outs),
            Node::Tray(host) => host.all_fired(thread, outs),
            Node::Bridge(host) => host.all_fired(thread, outs),
        }
    }

    fn all_latched(&self, thread: u32, ins: u32) -> bool {
        match self {
            Node::Unit(host) => host.all_latched(thread, ins),
            Node::Shared(host) => host.all_latched(thread, ins),
            Node::Memory(host) => host.all_latched(thread, ins),
            Node::Source(host) => host.all_latched(thread, ins),
            Node::Tray(host) => host.all_latched(thread, ins),
            Node::Bridge(host) => host.all_latched(thread, ins),
        }
    }

    fn token(&mut self, thread: u32, place: u32) -> u128 {
        match self {
            Node::Unit(host) => host.token(thread, place),
            Node::Shared(host) => host.token(thread, place),
            Node::Memory(host) => host.token(thread, place),
            Node::Source(host) => host.token(thread, place),
            Node::Tray(host) => host.token(thread, place),
            Node::Bridge(host) => host.token(thread, place),
        }
    }

    fn latch(&mut self, thread: u32, place: u32, value: u128) {
        match self {
            Node::Unit(host) => host.latch(thread, place, value),
            Node::Shared(host) => host.latch(thread, place, value),
            Node::Memory(host) => host.latch(thread, place, value),
            Node::Source(host) => host.latch(thread, place, value),
            Node::Tray(host) => host.latch(thread, place, value),
            Node::Bridge(host) => host.latch(thread, place, value),
        }
    }

    fn fire(&mut self, thread: u32, place: u32) -> u128 {
        match self {
            Node::Unit(host) => host.fire(thread, place),
            Node::Shared(host) => host.fire(thread, place),
            Node::Memory(host) => host.fire(thread, place),
            Node::Source(host) => host.fire(thread, place),
            Node::Tray(host) => host.fire(thread, place),
            Node::Bridge(host) => host.fire(thread, place),
        }
    }

    fn serve(&mut self, thread: u32, port: u32) {
        match self {
            Node::Unit(host) => host.serve(thread, port),
            Node::Shared(host) => host.serve(thread, port),
            Node::Memory(host) => host.serve(thread, port),
            Node::Source(host) => host.serve(thread, port),
            Node::Tray(host) => host.serve(thread, port),
            Node::Bridge(host) => host.serve(thread, port),
        }
    }

    fn finish(&mut self, thread: u32) {
        match self {
            Node::Unit(host) => host.finish(thread),
            Node::Shared(host) => host.finish(thread),
            Node::Memory(host) => host.finish(thread),
            Node::Source(host) => host.finish(thread),
            Node::Tray(host) => host.finish(thread),
            Node::Bridge(host) => host.finish(thread),
        }
    }
}
