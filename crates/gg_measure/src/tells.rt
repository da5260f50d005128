//! The measure of a network, and an event that may be done.
ghost use Rattle.std.specs.Prelude.{◌≡◌, ℕ, ◌<◌, length, MatchOption};
ghost use Rattle.gg_net.specs.declared.event.Event.TheVariants.{Latch, Fire, Finish};
ghost use Rattle.gg_net.specs.Step.{Ready};
ghost use Rattle.gg_measure.specs.inside.Nets.{NoServe, wire_left, machine_left, net_left};
ghost use Rattle.gg_net.specs.Network.{AllStandAt};
ghost use Rattle.gg_measure.specs.inside.Turns.{NoneFound};

use crate::try_event::may;
use gg_net::{Event, Net, Streams};
use gg_node::Host;

// An event of a channel that may be done.
fn channel_event<H: Host, Z: Streams>(net: &Net<H, Z>, channel: u32) -> Option<Event>
    ensures { MatchOption result ((Ready net.now (Latch channel) → ⊥) × (Ready net.now (Fire channel) → ⊥)) (Ready net.now) }
{
    let latch = Event::Latch { channel };
    if may(net, latch) {
        return Some(latch);
    }
    let fire = Event::Fire { channel };
    if may(net, fire) {
        return Some(fire);
    }
    None
}

// The event that serves the port of a machine that is due, if it may be done.
fn serve_event<H: Host, Z: Streams>(net: &Net<H, Z>, machine: u32) -> Option<Event>
    requires { machine < length net.now.machines }
    ensures { MatchOption result (NoServe net.now machine) (Ready net.now) }
{
    let port = net.due(machine)?;
    let serve = Event::Serve { machine, port };
    if may(net, serve) {
        return Some(serve);
    }
    None
}

// An event that serves a port of a machine or finishes its cycle and may be done.
fn machine_event<H: Host, Z: Streams>(net: &Net<H, Z>, machine: u32) -> Option<Event>
    requires { machine < length net.now.machines }
    ensures { MatchOption result (NoServe net.now machine × (Ready net.now (Finish machine) → ⊥)) (Ready net.now) }
{
    if let Some(event) = serve_event(net, machine) {
        return Some(event);
    }
    let finish = Event::Finish { machine };
    if may(net, finish) {
        return Some(finish);
    }
    None
}

// An event that may be done, if there is one.
fn find_event<H: Host, Z: Streams>(net: &Net<H, Z>) -> Option<Event>
    ensures { MatchOption result (NoneFound net.now (length net.now.wires) (length net.now.machines)) (Ready net.now) }
{
    net.within_limits();
    for c in 0..net.channels() {
        if let Some(event) = channel_event(net, c as u32) {
            return Some(event);
        }
    }
    for m in 0..net.machines() {
        if let Some(event) = machine_event(net, m as u32) {
            return Some(event);
        }
    }
    None
}

/// An event that may be done; None exactly if all machines are at the end.
pub fn possible<H: Host, Z: Streams>(net: &Net<H, Z>) -> Option<Event>
    ensures { MatchOption result (AllStandAt net.now.end net.now) (λ event. Ready net.now event × (AllStandAt net.now.end net.now → ⊥)) }
{
    net.kept();
    find_event(net)
}

// The steps that are left of a channel: the tokens that are still to be put, and the tokens that are still to be taken.
fn channel_left<H: Host, Z: Streams>(net: &Net<H, Z>, channel: u32) -> u64
    requires { channel < length net.now.wires }
    ensures { result ≡ wire_left net.now channel }
{
    net.kept();
    net.within_limits();
    let puts = net.end() - net.puts(channel);
    let takes = net.end() - net.takes(channel);
    puts + takes
}

// The steps that are left of a machine: the cycles that it still has to finish, and the times that its ports are still
// to be served.
fn machine_left<H: Host, Z: Streams>(net: &Net<H, Z>, machine: u32) -> u64
    requires { machine < length net.now.machines }
    ensures { result ≡ machine_left net.now machine }
{
    net.kept();
    net.within_limits();
    let end = net.end();
    let cycles = end - net.cycle(machine);
    let serves = u64::from(net.dues(machine)) * end - net.serves(machine);
    cycles + serves
}

/// The measure: the number of steps that are still to be done.
pub fn left<H: Host, Z: Streams>(net: &Net<H, Z>) -> u64
    ensures { result ≡ net_left net.now }
{
    net.kept();
    net.within_limits();
    let mut left = 0;
    for c in 0..net.channels() {
        left += channel_left(net, c as u32);
    }
    for m in 0..net.machines() {
        left += machine_left(net, m as u32);
    }
    left
}
