//! gg_measure: the steps that are left in a network, and doing them in two orders.
use crate::built::{TestHost, keeps, may_go_to};
use crate::cases::field;
use crate::networks::Case;
use gg_measure::{Order, left, possible, run_by, run_to, run_to_end};
use gg_net::{Net, Streams};
use gg_node::Host;

// Does the steps that `possible` returns, one after another. Returns how many were done, at most this many.
fn follow<H: Host, Z: Streams>(net: &mut Net<H, Z>, most: u64) -> u64 {
    for done in 0..most {
        let Some(event) = possible(net) else {
            return done;
        };
        if net.step(event).is_err() {
            return done;
        }
    }
    most
}

// Runs a network to its end by an order that is noted in its next cycle. Returns whether that could be done.
pub(crate) fn run_by_order<H: Host, Z: Streams>(net: &mut Net<H, Z>) -> bool {
    let alloc = *net.shape().wires.allocator();
    let Ok(mut order) = Order::new(alloc, net) else {
        return false;
    };
    let end = net.end();
    let begins = may_go_to(net, end);
    if begins {
        run_by(net, &mut order, end);
    }
    begins
}

// Runs a network that is before its first cycle to cycle 1, and then by an order to its end. Returns whether the steps left at cycle 1 are the steps
// of the other cycles.
fn run_in_two<H: Host, Z: Streams>(net: &mut Net<H, Z>, case: &Case<'_>) -> bool {
    let begins = may_go_to(net, 1);
    if begins {
        run_to(net, 1);
    }
    let middle = left(net);
    let ends = run_by_order(net);
    begins && ends && middle == case.left - case.left / case.end.max(1)
}

// Whether nothing is left to do.
fn is_done<H: Host, Z: Streams>(net: &Net<H, Z>) -> bool {
    left(net) == 0 && possible(net).is_none()
}

// Whether a machine has the same counts in two networks.
fn is_machine_alike<H: Host, Z: Streams>(one: &Net<H, Z>, other: &Net<H, Z>, machine: u32) -> bool {
    (machine as usize) < one.machines()
        && (machine as usize) < other.machines()
        && one.cycle(machine) == other.cycle(machine)
        && one.serves(machine) == other.serves(machine)
}

// Whether a channel has the same counts and the same newest token in two networks.
fn is_channel_alike<H: Host, Z: Streams>(one: &Net<H, Z>, other: &Net<H, Z>, channel: u32) -> bool {
    (channel as usize) < one.channels()
        && (channel as usize) < other.channels()
        && one.puts(channel) == other.puts(channel)
        && one.takes(channel) == other.takes(channel)
        && one.newest(channel) == other.newest(channel)
}

// Whether a machine's tray keeps the same values in two networks, if it is a tray.
fn is_tray_alike<H: TestHost, Z: Streams>(
    one: &Net<H, Z>,
    other: &Net<H, Z>,
    machine: u32,
) -> bool {
    if machine as usize >= one.machines() || machine as usize >= other.machines() {
        return false;
    }
    let tray = one.host(machine);
    let same = other.host(machine);
    for cycle in 0..one.end() {
        if tray.kept(cycle) != same.kept(cycle) {
            return false;
        }
    }
    true
}

// Whether two networks have the same counts, and the same values in their trays.
fn are_alike<H: TestHost, Z: Streams>(one: &Net<H, Z>, other: &Net<H, Z>, case: &Case<'_>) -> bool {
    for machine in 0..case.machines {
        if !is_machine_alike(one, other, machine) || !is_tray_alike(one, other, machine) {
            return false;
        }
    }
    for channel in 0..case.channels {
        if !is_channel_alike(one, other, channel) {
            return false;
        }
    }
    true
}

// Whether two networks end alike, by `run_to_end` from where they are.
pub(crate) fn run_alike<H: TestHost, Z: Streams>(
    one: &mut Net<H, Z>,
    other: &mut Net<H, Z>,
    case: &Case<'_>,
) -> bool {
    run_to_end(one);
    run_to_end(other);
    are_alike(one, other, case)
}

// Whether two networks end alike. The one does the steps that `possible` returns, and the other goes by `run_to`. Both are
// before their first cycle.
pub(crate) fn end_alike<H: TestHost, Z: Streams>(
    one: &mut Net<H, Z>,
    other: &mut Net<H, Z>,
    case: &Case<'_>,
) -> bool {
    left(one) == case.left
        && follow(one, case.left) == case.left
        && run_in_two(other, case)
        && is_done(one)
        && is_done(other)
        && are_alike(one, other, case)
        && keeps(one, field(case.text, "keeps "))
        && keeps(other, field(case.text, "keeps "))
}
