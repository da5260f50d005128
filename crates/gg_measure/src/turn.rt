//! The turn of a machine, a round of turns, and a round of fires.
ghost use Rattle.std.specs.Prelude.{◌≡◌, ℕ, ◌<◌, false, length, MatchBool};
ghost use Rattle.gg_node.specs.Machine.{machine_at};
ghost use Rattle.gg_measure.specs.inside.Nets.{IsAtWork, IsIdle, NoLatch, NoFire, NoServe, Goes};
ghost use Rattle.gg_net.specs.Network.{cycle_at};
ghost use Rattle.gg_measure.specs.inside.Turns.{HasServedOne, HadTurn, HasGoneRound};

use crate::order::Order;
use crate::try_event::{attempt_noted, serve_due};
use gg_bits::either;
use gg_net::{Event, Net, Streams};
use gg_node::Host;

// Latches the front tokens of all channels into a machine that may be latched. Returns whether there was one.
fn latch_all<H: Host, Z: Streams>(
    net: &mut Net<H, Z>,
    order: &mut Order,
    machine: u32,
    _cycle: u64,
) -> bool
    requires { IsAtWork _cycle machine net.old }
    ensures work { IsAtWork _cycle machine net.new }
    ensures goes { Goes _cycle net.old result net.new }
    ensures none { result ≡ false → NoLatch net.new machine }
{
    net.kept();
    let count = net.in_count(machine);
    let mut moved = false;
    for place in 0..count {
        net.kept();
        let channel = net.in_channel(machine, place);
        let done = attempt_noted(net, order, Event::Latch { channel });
        moved = either(moved, done);
    }
    moved
}

// Gives the tokens of all channels of a machine that may be fired. Returns whether there was one.
fn fire_all<H: Host, Z: Streams>(
    net: &mut Net<H, Z>,
    order: &mut Order,
    machine: u32,
    _cycle: u64,
) -> bool
    requires { IsAtWork _cycle machine net.old }
    ensures work { IsAtWork _cycle machine net.new }
    ensures goes { Goes _cycle net.old result net.new }
    ensures none { result ≡ false → NoFire net.new machine }
{
    net.kept();
    let count = net.out_count(machine);
    let mut moved = false;
    for place in 0..count {
        net.kept();
        let channel = net.out_channel(machine, place);
        let done = attempt_noted(net, order, Event::Fire { channel });
        moved = either(moved, done);
    }
    moved
}

// Serves the port of a machine that is due, if that may be done. Returns whether it was done.
fn serve_next<H: Host, Z: Streams>(
    net: &mut Net<H, Z>,
    order: &mut Order,
    machine: u32,
    _cycle: u64,
) -> bool
    requires { IsAtWork _cycle machine net.old }
    ensures { MatchBool result (HasServedOne _cycle machine net.old net.new) ((net.new ≡ net.old) × NoServe net.old machine) }
{
    net.kept();
    serve_due(net, order, machine)
}

// Serves the ports of a machine as long as that may be done. Returns whether it served any.
fn serve_all<H: Host, Z: Streams>(
    net: &mut Net<H, Z>,
    order: &mut Order,
    machine: u32,
    cycle: u64,
) -> bool
    requires { IsAtWork cycle machine net.old }
    ensures work { IsAtWork cycle machine net.new }
    ensures goes { Goes cycle net.old result net.new }
    ensures none { NoServe net.new machine }
{
    let mut moved = false;
    while serve_next(net, order, machine, cycle) {
        moved = true;
    }
    moved
}

// The turn of a machine: all tokens that it may take, all that it may give, all ports that it may serve, and the end of
// its cycle. Returns whether anything was done.
fn take_turn<H: Host, Z: Streams>(
    net: &mut Net<H, Z>,
    order: &mut Order,
    machine: u32,
    cycle: u64,
) -> bool
    requires { IsAtWork cycle machine net.old }
    ensures { HadTurn cycle machine net.old result net.new }
{
    let latched = latch_all(net, order, machine, cycle);
    let fired = fire_all(net, order, machine, cycle);
    let served = serve_all(net, order, machine, cycle);
    net.kept();
    let finished = attempt_noted(net, order, Event::Finish { machine });
    either(either(either(latched, fired), served), finished)
}

// The turn of a machine, if it is below a cycle. Returns whether anything was done.
fn turn_below<H: Host, Z: Streams>(
    net: &mut Net<H, Z>,
    order: &mut Order,
    machine: u32,
    cycle: u64,
) -> bool
    requires there { machine < length net.old.machines }
    ensures goes { Goes cycle net.old result net.new }
    ensures idle { result ≡ false → cycle_at net.new machine < cycle → IsIdle net.new machine }
{
    if net.cycle(machine) >= cycle {
        return false;
    }
    take_turn(net, order, machine, cycle)
}

// A turn of each machine that is below a cycle, by number. Returns whether anything was done.
pub(crate) fn round<H: Host, Z: Streams>(net: &mut Net<H, Z>, order: &mut Order, cycle: u64) -> bool
    ensures { HasGoneRound cycle (length net.old.machines) net.old result net.new }
{
    net.within_limits();
    let count = net.machines();
    let mut moved = false;
    for machine in 0..count {
        let done = turn_below(net, order, machine as u32, cycle);
        moved = either(moved, done);
    }
    moved
}

// The fires of a machine, if it is below a cycle. Returns whether anything was done.
fn fire_below<H: Host, Z: Streams>(
    net: &mut Net<H, Z>,
    order: &mut Order,
    machine: u32,
    cycle: u64,
) -> bool
    requires there { machine < length net.old.machines }
    ensures { Goes cycle net.old result net.new }
{
    if net.cycle(machine) >= cycle {
        return false;
    }
    fire_all(net, order, machine, cycle)
}

// The fires of each machine that is below a cycle, by number, as far as they need no further token. Returns whether
// anything was done.
pub(crate) fn fire_round<H: Host, Z: Streams>(
    net: &mut Net<H, Z>,
    order: &mut Order,
    cycle: u64,
) -> bool
    ensures { Goes cycle net.old result net.new }
{
    net.within_limits();
    let count = net.machines();
    let mut moved = false;
    for machine in 0..count {
        let done = fire_below(net, order, machine as u32, cycle);
        moved = either(moved, done);
    }
    moved
}
