//! A pass over the steps of an order.
ghost use Rattle.std.specs.Prelude.{◌≡◌, ◌<◌, true};
ghost use Rattle.gg_measure.specs.inside.Nets.{Goes, net_left};

use gg_bits::either;
use gg_net::{Event, Net, Streams};
use gg_node::Host;

// Does a step of a machine that is below a cycle, if it may be done. Returns whether it was done.
fn try_below<H: Host, Z: Streams>(net: &mut Net<H, Z>, event: Event, cycle: u64) -> bool
    ensures { Goes cycle net.old result net.new }
{
    net.step_below(event, cycle)
}

// Tries these events, one after another. Returns whether a step was done, which lowers the measure.
pub(crate) fn pass<H: Host, Z: Streams>(net: &mut Net<H, Z>, events: &[Event], cycle: u64) -> bool
    ensures goes { Goes cycle net.old result net.new }
    ensures falls { result ≡ true → net_left net.new < net_left net.old }
{
    net.kept();
    let mut moved = false;
    for event in events {
        let done = try_below(net, *event, cycle);
        moved = either(moved, done);
    }
    moved
}
