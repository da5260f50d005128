//! The values that trays keep.
ghost use Rattle.std.specs.Prelude.{◌≡◌, ℕ, ◌+◌, ◌<◌, ◌≤◌, length};
ghost use Rattle.gg_flat.specs.Line.{value_at};
ghost use Rattle.gg_node.specs.Machine.{machine_at};
ghost use Rattle.gg_net.specs.Kept.{list_at};
ghost use Rattle.gg_rows.specs.inside.Rows.{StillHas, told_value};
ghost use Rattle.gg_rows.specs.inside.RunPrinted.{AreOutputsOf};

use gg_bridge::Bridge;
use gg_build::Node;
use gg_net::{Net, Streams};

/// The value of a cycle that a tray keeps, which is its channel's value in that cycle. It is 0 if the machine is no tray or doesn't keep the value.
pub fn tray_value<B: Bridge + Send + Drop, Z: Streams>(
    net: &Net<Node<'_, B>, Z>,
    machine: u32,
    cycle: u64,
) -> u128
    requires { machine < length net.now.machines }
    ensures told { result ≡ told_value (machine_at net.now.machines machine) cycle }
    ensures carried { (c : ℕ) → StillHas net.now machine c Z.flow.begin cycle → result ≡ value_at (list_at Z.flow.lists c) cycle }
{
    net.kept();
    net.host(machine).value(cycle).unwrap_or(0)
}

/// Writes the values of a cycle that the trays keep, in the order of their numbers, starting at `first`. In a network of a plan they are the values
/// of the out-signals of the plan's circuit in its run.
///
/// The network should be at the end of the cycle's window, and the window no longer than a tray keeps values. There should be a place for each tray.
pub fn output_values<B: Bridge + Send + Drop, Z: Streams>(
    net: &Net<Node<'_, B>, Z>,
    first: usize,
    cycle: u64,
    outs: &mut [u128],
)
    requires { first + length outs.old ≤ length net.now.machines }
    ensures { AreOutputsOf Z.flow net.now first (length outs.old) cycle outs.new }
{
    net.kept();
    net.within_limits();
    for (k, out) in outs.iter_mut().enumerate() {
        *out = tray_value(net, (first + k) as u32, cycle);
    }
}
