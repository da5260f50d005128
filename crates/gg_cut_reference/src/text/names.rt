//! The names of a plan's machines and channels, by number.
ghost use Rattle.std.specs.Prelude.{◌≡◌};
ghost use Rattle.gg_flat_tree.specs.Tree.{path_at};
ghost use Rattle.gg_cut_reference.specs.inside.PlanText.{channel_names, machine_names};

use gg_cut_plan::{Channel, Machine};

// The name of a machine; empty if there is none with this number.
pub(crate) fn machine_name(machines: &[Machine], number: u32) -> &str
    ensures { result.now ≡ path_at (machine_names machines.now) number }
{
    match machines.get(number as usize) {
        Some(machine) => machine.name.as_str(),
        None => "",
    }
}

// The name of a channel; empty if there is none with this number.
pub(crate) fn channel_name(channels: &[Channel], number: u32) -> &str
    ensures { result.now ≡ path_at (channel_names channels.now) number }
{
    match channels.get(number as usize) {
        Some(channel) => channel.name.as_str(),
        None => "",
    }
}
