//! Printing of a plan: a line for each machine, then a line for each channel.
ghost use Rattle.std.specs.Prelude.{flat_map};
ghost use Rattle.gg_cut_reference.specs.inside.PlanText.{channel_names, line_of_channel, line_of_machine, machine_names, plan_text};
ghost use Rattle.gg_io.specs.inside.Endings.{PrintsOn};
ghost use Rattle.gg_io.specs.WentOn.{SinkWentOn};

use gg_cut_plan::{Channel, Machine, Plan};
use gg_cut_reference::{channel_line, machine_line};
use gg_io::{Ending, Sink, put};
use std::alloc::Global;

// Writes the line of a machine.
fn print_machine<K: Sink>(alloc: Global, machine: &Machine, out: &mut K) -> Result<(), Ending>
    ensures prints { PrintsOn K.Sink out.old out.new (line_of_machine machine.now) result }
    ensures out { SinkWentOn K.Sink out.old out.new }
{
    let line = machine_line(alloc, machine)?;
    put(out, line.as_bytes())
}

// Writes the line of a channel.
fn print_channel<K: Sink>(
    alloc: Global,
    machines: &[Machine],
    channels: &[Channel],
    channel: &Channel,
    out: &mut K,
) -> Result<(), Ending>
    ensures prints { PrintsOn K.Sink out.old out.new (line_of_channel (machine_names machines.now) (channel_names channels.now) channel.now) result }
    ensures out { SinkWentOn K.Sink out.old out.new }
{
    let line = channel_line(alloc, machines, channels, channel)?;
    put(out, line.as_bytes())
}

// Writes the lines of all machines.
fn print_machines<K: Sink>(alloc: Global, machines: &[Machine], out: &mut K) -> Result<(), Ending>
    ensures prints { PrintsOn K.Sink out.old out.new (flat_map line_of_machine machines.now) result }
    ensures out { SinkWentOn K.Sink out.old out.new }
{
    for machine in machines {
        print_machine(alloc, machine, out)?;
    }
    Ok(())
}

// Writes the lines of all channels.
fn print_channels<K: Sink>(
    alloc: Global,
    machines: &[Machine],
    channels: &[Channel],
    out: &mut K,
) -> Result<(), Ending>
    ensures prints { PrintsOn K.Sink out.old out.new (flat_map (line_of_channel (machine_names machines.now) (channel_names channels.now)) channels.now) result }
    ensures out { SinkWentOn K.Sink out.old out.new }
{
    for channel in channels {
        print_channel(alloc, machines, channels, channel, out)?;
    }
    Ok(())
}

/// Prints a plan: the lines of its machines, then the lines of its channels.
///
/// # Errors
///
/// Returns `Unwritten` if a put fails, and `NoMemory` if an allocation fails.
pub fn print_plan<K: Sink>(alloc: Global, plan: &Plan, out: &mut K) -> Result<(), Ending>
    ensures prints { PrintsOn K.Sink out.old out.new (plan_text plan.now) result }
    ensures out { SinkWentOn K.Sink out.old out.new }
{
    let machines = plan.machines.as_slice();
    print_machines(alloc, machines, out)?;
    print_channels(alloc, machines, plan.channels.as_slice(), out)
}
