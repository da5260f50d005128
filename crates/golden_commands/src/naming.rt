//! The names that the steps of a cut use for its channels, machines and ports.
ghost use Rattle.std.specs.Prelude.{◌≡◌, ◌+◌, ◌++◌, ◌<◌, ◌^◌, ℕ, IfOk, OnOk, length, map};
ghost use Rattle.std.specs.List.{range_with_len};
ghost use Rattle.golden_commands.specs.Replay.{port_names};
ghost use Rattle.golden_commands.specs.inside.Replayed.{AreFewNames};
ghost use Rattle.golden_commands.specs.Replayed.{plan_naming};

use gg_bits::Name;
use gg_cut_plan::{Channel, Listed, Machine, Plan};
use gg_flat_tree::Tree;
use gg_replay::StepNames;
use std::alloc::{AllocError, Global};

// The names of a machine's ports; none if it isn't a listed memory.
fn port_names<'a>(tree: &'a Tree, listed: &Listed, machine: usize) -> &'a [Name]
    ensures { result.now ≡ port_names tree.now listed.now machine }
{
    match listed.memory_of(machine) {
        None => &[],
        Some(place) => match tree.memories().get(place as usize) {
            None => &[],
            Some(memory) => memory.ports.as_slice(),
        },
    }
}

// Adds the names of these channels.
fn add_channels<'a>(names: &mut StepNames<'a>, channels: &'a [Channel]) -> Result<(), AllocError>
    requires { length names.old.channels + length channels.now < 2 ^ 32 }
    ensures { OnOk result (names.new ≡ record names.old { channels = names.old.channels ++ map (λ channel. channel.name) channels.now }) }
{
    for channel in channels {
        names.add_channel(channel.name.as_str())?;
    }
    Ok(())
}

// Adds the names of these machines and of their ports.
fn add_machines<'a>(
    names: &mut StepNames<'a>,
    tree: &'a Tree,
    listed: &Listed,
    machines: &'a [Machine],
) -> Result<(), AllocError>
    requires few { length names.old.machines + length machines.now < 2 ^ 32 }
    requires ports { (m : ℕ) → length (port_names tree.now listed.now m) < 2 ^ 32 }
    ensures { OnOk result (names.new ≡ record names.old {
      machines = names.old.machines ++ map (λ machine. machine.name) machines.now;
      ports = names.old.ports ++ map (port_names tree.now listed.now) (range_with_len 0 (length machines.now));
    }) }
{
    for m in 0..machines.len() {
        names.add_machine(machines[m].name.as_str(), port_names(tree, listed, m))?;
    }
    Ok(())
}

/// The names of a plan's channels, of its machines, and of the ports of its listed memories.
///
/// # Errors
///
/// Returns `AllocError` if an allocation fails.
pub fn names_of<'a>(
    alloc: Global,
    tree: &'a Tree,
    plan: &'a Plan,
) -> Result<StepNames<'a>, AllocError>
    requires { AreFewNames plan.now tree.now }
    ensures { IfOk result (λ names. names ≡ plan_naming plan.now tree.now) }
{
    let mut names = StepNames::new(alloc);
    add_channels(&mut names, plan.channels.as_slice())?;
    add_machines(&mut names, tree, &plan.listed, plan.machines.as_slice())?;
    Ok(names)
}
