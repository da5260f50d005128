//! What each machine has: lists that are filled in one pass each.
ghost use Rattle.std.specs.Prelude.{◌≡◌, ℕ, ◌<◌, ◌^◌, ◌==◌, ◌||◌, [], length, slice_index_or, All, OnOk, IfOk};
ghost use Rattle.gg_cut_plan.specs.Plan.{channels_to, channels_from};
ghost use Rattle.gg_cut_split.specs.inside.Apart.{AreEnds};
ghost use Rattle.gg_cut_split.specs.inside.Spread.{AreLists, IsPut, AreChannels, has, signals_among, memories_below};

use crate::pile::{Pile, piles, put};
use gg_cut_plan::Wire;
use gg_flat_tree::Tree;
use std::alloc::{AllocError, Global};

/// The channels that each of `count` machines takes, and the channels that it gives, by the machines' numbers. The
/// lists ascend.
pub struct Sides {
    /// The channels that each machine takes.
    pub ins: Vec<Pile>,
    /// The channels that each machine gives.
    pub outs: Vec<Pile>,
}

impl Drop for Sides {
    fn drop(self) {
        let Self { ins, outs } = self;
        drop(ins);
        drop(outs);
    }
}

/// The channels that each machine takes and gives, among `count` machines.
///
/// # Errors
///
/// Returns `AllocError` if an allocation fails.
pub fn sides_of(alloc: Global, wires: &[Wire], count: usize) -> Result<Sides, AllocError>
    requires few { length wires.now < 2 ^ 32 }
    requires ends { All (λ w. (w.producer < count) × (w.consumer < count)) wires.now }
    ensures ins { IfOk result (λ sides. AreLists (channels_to wires.now) count sides.ins.items) }
    ensures outs { IfOk result (λ sides. AreLists (channels_from wires.now) count sides.outs.items) }
{
    let mut ins = piles(alloc, count)?;
    let mut outs = piles(alloc, count)?;
    put_channels(wires, &mut ins, &mut outs)?;
    Ok(Sides { ins, outs })
}

// Adds each channel to the list of its consumer among `ins` and to the list of its producer among `outs`. At first all
// lists are empty.
fn put_channels(wires: &[Wire], ins: &mut [Pile], outs: &mut [Pile]) -> Result<(), AllocError>
    requires few { length wires.now < 2 ^ 32 }
    requires same { length outs.old ≡ length ins.old }
    requires ends { All (λ w. (w.producer < length ins.old) × (w.consumer < length ins.old)) wires.now }
    requires no_ins { (m : ℕ) → slice_index_or ins.old m [] ≡ [] }
    requires no_outs { (m : ℕ) → slice_index_or outs.old m [] ≡ [] }
    ensures ins { OnOk result (AreLists (channels_to wires.now) (length ins.old) ins.new) }
    ensures outs { OnOk result (AreLists (channels_from wires.now) (length outs.old) outs.new) }
{
    for channel in 0..wires.len() {
        put(ins, wires[channel].consumer, channel as u32)?;
        put(outs, wires[channel].producer, channel as u32)?;
    }
    Ok(())
}

// The signals of each machine, among the signals of an order. A signal with a channel belongs to the machines at the
// ends of the channel. Any other signal belongs to its owner.
//
// # Errors
//
// Returns `AllocError` if an allocation fails.
pub(crate) fn spread(
    alloc: Global,
    wires: &[Wire],
    owners: &[u32],
    channels: &[Option<u32>],
    order: &[u32],
    count: usize,
) -> Result<Vec<Pile>, AllocError>
    requires ends { All (AreEnds count) wires.now }
    requires owned { All (λ m. m < count) owners.now }
    requires same { length channels.now ≡ length owners.now }
    requires marked { AreChannels wires.now channels.now }
    requires known { All (λ s. s < length owners.now) order.now }
    ensures { IfOk result (λ lists. AreLists (signals_among wires.now owners.now channels.now order.now) count lists.items) }
{
    let mut lists = piles(alloc, count)?;
    put_signals(wires, owners, channels, order, &mut lists)?;
    Ok(lists)
}

// Adds each signal of an order to the lists of its machines. At first all lists are empty.
fn put_signals(
    wires: &[Wire],
    owners: &[u32],
    channels: &[Option<u32>],
    order: &[u32],
    lists: &mut [Pile],
) -> Result<(), AllocError>
    requires ends { All (AreEnds (length lists.old)) wires.now }
    requires owned { All (λ m. m < length lists.old) owners.now }
    requires same { length channels.now ≡ length owners.now }
    requires marked { AreChannels wires.now channels.now }
    requires known { All (λ s. s < length owners.now) order.now }
    requires empty { (m : ℕ) → slice_index_or lists.old m [] ≡ [] }
    ensures { OnOk result (AreLists (signals_among wires.now owners.now channels.now order.now) (length lists.old) lists.new) }
{
    for place in 0..order.len() {
        put_signal(wires, owners, channels, order[place], lists)?;
    }
    Ok(())
}

// Adds a signal to the lists of its machines.
fn put_signal(
    wires: &[Wire],
    owners: &[u32],
    channels: &[Option<u32>],
    signal: u32,
    lists: &mut [Pile],
) -> Result<(), AllocError>
    requires ends { All (AreEnds (length lists.old)) wires.now }
    requires owned { All (λ m. m < length lists.old) owners.now }
    requires same { length channels.now ≡ length owners.now }
    requires marked { AreChannels wires.now channels.now }
    requires known { signal < length owners.now }
    ensures { OnOk result (IsPut (λ m. has wires.now owners.now channels.now m signal) signal lists.old lists.new) }
{
    match channels[signal as usize] {
        Some(channel) => put_both(&wires[channel as usize], signal, lists),
        None => put(lists, owners[signal as usize], signal),
    }
}

// Adds a signal to the lists of the machines at both ends of a channel.
fn put_both(wire: &Wire, signal: u32, lists: &mut [Pile]) -> Result<(), AllocError>
    requires { AreEnds (length lists.old) wire.now }
    ensures { OnOk result (IsPut (λ m. (wire.now.producer == m) || (wire.now.consumer == m)) signal lists.old lists.new) }
{
    put(lists, wire.producer, signal)?;
    put(lists, wire.consumer, signal)
}

// The memories of each machine, by their numbers in the circuit.
//
// # Errors
//
// Returns `AllocError` if an allocation fails.
pub(crate) fn memories(
    alloc: Global,
    tree: &Tree,
    owners: &[u32],
    count: usize,
) -> Result<Vec<Pile>, AllocError>
    requires owned { All (λ m. m < count) owners.now }
    requires same { length owners.now ≡ length tree.now.memories }
    ensures { IfOk result (λ lists. AreLists (memories_below tree.now owners.now (length tree.now.memories)) count lists.items) }
{
    let mut lists = piles(alloc, count)?;
    put_memories(tree, owners, &mut lists)?;
    Ok(lists)
}

// Adds each memory to the list of its machine. At first all lists are empty.
fn put_memories(tree: &Tree, owners: &[u32], lists: &mut [Pile]) -> Result<(), AllocError>
    requires owned { All (λ m. m < length lists.old) owners.now }
    requires same { length owners.now ≡ length tree.now.memories }
    requires empty { (m : ℕ) → slice_index_or lists.old m [] ≡ [] }
    ensures { OnOk result (AreLists (memories_below tree.now owners.now (length tree.now.memories)) (length lists.old) lists.new) }
{
    for place in 0..tree.memory_count() {
        put(lists, owners[place], tree.memories()[place].memory)?;
    }
    Ok(())
}
