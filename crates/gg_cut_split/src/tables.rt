//! Tables: the machine of each signal, the channel of each signal, the machine of each memory.
ghost use Rattle.std.specs.Prelude.{◌≡◌, ℕ, ◌<◌, ◌≤◌, ◌^◌, ◌==◌, ◌&&◌, nat_le, nat_lt, None, length, replicate, slice_index_or, All, AllPairs, IfOk};
ghost use Rattle.gg_flat.specs.Line.{value_at};
ghost use Rattle.gg_flat_tree.specs.Tree.{instance_at, memory_at};
ghost use Rattle.gg_cut_plan.specs.Listed.{first_place, unit_or_hub, has_signal, memory_or, owner_of_instance, memory_owner};
ghost use Rattle.gg_cut_split.specs.inside.Spread.{claimed, AreChannels};

use gg_cut_plan::{Listed, Numbering, Wire};
use gg_flat_tree::Tree;
use std::alloc::{AllocError, Global};

// The machine that each signal belongs to by the instance that has it: the unit, otherwise the hub.
//
// # Errors
//
// Returns `AllocError` if an allocation fails.
pub(crate) fn signal_owners(
    alloc: Global,
    tree: &Tree,
    numbering: &Numbering,
    units: &[u32],
    count: usize,
) -> Result<Vec<u32>, AllocError>
    requires known { All (λ unit. unit < length tree.now.instances) units.now }
    requires inside { All (λ unit. ((instance_at tree.now unit).first ≤ (instance_at tree.now unit).end) × ((instance_at tree.now unit).end ≤ count)) units.now }
    requires units { numbering.now.units ≡ length units.now }
    ensures count { IfOk result (λ owners. length owners.items ≡ count) }
    ensures owners { IfOk result (λ owners. (s : ℕ) → value_at owners.items s ≡ unit_or_hub (first_place (has_signal tree.now s) units.now)) }
{
    let mut owners = zeros(alloc, count)?;
    claim_units(tree, numbering, units, &mut owners);
    Ok(owners)
}

// This many zeros.
fn zeros(alloc: Global, count: usize) -> Result<Vec<u32>, AllocError>
    ensures { IfOk result (λ zeros. zeros.items ≡ replicate count 0) }
{
    vec![in alloc; 0; count]
}

// Gives each unit its signals. At first all signals are the hub's.
fn claim_units(tree: &Tree, numbering: &Numbering, units: &[u32], owners: &mut [u32])
    requires known { All (λ unit. unit < length tree.now.instances) units.now }
    requires inside { All (λ unit. ((instance_at tree.now unit).first ≤ (instance_at tree.now unit).end) × ((instance_at tree.now unit).end ≤ length owners.old)) units.now }
    requires units { numbering.now.units ≡ length units.now }
    requires zeros { (s : ℕ) → value_at owners.old s ≡ 0 }
    ensures count { length owners.new ≡ length owners.old }
    ensures owners { (s : ℕ) → value_at owners.new s ≡ unit_or_hub (first_place (has_signal tree.now s) units.now) }
{
    for number in 0..units.len() {
        claim_unit(tree, units[number], numbering.unit(number), owners);
    }
}

// Gives a unit its signals that are still the hub's.
fn claim_unit(tree: &Tree, unit: u32, number: u32, owners: &mut [u32])
    requires known { unit < length tree.now.instances }
    requires range { (instance_at tree.now unit).first ≤ (instance_at tree.now unit).end }
    requires inside { (instance_at tree.now unit).end ≤ length owners.old }
    ensures count { length owners.new ≡ length owners.old }
    ensures owners { (s : ℕ) → value_at owners.new s ≡ claimed (has_signal tree.now s unit) number (value_at owners.old s) }
{
    let instance = &tree.instances()[unit as usize];
    claim(owners, instance.first, instance.end, number);
}

// Gives a machine the signals from `first` up to `end` that are still the hub's.
fn claim(owners: &mut [u32], first: u32, end: u32, number: u32)
    requires range { first ≤ end }
    requires inside { end ≤ length owners.old }
    ensures count { length owners.new ≡ length owners.old }
    ensures owners { (s : ℕ) → value_at owners.new s ≡ claimed (nat_le first s && nat_lt s end) number (value_at owners.old s) }
{
    for signal in first..end {
        if owners[signal as usize] == 0 {
            owners[signal as usize] = number;
        }
    }
}

// The channel of each signal, if it has one.
//
// # Errors
//
// Returns `AllocError` if an allocation fails.
pub(crate) fn channels_of(
    alloc: Global,
    wires: &[Wire],
    count: usize,
) -> Result<Vec<Option<u32>>, AllocError>
    requires few { length wires.now < 2 ^ 32 }
    requires known { All (λ w. w.signal < count) wires.now }
    ensures count { IfOk result (λ channels. length channels.items ≡ count) }
    ensures channels { IfOk result (λ channels. AreChannels wires.now channels.items) }
{
    let mut channels = nones(alloc, count)?;
    mark_channels(wires, &mut channels);
    Ok(channels)
}

// A list with `count` times none.
fn nones(alloc: Global, count: usize) -> Result<Vec<Option<u32>>, AllocError>
    ensures { IfOk result (λ nones. nones.items ≡ replicate count None) }
{
    let mut nones = Vec::new(alloc);
    for _ in 0..count {
        nones.push(None)?;
    }
    Ok(nones)
}

// Gives each signal its channel. At first no signal has one.
fn mark_channels(wires: &[Wire], channels: &mut [Option<u32>])
    requires few { length wires.now < 2 ^ 32 }
    requires known { All (λ w. w.signal < length channels.old) wires.now }
    requires nones { (s : ℕ) → slice_index_or channels.old s None ≡ None }
    ensures count { length channels.new ≡ length channels.old }
    ensures channels { AreChannels wires.now channels.new }
{
    for channel in 0..wires.len() {
        channels[wires[channel].signal as usize] = Some(channel as u32);
    }
}

// The machine of each memory, by its place in the tree. `owners` has the machine of each instance.
//
// # Errors
//
// Returns `AllocError` if an allocation fails.
pub(crate) fn memory_owners(
    alloc: Global,
    tree: &Tree,
    numbering: &Numbering,
    listed: &Listed,
    owners: &[u32],
) -> Result<Vec<u32>, AllocError>
    requires held { (k : ℕ) → k < length tree.now.memories → (memory_at tree.now k).instance < length owners.now }
    requires known { All (λ place. place < length tree.now.memories) listed.now.memories }
    requires ascending { AllPairs (λ a b. a < b) listed.now.memories }
    requires units { numbering.now.units ≡ length listed.now.units }
    requires memories { numbering.now.memories ≡ length listed.now.memories }
    requires owners { (k : ℕ) → k < length owners.now → value_at owners.now k ≡ owner_of_instance tree.now listed.now.units k }
    ensures count { IfOk result (λ found. length found.items ≡ length tree.now.memories) }
    ensures owners { IfOk result (λ found. (place : ℕ) → place < length tree.now.memories → value_at found.items place ≡ memory_owner tree.now listed.now place) }
{
    let mut found = holders(alloc, tree, owners)?;
    number_memories(numbering, listed.memories.as_slice(), &mut found);
    Ok(found)
}

// The machine of the instance of each memory.
fn holders(alloc: Global, tree: &Tree, owners: &[u32]) -> Result<Vec<u32>, AllocError>
    requires { (k : ℕ) → k < length tree.now.memories → (memory_at tree.now k).instance < length owners.now }
    ensures count { IfOk result (λ found. length found.items ≡ length tree.now.memories) }
    ensures owners { IfOk result (λ found. (place : ℕ) → place < length tree.now.memories → value_at found.items place ≡ value_at owners.now (memory_at tree.now place).instance) }
{
    let mut found = Vec::new(alloc);
    for place in 0..tree.memory_count() {
        found.push(owners[tree.memories()[place].instance as usize])?;
    }
    Ok(found)
}

// Gives each listed memory its machine's number.
fn number_memories(numbering: &Numbering, memories: &[u32], found: &mut [u32])
    requires known { All (λ place. place < length found.old) memories.now }
    requires ascending { AllPairs (λ a b. a < b) memories.now }
    requires memories { numbering.now.memories ≡ length memories.now }
    ensures count { length found.new ≡ length found.old }
    ensures numbers { (place : ℕ) → value_at found.new place ≡ memory_or numbering.now.units (value_at found.old place) (first_place (λ j. j == place) memories.now) }
{
    for number in 0..memories.len() {
        found[memories[number] as usize] = numbering.memory(number);
    }
}
