//! The Clock inputs that instances follow inside of their units.
ghost use Rattle.std.specs.Prelude.{◌≡◌, ◌⊎◌, ◌↔◌, ℕ, ◌<◌, ◌≤◌, ◌^◌, [], Bool, Some, None, false, length, map, replicate, slice_index_or, All, IfOk, if◌then◌else◌};
ghost use Rattle.gg_flat.specs.declared.piece.Driver.TheVariants.{Held};
ghost use Rattle.gg_flat.specs.Circuit.{driver_at};
ghost use Rattle.gg_flat.specs.WellFormed.{IsWellFormed};
ghost use Rattle.gg_flat_tree.specs.inside.Clocked.{AreParentsBefore};
ghost use Rattle.gg_flat_tree.specs.Clocked.{clock_at, clocks_from, through_parent};
ghost use Rattle.gg_flat.specs.Line.{value_at};
ghost use Rattle.gg_flat_tree.specs.Tree.{instance_at};
ghost use Rattle.gg_cut_parts.specs.inside.Innermost.{IsLast, IsTimedBy};
ghost use Rattle.gg_part.specs.inside.Domains.{inner_clocks};

use gg_flat::{Driver, Piece};
use gg_flat_tree::{ClockNumbers, Instance, MemoryInstance, Tree, clock_at, clocks_at};
use std::alloc::{AllocError, Global};

// This many numbered clocks.
//
// # Errors
//
// Returns `AllocError` if an allocation fails.
pub(crate) fn numbered(alloc: Global, count: u32) -> Result<ClockNumbers, AllocError>
    ensures clocks { IfOk result (λ clocks. clocks ≡ clocks_from 0 count) }
    ensures few { IfOk result (λ clocks. length clocks < 2 ^ 32) }
{
    let mut clocks = Vec::new(alloc);
    for number in 0..count {
        clocks.push(Some(number))?;
    }
    Ok(ClockNumbers::from(clocks))
}

// A numbered clock for each of these Clock inputs. Returns `AllocError` for more than 4,294,967,295.
fn numbered_for(alloc: Global, inputs: &[Option<u32>]) -> Result<ClockNumbers, AllocError>
    ensures { IfOk result (λ clocks. clocks ≡ clocks_from 0 (length inputs.now)) }
{
    if inputs.len() > u32::MAX as usize {
        return Err(AllocError);
    }
    numbered(alloc, inputs.len() as u32)
}

// What the Clock inputs of an instance follow, from what the Clock inputs of the instances before it follow.
fn inner_of(
    alloc: Global,
    before: &[ClockNumbers],
    instance: &Instance,
    is_home: bool,
) -> Result<ClockNumbers, AllocError>
    requires { (above : ℕ) → instance.now.parent ≡ Some above → above < length before.now }
    ensures { IfOk result (λ clocks. clocks ≡ (if is_home then clocks_from 0 (length instance.now.clocks) else through_parent
        (λ parent. slice_index_or before.now parent []) instance.now.parent instance.now.clocks)) }
{
    if is_home {
        return numbered_for(alloc, instance.clocks.as_slice());
    }
    match instance.parent {
        None => instance.clocks.clone(),
        Some(parent) => {
            let above = before[parent as usize].as_slice();
            let clocks = clocks_at(alloc, above, instance.clocks.as_slice())?;
            Ok(ClockNumbers::from(clocks))
        }
    }
}

// For each instance, in order, the Clock inputs of its home that its Clock inputs follow. `homes` marks the instances that are homes.
//
// # Errors
//
// Returns `AllocError` if an allocation fails, or if a home has more than 4,294,967,295 Clock inputs.
pub(crate) fn inner_table(
    alloc: Global,
    tree: &Tree,
    homes: &[bool],
) -> Result<Vec<ClockNumbers>, AllocError>
    requires before { AreParentsBefore tree.now }
    requires count { length homes.now ≡ length tree.now.instances }
    ensures count { IfOk result (λ clocks. length clocks.items ≡ length tree.now.instances) }
    ensures each { IfOk result (λ clocks. (k : ℕ) → k < length tree.now.instances → slice_index_or clocks.items k [] ≡ inner_clocks (λ n. slice_index_or homes.now n false) tree.now k) }
{
    let mut clocks: Vec<ClockNumbers> = Vec::new(alloc);
    let instances = tree.instances();
    for place in 0..instances.len() {
        let next = inner_of(alloc, clocks.as_slice(), &instances[place], homes[place])?;
        clocks.reserve(1)?;
        clocks.push_reserved(next);
    }
    Ok(clocks)
}

// ---- the innermost instances of signals

// Sets the places of the signals from `first` up to `end`.
fn paint(places: &mut [u32], first: u32, end: u32, place: u32)
    requires range { first ≤ end }
    requires inside { end ≤ length places.old }
    ensures count { length places.new ≡ length places.old }
    ensures here { (s : ℕ) → first ≤ s → s < end → value_at places.new s ≡ place }
    ensures others { (s : ℕ) → (s < first) ⊎ (end ≤ s) → value_at places.new s ≡ value_at places.old s }
{
    for signal in first..end {
        places[signal as usize] = place;
    }
}

// For each of `count` signals the place of the last instance that has it: the innermost one, since what an instance holds comes after it.
//
// # Errors
//
// Returns `AllocError` if an allocation fails.
pub(crate) fn innermost(alloc: Global, tree: &Tree, count: usize) -> Result<Vec<u32>, AllocError>
    requires { (k : ℕ) → k < length tree.now.instances → ((instance_at tree.now k).first ≤ (instance_at tree.now k).end) × ((instance_at tree.now k).end ≤ count) }
    ensures count { IfOk result (λ places. length places.items ≡ count) }
    ensures last { IfOk result (λ places. (s k : ℕ) → k < length tree.now.instances → (instance_at tree.now k).first ≤ s
        → s < (instance_at tree.now k).end → IsLast tree.now (length tree.now.instances) s (value_at places.items s)) }
{
    let mut places = vec![in alloc; 0u32; count]?;
    let instances = tree.instances();
    let many = tree.len();
    for place in 0..many {
        let instance = &instances[place];
        paint(
            places.as_mut_slice(),
            instance.first,
            instance.end,
            place as u32,
        );
    }
    Ok(places)
}

// ---- what registers follow

// A list with `count` times none.
fn nones(alloc: Global, count: usize) -> Result<Vec<Option<u32>>, AllocError>
    ensures { IfOk result (λ nones. nones.items ≡ replicate count None) }
{
    let mut nones = Vec::new(alloc);
    for _ in 0..count {
        nones.push(None)?;
    }
    Ok(nones)
}

// The register that a signal holds, if it holds one.
fn held_by(piece: &Piece, signal: usize) -> Option<u32>
    requires { signal < length piece.now.signals }
    ensures held { (r : ℕ) → (result ≡ Some r) ↔ (driver_at piece.now signal ≡ Held r) }
{
    match &piece.signals()[signal].driver {
        Driver::Held(register) => Some(*register),
        _ => None,
    }
}

// Sets what each register that a signal holds follows.
fn fill_registers(
    piece: &Piece,
    tree: &Tree,
    inner: &[ClockNumbers],
    places: &[u32],
    table: &mut [Option<u32>],
)
    requires formed { IsWellFormed piece.now }
    requires registers { length tree.now.register_clocks ≡ length piece.now.registers }
    requires places { length places.now ≡ length piece.now.signals }
    requires known { All (λ k. k < length inner.now) places.now }
    requires count { length table.old ≡ length piece.now.registers }
    ensures count { length table.new ≡ length table.old }
    ensures each { (s r : ℕ) → s < length piece.now.signals → driver_at piece.now s ≡ Held r → IsTimedBy piece.now tree.now inner.now places.now table.new r }
{
    for signal in 0..piece.signals().len() {
        if let Some(register) = held_by(piece, signal) {
            let own = tree.register_clocks()[register as usize];
            let instance = places[signal] as usize;
            table[register as usize] = clock_at(inner[instance].as_slice(), own);
        }
    }
}

// For each register that a signal holds the Clock input of its home that it follows, if any. `inner` has what the Clock inputs of each
// instance follow, and `places` the innermost instance of each signal.
//
// # Errors
//
// Returns `AllocError` if an allocation fails.
pub(crate) fn register_table(
    alloc: Global,
    piece: &Piece,
    tree: &Tree,
    inner: &[ClockNumbers],
    places: &[u32],
) -> Result<Vec<Option<u32>>, AllocError>
    requires formed { IsWellFormed piece.now }
    requires registers { length tree.now.register_clocks ≡ length piece.now.registers }
    requires places { length places.now ≡ length piece.now.signals }
    requires known { All (λ k. k < length inner.now) places.now }
    ensures count { IfOk result (λ table. length table.items ≡ length piece.now.registers) }
    ensures each { IfOk result (λ table. (s r : ℕ) → s < length piece.now.signals → driver_at piece.now s ≡ Held r → IsTimedBy piece.now tree.now inner.now places.now table.items r) }
{
    let mut table = nones(alloc, piece.registers().len())?;
    fill_registers(piece, tree, inner, places, table.as_mut_slice());
    Ok(table)
}

// For each memory the Clock inputs of its home that its ports follow, if any. `inner` has what the Clock inputs of each instance follow.
//
// # Errors
//
// Returns `AllocError` if an allocation fails.
pub(crate) fn port_table(
    alloc: Global,
    memories: &[MemoryInstance],
    inner: &[ClockNumbers],
) -> Result<Vec<ClockNumbers>, AllocError>
    requires { All (λ memory. memory.instance < length inner.now) memories.now }
    ensures { IfOk result (λ ports. ports.items ≡ map (λ memory. map (clock_at (slice_index_or inner.now memory.instance [])) memory.clocks) memories.now) }
{
    let mut ports: Vec<ClockNumbers> = Vec::new(alloc);
    for memory in memories {
        let above = inner[memory.instance as usize].as_slice();
        let own = clocks_at(alloc, above, memory.clocks.as_slice())?;
        ports.reserve(1)?;
        ports.push_reserved(ClockNumbers::from(own));
    }
    Ok(ports)
}
