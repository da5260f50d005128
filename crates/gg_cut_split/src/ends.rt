//! `Ends`: the machines at the ports of the top.
ghost use Rattle.std.specs.Prelude.{◌≡◌, ℕ, ◌+◌, ◌-◌, ◌<◌, ◌≤◌, ◌^◌, ◌==◌, if◌then◌else◌, length, map, IfOk};
ghost use Rattle.std.specs.List.{range_with_len};
ghost use Rattle.gg_bits.specs.Lists.{count_below};
ghost use Rattle.gg_part.specs.KeepsToTree.{KeepsToTree};
ghost use Rattle.gg_cut_plan.specs.Ports.{machine_end, ports_of};
ghost use Rattle.gg_cut_plan.specs.inside.Machines.{end_after};
ghost use Rattle.gg_cut_plan.specs.inside.Ports.{counts_of};
ghost use Rattle.gg_cut_split.specs.inside.Ends.{AreEndsOf, AreTakers, at_places, is_open, number_by};

use crate::ports::takers_of;
use gg_bits::Ids;
use gg_cut_plan::{Listed, Numbering};
use gg_order::Design;
use gg_partfile::BridgeEntry;
use std::alloc::{AllocError, Global};

/// The numbers of the machines, which machine has each port of the top, and the ports that no bridge has.
pub struct Ends {
    /// The numbers of the machines.
    pub numbering: Numbering,
    /// The machine that gives each top input.
    pub givers: Vec<u32>,
    /// The machine that takes each top output and each stop.
    pub keepers: Vec<u32>,
    /// The inputs that no bridge drives, by their numbers in the circuit.
    pub ins: Ids,
    /// The outputs that no bridge sees, and the stops, by their numbers in the circuit.
    pub outs: Ids,
}

impl Drop for Ends {
    fn drop(self) {
        let Self {
            numbering: _,
            givers,
            keepers,
            ins,
            outs,
        } = self;
        drop(givers);
        drop(keepers);
        drop(ins);
        drop(outs);
    }
}

// Which bridge has each port.
struct Takers {
    // For each top input 0, or one more than the number of the bridge that drives it.
    drivers: Vec<u32>,
    // For each top output and each stop 0, or one more than the number of the bridge that sees it.
    viewers: Vec<u32>,
}

impl Drop for Takers {
    fn drop(self) {
        let Self { drivers, viewers } = self;
        drop(drivers);
        drop(viewers);
    }
}

/// The machines of a cut that lists this, at the ports of the top, with bridges by these entries.
///
/// # Errors
///
/// Returns `AllocError` if an allocation fails, or if there are 4,294,967,296 machines or more.
pub fn ends_of(
    alloc: Global,
    design: &Design,
    listed: &Listed,
    entries: &[BridgeEntry],
) -> Result<Ends, AllocError>
    requires { length entries.now < 2 ^ 32 }
    ensures { IfOk result (λ ends. AreEndsOf design.now.circuit design.now.tree listed.now entries.now ends) }
{
    let takers = port_takers(alloc, design, listed, entries)?;
    let sources = open_count(&takers.drivers);
    let trays = open_count(&takers.viewers);
    let numbering = numbering_of(listed, sources, trays, entries.len())?;
    let ends = ends_by(alloc, design, listed, entries, &takers, numbering)?;
    Ok(ends)
}

// Which bridge of these entries has each port.
fn port_takers(
    alloc: Global,
    design: &Design,
    _listed: &Listed,
    entries: &[BridgeEntry],
) -> Result<Takers, AllocError>
    requires { length entries.now < 2 ^ 32 }
    ensures { IfOk result (λ takers. AreTakers (ports_of design.now.circuit design.now.tree _listed.now entries.now) takers.drivers.items takers.viewers.items) }
{
    let piece = design.piece();
    let ins = piece.ins();
    let outs = piece.outs();
    let outputs = outs.len().saturating_sub(design.tree().stops().len());
    let drivers = takers_of(alloc, piece, entries, false, ins, ins.len())?;
    let viewers = takers_of(alloc, piece, entries, true, outs, outputs)?;
    Ok(Takers { drivers, viewers })
}

// How many ports no bridge has.
fn open_count(takers: &[u32]) -> usize
    ensures count { result ≡ count_below (is_open takers.now) (length takers.now) }
    ensures few { result ≤ length takers.now }
{
    let mut count = 0;
    for place in 0..takers.len() {
        count += one_if(takers[place] == 0);
    }
    count
}

// 1 if a fact holds, otherwise 0.
fn one_if(holds: bool) -> usize
    ensures one { result ≡ (if holds then 1 else 0) }
    ensures small { result ≤ 1 }
{
    if holds { 1 } else { 0 }
}

// The numbers of the machines, if there are fewer than 4,294,967,296.
fn numbering_of(
    listed: &Listed,
    sources: usize,
    trays: usize,
    bridges: usize,
) -> Result<Numbering, AllocError>
    ensures numbers { IfOk result (λ numbering. numbering ≡ record { units = length listed.now.units; memories = length listed.now.memories; sources = sources; trays = trays; bridges = bridges }) }
    ensures few { IfOk result (λ numbering. end_after (length listed.now.units) (length listed.now.memories) sources trays bridges < 2 ^ 32) }
{
    let units = listed.units.as_slice().len() as u128;
    let memories = listed.memories.as_slice().len() as u128;
    let ports = sources as u128 + trays as u128 + bridges as u128;
    if 1 + units + memories + ports > u32::MAX as u128 {
        return Err(AllocError);
    }
    Ok(Numbering::of(listed, sources, trays, bridges))
}

// The machines at the ports, from which bridge has each port and the numbers of the machines.
fn ends_by(
    alloc: Global,
    design: &Design,
    _listed: &Listed,
    _entries: &[BridgeEntry],
    takers: &Takers,
    numbering: Numbering,
) -> Result<Ends, AllocError>
    requires takers { AreTakers (ports_of design.now.circuit design.now.tree _listed.now _entries.now) takers.now.drivers.items takers.now.viewers.items }
    requires numbers { numbering ≡ counts_of _listed.now (ports_of design.now.circuit design.now.tree _listed.now _entries.now) }
    requires few { machine_end (ports_of design.now.circuit design.now.tree _listed.now _entries.now) < 2 ^ 32 }
    ensures { IfOk result (λ ends. AreEndsOf design.now.circuit design.now.tree _listed.now _entries.now ends) }
{
    let piece = design.piece();
    let bridge = numbering.first_bridge();
    let givers = numbers_by(alloc, &takers.drivers, numbering.first_source(), bridge)?;
    let keepers = numbers_by(alloc, &takers.viewers, numbering.first_tray(), bridge)?;
    let ins = open_at(alloc, piece.ins(), &takers.drivers)?;
    let outs = open_at(alloc, piece.outs(), &takers.viewers)?;
    Ok(Ends {
        numbering,
        givers,
        keepers,
        ins,
        outs,
    })
}

// The number of the machine of each port. The ports that no bridge has get numbers starting at `own`, the bridges numbers starting at `bridge`.
fn numbers_by(
    alloc: Global,
    takers: &[u32],
    own: usize,
    bridge: usize,
) -> Result<Vec<u32>, AllocError>
    requires own { own < 2 ^ 32 }
    requires bridge { bridge < 2 ^ 32 }
    requires within { (p : ℕ) → p < length takers.now → number_by own bridge takers.now p < 2 ^ 32 }
    ensures { IfOk result (λ numbers. numbers.items ≡ map (number_by own bridge takers.now) (range_with_len 0 (length takers.now))) }
{
    let mut numbers = Vec::new(alloc);
    let mut next = own;
    for place in 0..takers.len() {
        numbers.push(number_at(takers[place], next, bridge) as u32)?;
        next += one_if(takers[place] == 0);
    }
    Ok(numbers)
}

// The number of the machine of a port: its own, or the bridge's.
fn number_at(taker: u32, own: usize, bridge: usize) -> usize
    requires { bridge < 2 ^ 32 }
    ensures { result ≡ (if taker == 0 then own else bridge + (taker - 1)) }
{
    if taker == 0 {
        own
    } else {
        bridge + (taker as usize - 1)
    }
}

// The signals of the ports that no bridge has.
fn open_at(alloc: Global, signals: &[u32], takers: &[u32]) -> Result<Ids, AllocError>
    requires { length signals.now ≤ length takers.now }
    ensures { IfOk result (λ left. left ≡ at_places (is_open takers.now) signals.now) }
{
    let mut left = Vec::new(alloc);
    for place in 0..signals.len() {
        if takers[place] == 0 {
            left.push(signals[place])?;
        }
    }
    Ok(Ids::from(left))
}
