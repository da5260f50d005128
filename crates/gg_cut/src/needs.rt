//! The needs of the channels.
ghost use Rattle.std.specs.Prelude.{◌≡◌, ◌≢◌, ℕ, ◌<◌, List, [], length, map, replicate, slice_index_or, slice_set, All, AllPairs, IfOk, OnOk};
ghost use Rattle.gg_flat.specs.Line.{value_at};
ghost use Rattle.gg_cut_plan.specs.declared.plan.Machine.{Machine};
ghost use Rattle.gg_cut_plan.specs.Plan.{wire_at, channels_to, channels_from};
ghost use Rattle.gg_cut.specs.inside.Made.{IsFit, IsServed, ArePartNeeds, ArePut, AreGiven, AreTold};

use gg_bits::Ids;
use gg_cut_plan::{Body, Machine, Wire};
use gg_order::needs_of;
use gg_part::Part;
use std::alloc::{AllocError, Global};
use std::mem::replace;

// The needs of each channel, by the channel's number.
//
// # Errors
//
// Returns `AllocError` if an allocation fails.
pub(crate) fn needs_table(
    alloc: Global,
    wires: &[Wire],
    machines: &[Machine],
) -> Result<Vec<Ids>, AllocError>
    requires fit { (m : ℕ) (any : Machine) → m < length machines.now → IsFit wires.now m (slice_index_or machines.now m any) }
    requires given { (c : ℕ) → c < length wires.now → (wire_at wires.now c).producer < length machines.now }
    ensures { IfOk result (λ table. AreTold wires.now machines.now table.items) }
{
    let mut table = empty_lists(alloc, wires.len())?;
    for number in 0..machines.len() {
        tell_machine(alloc, wires, &machines[number], number, &mut table)?;
    }
    Ok(table)
}

// A list with `count` empty lists.
fn empty_lists(alloc: Global, count: usize) -> Result<Vec<Ids>, AllocError>
    ensures { IfOk result (λ lists. lists.items ≡ replicate count []) }
{
    let mut lists = Vec::new(alloc);
    for _number in 0..count {
        lists.push(Ids::from(Vec::new(alloc)))?;
    }
    Ok(lists)
}

// Writes the needs of the channels that a machine gives into the table.
fn tell_machine(
    alloc: Global,
    wires: &[Wire],
    machine: &Machine,
    number: usize,
    table: &mut Vec<Ids>,
) -> Result<(), AllocError>
    requires fit { IsFit wires.now number machine.now }
    requires count { length table.old.items ≡ length wires.now }
    requires none { (c : ℕ) → c < length wires.now → (wire_at wires.now c).producer ≡ number → slice_index_or table.old.items c [] ≡ [] }
    ensures count { OnOk result (length table.new.items ≡ length table.old.items) }
    ensures told { OnOk result ((c : ℕ) → c < length wires.now → (wire_at wires.now c).producer ≡ number → AreGiven machine.now (wire_at wires.now c) (slice_index_or table.new.items c [])) }
    ensures others { OnOk result ((c : ℕ) → c < length wires.now → (wire_at wires.now c).producer ≢ number → slice_index_or table.new.items c [] ≡ slice_index_or table.old.items c []) }
{
    let ins = machine.ins.as_slice();
    let outs = machine.outs.as_slice();
    match &machine.body {
        Body::Cut(part) => tell_part(alloc, wires, part, ins, outs, number, table),
        Body::Memory(part) => tell_part(alloc, wires, part, ins, outs, number, table),
        Body::Source(_) | Body::Tray | Body::Bridge(_) => Ok(()),
    }
}

// Writes the needs of the channels that a machine with a part gives into the table.
fn tell_part(
    alloc: Global,
    _wires: &[Wire],
    part: &Part,
    ins: &[u32],
    outs: &[u32],
    _number: usize,
    table: &mut Vec<Ids>,
) -> Result<(), AllocError>
    requires served { IsServed _wires.now part.now ins.now outs.now }
    requires ins { ins.now ≡ channels_to _wires.now _number }
    requires outs { outs.now ≡ channels_from _wires.now _number }
    requires count { length table.old.items ≡ length _wires.now }
    ensures count { OnOk result (length table.new.items ≡ length table.old.items) }
    ensures told { OnOk result ((c : ℕ) → c < length _wires.now → (wire_at _wires.now c).producer ≡ _number
        → ArePartNeeds part.now ins.now (wire_at _wires.now c).given (slice_index_or table.new.items c [])) }
    ensures others { OnOk result ((c : ℕ) → c < length _wires.now → (wire_at _wires.now c).producer ≢ _number → slice_index_or table.new.items c [] ≡ slice_index_or table.old.items c []) }
{
    let mut lists = needs_of(alloc, &part.piece)?;
    put_all(alloc, &mut lists, ins, outs, table);
    Ok(())
}

// Writes lists into the table at the channels `outs`. The list for a channel has the channels of `ins` at the places
// that `lists` gives.
fn put_all(alloc: Global, lists: &mut Vec<Ids>, ins: &[u32], outs: &[u32], table: &mut Vec<Ids>)
    requires count { length lists.old.items ≡ length outs.now }
    requires places { (i : ℕ) → i < length outs.now → All (λ place. place < length ins.now) (slice_index_or lists.old.items i []) }
    requires known { All (λ c. c < length table.old.items) outs.now }
    requires once { AllPairs (λ a b. a ≢ b) outs.now }
    ensures { ArePut ins.now outs.now lists.old.items table.old.items (length outs.now) table.new.items }
{
    for place in 0..outs.len() {
        let list = take_list(alloc, lists, place);
        table[outs[place] as usize] = renamed(list, ins);
    }
}

// Takes the list at a place, and leaves an empty one there.
pub(crate) fn take_list(alloc: Global, lists: &mut Vec<Ids>, place: usize) -> Ids
    requires { place < length lists.old.items }
    ensures list { result ≡ slice_index_or lists.old.items place [] }
    ensures rest { lists.new.items ≡ slice_set lists.old.items place [] }
{
    replace(&mut lists[place], Ids::from(Vec::new(alloc)))
}

// The values at these places, in the same list.
fn renamed(list: Ids, values: &[u32]) -> Ids
    requires { All (λ place. place < length values.now) list }
    ensures { result ≡ map (value_at values.now) list }
{
    let mut items = list.into_vec();
    for index in 0..items.len() {
        let place = items[index];
        items[index] = values[place as usize];
    }
    Ids::from(items)
}
