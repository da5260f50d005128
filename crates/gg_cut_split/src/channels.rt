//! The channels, in their order.
ghost use Rattle.std.specs.Prelude.{◌≡◌, ℕ, ◌<◌, ◌++◌, length, map, All, OnOk, IfOk};
ghost use Rattle.gg_flat.specs.Line.{value_at};
ghost use Rattle.gg_flat_tree.specs.Tree.{IsTree, instance_at, parent_place};
ghost use Rattle.gg_cut_plan.specs.Listed.{owner_of, owner_of_instance};
ghost use Rattle.gg_flat.specs.Circuit.{readers_at};
ghost use Rattle.gg_flat_tree.specs.Scoped.{writers_at};
ghost use Rattle.gg_cut_plan.specs.Machines.{first_unit, first_memory};
ghost use Rattle.gg_cut_split.specs.inside.Beginning.{IsWhole};
ghost use Rattle.gg_cut_plan.specs.Channels.{wire, numbered, flattened, port_wire, port_wires, reader_wires, writer_wires, field_wires, wires_of};
ghost use Rattle.gg_cut_split.specs.inside.Spread.{given_wires, held_wires};

use crate::beginning::Whole;
use gg_cut_plan::{Listed, Numbering, Wire};
use gg_flat::{Piece, Reader, Writer};
use gg_flat_tree::{InstancePort, Tree};
use std::alloc::{AllocError, Global};

// The channels of a cut, in their order. `owners` has the machine of each instance, and `holders` the machine of each out-signal of the top.
//
// # Errors
//
// Returns `AllocError` if an allocation fails.
pub(crate) fn channels(
    alloc: Global,
    whole: &Whole,
    owners: &[u32],
    holders: &[u32],
) -> Result<Vec<Wire>, AllocError>
    requires whole { IsWhole whole.now }
    requires known { All (λ s. s < length holders.now) whole.now.piece.now.outs }
    requires holders { All (λ s. value_at holders.now s ≡ owner_of whole.now.piece.now whole.now.tree.now whole.now.listed.now s) whole.now.piece.now.outs }
    requires count { length owners.now ≡ length whole.now.tree.now.instances }
    requires owners { (k : ℕ) → k < length whole.now.tree.now.instances → value_at owners.now k ≡ owner_of_instance whole.now.tree.now whole.now.listed.now.units k }
    ensures { IfOk result (λ wires. wires.items ≡ wires_of whole.now.piece.now whole.now.tree.now whole.now.listed.now whole.now.entries.now) }
{
    let piece = whole.piece;
    let tree = whole.tree;
    let listed = whole.listed;
    let ends = whole.ends;
    let numbering = &ends.numbering;
    let mut wires = Vec::new(alloc);
    push_inputs(&mut wires, &ends.givers, piece.ins())?;
    push_units(
        &mut wires,
        piece,
        tree,
        numbering,
        listed.units.as_slice(),
        owners,
    )?;
    push_memories(&mut wires, piece, tree, numbering, listed, owners)?;
    push_outputs(&mut wires, &ends.keepers, piece.outs(), holders)?;
    Ok(wires)
}

// Adds the channels of the top's inputs, from the machines that give them.
fn push_inputs(wires: &mut Vec<Wire>, givers: &[u32], ins: &[u32]) -> Result<(), AllocError>
    requires { length givers.now ≡ length ins.now }
    ensures { OnOk result (wires.new.items ≡ wires.old.items ++ numbered (given_wires givers.now) 0 ins.now) }
{
    for place in 0..ins.len() {
        wires.push(to(ins[place], givers[place], 0))?;
    }
    Ok(())
}

// Adds the channels of the top's out-signals, from the machines that have them to the machines that take them.
fn push_outputs(
    wires: &mut Vec<Wire>,
    keepers: &[u32],
    outs: &[u32],
    holders: &[u32],
) -> Result<(), AllocError>
    requires count { length keepers.now ≡ length outs.now }
    requires known { All (λ s. s < length holders.now) outs.now }
    ensures { OnOk result (wires.new.items ≡ wires.old.items ++ numbered (held_wires holders.now keepers.now) 0 outs.now) }
{
    for place in 0..outs.len() {
        let signal = outs[place];
        wires.push(to(signal, holders[signal as usize], keepers[place]))?;
    }
    Ok(())
}

// Adds the channels of the units' ports.
fn push_units(
    wires: &mut Vec<Wire>,
    piece: &Piece,
    tree: &Tree,
    numbering: &Numbering,
    units: &[u32],
    owners: &[u32],
) -> Result<(), AllocError>
    requires fitting { IsTree piece.now tree.now }
    requires known { All (λ unit. unit < length tree.now.instances) units.now }
    requires units { numbering.now.units ≡ length units.now }
    requires count { length owners.now ≡ length tree.now.instances }
    requires owners { (k : ℕ) → k < length tree.now.instances → value_at owners.now k ≡ owner_of_instance tree.now units.now k }
    ensures { OnOk result (wires.new.items ≡ wires.old.items ++ numbered (port_wires tree.now units.now) first_unit units.now) }
{
    for place in 0..units.len() {
        let unit = units[place];
        let outside = outside_of(piece, tree, owners, unit);
        let ports = tree.instances()[unit as usize].ports.as_slice();
        push_ports(wires, ports, outside, numbering.unit(place))?;
    }
    Ok(())
}

// The machine outside an instance, from the machines of all instances.
fn outside_of(_piece: &Piece, tree: &Tree, owners: &[u32], place: u32) -> u32
    requires fitting { IsTree _piece.now tree.now }
    requires known { place < length tree.now.instances }
    requires count { length owners.now ≡ length tree.now.instances }
    ensures { result ≡ value_at owners.now (parent_place (instance_at tree.now place).parent) }
{
    match tree.instances()[place as usize].parent {
        Some(parent) => owners[parent as usize],
        None => owners[0],
    }
}

// Adds the channels of a unit's ports.
fn push_ports(
    wires: &mut Vec<Wire>,
    ports: &[InstancePort],
    outside: u32,
    unit: u32,
) -> Result<(), AllocError>
    ensures { OnOk result (wires.new.items ≡ wires.old.items ++ map (port_wire outside unit) ports.now) }
{
    for port in ports {
        wires.push(wire_of(port, outside, unit))?;
    }
    Ok(())
}

// The channel of a unit's port.
fn wire_of(port: &InstancePort, outside: u32, unit: u32) -> Wire
    ensures { result ≡ port_wire outside unit port.now }
{
    if port.is_input {
        to(port.signal, outside, unit)
    } else {
        to(port.signal, unit, outside)
    }
}

// Adds the channels of the listed memories' fields.
fn push_memories(
    wires: &mut Vec<Wire>,
    piece: &Piece,
    tree: &Tree,
    numbering: &Numbering,
    listed: &Listed,
    owners: &[u32],
) -> Result<(), AllocError>
    requires fitting { IsTree piece.now tree.now }
    requires known { All (λ place. place < length tree.now.memories) listed.now.memories }
    requires units { numbering.now.units ≡ length listed.now.units }
    requires memories { numbering.now.memories ≡ length listed.now.memories }
    requires count { length owners.now ≡ length tree.now.instances }
    requires owners { (k : ℕ) → k < length tree.now.instances → value_at owners.now k ≡ owner_of_instance tree.now listed.now.units k }
    ensures { OnOk result (wires.new.items ≡ wires.old.items ++ numbered (field_wires piece.now tree.now listed.now.units) (first_memory listed.now) listed.now.memories) }
{
    let memories = listed.memories.as_slice();
    for place in 0..memories.len() {
        let memory = &tree.memories()[memories[place] as usize];
        let outside = owners[memory.instance as usize];
        push_fields(
            wires,
            piece,
            memory.memory,
            outside,
            numbering.memory(place),
        )?;
    }
    Ok(())
}

// Adds the channels of a memory's fields.
fn push_fields(
    wires: &mut Vec<Wire>,
    piece: &Piece,
    memory: u32,
    outside: u32,
    number: u32,
) -> Result<(), AllocError>
    requires { memory < length piece.now.memories }
    ensures { OnOk result (wires.new.items ≡ wires.old.items
        ++ (flattened (reader_wires outside number) (readers_at piece.now memory)
        ++ flattened (writer_wires outside number) (writers_at piece.now memory))) }
{
    let memory = &piece.memories()[memory as usize];
    push_readers(wires, memory.readers.as_slice(), outside, number)?;
    push_writers(wires, memory.writers.as_slice(), outside, number)
}

// Adds the channels of readers' fields.
fn push_readers(
    wires: &mut Vec<Wire>,
    readers: &[Reader],
    outside: u32,
    number: u32,
) -> Result<(), AllocError>
    ensures { OnOk result (wires.new.items ≡ wires.old.items ++ flattened (reader_wires outside number) readers.now) }
{
    for reader in readers {
        wires.push(to(reader.addr, outside, number))?;
        wires.push(to(reader.en, outside, number))?;
        wires.push(to(reader.word, number, outside))?;
    }
    Ok(())
}

// Adds the channels of writers' fields.
fn push_writers(
    wires: &mut Vec<Wire>,
    writers: &[Writer],
    outside: u32,
    number: u32,
) -> Result<(), AllocError>
    ensures { OnOk result (wires.new.items ≡ wires.old.items ++ flattened (writer_wires outside number) writers.now) }
{
    for writer in writers {
        wires.push(to(writer.addr, outside, number))?;
        wires.push(to(writer.en, outside, number))?;
        wires.push(to(writer.word, outside, number))?;
        wires.push(to(writer.mask, outside, number))?;
    }
    Ok(())
}

// The channel of a signal from one machine to another.
fn to(signal: u32, producer: u32, consumer: u32) -> Wire
    ensures { result ≡ wire signal producer consumer }
{
    Wire {
        signal,
        given: signal,
        producer,
        consumer,
    }
}
