//! The names of the machines.
ghost use Rattle.std.specs.Prelude.{◌≡◌, map, codes, ◌++◌, IfOk, OnOk};
ghost use Rattle.gg_flat_tree.specs.Tree.{path_at};
ghost use Rattle.gg_cut_plan.specs.Plan.{machine_names};
ghost use Rattle.gg_cut_parts.specs.inside.Draft.{IsDraft};

use gg_bits::Name;
use gg_cut_parts::{Draft, signal_name};
use gg_flat::Piece;
use gg_flat_tree::Tree;
use gg_partfile::BridgeEntry;
use std::alloc::{AllocError, Global};

// The names of the machines of a plan, by their numbers.
//
// # Errors
//
// Returns `AllocError` if an allocation fails.
pub(crate) fn machine_names(alloc: Global, draft: &Draft) -> Result<Vec<Name>, AllocError>
    requires { IsDraft draft.now }
    ensures { IfOk result (λ names. names.items ≡ machine_names draft.now.design.now draft.now.request.now draft.now.listed) }
{
    let piece = draft.design.piece();
    let tree = draft.design.tree();
    let units = draft.request.units.as_slice();
    let memories = draft.listed.memories.as_slice();
    let entries = draft.request.bridges.as_slice();
    let ins = draft.ends.ins.as_slice();
    let outs = draft.ends.outs.as_slice();
    // the stops come after the outputs
    let outputs = outs.len().saturating_sub(tree.stops().len());
    let hub = Name::from_str(alloc, "hub:")?;
    let mut names = Vec::new(alloc);
    names.push(hub)?;
    push_units(units, &mut names)?;
    push_memories(alloc, tree, memories, &mut names)?;
    push_ports(alloc, "in:", piece, ins, &mut names)?;
    push_ports(alloc, "out:", piece, &outs[..outputs], &mut names)?;
    push_ports(alloc, "halt:", piece, &outs[outputs..], &mut names)?;
    push_bridges(alloc, entries, &mut names)?;
    Ok(names)
}

// Adds the names of units, which are their paths.
fn push_units(units: &[Name], names: &mut Vec<Name>) -> Result<(), AllocError>
    ensures { OnOk result (names.new.items ≡ names.old.items ++ units.now) }
{
    for unit in units {
        names.push(unit.clone()?)?;
    }
    Ok(())
}

// Adds the names of listed memories, by their places in the tree.
fn push_memories(
    alloc: Global,
    tree: &Tree,
    memories: &[u32],
    names: &mut Vec<Name>,
) -> Result<(), AllocError>
    ensures { OnOk result (names.new.items ≡ names.old.items ++ map (path_at tree.now.memory_paths) memories.now) }
{
    for place in memories {
        names.push(memory_name(alloc, tree, *place)?)?;
    }
    Ok(())
}

// Adds the names of ports: a word followed by the path of each of these signals.
fn push_ports(
    alloc: Global,
    word: &str,
    piece: &Piece,
    signals: &[u32],
    names: &mut Vec<Name>,
) -> Result<(), AllocError>
    ensures { OnOk result (names.new.items ≡ names.old.items ++ map (λ s. word.now ++ path_at piece.now.paths s) signals.now) }
{
    for signal in signals {
        names.push(port_name(alloc, word, piece, *signal)?)?;
    }
    Ok(())
}

// Adds the names of bridges.
fn push_bridges(
    alloc: Global,
    entries: &[BridgeEntry],
    names: &mut Vec<Name>,
) -> Result<(), AllocError>
    ensures { OnOk result (names.new.items ≡ names.old.items ++ map (λ entry. codes "bridge:" ++ entry.name) entries.now) }
{
    for entry in entries {
        names.push(worded(alloc, "bridge:", &entry.name)?)?;
    }
    Ok(())
}

// The path of a memory, by its place in the tree; the empty path if there is none.
fn memory_name(alloc: Global, tree: &Tree, place: u32) -> Result<Name, AllocError>
    ensures { IfOk result (λ name. name ≡ path_at tree.now.memory_paths place) }
{
    match tree.memory_path(place) {
        Some(path) => path.clone(),
        None => Name::from_str(alloc, ""),
    }
}

// A word followed by the path of a signal.
fn port_name(alloc: Global, word: &str, piece: &Piece, signal: u32) -> Result<Name, AllocError>
    ensures { IfOk result (λ name. name ≡ word.now ++ path_at piece.now.paths signal) }
{
    let path = signal_name(alloc, piece, signal)?;
    worded(alloc, word, &path)
}

// A word followed by a name.
fn worded(alloc: Global, word: &str, name: &Name) -> Result<Name, AllocError>
    ensures { IfOk result (λ worded. worded ≡ word.now ++ name.now) }
{
    let mut text = String::from_str(alloc, word)?;
    text.push_str(name.as_str())?;
    Ok(Name::from(text))
}
