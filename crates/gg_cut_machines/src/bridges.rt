//! What bridges do.
ghost use Rattle.std.specs.Prelude.{◌≡◌, ℕ, ◌<◌, ◌^◌, Some, length, map, All, Contains, IfOk, OnOk};
ghost use Rattle.gg_flat.specs.Line.{value_at};
ghost use Rattle.gg_cut_plan.specs.Models.{model_names};
ghost use Rattle.gg_flat_tree.specs.Tree.{path_at};
ghost use Rattle.gg_cut_plan.specs.Bridges.{model_named};
ghost use Rattle.gg_cut_plan.specs.Plan.{port_place, wire_at};
ghost use Rattle.gg_cut_machines.specs.inside.Modelled.{IsModelled};

use gg_bits::{Ids, Name};
use gg_cut_plan::{BridgeBody, Models, Wire};
use gg_cut_split::{put_ports, set_named};
use gg_flat::Piece;
use gg_partfile::BridgeEntry;
use std::alloc::{AllocError, Global};

/// What the bridge of an entry does, if it takes and gives these channels. `table` has 0 for each signal, before and
/// after.
///
/// # Errors
///
/// Returns `AllocError` if an allocation fails.
pub fn bridge_body(
    alloc: Global,
    piece: &Piece,
    models: &Models,
    entry: &BridgeEntry,
    wires: &[Wire],
    ins: &[u32],
    outs: &[u32],
    table: &mut Vec<u32>,
) -> Result<BridgeBody, AllocError>
    requires known { Contains (model_names models.now) entry.now.name }
    requires sees { length entry.now.sees < 2 ^ 32 }
    requires drives { length entry.now.drives < 2 ^ 32 }
    requires wires { All (λ w. w.signal < length piece.now.signals) wires.now }
    requires ins { All (λ c. c < length wires.now) ins.now }
    requires outs { All (λ c. c < length wires.now) outs.now }
    requires count { length table.old.items ≡ length piece.now.signals }
    requires zero { (s : ℕ) → value_at table.old.items s ≡ 0 }
    ensures body { IfOk result (λ body. IsModelled piece.now.paths models.now entry.now wires.now ins.now outs.now body) }
    ensures count { OnOk result (length table.new.items ≡ length piece.now.signals) }
    ensures zero { OnOk result ((s : ℕ) → value_at table.new.items s ≡ 0) }
{
    let seen = port_places(alloc, piece, entry.sees.as_slice(), wires, ins, table)?;
    let driven = port_places(alloc, piece, entry.drives.as_slice(), wires, outs, table)?;
    let name = entry.name.clone()?;
    let model = model_copy(models, &entry.name)?;
    Ok(BridgeBody {
        name,
        model,
        ins: seen,
        outs: driven,
    })
}

// A copy of the model with a name.
fn model_copy(models: &Models, name: &Name) -> Result<Piece, AllocError>
    requires { Contains (model_names models.now) name.now }
    ensures { IfOk result (λ model. model_named models.now name.now ≡ Some model) }
{
    // for the invariant only
    let _ = models.len();
    match models.find(name) {
        Some(place) => match models.piece(place) {
            Some(model) => model.copy(),
            None => unreachable!(),
        },
        None => unreachable!(),
    }
}

// For each channel the place among these ports of the port that it is named by. `table` has 0 for each signal, before and
// after.
fn port_places(
    alloc: Global,
    piece: &Piece,
    ports: &[Name],
    wires: &[Wire],
    channels: &[u32],
    table: &mut Vec<u32>,
) -> Result<Ids, AllocError>
    requires few { length ports.now < 2 ^ 32 }
    requires wires { All (λ w. w.signal < length piece.now.signals) wires.now }
    requires channels { All (λ c. c < length wires.now) channels.now }
    requires count { length table.old.items ≡ length piece.now.signals }
    requires zero { (s : ℕ) → value_at table.old.items s ≡ 0 }
    ensures places { IfOk result (λ places. places ≡ map (λ c. port_place ports.now (path_at piece.now.paths (wire_at wires.now c).signal)) channels.now) }
    ensures count { OnOk result (length table.new.items ≡ length piece.now.signals) }
    ensures zero { OnOk result ((s : ℕ) → value_at table.new.items s ≡ 0) }
{
    put_places(piece, ports, table);
    let places = places_at(alloc, wires, channels, table)?;
    put_ports(piece, ports, 0, table);
    Ok(places)
}

// Writes the place of each port into the table, at its signal.
fn put_places(piece: &Piece, ports: &[Name], table: &mut Vec<u32>)
    requires few { length ports.now < 2 ^ 32 }
    requires count { length table.old.items ≡ length piece.now.signals }
    requires zero { (s : ℕ) → value_at table.old.items s ≡ 0 }
    ensures count { length table.new.items ≡ length piece.now.signals }
    ensures places { (s : ℕ) → s < length piece.now.signals → value_at table.new.items s ≡ port_place ports.now (path_at piece.now.paths s) }
{
    for step in 0..ports.len() {
        let place = ports.len() - 1 - step;
        set_named(piece, &ports[place], place as u32, table);
    }
}

// What the table has for the signals of these channels.
fn places_at(
    alloc: Global,
    wires: &[Wire],
    channels: &[u32],
    table: &[u32],
) -> Result<Ids, AllocError>
    requires wires { All (λ w. w.signal < length table.now) wires.now }
    requires channels { All (λ c. c < length wires.now) channels.now }
    ensures { IfOk result (λ places. places ≡ map (λ c. value_at table.now (wire_at wires.now c).signal) channels.now) }
{
    let mut places = Vec::new(alloc);
    for channel in channels {
        places.push(table[wires[*channel as usize].signal as usize])?;
    }
    Ok(Ids::from(places))
}
