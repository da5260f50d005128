//! The ports that no bridge has.
ghost use Rattle.std.specs.Prelude.{◌≡◌, ◌<◌, ◌||◌, ◌++◌, ◌∷◌, [], ℕ, List, All, IfOk, OnOk, bytes_eq, filter, length, not};
ghost use Rattle.gg_cut_plan.specs.Listed.{is_among};
ghost use Rattle.gg_flat_tree.specs.Tree.{path_at};
ghost use Rattle.gg_flat.specs.WellFormed.{IsWellFormed};
ghost use Rattle.gg_part.specs.KeepsToTree.{KeepsToTree};
ghost use Rattle.gg_partfile.specs.Size.{all_driven, all_seen};
ghost use Rattle.golden_commands.specs.RunText.{fed_ports, outputs_of, shown_ports};
ghost use Rattle.gg_flat_tree.specs.Scoped.{output_signals};

use gg_bits::{AddError, Name, Paths};
use gg_flat::{Piece, Ports};
use gg_flat_tree::{InstancePort, Tree};
use gg_order::Design;
use gg_partfile::{BridgeEntry, Request};
use std::alloc::{AllocError, Global};

// Whether a name is in a set.
fn has(set: &Paths, name: &Name) -> bool
    ensures { result ≡ is_among set.now name.now }
{
    match set.find(name) {
        Some(_) => true,
        None => false,
    }
}

// Adds a name to a set, if it isn't there yet.
fn include(set: &mut Paths, name: &Name) -> Result<(), AllocError>
    ensures { OnOk result ((other : List ℕ) → is_among set.new other ≡ (is_among set.old other || bytes_eq other name.now)) }
{
    if set.len() >= 4_294_967_295 {
        return Err(AllocError);
    }
    match set.add(name.clone()?) {
        Ok(()) | Err(AddError::Doubled) => Ok(()),
        Err(AddError::NoMemory) => Err(AllocError),
    }
}

// Adds names to a set.
fn include_all(set: &mut Paths, names: &[Name]) -> Result<(), AllocError>
    ensures { OnOk result ((other : List ℕ) → is_among set.new other ≡ (is_among set.old other || is_among names.now other)) }
{
    for name in names {
        include(set, name)?;
    }
    Ok(())
}

// The names of the ports that these bridges drive, as a set.
fn driven_by(alloc: Global, bridges: &[BridgeEntry]) -> Result<Paths, AllocError>
    ensures { IfOk result (λ set. (name : List ℕ) → is_among set name ≡ is_among (all_driven bridges.now) name) }
{
    let mut set = Paths::new(alloc);
    for entry in bridges {
        include_all(&mut set, entry.drives.as_slice())?;
    }
    Ok(set)
}

// The names of the ports that these bridges see, as a set.
fn seen_by(alloc: Global, bridges: &[BridgeEntry]) -> Result<Paths, AllocError>
    ensures { IfOk result (λ set. (name : List ℕ) → is_among set name ≡ is_among (all_seen bridges.now) name) }
{
    let mut set = Paths::new(alloc);
    for entry in bridges {
        include_all(&mut set, entry.sees.as_slice())?;
    }
    Ok(set)
}

// Adds a signal, if its path isn't in a set.
fn add_open(kept: &mut Vec<u32>, piece: &Piece, set: &Paths, signal: u32) -> Result<(), AllocError>
    requires { signal < length piece.now.signals }
    ensures { OnOk result (kept.new.items ≡ kept.old.items ++ filter (λ s. not (is_among set.now (path_at piece.now.paths s))) (signal ∷ [])) }
{
    let count = piece.signal_count();
    prove!((signal as usize) < count);
    if !has(set, piece.path(signal).unwrap()) {
        kept.push(signal)?;
    }
    Ok(())
}

// The signals, of these, with a path that isn't in a set.
fn open_signals(
    alloc: Global,
    piece: &Piece,
    set: &Paths,
    signals: &[u32],
) -> Result<Vec<u32>, AllocError>
    requires { All (λ s. s < length piece.now.signals) signals.now }
    ensures { IfOk result (λ kept. kept.items ≡ filter (λ s. not (is_among set.now (path_at piece.now.paths s))) signals.now) }
{
    let mut kept = Vec::new(alloc);
    for signal in signals {
        add_open(&mut kept, piece, set, *signal)?;
    }
    Ok(kept)
}

// The inputs of a piece that no bridge of a request drives.
pub(crate) fn fed_ports(
    alloc: Global,
    piece: &Piece,
    request: &Request,
) -> Result<Ports, AllocError>
    requires { IsWellFormed piece.now }
    ensures { IfOk result (λ ports. ports ≡ fed_ports piece.now request.now) }
{
    let driven = driven_by(alloc, request.bridges.as_slice())?;
    let kept = open_signals(alloc, piece, &driven, piece.ins())?;
    let ports = piece.ports(alloc, kept.as_slice())?;
    Ok(ports)
}

// Adds the signal of a port, if it is an output.
fn add_output(signals: &mut Vec<u32>, port: &InstancePort) -> Result<(), AllocError>
    ensures { OnOk result (signals.new.items ≡ signals.old.items ++ output_signals (port.now ∷ [])) }
{
    if !port.is_input {
        signals.push(port.signal)?;
    }
    Ok(())
}

// The signals of the outputs among these ports.
fn outputs_among(alloc: Global, ports: &[InstancePort]) -> Result<Vec<u32>, AllocError>
    ensures { IfOk result (λ signals. signals.items ≡ output_signals ports.now) }
{
    let mut signals = Vec::new(alloc);
    for port in ports {
        add_output(&mut signals, port)?;
    }
    Ok(signals)
}

// The top's outputs, in port order.
fn top_outputs(alloc: Global, tree: &Tree) -> Result<Vec<u32>, AllocError>
    requires { 0 < length tree.now.instances }
    ensures { IfOk result (λ signals. signals.items ≡ outputs_of tree.now) }
{
    outputs_among(alloc, tree.instances()[0].ports.as_slice())
}

/// The top's outputs that no bridge of a request sees, as ports.
///
/// # Errors
///
/// Returns `AllocError` if an allocation fails.
pub fn shown_ports(alloc: Global, design: &Design, request: &Request) -> Result<Ports, AllocError>
    requires { KeepsToTree design.now.circuit design.now.tree }
    ensures { IfOk result (λ ports. ports ≡ shown_ports design.now request.now) }
{
    let piece = design.piece();
    let seen = seen_by(alloc, request.bridges.as_slice())?;
    let outputs = top_outputs(alloc, design.tree())?;
    let kept = open_signals(alloc, piece, &seen, outputs.as_slice())?;
    let ports = piece.ports(alloc, kept.as_slice())?;
    Ok(ports)
}
