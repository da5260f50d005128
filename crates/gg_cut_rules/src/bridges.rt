//! The faults of bridges.
ghost use Rattle.std.specs.Prelude.{◌≡◌, ℕ, ◌∷◌, [], ◌++◌, ◌+◌, ◌-◌, ◌<◌, ◌≤◌, ◌^◌, ◌&&◌, not, ◌||◌, option_map, slice_get, length, map, take, flat_map, All, true, OnOk, IfOk, IfErr, IfSome};
ghost use Rattle.gg_bits.specs.Shape.{shape};
ghost use Rattle.gg_flat.specs.Circuit.{signal_shapes};
ghost use Rattle.gg_flat.specs.Line.{shape_at};
ghost use Rattle.gg_cut_plan.specs.Models.{model_names, model_circuits};
ghost use Rattle.gg_flat.specs.WellFormed.{IsWellFormed};
ghost use Rattle.gg_cut_plan.specs.inside.Listed.{AreMarks};
ghost use Rattle.gg_cut_plan.specs.Listed.{is_among, place_of};
ghost use Rattle.gg_cut_plan.specs.Channels.{channel_names};
ghost use Rattle.gg_cut_plan.specs.Fault.{IsSmall, Tells};
ghost use Rattle.gg_bits.specs.Lists.{first_of};
ghost use Rattle.gg_cut_plan.specs.Bridges.{same_shape, is_of_shape, port_shape, fit_ports, shapes_at, wrong_port, unknown_bridge, unfit_bridge, fits_model, model_named, before_next, own_faults, faults_after, bridge_faults};
ghost use Rattle.gg_cut_plan.specs.inside.Bridges.{AreSides};
ghost use Rattle.gg_cut_plan.specs.declared.fault.CutFault.TheVariants.{UnknownBridge, WrongPort, UnfitBridge, NoMemory};

use crate::capacities::is_channel;
use crate::paths::copied;
use gg_bits::{AddError, Name, Paths, Ty};
use gg_cut_plan::{CutFault, Models, marks_of};
use gg_flat::Piece;
use gg_flat_tree::Tree;
use gg_partfile::{BridgeEntry, Request};
use std::alloc::Global;

// What the earlier entries list.
#[derive(Drop)]
struct Before {
    names: Paths,
    sees: Paths,
    drives: Paths,
}

// Whether a model has this name.
fn knows(models: &Models, name: &Name) -> bool
    ensures { result ≡ is_among (model_names models.now) name.now }
{
    match models.find(name) {
        Some(_) => true,
        None => false,
    }
}

// Adds a name to the earlier names, if it isn't among them. Returns whether it was added.
fn add_fresh(names: &mut Paths, name: &Name) -> Result<bool, CutFault>
    requires few { length names.old < 2 ^ 32 - 1 }
    ensures fresh { IfOk result (λ fresh. fresh ≡ not (is_among names.old name.now)) }
    ensures added { IfOk result (λ fresh. fresh ≡ true → names.new ≡ names.old ++ name.now ∷ []) }
    ensures err { IfErr result (λ cause. cause ≡ NoMemory) }
{
    match names.add(copied(name)?) {
        Ok(()) => Ok(true),
        Err(AddError::Doubled) => Ok(false),
        Err(AddError::NoMemory) => Err(CutFault::NoMemory),
    }
}

// Whether a name is known and isn't among the earlier names. It is added to them then.
fn is_new(known: bool, names: &mut Paths, name: &Name) -> Result<bool, CutFault>
    requires few { length names.old < 2 ^ 32 - 1 }
    ensures stands { IfOk result (λ stands. stands ≡ not (not known || is_among names.old name.now)) }
    ensures added { IfOk result (λ stands. stands ≡ true → names.new ≡ names.old ++ name.now ∷ []) }
    ensures err { IfErr result (λ cause. cause ≡ NoMemory) }
{
    if !known {
        return Ok(false);
    }
    add_fresh(names, name)
}

// Checks the name of an entry, and adds it to the earlier names.
fn name_stands(models: &Models, names: &mut Paths, name: &Name) -> Result<(), CutFault>
    requires few { length names.old < 2 ^ 32 - 1 }
    ensures told { Tells (option_map UnknownBridge (unknown_bridge (model_names models.now) names.old name.now)) result }
    ensures added { OnOk result (names.new ≡ names.old ++ name.now ∷ []) }
{
    if is_new(knows(models, name), names, name)? {
        Ok(())
    } else {
        Err(CutFault::UnknownBridge(copied(name)?))
    }
}

// Checks a port of an entry, and adds it to the earlier ports. The ports of its direction have these signals.
fn port_stands(
    piece: &Piece,
    signals: &[u32],
    marks: &[bool],
    ports: &mut Paths,
    port: &Name,
) -> Result<(), CutFault>
    requires known { All (λ s. s < length piece.now.signals) signals.now }
    requires marks { AreMarks signals.now marks.now }
    requires count { length marks.now ≡ length piece.now.signals }
    requires few { length ports.old < 2 ^ 32 - 1 }
    ensures told { Tells (option_map WrongPort (wrong_port (channel_names piece.now signals.now) ports.old (port.now ∷ []))) result }
    ensures added { OnOk result (ports.new ≡ ports.old ++ port.now ∷ []) }
{
    if is_new(is_channel(piece, signals, marks, port), ports, port)? {
        Ok(())
    } else {
        Err(CutFault::WrongPort(copied(port)?))
    }
}

// Checks ports of an entry, and adds them to the earlier ports.
fn ports_stand(
    piece: &Piece,
    signals: &[u32],
    marks: &[bool],
    ports: &mut Paths,
    listed: &[Name],
) -> Result<(), CutFault>
    requires known { All (λ s. s < length piece.now.signals) signals.now }
    requires marks { AreMarks signals.now marks.now }
    requires count { length marks.now ≡ length piece.now.signals }
    requires few { length ports.old + length listed.now < 2 ^ 32 }
    ensures told { Tells (option_map WrongPort (wrong_port (channel_names piece.now signals.now) ports.old listed.now)) result }
    ensures added { OnOk result (ports.new ≡ ports.old ++ listed.now) }
{
    for port in listed {
        match port_stands(piece, signals, marks, ports, port) {
            Ok(()) => {}
            Err(cause) => return Err(cause),
        }
    }
    Ok(())
}

// Whether two types are the same.
fn same_type(a: Ty, b: Ty) -> bool
    ensures { result ≡ same_shape (shape a) (shape b) }
{
    a.kind == b.kind && a.width == b.width
}

// The signal with this path.
fn signal_of(piece: &Piece, port: &Name) -> Option<u32>
    ensures place { result ≡ place_of piece.now.paths port.now }
    ensures known { IfSome result (λ s. s < length piece.now.signals) }
{
    // for the invariant only
    let _ = piece.signal_count();
    piece.find(port)
}

// Whether a port has the type of a signal of a model.
fn port_fits(piece: &Piece, port: &Name, model: &Piece, signal: u32) -> bool
    requires { signal < length model.now.signals }
    ensures { result ≡ is_of_shape (port_shape piece.now port.now) (shape_at (signal_shapes model.now) signal) }
{
    match signal_of(piece, port) {
        Some(own) => same_type(
            piece.signals()[own as usize].ty,
            model.signals()[signal as usize].ty,
        ),
        None => false,
    }
}

// Whether ports have the types of these signals of a model, equally many and in order.
fn ports_fit(piece: &Piece, ports: &[Name], model: &Piece, signals: &[u32]) -> bool
    requires { All (λ s. s < length model.now.signals) signals.now }
    ensures { result ≡ fit_ports piece.now ports.now (shapes_at model.now signals.now) }
{
    if ports.len() != signals.len() {
        return false;
    }
    for i in 0..ports.len() {
        if !port_fits(piece, &ports[i], model, signals[i]) {
            return false;
        }
    }
    true
}

// The place of the model with a name.
fn place_of(models: &Models, name: &Name) -> Option<usize>
    ensures { result ≡ place_of (model_names models.now) name.now }
{
    // for the invariant only
    let _ = models.len();
    models.find(name)
}

// Whether the ports of an entry have the types of the signals of the model at a place.
fn fits_at(piece: &Piece, models: &Models, entry: &BridgeEntry, place: usize) -> bool
    requires { All (λ model. IsWellFormed model.1) models.now }
    ensures { result ≡ fits_model piece.now entry.now (slice_get (model_circuits models.now) place) }
{
    match models.piece(place) {
        Some(model) => {
            ports_fit(piece, entry.sees.as_slice(), model, model.ins())
                && ports_fit(piece, entry.drives.as_slice(), model, model.outs())
        }
        None => false,
    }
}

// Whether the ports of an entry fit its model.
fn entry_fits(piece: &Piece, models: &Models, entry: &BridgeEntry) -> bool
    requires { All (λ model. IsWellFormed model.1) models.now }
    ensures { result ≡ fits_model piece.now entry.now (model_named models.now entry.now.name) }
{
    match place_of(models, &entry.name) {
        Some(place) => fits_at(piece, models, entry, place),
        None => false,
    }
}

// Checks that the ports of an entry fit its model.
fn check_fit(piece: &Piece, models: &Models, entry: &BridgeEntry) -> Result<(), CutFault>
    requires { All (λ model. IsWellFormed model.1) models.now }
    ensures { Tells (option_map UnfitBridge (unfit_bridge piece.now models.now entry.now)) result }
{
    if !entry_fits(piece, models, entry) {
        return Err(CutFault::UnfitBridge(entry.name.clone()?));
    }
    Ok(())
}

// The ports of the top in both directions, by their signals, with marks on them.
#[derive(Drop)]
struct Sides<'a> {
    outs: &'a [u32],
    out_marks: Vec<bool>,
    ins: &'a [u32],
    in_marks: Vec<bool>,
}

// Checks an entry, and adds it to the earlier entries.
fn entry_stands(
    piece: &Piece,
    sides: &Sides<'_>,
    models: &Models,
    before: &mut Before,
    entry: &BridgeEntry,
) -> Result<(), CutFault>
    requires sides { AreSides piece.now sides.now.outs.now sides.now.out_marks.items sides.now.ins.now sides.now.in_marks.items }
    requires models { All (λ model. IsWellFormed model.1) models.now }
    requires names { length before.old.names < 2 ^ 32 - 1 }
    requires seen { length before.old.sees + length entry.now.sees < 2 ^ 32 }
    requires driven { length before.old.drives + length entry.now.drives < 2 ^ 32 }
    ensures told { Tells (first_of (own_faults piece.now sides.now.outs.now models.now (record { names = before.old.names; sees = before.old.sees; drives = before.old.drives }) entry.now)) result }
    ensures names { OnOk result (before.new.names ≡ before.old.names ++ entry.now.name ∷ []) }
    ensures sees { OnOk result (before.new.sees ≡ before.old.sees ++ entry.now.sees) }
    ensures drives { OnOk result (before.new.drives ≡ before.old.drives ++ entry.now.drives) }
{
    name_stands(models, &mut before.names, &entry.name)?;
    ports_stand(
        piece,
        sides.outs,
        &sides.out_marks,
        &mut before.sees,
        entry.sees.as_slice(),
    )?;
    ports_stand(
        piece,
        sides.ins,
        &sides.in_marks,
        &mut before.drives,
        entry.drives.as_slice(),
    )?;
    check_fit(piece, models, entry)?;
    Ok(())
}

// Checks entries, and adds them to the earlier entries.
fn entries_stand(
    piece: &Piece,
    sides: &Sides<'_>,
    models: &Models,
    before: &mut Before,
    entries: &[BridgeEntry],
) -> Result<(), CutFault>
    requires sides { AreSides piece.now sides.now.outs.now sides.now.out_marks.items sides.now.ins.now sides.now.in_marks.items }
    requires models { All (λ model. IsWellFormed model.1) models.now }
    requires names { length before.old.names + length entries.now < 2 ^ 32 }
    requires seen { length before.old.sees + length (flat_map (λ entry. entry.sees) entries.now) < 2 ^ 32 }
    requires driven { length before.old.drives + length (flat_map (λ entry. entry.drives) entries.now) < 2 ^ 32 }
    ensures { Tells (first_of (faults_after piece.now sides.now.outs.now models.now (record { names = before.old.names; sees = before.old.sees; drives = before.old.drives }) entries.now)) result }
{
    for entry in entries {
        match entry_stands(piece, sides, models, before, entry) {
            Ok(()) => {}
            Err(cause) => return Err(cause),
        }
    }
    Ok(())
}

/// Checks the bridges that a request lists, for a circuit with its tree and the models that are known.
///
/// # Errors
///
/// Returns the first fault (`bridge_faults` in gg_cut_plan's `specs/Bridges`), exactly if there is one, or `NoMemory` if an allocation fails.
pub fn judge_bridges(
    alloc: Global,
    piece: &Piece,
    tree: &Tree,
    models: &Models,
    request: &Request,
) -> Result<(), CutFault>
    requires formed { IsWellFormed piece.now }
    requires models { All (λ model. IsWellFormed model.1) models.now }
    requires small { IsSmall request.now }
    ensures { Tells (first_of (bridge_faults piece.now (length tree.now.stops) models.now request.now.bridges)) result }
{
    let outs = piece.outs();
    let outs = &outs[..outs.len().saturating_sub(tree.stops().len())];
    let ins = piece.ins();
    let count = piece.signals().len();
    let sides = Sides {
        outs,
        out_marks: marks_of(alloc, count, outs)?,
        ins,
        in_marks: marks_of(alloc, count, ins)?,
    };
    let mut before = Before {
        names: Paths::new(alloc),
        sees: Paths::new(alloc),
        drives: Paths::new(alloc),
    };
    entries_stand(
        piece,
        &sides,
        models,
        &mut before,
        request.bridges.as_slice(),
    )
}
