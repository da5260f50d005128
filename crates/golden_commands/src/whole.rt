//! The reference circuit of a case with the models of its bridges.
ghost use Rattle.std.specs.Prelude.{◌≡◌, List, ℕ, All, IfOk, Some};
ghost use Rattle.gg_bridge.specs.inside.Ports.{CanStand};
ghost use Rattle.gg_bridge.specs.Ports.{joined_at};
ghost use Rattle.gg_cut_reference.specs.inside.Whole.{CanStandAll};
ghost use Rattle.gg_cut_reference.specs.whole.Whole.{plan_circuit, with_bridges};
ghost use Rattle.gg_cut_plan.specs.Bridges.{model_of};
ghost use Rattle.gg_cut_plan.specs.Listed.{place_of};
ghost use Rattle.gg_cut_plan.specs.Models.{model_names};
ghost use Rattle.gg_bridge.specs.Model.{IsModel};
ghost use Rattle.gg_cut_reference.specs.Made.{plan_reference};
ghost use Rattle.golden_commands.specs.Case.{IsCase};
ghost use Rattle.golden_commands.specs.Partition.{Known, to_run};

use crate::case::Case;
use gg_bits::Name;
use gg_bridge::join;
use gg_cut_pipes::pipe;
use gg_cut_plan::Models;
use gg_order::Design;
use gg_partfile::BridgeEntry;
use std::alloc::{AllocError, Global};

/// The reference circuit of a case, with an order and the design's tree.
///
/// # Errors
///
/// Returns `AllocError` if an allocation fails.
pub fn reference_of(alloc: Global, case: &Case) -> Result<Design, AllocError>
    requires { (known : Known) × (circuit : List ℕ) × (partition : List ℕ) × (capacity : ℕ) × IsCase known circuit partition capacity case.now }
    ensures circuit { IfOk result (λ made. made.circuit ≡ plan_reference case.now.design case.now.cut.request) }
    ensures tree { IfOk result (λ made. made.tree ≡ case.now.design.tree) }
{
    let made = pipe(alloc, &case.design, &case.cut.plan)?;
    Ok(made)
}

// The place of the model with a name.
fn place_of(models: &Models, name: &Name) -> Option<usize>
    ensures { result ≡ place_of (model_names models.now) name.now }
{
    // for the invariant only
    let _ = models.len();
    models.find(name)
}

// The design with the model at a place, at the ports of an entry. It is the model of the entry's bridge.
fn joined_by(
    alloc: Global,
    models: &Models,
    design: Design,
    entry: &BridgeEntry,
    place: usize,
) -> Result<Design, AllocError>
    requires can { CanStand design.circuit entry.now.name (model_of models.now entry.now) entry.now.sees entry.now.drives }
    requires models { All (λ model. IsModel model.1) models.now }
    requires at { place_of (model_names models.now) entry.now.name ≡ Some place }
    ensures { IfOk result (λ made. made.circuit ≡ joined_at design.circuit entry.now.name (model_of models.now entry.now) entry.now.sees entry.now.drives) }
{
    match models.piece(place) {
        Some(model) => join(
            alloc,
            &design,
            entry.name.as_str(),
            model,
            &entry.sees,
            &entry.drives,
        ),
        None => Err(AllocError),
    }
}

// The design with the model of an entry's bridge at the entry's ports.
fn joined_with(
    alloc: Global,
    models: &Models,
    design: Design,
    entry: &BridgeEntry,
) -> Result<Design, AllocError>
    requires can { CanStand design.circuit entry.now.name (model_of models.now entry.now) entry.now.sees entry.now.drives }
    requires models { All (λ model. IsModel model.1) models.now }
    ensures { IfOk result (λ made. made.circuit ≡ joined_at design.circuit entry.now.name (model_of models.now entry.now) entry.now.sees entry.now.drives) }
{
    match place_of(models, &entry.name) {
        Some(place) => joined_by(alloc, models, design, entry, place),
        None => Err(AllocError),
    }
}

// The design with the models of these entries' bridges, one after another.
fn joined_all(
    alloc: Global,
    models: &Models,
    design: Design,
    entries: &[BridgeEntry],
) -> Result<Design, AllocError>
    requires can { CanStandAll models.now design.circuit entries.now }
    requires models { All (λ model. IsModel model.1) models.now }
    ensures { IfOk result (λ made. made.circuit ≡ with_bridges models.now design.circuit entries.now) }
{
    let mut made = design;
    for entry in entries {
        let next = joined_with(alloc, models, made, entry)?;
        made = next;
    }
    Ok(made)
}

// The circuit that a case's network computes, with an order: the reference circuit with the models of the request's bridges.
pub(crate) fn whole_of(alloc: Global, models: &Models, case: &Case) -> Result<Design, AllocError>
    requires { (circuit : List ℕ) × (partition : List ℕ) × (capacity : ℕ) × IsCase (to_run models.now) circuit partition capacity case.now }
    ensures { IfOk result (λ made. made.circuit ≡ plan_circuit case.now.design case.now.cut.request models.now) }
{
    let reference = reference_of(alloc, case)?;
    joined_all(
        alloc,
        models,
        reference,
        case.cut.request.bridges.as_slice(),
    )
}
