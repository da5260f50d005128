//! `join_model`: a design with a model in it.
ghost use Rattle.std.specs.Prelude.{◌≡◌, IfOk};
ghost use Rattle.gg_bridge.specs.Model.{IsModel};
ghost use Rattle.gg_flat.specs.WellFormed.{IsWellFormed};
ghost use Rattle.gg_flat.specs.Order.{IsOrder};
ghost use Rattle.gg_bridge.specs.inside.Joined.{CanJoin, HasOrder};
ghost use Rattle.gg_bridge.specs.Joined.{joined};

use crate::joining::join_circuit;
use crate::laws::{joined_formed, joined_ordered};
use gg_flat::Piece;
use gg_order::{Design, Order, OrderFault, no_loop, order};
use std::alloc::{AllocError, Global};

/// The design with a model in it. The paths of the model's signals get this front. The bridge sees the signals `sees`, one for each in-signal of the
/// model, and drives the in-signals `drives`, one for each out-signal. The tree is the design's.
///
/// # Errors
///
/// Returns `AllocError` if an allocation fails, or if there are 4,294,967,296 signals, registers, memories or in-signals, or more.
pub fn join_model(
    alloc: Global,
    design: &Design,
    front: &str,
    model: &Piece,
    sees: &[u32],
    drives: &[u32],
) -> Result<Design, AllocError>
    requires can { CanJoin design.now.circuit front.now model.now sees.now drives.now }
    requires model { IsModel model.now }
    ensures circuit { IfOk result (λ made. made.circuit ≡ joined design.now.circuit front.now model.now sees.now drives.now) }
    ensures tree { IfOk result (λ made. made.tree ≡ design.now.tree) }
{
    // for the invariant only
    let _ = design.order();
    joined_formed();
    joined_ordered();
    let piece = join_circuit(alloc, design.piece(), front, model, sees, drives)?;
    let order = order_of(alloc, &piece)?;
    let tree = design.tree().copy()?;
    Ok(Design::new(piece, tree, order))
}

// The order of a circuit that has one.
fn order_of(alloc: Global, piece: &Piece) -> Result<Order, AllocError>
    requires formed { IsWellFormed piece.now }
    requires ordered { HasOrder piece.now }
    ensures { IfOk result (λ order. IsOrder piece.now order) }
{
    no_loop();
    match order(alloc, piece) {
        Ok(order) => Ok(order),
        Err(OrderFault::Loop(_)) => unreachable!(),
        Err(OrderFault::NoMemory) => Err(AllocError),
    }
}
