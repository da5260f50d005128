//! `pipe`: the reference circuit of a plan.
ghost use Rattle.std.specs.Prelude.{◌≡◌, ◌<◌, ◌≤◌, ◌+◌, ◌^◌, ◌++◌, length, IfOk};
ghost use Rattle.std.specs.List.{range_with_len};
ghost use Rattle.gg_cut_reference.specs.Made.{plan_reference};
ghost use Rattle.gg_cut_pipes.specs.inside.CanPipe.{CanPipe, piped_order};
ghost use Rattle.gg_cut_pipes.specs.inside.Tables.{piped_signals};

use crate::fill::{numbers_from, pipes_in, tables_of};
use crate::made::made;
use gg_cut_plan::Plan;
use gg_cut_split::{ends_of, owned_of};
use gg_flat::Piece;
use gg_order::{Design, Order};
use gg_partfile::BridgeEntry;
use std::alloc::{AllocError, Global};

/// The reference circuit of a plan: the design, and for each piped channel a register that takes the channel's value in each tick. Where the
/// channel's consumer names the channel, it names the register in its place. The tree is the design's. The pipes are the first in the order.
///
/// # Errors
///
/// Returns `AllocError` if an allocation fails. What is numbered has numbers of 32 bits (`numbers_suffice`).
pub fn pipe(alloc: Global, design: &Design, plan: &Plan) -> Result<Design, AllocError>
    requires { CanPipe design.now plan.now }
    ensures circuit { IfOk result (λ made. (can : CanPipe design.now plan.now) → made.circuit ≡ plan_reference design.now can.request) }
    ensures tree { IfOk result (λ made. made.tree ≡ design.now.tree) }
    ensures order { IfOk result (λ made. (can : CanPipe design.now plan.now) → made.order ≡ piped_order design.now can.request) }
{
    // their contracts say that the design is one
    let count = design.piece().signals().len();
    // for the invariant only
    let _ = design.order();
    let pipes = pipes_in(alloc, count, plan.channels.as_slice())?;
    let circuit = circuit_of(alloc, design, plan, &pipes)?;
    let tree = design.tree().copy()?;
    let order = order_of(alloc, design, pipes.len())?;
    Ok(Design::new(circuit, tree, order))
}

// The circuit, by the signals of the piped channels.
fn circuit_of(
    alloc: Global,
    design: &Design,
    plan: &Plan,
    pipes: &[u32],
) -> Result<Piece, AllocError>
    requires can { CanPipe design.now plan.now }
    requires pipes { pipes.now ≡ piped_signals (length design.now.circuit.signals) plan.now.channels }
    ensures { IfOk result (λ circuit. (can : CanPipe design.now plan.now) → circuit ≡ plan_reference design.now can.request) }
{
    // for the invariant only: also, few enough memories
    let _ = design.order();
    let _ = design.tree().memory_count();
    let piece = design.piece();
    // by what no bridge changes, so without bridges
    let none: &[BridgeEntry] = &[];
    let ends = ends_of(alloc, design, &plan.listed, none)?;
    let owned = owned_of(alloc, design, &plan.listed, none, &ends)?;
    let tables = tables_of(alloc, piece, plan.channels.as_slice(), pipes, &owned)?;
    let circuit = made(alloc, piece, &tables, pipes)?;
    Ok(circuit)
}

// The order of a design with this many pipes before it.
fn order_of(alloc: Global, design: &Design, count: usize) -> Result<Order, AllocError>
    requires { length design.now.circuit.signals + count ≤ 2 ^ 32 }
    ensures { IfOk result (λ order. order ≡ range_with_len (length design.now.circuit.signals) count ++ design.now.order) }
{
    let mut order = numbers_from(alloc, design.piece().signals().len(), count)?;
    order.extend_from_slice(design.order())?;
    Ok(Order::from(order))
}
