//! The order of evaluation of a flat circuit, or a combinational loop.
ghost use Rattle.std.specs.Prelude.{◌≡◌, ℕ, List, IfOk, IfErr};
ghost use Rattle.gg_flat.specs.Order.{IsOrder};
ghost use Rattle.gg_flat.specs.Reads.{IsLoop};
ghost use Rattle.gg_flat.specs.WellFormed.{IsWellFormed};
ghost use Rattle.gg_order.specs.inside.Fault.{IfLoop};
ghost use Rattle.gg_order.specs.Loop.{IsToldLoop};

use crate::fault::OrderFault;
use crate::graph::Dependencies;
use crate::loops::told;
use crate::runs::no_loop;
use gg_bits::Ids;
use gg_flat::Piece;
use gg_graph::{WalkFault, walk};
use std::alloc::Global;

/// An order of evaluation: the signals of a circuit by their numbers, each once, after all that it reads.
pub type Order = Ids;

/// An order of evaluation of a well-formed circuit.
///
/// # Errors
///
/// Returns `Loop` with a combinational loop of the circuit, exactly if there is one. The loop begins with the signal
/// that has the least path by bytes. If there are several loops, it is any one of them. Returns `NoMemory` if an
/// allocation fails.
///
/// # Examples
///
/// ```rust
/// // Signal 0 of `piece` is its input `a`. Signal 1, `b`, reads signal 2, `n`, and `n` reads `a`.
/// let found = order(alloc, &piece)?;
/// // `found` is `[0, 2, 1]`.
/// ```
///
/// If `n` read `b`, the result would be `Loop` with `[1, 2]`, because the path `b` is less than the path `n`.
pub fn order(alloc: Global, piece: &Piece) -> Result<Order, OrderFault>
    requires { IsWellFormed piece.now }
    ensures order { IfOk result (λ order. IsOrder piece.now order) }
    ensures free { IfOk result (λ _. (loop : List ℕ) → ¬ IsLoop piece.now loop) }
    ensures fault { IfErr result (IfLoop (IsToldLoop piece.now)) }
{
    no_loop();
    match walk(alloc, &Dependencies { piece }) {
        Ok(order) => Ok(Order::from(order)),
        Err(WalkFault::Ring(ring)) => Err(OrderFault::Loop(told(piece, ring))),
        Err(WalkFault::NoMemory) => Err(OrderFault::NoMemory),
    }
}
