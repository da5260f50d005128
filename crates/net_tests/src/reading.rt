//! Designs, requests and input traces, read from texts.
ghost use Rattle.std.specs.Prelude.{IfSome};
ghost use Rattle.gg_cut_plan.specs.Fault.{IsSmall};
ghost use Rattle.gg_flat.specs.Run.{IsColumns};
ghost use Rattle.gg_part.specs.KeepsToTree.{KeepsToTree};
ghost use Rattle.gg_cut_plan.specs.Held.{AreHeldOnce};
ghost use Rattle.gg_cut_reference.specs.whole.Whole.{HasFreeFronts};

use gg_front::front;
use gg_order::Design;
use gg_partfile::{Request, read_partition};
use gg_trace::{Trace, read_trace};
use std::alloc::Global;

// The most bytes that a text may have here.
const LIMIT: usize = 4_194_304;

// The design of a circuit. `None` if it has a fault or is too long, or if an allocation fails.
pub(crate) fn design_of(alloc: Global, circuit: &str) -> Option<Design>
    ensures keeps { IfSome result (λ design. KeepsToTree design.circuit design.tree) }
    ensures held { IfSome result (λ design. AreHeldOnce design.circuit) }
    ensures free { IfSome result (λ design. HasFreeFronts design.circuit) }
{
    let bytes = circuit.as_bytes();
    if bytes.len() > LIMIT {
        return None;
    }
    match front(alloc, bytes) {
        Ok(design) => Some(design),
        Err(fault) => {
            drop(fault);
            None
        }
    }
}

// The request of a partition. `None` if it has a fault or is too long, or if an allocation fails.
pub(crate) fn request_of(alloc: Global, partition: &str) -> Option<Request>
    ensures { IfSome result IsSmall }
{
    let bytes = partition.as_bytes();
    if bytes.len() > LIMIT {
        return None;
    }
    match read_partition(alloc, bytes) {
        Ok(request) => Some(request),
        Err(fault) => {
            drop(fault);
            None
        }
    }
}

// The input trace of a design from a text. `None` if it has a fault, or if an allocation fails.
pub(crate) fn inputs_of(alloc: Global, design: &Design, trace: &str) -> Option<Trace>
    ensures { IfSome result (λ trace. IsColumns design.now.circuit trace.rows trace.columns) }
{
    let piece = design.piece();
    match piece.in_ports(alloc) {
        Ok(ports) => match read_trace(alloc, &ports, trace.as_bytes()) {
            Ok(trace) => Some(trace),
            Err(_) => None,
        },
        Err(_) => None,
    }
}
