//! The graph of modules.
ghost use Rattle.std.specs.Prelude.{◌≡◌, ◌<◌, ◌^◌, ℕ, List, length, take, Contains, flat_map, IfSome, IfNone, ◌⊎◌, option_to_list};
ghost use Rattle.gg_shape_names.specs.Modules.{Holds, held_by};
ghost use Rattle.gg_shape_names.specs.inside.Modules.{HoldsBelow};

use crate::namespace::Namespace;
use gg_ast::{Circuit, Stmt, StmtKind};
use gg_graph::{Graph, Target};

/// The nodes are the modules, by their places. Each has an edge to each module that it has an instance of (FIRRTL
/// Specification, "Instances").
impl<'a> Graph for Namespace<'a> {
    ghost use Rattle.std.specs.Prelude.{length};
    ghost use Rattle.gg_shape_names.specs.Modules.{Holds};
    ghost use Rattle.gg_shape_names.specs.inside.Modules.{HoldsBelow, none_held};

    ghost nodes = { λ names. length names.modules };

    ghost edge = { λ names. Holds names.modules };

    ghost edge_below = { λ names. HoldsBelow names.modules };

    ghost none_below_first = { λ names. none_held names.modules };

    fn node_count(&self) -> u32 {
        self.circuit().modules().len() as u32
    }

    fn target(&self, node: u32, place: usize) -> Option<Target> {
        held_from(self.circuit(), node, place)
    }
}

// The first module that a statement of a module, at or after a place, makes an instance of.
fn held_from(circuit: &Circuit, node: u32, place: usize) -> Option<Target>
    requires few { length circuit.now.modules < 2 ^ 32 }
    requires node { node < length circuit.now.modules }
    ensures held { IfSome result (λ found. Holds circuit.now.modules node found.node) }
    ensures within { IfSome result (λ found. found.node < length circuit.now.modules) }
    ensures onward { IfSome result (λ found. place < found.next) }
    ensures first { IfSome result (λ found. (j : ℕ) → HoldsBelow circuit.now.modules node found.next j → HoldsBelow circuit.now.modules node place j ⊎ (j ≡ found.node)) }
    ensures none { IfNone result ((j : ℕ) → Holds circuit.now.modules node j → HoldsBelow circuit.now.modules node place j) }
{
    next_held(
        circuit,
        circuit.modules()[node as usize].statements(),
        place,
    )
}

// The first module of the circuit that a statement at or after a place makes an instance of.
fn next_held(circuit: &Circuit, statements: &[Stmt], place: usize) -> Option<Target>
    requires few { length circuit.now.modules < 2 ^ 32 }
    ensures held { IfSome result (λ found. Contains (flat_map (held_by circuit.now.modules) statements.now) found.node) }
    ensures within { IfSome result (λ found. found.node < length circuit.now.modules) }
    ensures onward { IfSome result (λ found. place < found.next) }
    ensures first { IfSome result (λ found. (j : ℕ)
        → Contains (flat_map (held_by circuit.now.modules) (take found.next statements.now)) j
        → Contains (flat_map (held_by circuit.now.modules) (take place statements.now)) j ⊎ (j ≡ found.node)) }
    ensures none { IfNone result ((j : ℕ) → Contains (flat_map (held_by circuit.now.modules) statements.now) j → Contains (flat_map (held_by circuit.now.modules) (take place statements.now)) j) }
{
    for i in place..statements.len() {
        if let Some(node) = held(circuit, &statements[i]) {
            return Some(Target { node, next: i + 1 });
        }
    }
    None
}

// The place of the module that a statement makes an instance of, if that module exists.
fn held(circuit: &Circuit, statement: &Stmt) -> Option<u32>
    requires few { length circuit.now.modules < 2 ^ 32 }
    ensures held { option_to_list result ≡ held_by circuit.now.modules statement.now }
    ensures within { IfSome result (λ place. place < length circuit.now.modules) }
{
    match &statement.kind {
        StmtKind::Instance { module, .. } => circuit.module(module.as_str()),
        StmtKind::Wire { .. }
        | StmtKind::Node { .. }
        | StmtKind::Register { .. }
        | StmtKind::Memory { .. }
        | StmtKind::Connect { .. }
        | StmtKind::Invalid { .. }
        | StmtKind::Skip
        | StmtKind::Stop { .. }
        | StmtKind::Report { .. } => None,
    }
}
