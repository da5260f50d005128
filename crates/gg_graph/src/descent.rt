//! The walk.
ghost use Rattle.std.specs.Prelude.{◌≡◌, ◌≢◌, ℕ, ◌<◌, List, [], ◌∷◌, ◌++◌, IfOk, IfErr, IfNone, option_to_list, sum_by};
ghost use Rattle.gg_graph.specs.inside.Fault.{IfRing};
ghost use Rattle.gg_graph.specs.inside.Graph.{IsOrderOf};
ghost use Rattle.gg_graph.specs.Graph.{IsRing};
ghost use Rattle.gg_graph.specs.inside.Walk.{stage_at, weight, StaysMet, IsUnderWay};
ghost use Rattle.gg_graph.specs.declared.state.Stage.TheVariants.{New};

use crate::fault::WalkFault;
use crate::nodes::Graph;
use crate::scan::next_candidate;
use crate::state::{Progress, Stage, enter, leave, new_progress, ring_of};
use std::alloc::Global;

/// The order of a graph's nodes: each once, after all its targets.
///
/// # Errors
///
/// Returns `Ring` with a ring of the graph, exactly if it has one. Returns `NoMemory` if an allocation fails.
pub fn walk<G: Graph>(alloc: Global, graph: &G) -> Result<Vec<u32>, WalkFault>
    ensures order { IfOk result (λ order. IsOrderOf (G.edge graph.now) (G.nodes graph.now) order.items) }
    ensures free { IfOk result (λ order. (ring : List ℕ) → ¬ IsRing (G.edge graph.now) (G.nodes graph.now) ring) }
    ensures ring { IfErr result (IfRing (IsRing (G.edge graph.now) (G.nodes graph.now))) }
{
    let mut walk = new_progress(alloc, graph)?;
    for root in 0..graph.node_count() {
        visit(graph, &mut walk, root)?;
    }
    Ok(walk.order)
}

// Adds a node, and all that it leads to, to the order.
fn visit<G: Graph>(graph: &G, walk: &mut Progress, root: u32) -> Result<(), WalkFault>
    requires root { root < G.nodes graph.now }
    requires walks { IsUnderWay (G.edge graph.now) (G.edge_below graph.now) (G.nodes graph.now) [] walk.old }
    requires path { walk.old.path.items ≡ [] }
    ensures walks { IfOk result (λ _. IsUnderWay (G.edge graph.now) (G.edge_below graph.now) (G.nodes graph.now) [] walk.new) }
    ensures path { IfOk result (λ _. walk.new.path.items ≡ []) }
    ensures met { IfOk result (λ _. stage_at walk.new.stages.items root ≢ New) }
    ensures stays_met { IfOk result (λ _. StaysMet walk.old.stages.items walk.new.stages.items) }
    ensures ring { IfErr result (IfRing (IsRing (G.edge graph.now) (G.nodes graph.now))) }
{
    if let Stage::New = walk.stages[root as usize] {
        walk.stages[root as usize] = Stage::Open;
        descend(graph, walk, root)?;
    }
    Ok(())
}

// Walks on from a node until the path has ended.
fn descend<G: Graph>(graph: &G, walk: &mut Progress, root: u32) -> Result<(), WalkFault>
    requires walks { IsUnderWay (G.edge graph.now) (G.edge_below graph.now) (G.nodes graph.now) (walk.old.path.items ++ root ∷ []) walk.old }
    ensures walks { IfOk result (λ _. IsUnderWay (G.edge graph.now) (G.edge_below graph.now) (G.nodes graph.now) [] walk.new) }
    ensures path { IfOk result (λ _. walk.new.path.items ≡ []) }
    ensures stays_met { IfOk result (λ _. StaysMet walk.old.stages.items walk.new.stages.items) }
    ensures ring { IfErr result (IfRing (IsRing (G.edge graph.now) (G.nodes graph.now))) }
{
    let mut node = root;
    loop {
        match step(graph, walk, node)? {
            Some(next) => node = next,
            None => return Ok(()),
        }
    }
}

// One step from a node: to a target that is new, or back along the path if all targets are done.
fn step<G: Graph>(graph: &G, walk: &mut Progress, node: u32) -> Result<Option<u32>, WalkFault>
    requires walks { IsUnderWay (G.edge graph.now) (G.edge_below graph.now) (G.nodes graph.now) (walk.old.path.items ++ node ∷ []) walk.old }
    ensures walks { IfOk result (λ next. IsUnderWay (G.edge graph.now) (G.edge_below graph.now) (G.nodes graph.now) (walk.new.path.items ++ option_to_list next) walk.new) }
    ensures path { IfOk result (λ next. IfNone next (walk.new.path.items ≡ [])) }
    ensures stays_met { IfOk result (λ _. StaysMet walk.old.stages.items walk.new.stages.items) }
    ensures smaller { IfOk result (λ _. sum_by weight walk.new.stages.items < sum_by weight walk.old.stages.items) }
    ensures ring { IfErr result (IfRing (IsRing (G.edge graph.now) (G.nodes graph.now))) }
{
    let start = walk.places[node as usize];
    match next_candidate(graph, walk.stages.as_slice(), node, start) {
        None => Ok(leave(walk, node)?),
        Some(found) => match walk.stages[found.node as usize] {
            Stage::New => {
                enter(walk, node, found)?;
                Ok(Some(found.node))
            }
            Stage::Open | Stage::Done => {
                Err(WalkFault::Ring(ring_of(&mut walk.path, node, found.node)?))
            }
        },
    }
}
