//! What a walk keeps.
ghost use Rattle.std.specs.Prelude.{◌≡◌, ◌<◌, [], ◌∷◌, ◌++◌, length, replicate, IfOk, IfNone, option_to_list, Contains, slice_index_or, slice_set};
ghost use Rattle.gg_graph.specs.inside.Walk.{IsUnderWay, IsEndFrom};
ghost use Rattle.gg_graph.specs.declared.state.Stage.TheVariants.{New, Open, Done};

use crate::nodes::Graph;
use crate::scan::Candidate;
use std::alloc::{AllocError, Global};

// How far the walk is with a node: not met, on its path, or in the order.
#[derive(Clone, Copy)]
pub(crate) enum Stage {
    New,
    Open,
    Done,
}

// The state of a walk: for each node its stage, and a place with all targets at lower places done; the path above the
// current node; the order so far.
#[derive(Drop)]
pub(crate) struct Progress {
    pub(crate) stages: Vec<Stage>,
    pub(crate) places: Vec<usize>,
    pub(crate) path: Vec<u32>,
    pub(crate) order: Vec<u32>,
}

// A walk that has met no node yet.
pub(crate) fn new_progress<G: Graph>(alloc: Global, graph: &G) -> Result<Progress, AllocError>
    ensures walks { IfOk result (IsUnderWay (G.edge graph.now) (G.edge_below graph.now) (G.nodes graph.now) []) }
    ensures path { IfOk result (λ walk. walk.path.items ≡ []) }
{
    let count = graph.node_count() as usize;
    Ok(Progress {
        stages: all_new(alloc, count)?,
        places: all_first(alloc, count)?,
        path: Vec::new(alloc),
        order: Vec::new(alloc),
    })
}

// The stages of this many nodes, not met yet.
fn all_new(alloc: Global, count: usize) -> Result<Vec<Stage>, AllocError>
    ensures { IfOk result (λ stages. stages.items ≡ replicate count New) }
{
    vec![in alloc; Stage::New; count]
}

// The first place, for each node.
fn all_first(alloc: Global, count: usize) -> Result<Vec<usize>, AllocError>
    ensures { IfOk result (λ places. places.items ≡ replicate count 0) }
{
    vec![in alloc; 0; count]
}

// Goes from a node to a target of it.
pub(crate) fn enter(walk: &mut Progress, node: u32, found: Candidate) -> Result<(), AllocError>
    requires node { node < length walk.old.places.items }
    requires target { found.node < length walk.old.stages.items }
    ensures path { IfOk result (λ _. walk.new.path.items ≡ walk.old.path.items ++ node ∷ []) }
    ensures places { IfOk result (λ _. walk.new.places.items ≡ slice_set walk.old.places.items node found.place) }
    ensures stages { IfOk result (λ _. walk.new.stages.items ≡ slice_set walk.old.stages.items found.node Open) }
    ensures order { walk.new.order.items ≡ walk.old.order.items }
{
    walk.path.push(node)?;
    walk.places[node as usize] = found.place;
    walk.stages[found.node as usize] = Stage::Open;
    Ok(())
}

// Adds a node to the order, and goes back to the one above it.
pub(crate) fn leave(walk: &mut Progress, node: u32) -> Result<Option<u32>, AllocError>
    requires { node < length walk.old.stages.items }
    ensures path { IfOk result (λ next. walk.old.path.items ≡ walk.new.path.items ++ option_to_list next) }
    ensures last { IfOk result (λ next. IfNone next (walk.new.path.items ≡ [])) }
    ensures order { IfOk result (λ _. walk.new.order.items ≡ walk.old.order.items ++ node ∷ []) }
    ensures stages { IfOk result (λ _. walk.new.stages.items ≡ slice_set walk.old.stages.items node Done) }
    ensures places { walk.new.places.items ≡ walk.old.places.items }
{
    walk.order.push(node)?;
    walk.stages[node as usize] = Stage::Done;
    Ok(walk.path.pop())
}

// The part of a path and the next node that begins at the node `first`.
pub(crate) fn ring_of(path: &mut Vec<u32>, node: u32, first: u32) -> Result<Vec<u32>, AllocError>
    requires { Contains (path.old.items ++ node ∷ []) first }
    ensures { IfOk result (λ ring. IsEndFrom (path.old.items ++ node ∷ []) first ring.items) }
{
    path.push(node)?;
    let start = place_of(path.as_slice(), first);
    path.split_off(start)
}

// The place of a node on a path.
fn place_of(path: &[u32], node: u32) -> usize
    requires { Contains path.now node }
    ensures within { result < length path.now }
    ensures node { slice_index_or path.now result node ≡ node }
{
    path.iter().take_while(|step| **step != node).count()
}
