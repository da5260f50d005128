//! The scan of a node's targets.
ghost use Rattle.std.specs.Prelude.{◌≡◌, ◌≢◌, ℕ, ◌<◌, length, IfSome, IfNone};
ghost use Rattle.gg_graph.specs.inside.Walk.{stage_at};
ghost use Rattle.gg_graph.specs.declared.state.Stage.TheVariants.{Done};

use crate::nodes::Graph;
use crate::state::Stage;

// A target that isn't done, and a place: all targets at places below it are done.
#[derive(Clone, Copy)]
pub(crate) struct Candidate {
    pub(crate) node: u32,
    pub(crate) place: usize,
}

// The first target that isn't done, at or after a place. All targets below that place are done.
pub(crate) fn next_candidate<G: Graph>(
    graph: &G,
    stages: &[Stage],
    node: u32,
    start: usize,
) -> Option<Candidate>
    requires node { node < G.nodes graph.now }
    requires count { length stages.now ≡ G.nodes graph.now }
    requires scanned { (t : ℕ) → G.edge_below graph.now node start t → stage_at stages.now t ≡ Done }
    ensures edge { IfSome result (λ found. G.edge graph.now node found.node) }
    ensures within { IfSome result (λ found. found.node < G.nodes graph.now) }
    ensures not_done { IfSome result (λ found. stage_at stages.now found.node ≢ Done) }
    ensures scanned { IfSome result (λ found. (t : ℕ) → G.edge_below graph.now node found.place t → stage_at stages.now t ≡ Done) }
    ensures none { IfNone result ((t : ℕ) → G.edge graph.now node t → stage_at stages.now t ≡ Done) }
{
    let mut place = start;
    while let Some(target) = graph.target(node, place) {
        match stages[target.node as usize] {
            Stage::Done => place = target.next,
            Stage::New | Stage::Open => {
                return Some(Candidate {
                    node: target.node,
                    place,
                })
            }
        }
    }
    None
}
