//! `Graph`: what a walk needs to know of a directed graph.
ghost use Rattle.std.specs.Prelude.{◌≡◌, ℕ, ◌<◌, List, IfSome, IfNone, ◌⊎◌};
ghost use Rattle.gg_graph.specs.inside.Graph.{IsOrderOf};
ghost use Rattle.gg_graph.specs.Graph.{IsRing};

/// A target of a node, and the place after it.
#[derive(Clone, Copy, PartialEq, Eq)]
pub struct Target {
    /// The target.
    pub node: u32,
    /// The place after it, where the search for the next target begins.
    pub next: usize,
}

/// A directed graph. Its nodes are the numbers below their count. Each node has its targets at places, and some places
/// may have no target. A node may have one target at several places, and may be its own target.
pub trait Graph {
    // How many nodes there are.
    ghost nodes: { Self → ℕ };

    // There is an edge from the first node to the second: the second is a target of the first.
    ghost edge: { Self → ℕ → ℕ → Type 0 };

    // The node has this target at a place below this one.
    ghost edge_below: { Self → ℕ → ℕ → ℕ → Type 0 };

    /// How many nodes there are.
    fn node_count(&self) -> u32
        ensures { result ≡ nodes self.now };

    /// The first target of a node at or after a place, or none if no target is left.
    fn target(&self, node: u32, place: usize) -> Option<Target>
        requires { node < nodes self.now }
        ensures edge { IfSome result (λ found. edge self.now node found.node) }
        ensures within { IfSome result (λ found. found.node < nodes self.now) }
        ensures onward { IfSome result (λ found. place < found.next) }
        ensures first { IfSome result (λ found. (t : ℕ) → edge_below self.now node found.next t → edge_below self.now node place t ⊎ (t ≡ found.node)) }
        ensures none { IfNone result ((t : ℕ) → edge self.now node t → edge_below self.now node place t) };

    // There is no target below the first place.
    ghost none_below_first: { (graph : Self) (s t : ℕ) → edge_below graph s 0 t → ⊥ };
}

/// A graph that has an order has no ring.
pub fn no_ring<G: Graph>()
    ensures { (graph : G) (order ring : List ℕ) → IsOrderOf (G.edge graph) (G.nodes graph) order → ¬ IsRing (G.edge graph) (G.nodes graph) ring }
{}
