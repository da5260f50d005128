//! gg_graph: the order and the rings of small graphs.
ghost use Rattle.std.specs.Prelude.{◌≡◌, ℕ, ◌<◌, ◌^◌, length, take, Contains, IfSome, IfNone, ◌⊎◌};
ghost use Rattle.gg_graph.specs.inside.Lists.{HasTarget, HasTargetBelow, none_below_first};

use gg_graph::{Graph, Target, WalkFault, walk};

// A graph. Each node has three places. A number that is not a node means a place without a target.
#[derive(Drop)]
struct Table<'a> {
    targets: &'a [[u32; 3]],
    ghost few: { length targets.now < 2 ^ 32 },
}

impl<'a> Graph for Table<'a> {
    ghost nodes = { λ table. length table.targets.now };

    ghost edge = { λ table. HasTarget table.targets.now };

    ghost edge_below = { λ table. HasTargetBelow table.targets.now };

    ghost none_below_first = { λ table. none_below_first table.targets.now };

    fn node_count(&self) -> u32 {
        self.targets.len() as u32
    }

    fn target(&self, node: u32, place: usize) -> Option<Target> {
        first_below(self.targets.len(), &self.targets[node as usize], place)
    }
}

// The first number below a count at or after a place.
fn first_below(count: usize, targets: &[u32], place: usize) -> Option<Target>
    ensures target { IfSome result (λ found. Contains targets.now found.node) }
    ensures within { IfSome result (λ found. found.node < count) }
    ensures onward { IfSome result (λ found. place < found.next) }
    ensures first { IfSome result (λ found. (t : ℕ) → t < count → Contains (take found.next targets.now) t → Contains (take place targets.now) t ⊎ (t ≡ found.node)) }
    ensures none { IfNone result ((t : ℕ) → t < count → Contains targets.now t → Contains (take place targets.now) t) }
{
    for i in place..targets.len() {
        if (targets[i] as usize) < count {
            return Some(Target {
                node: targets[i],
                next: i + 1,
            });
        }
    }
    None
}

// A graph, and its order (Ok) or the ring that is found in it (Err).
type Row = (&'static [[u32; 3]], Result<&'static [u32], &'static [u32]>);

static GRAPHS: [Row; 3] = [
    // a diamond
    (
        &[[1, 2, 1], [9, 3, 9], [9, 9, 3], [9, 9, 9]],
        Ok(&[3, 1, 2, 0]),
    ),
    // a ring after a tail
    (
        &[[9, 3, 9], [2, 2, 9], [4, 0, 9], [1, 9, 9], [3, 9, 9]],
        Err(&[3, 1, 2, 4]),
    ),
    // a node that is its own target
    (&[[1, 9, 9], [9, 1, 9]], Err(&[1])),
];

#[test]
fn graphs(rt: HostRuntime) {
    for (targets, want) in &GRAPHS {
        assert!(rt; targets.len() <= u32::MAX as usize);
        let is_right = match walk(rt.alloc(), &Table { targets }) {
            Ok(order) => *want == Ok(order.as_slice()),
            Err(WalkFault::Ring(ring)) => *want == Err(ring.as_slice()),
            Err(WalkFault::NoMemory) => false,
        };
        assert!(rt; is_right, "{want:?}");
    }
}
