//! `Design`: a flat circuit with the tree of its instances and an order of evaluation.
ghost use Rattle.std.specs.Prelude.{◌≡◌};
ghost use Rattle.gg_flat.specs.WellFormed.{IsWellFormed};
ghost use Rattle.gg_flat.specs.Order.{IsOrder};

use crate::ordering::Order;
use gg_flat::Piece;
use gg_flat_tree::Tree;
use std::marker::Model;

/// A flat circuit that is well formed, with a tree of instances and an order of evaluation. A contract sees these
/// three. It doesn't say whether the circuit keeps to the tree: the code that makes it does.
pub struct Design {
    piece: Piece,
    tree: Tree,
    order: Order,
}

impl Drop for Design {
    fn drop(self) {
        let Self { piece, tree, order } = self;
        drop(piece);
        drop(tree);
        drop(order);
    }
}

impl Model for Design {
    ghost use Rattle.gg_order.specs.Design.{Ordered, IsDesign};

    ghost Value = { Ordered };

    ghost view = { λ design. record { circuit = design.piece; tree = design.tree; order = design.order } };

    ghost invariant = { λ design. IsDesign (record { circuit = design.piece; tree = design.tree; order = design.order }) };
}

impl Design {
    /// The design of a circuit, a tree of instances and an order of the circuit. The circuit is well formed, as
    /// gg_refsim's `is_well_formed` checks. The order has each signal once, after all signals that it reads.
    pub fn new(piece: Piece, tree: Tree, order: Order) -> Design
        requires formed { IsWellFormed piece }
        requires ordered { IsOrder piece order }
        ensures circuit { result.circuit ≡ piece }
        ensures tree { result.tree ≡ tree }
        ensures order { result.order ≡ order }
    {
        Design { piece, tree, order }
    }

    /// The circuit.
    pub fn piece(&self) -> &Piece
        ensures circuit { result.now ≡ self.now.circuit }
        ensures formed { IsWellFormed self.now.circuit }
    {
        &self.piece
    }

    /// The tree of instances.
    pub fn tree(&self) -> &Tree
        ensures tree { result.now ≡ self.now.tree }
    {
        &self.tree
    }

    /// The order.
    pub fn order(&self) -> &[u32]
        ensures order { result.now ≡ self.now.order }
        ensures ordered { IsOrder self.now.circuit self.now.order }
    {
        self.order.as_slice()
    }
}
