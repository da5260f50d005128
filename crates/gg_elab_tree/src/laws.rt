//! Laws: facts about the definitions. Each is the contract of a function with an empty body.
ghost use Rattle.gg_ast.specs.Tree.{CircuitTree};
ghost use Rattle.gg_flat_tree.specs.Tree.{InstanceTree};
ghost use Rattle.gg_elab_tree.specs.IsTreeOf.{IsTreeOf};

/// Each circuit has a tree.
pub fn each_has_tree()
    ensures { (circuit : CircuitTree) → (tree : InstanceTree) × IsTreeOf circuit tree }
{}
