//! A law of the flat circuits of a circuit: the contract of a function with an empty body.
ghost use Rattle.std.specs.Prelude.{◌≡◌};
ghost use Rattle.gg_ast.specs.Tree.{CircuitTree};
ghost use Rattle.gg_flat.specs.Circuit.{FlatCircuit};
ghost use Rattle.gg_elab_sites.specs.IsFlat.{IsFlat};

/// A circuit has at most one flat circuit.
pub fn one_flat()
    ensures { (circuit : CircuitTree) (one other : FlatCircuit) → IsFlat circuit one → IsFlat circuit other → one ≡ other }
{}
