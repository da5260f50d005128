//! Laws: facts about the definitions. Each is the contract of a function with an empty body.
ghost use Rattle.std.specs.Prelude.{◌≡◌, []};
ghost use Rattle.gg_ast.specs.Tree.{CircuitTree};
ghost use Rattle.gg_flat.specs.Circuit.{FlatCircuit};
ghost use Rattle.gg_types.specs.Types.{type_faults};
ghost use Rattle.gg_elab_tree.specs.inside.Fitting.{AreFitting};
ghost use Rattle.gg_elab_sites.specs.IsFlat.{IsFlat};

/// A circuit without faults of types has a flat circuit. Each line of it may be connected to what it drives.
pub fn each_has_flat()
    ensures { (circuit : CircuitTree) → type_faults circuit ≡ [] → (flat : FlatCircuit) × IsFlat circuit flat × AreFitting flat }
{}
