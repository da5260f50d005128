//! Laws of the names and the paths in the circuit that a text spells. Each is the contract of a function with an empty body.
ghost use Rattle.std.specs.Prelude.{ℕ, List, codes};
ghost use Rattle.gg_ast.specs.inside.Names.{AreNamesOfCircuit};
ghost use Rattle.gg_ast.specs.Tree.{CircuitTree};
ghost use Rattle.gg_read.specs.Text.{Spells};
ghost use Rattle.gg_front.specs.inside.PathLaws.{TextsHavePaths, NoPathBegins};

/// Each name in the circuit that a text spells is a name.
pub fn spelt_names()
    ensures { (text : List ℕ) (circuit : CircuitTree) → Spells text circuit → AreNamesOfCircuit circuit }
{}

/// Let a text spell a circuit that has this flat circuit and this tree. Signals and memories have paths, instances
/// too, and the ports of a memory have different names.
pub fn paths_are_words()
    ensures { TextsHavePaths }
{}

/// No path of a signal in the flat circuit of a text begins with `pipe:`. Names have no colon, and the paths of stops
/// have theirs after `stop`. Names with this beginning are therefore free for what is added to a circuit.
pub fn no_pipe_names()
    ensures { NoPathBegins (codes "pipe:") }
{}

/// No path begins with `bridge:` either.
pub fn no_bridge_names()
    ensures { NoPathBegins (codes "bridge:") }
{}
