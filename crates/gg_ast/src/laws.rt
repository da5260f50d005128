//! Laws that follow from the definitions.
ghost use Rattle.std.specs.Prelude.{◌≡◌};
ghost use Rattle.gg_ast.specs.Rows.{rows_of};
ghost use Rattle.gg_ast.specs.Tree.{CircuitTree};

/// The rows of a circuit lose nothing: two circuits with the same rows, on the same lines, are the same.
pub fn one_tree()
    ensures { (c d : CircuitTree) → rows_of c ≡ rows_of d → c ≡ d }
{}
