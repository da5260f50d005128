//! The tree of a circuit fits its flat circuit.
ghost use Rattle.std.specs.Prelude.{◌≢◌, None};
ghost use Rattle.gg_ast.specs.Places.{place_of};
ghost use Rattle.gg_ast.specs.Tree.{module_names};
ghost use Rattle.gg_elab_sites.specs.IsFlat.{IsFlat};
ghost use Rattle.gg_flat_tree.specs.Clocked.{IsClocked};
ghost use Rattle.gg_flat_tree.specs.Scoped.{IsScoped};
ghost use Rattle.gg_flat_tree.specs.Tree.{IsTree};
ghost use Rattle.gg_elab_tree.specs.IsTreeOf.{IsTreeOf};

use gg_flat::Piece;
use gg_flat_tree::Tree;
use gg_types::Typed;

/// The circuit's tree is a tree of its flat circuit; the flat circuit keeps to the tree's scopes, and has the tree's
/// clocks. The function computes nothing: its contract states this fact about the three.
pub fn fits(typed: &Typed, piece: &Piece, tree: &Tree)
    requires top { (place_of typed.now.circuit.name (module_names typed.now.circuit)) ≢ None }
    requires flat { IsFlat typed.now.circuit piece.now }
    requires tree { IsTreeOf typed.now.circuit tree.now }
    ensures fitting { IsTree piece.now tree.now }
    ensures scoped { IsScoped piece.now tree.now }
    ensures clocked { IsClocked piece.now tree.now }
{
    let circuit = typed.names().circuit();
    circuit.names_are_words();
    // for the invariant only
    let _ = piece.signal_count();
    let _ = tree.len();
    let _ = tree.memory_count();
}
