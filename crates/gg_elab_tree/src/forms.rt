//! The flat circuit of a circuit is well formed, and each of its registers is held by exactly one signal.
ghost use Rattle.std.specs.Prelude.{◌≢◌, None};
ghost use Rattle.gg_ast.specs.Places.{place_of};
ghost use Rattle.gg_ast.specs.Tree.{module_names};
ghost use Rattle.gg_elab_sites.specs.IsFlat.{IsFlat};
ghost use Rattle.gg_flat.specs.WellFormed.{IsWellFormed};
ghost use Rattle.gg_elab_tree.specs.inside.Fitting.{AreFitting};
ghost use Rattle.gg_elab_tree.specs.Held.{AreHeldOnce};

use gg_flat::Piece;
use gg_types::Typed;

/// The flat circuit of a circuit is well formed, and each of its registers is held by exactly one signal. The function
/// computes nothing: its contract states these facts about both.
pub fn formed(typed: &Typed, piece: &Piece)
    requires top { (place_of typed.now.circuit.name (module_names typed.now.circuit)) ≢ None }
    requires flat { IsFlat typed.now.circuit piece.now }
    requires fits { AreFitting piece.now }
    ensures formed { IsWellFormed piece.now }
    ensures held { AreHeldOnce piece.now }
{
    let circuit = typed.names().circuit();
    circuit.names_are_words();
    // for the invariant only
    let _ = piece.signal_count();
}
