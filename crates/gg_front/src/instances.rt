//! Instances of one module are copies of each other.
ghost use Rattle.gg_elab_sites.specs.IsFlat.{IsFlat};
ghost use Rattle.gg_flat_tree.specs.Scoped.{IsScoped};
ghost use Rattle.gg_flat_tree.specs.Tree.{IsTree};
ghost use Rattle.gg_elab_tree.specs.IsTreeOf.{IsTreeOf};
ghost use Rattle.gg_part.specs.Copies.{HasCopies};

use gg_elab_tree::top_of;
use gg_flat::Piece;
use gg_flat_tree::Tree;
use gg_types::Typed;

/// Any two instances of one module have the same signals, drivers, registers and memories, except for their numbers and
/// the front of their paths. The function computes nothing: its contract states this fact about the three.
pub fn copies(typed: &Typed, piece: &Piece, tree: &Tree)
    requires flat { IsFlat typed.now.circuit piece.now }
    requires tree { IsTreeOf typed.now.circuit tree.now }
    requires fitting { IsTree piece.now tree.now }
    requires scoped { IsScoped piece.now tree.now }
    ensures { HasCopies piece.now tree.now }
{
    let circuit = typed.names().circuit();
    circuit.names_are_words();
    // for the invariant only
    let _ = top_of(typed);
    let _ = typed.order();
    let _ = piece.signal_count();
    let _ = tree.len();
    let _ = tree.memory_count();
}
