//! The paths of a circuit differ.
ghost use Rattle.std.specs.Prelude.{◌≢◌, AllPairs};
ghost use Rattle.gg_elab_sites.specs.IsFlat.{memory_paths};
ghost use Rattle.gg_elab_sites.specs.Known.{types_of};
ghost use Rattle.gg_elab_sites.specs.inside.Views.{AreDigests};
ghost use Rattle.gg_elab_tree.specs.IsTreeOf.{site_paths, signal_paths, memories_of};

use gg_elab_sites::Digest;
use gg_types::Typed;

/// In a circuit that passed the checks, no two sites have the same path, no two signals, and no two memories. Its digests
/// have fewer than 2^32 stops of a module, so that no two of these have the same name. The function computes nothing: its
/// contract states this fact about the circuit.
pub fn distinct(typed: &Typed, _digests: &[Digest])
    requires { AreDigests (types_of typed.now.circuit) typed.now.circuit.modules _digests.now }
    ensures sites { AllPairs (λ a b. a ≢ b) (site_paths typed.now.circuit) }
    ensures signals { AllPairs (λ a b. a ≢ b) (signal_paths typed.now.circuit) }
    ensures memories { AllPairs (λ a b. a ≢ b) (memory_paths (memories_of typed.now.circuit)) }
{
    let circuit = typed.names().circuit();
    circuit.names_are_words();
}
