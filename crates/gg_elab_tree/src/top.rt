//! A checked circuit has a top.
ghost use Rattle.std.specs.Prelude.{◌≡◌, Some};
ghost use Rattle.gg_ast.specs.Places.{place_of};
ghost use Rattle.gg_ast.specs.Tree.{module_names};

use gg_types::Typed;

/// The place of the top of a circuit that passed the checks.
pub fn top_of(typed: &Typed) -> u32
    ensures { place_of typed.now.circuit.name (module_names typed.now.circuit) ≡ Some result }
{
    let circuit = typed.names().circuit();
    circuit.module(circuit.name().as_str()).unwrap()
}
