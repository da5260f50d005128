//! The models of the bridges that are handed in.
ghost use Rattle.std.specs.Prelude.{◌≡◌, ◌++◌, ◌∷◌, [], IfOk, OnOk};
ghost use Rattle.gg_bridge.specs.Model.{IsModel};
ghost use Rattle.golden_commands.specs.Bridges.{CanHandIn};
ghost use Rattle.golden_commands.specs.inside.Bridges.{HaveModels};
ghost use Rattle.golden_commands.specs.Handed.{AreHandedIn};

use gg_bits::Name;
use gg_bridge::Bridge;
use gg_cut_plan::Models;
use std::alloc::{AllocError, Global};

// Adds a copy of a bridge's model.
fn add_model<B: Bridge>(models: &mut Models, name: &Name, bridge: &B) -> Result<(), AllocError>
    ensures added { OnOk result (models.new ≡ models.old ++ (name.now, B.piece bridge.now) ∷ []) }
    ensures model { OnOk result (IsModel (B.piece bridge.now)) }
{
    let copy = bridge.model().copy()?;
    match models.add(name.clone()?, copy) {
        Ok(()) => Ok(()),
        Err(_) => Err(AllocError),
    }
}

/// Copies of the models of these bridges, each with its bridge's name.
///
/// # Errors
///
/// Returns `AllocError` if an allocation fails.
pub fn models_of<B: Bridge>(alloc: Global, bridges: &[(Name, B)]) -> Result<Models, AllocError>
    requires { CanHandIn B.piece B.state bridges.now }
    ensures handed { IfOk result AreHandedIn }
    ensures models { IfOk result (HaveModels B.piece B.state bridges.now) }
{
    let mut models = Models::new(alloc);
    for bridge in bridges {
        add_model(&mut models, &bridge.0, &bridge.1)?;
    }
    Ok(models)
}
