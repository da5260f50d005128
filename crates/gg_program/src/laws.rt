//! Laws: facts about the definitions. Each is the contract of a function with an empty body.
ghost use Rattle.std.specs.Prelude.{◌≡◌, ℕ, List};
ghost use Rattle.gg_flat.specs.Circuit.{FlatCircuit};
ghost use Rattle.gg_flat.specs.State.{State};
ghost use Rattle.gg_program.specs.ConeValue.{IsConeValue};
ghost use Rattle.gg_program.specs.inside.ConeValue.{IsGivenByNeeds};

/// A state and inputs give a signal one value. Inputs that agree on what it needs give it the same value.
pub fn one_cone_value()
    ensures once { (circuit : FlatCircuit) (state : State) (inputs : List ℕ) (out value other : ℕ)
        → IsConeValue circuit state inputs out value → IsConeValue circuit state inputs out other → value ≡ other }
    ensures needs { (circuit : FlatCircuit) (state : State) (out : ℕ) → IsGivenByNeeds circuit state out }
{}
