//! Laws: facts about the definitions. Each is the contract of a function with an empty body.
ghost use Rattle.std.specs.Prelude.{◌≡◌, ℕ, List};
ghost use Rattle.gg_flat.specs.Circuit.{FlatCircuit};
ghost use Rattle.gg_flat.specs.WellFormed.{IsWellFormed};
ghost use Rattle.gg_flat.specs.Order.{IsOrder};
ghost use Rattle.gg_flat.specs.State.{State, IsState, opening};
ghost use Rattle.gg_bridge.specs.inside.All.{Attached, CanAttachAll, CanAttachEach, joined_all, joined_states};
ghost use Rattle.gg_bridge.specs.All.{joined_state};
ghost use Rattle.gg_bridge.specs.Joined.{joined};
ghost use Rattle.gg_bridge.specs.inside.Joined.{HasOrder};
ghost use Rattle.gg_bridge.specs.inside.JoinedParts.{JoinedIsFormed, JoinedIsOrdered, StatesMakeAState, TheCircuitIsPart, TheModelIsPart};
ghost use Rattle.gg_bridge.specs.inside.JoinedRuns.{DrivesWhatTheModelSays, RunsOfAll, RunsOfTheCircuit, RunsOfTheModel};

/// The circuit and the model, with its new paths, are parts of the circuit with the model.
pub fn joined_parts()
    ensures circuit { TheCircuitIsPart }
    ensures model { TheModelIsPart }
{}

/// The circuit with a model is well formed.
pub fn joined_formed()
    ensures { JoinedIsFormed }
{}

/// The circuit with a model has an order of evaluation, if the circuit has one: no out-signal of a model waits for its inputs.
pub fn joined_ordered()
    ensures { JoinedIsOrdered }
{}

/// A run of the circuit with a model, from any state of both, is a run of the circuit on the inputs that it has there, and a run of the model on what
/// the bridge sees. What the bridge drives has the columns of the model's out-signals.
pub fn joined_runs()
    ensures circuit { RunsOfTheCircuit }
    ensures model { RunsOfTheModel }
    ensures driven { DrivesWhatTheModelSays }
{}

/// A state of the circuit and a state of the model make a state of the circuit with the model. Zeros of both are its zeros.
pub fn joined_is_state()
    ensures typed { StatesMakeAState }
    ensures zeros { (one : FlatCircuit) (front : List ℕ) (model : FlatCircuit) (sees drives : List ℕ) → joined_state (opening one) (opening model) ≡ opening (joined one front model sees drives) }
{}

/// A circuit with the models of several bridges is well formed.
pub fn joined_all_formed()
    ensures { (one : FlatCircuit) (bridges : List Attached) → CanAttachAll one bridges → IsWellFormed one → IsWellFormed (joined_all one bridges) }
{}

/// A circuit with the models of several bridges has an order of evaluation, if the circuit has one.
pub fn joined_all_ordered()
    ensures { (one : FlatCircuit) (bridges : List Attached) (order : List ℕ) → CanAttachAll one bridges → IsWellFormed one → IsOrder one order → HasOrder (joined_all one bridges) }
{}

/// A run of a circuit with the models of several bridges, from any state of the circuit and zeros of the models, is a run of the circuit,
/// and one of each model on what its bridge sees.
pub fn joined_all_runs()
    ensures { RunsOfAll }
{}

/// A state of the circuit with zeros of the models is a state of the circuit with the models, and all zeros are its zeros.
pub fn joined_all_states()
    ensures typed { (one : FlatCircuit) (bridges : List Attached) (state : State) → IsState one state → IsState (joined_all one bridges) (joined_states state bridges) }
    ensures zeros { (one : FlatCircuit) (bridges : List Attached) → joined_states (opening one) bridges ≡ opening (joined_all one bridges) }
{}

/// Bridges can be at a circuit's ports one after the other, if each can be at the circuit's own ports, no two drive the same input, and the paths of
/// their models differ.
pub fn bridges_join()
    ensures { (one : FlatCircuit) (bridges : List Attached) → IsWellFormed one → CanAttachEach one bridges → CanAttachAll one bridges }
{}
