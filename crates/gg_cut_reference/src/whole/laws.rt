//! Laws: facts about the definitions. Each is the contract of a function with an empty body.
ghost use Rattle.std.specs.Prelude.{◌≡◌};
ghost use Rattle.gg_flat.specs.WellFormed.{IsWellFormed};
ghost use Rattle.gg_order.specs.Design.{Ordered};
ghost use Rattle.gg_partfile.specs.declared.request.Request.{Request};
ghost use Rattle.gg_bridge.specs.inside.Joined.{HasOrder};
ghost use Rattle.gg_cut_plan.specs.Bridges.{Models};
ghost use Rattle.gg_cut_plan.specs.Ports.{open_ins};
ghost use Rattle.gg_cut_reference.specs.Made.{plan_reference};
ghost use Rattle.gg_cut_reference.specs.whole.Whole.{CanBridge, plan_circuit};
ghost use Rattle.gg_cut_reference.specs.inside.Whole.{CanStandAll};
ghost use Rattle.gg_cut_reference.specs.inside.WholeHolds.{OutsAreKept, StartsAreTyped, WholeRunsItsParts, ZerosStay};

/// The circuit with the bridges' models is well formed, and has an order of evaluation.
pub fn circuit_is_formed()
    ensures formed { (design : Ordered) (request : Request) (models : Models) → CanBridge design request models → IsWellFormed (plan_circuit design request models) }
    ensures ordered { (design : Ordered) (request : Request) (models : Models) → CanBridge design request models → HasOrder (plan_circuit design request models) }
{}

/// The inputs of the circuit with the bridges' models are the inputs that no bridge drives. Its out-signals are what trays keep: of the outputs that
/// no bridge sees, and of the stops. It has the clocks of the design.
pub fn circuit_has_ports()
    ensures ins { (design : Ordered) (request : Request) (models : Models) → CanBridge design request models → (plan_circuit design request models).ins ≡ open_ins design.circuit request }
    ensures outs { OutsAreKept }
    ensures clocks { (design : Ordered) (request : Request) (models : Models) → CanBridge design request models → (plan_circuit design request models).clocks ≡ design.circuit.clocks }
{}

/// A run of the circuit, from any state of the reference circuit and zeros of the models, is a run of the reference circuit and of each
/// model.
pub fn circuit_runs()
    ensures { WholeRunsItsParts }
{}

/// The bridges of a request can be at their ports, one after another.
pub fn bridges_stand()
    ensures { (design : Ordered) (request : Request) (models : Models) → CanBridge design request models → CanStandAll models (plan_reference design request) request.bridges }
{}

/// Where the reference circuit starts with zeros, so does the whole.
pub fn zeros_stay()
    ensures { ZerosStay }
{}

/// The whole starts in a state that it can be in, if the reference circuit does.
pub fn starts_are_typed()
    ensures { StartsAreTyped }
{}
