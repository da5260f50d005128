//! Laws: facts about the definitions. Each is the contract of a function with an empty body.
ghost use Rattle.std.specs.Prelude.{◌≡◌, ℕ, ◌<◌, List, Bool, true, length};
ghost use Rattle.gg_flat.specs.Circuit.{FlatCircuit};
ghost use Rattle.gg_flat_tree.specs.Tree.{InstanceTree};
ghost use Rattle.gg_order.specs.Design.{Ordered};
ghost use Rattle.gg_partfile.specs.declared.request.BridgeEntry.{BridgeEntry};
ghost use Rattle.gg_partfile.specs.declared.request.Request.{Request};
ghost use Rattle.gg_cut_plan.specs.Listed.{listed_of};
ghost use Rattle.gg_cut_plan.specs.declared.listed.Listed.{Listed};
ghost use Rattle.gg_cut_plan.specs.Plan.{machine_names};
ghost use Rattle.gg_cut_plan.specs.Ports.{undriven, bridges_of, plan_bridges, open_ins, machine_end};
ghost use Rattle.gg_cut_plan.specs.inside.Ports.{AreBridges};
ghost use Rattle.gg_bits.specs.Lists.{count_below};
ghost use Rattle.gg_cut_reference.specs.inside.Fitted.{FaultlessAreFitting, FittingCanAttach};
ghost use Rattle.gg_cut_reference.specs.inside.Left.{LeftAreFound, StopsStandBehind, UndrivenAreUnlisted, UndrivenHaveAPlace, UnseenAreCounted, UnseenAreUnlisted, UnseenHaveAPlace};
ghost use Rattle.gg_cut_reference.specs.inside.Listers.{DriversListTheirInputs, ListedInputsAreDriven, ListedOutputsAreSeen, ViewersListTheirOutputs};
ghost use Rattle.gg_cut_reference.specs.inside.Named.{BridgesAreNamed, OutputsAreNamed, SourcesAreNamed, StopsAreNamed};

/// Entries of bridges without a fault name models, list ports of their types, and list none twice.
pub fn bridges_fit()
    ensures { FaultlessAreFitting }
{}

/// Entries that fit can be at the ports of a circuit, each at the circuit's own.
pub fn bridges_attach()
    ensures { FittingCanAttach }
{}

/// The bridges of entries at a circuit's ports are among the entries.
pub fn bridges_known()
    ensures { (circuit : FlatCircuit) (outputs : ℕ) (listed : Listed) (entries : List BridgeEntry) → AreBridges (bridges_of circuit outputs listed entries) }
{}

/// Counts and places of the ports that no bridge has. The top's out-signals are its outputs, followed by its stops. An out-signal that no bridge sees
/// is found again by its place.
pub fn open_ports()
    ensures ins { (circuit : FlatCircuit) (tree : InstanceTree) (request : Request) → count_below (undriven (plan_bridges circuit tree request)) (length circuit.ins) ≡ length (open_ins circuit request) }
    ensures outs { UnseenAreCounted }
    ensures undriven { UndrivenAreUnlisted }
    ensures unseen { UnseenAreUnlisted }
    ensures input { UndrivenHaveAPlace }
    ensures output { UnseenHaveAPlace }
    ensures stop { StopsStandBehind }
    ensures left { LeftAreFound }
    ensures found { (keeps : ℕ → Bool) (n k : ℕ) → k < count_below keeps n → (p : ℕ) × (p < n) × (keeps p ≡ true) × (count_below keeps p ≡ k) }
{}

/// There is a name for each machine of the plan. The machines at the ports of the top are named after them, and the bridges after their entries.
pub fn machines_named()
    ensures total { (design : Ordered) (request : Request) → length (machine_names design request (listed_of design.tree request)) ≡ machine_end (plan_bridges design.circuit design.tree request) }
    ensures source { SourcesAreNamed }
    ensures output { OutputsAreNamed }
    ensures stop { StopsAreNamed }
    ensures bridge { BridgesAreNamed }
{}

/// The bridge that drives an input, or sees an output, lists its path. Where no port is listed twice, the bridge of the entry that lists a path is
/// that bridge.
pub fn bridge_ports()
    ensures drives { DriversListTheirInputs }
    ensures driver { ListedInputsAreDriven }
    ensures sees { ViewersListTheirOutputs }
    ensures viewer { ListedOutputsAreSeen }
{}
