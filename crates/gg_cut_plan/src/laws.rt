//! Laws: facts about the definitions. Each is the contract of a function with an empty body.
ghost use Rattle.std.specs.Prelude.{◌≡◌, List, map};
ghost use Rattle.gg_flat.specs.Circuit.{FlatCircuit};
ghost use Rattle.gg_flat_tree.specs.Tree.{InstanceTree};
ghost use Rattle.gg_partfile.specs.declared.request.BridgeEntry.{BridgeEntry};
ghost use Rattle.gg_cut_plan.specs.declared.listed.Listed.{Listed};
ghost use Rattle.gg_cut_plan.specs.declared.wires.Wire.{Wire};
ghost use Rattle.gg_cut_plan.specs.Channels.{wires_of};
ghost use Rattle.gg_cut_plan.specs.inside.Channels.{channel_signals};

/// The channels, with their machines, carry exactly the signals that channels are counted and named by, in the same
/// order.
pub fn channels_agree()
    ensures { (circuit : FlatCircuit) (tree : InstanceTree) (listed : Listed) (entries : List BridgeEntry) → map (λ (w : Wire). w.signal) (wires_of circuit tree listed entries) ≡ channel_signals circuit tree listed }
{}
