//! Laws: facts about the definitions. Each is the contract of a function with an empty body.
ghost use Rattle.std.specs.Prelude.{◌≡◌, ℕ, List, [], Bool, false};
ghost use Rattle.gg_flat.specs.Circuit.{FlatCircuit};
ghost use Rattle.gg_flat_tree.specs.Tree.{InstanceTree};
ghost use Rattle.gg_partfile.specs.declared.request.BridgeEntry.{BridgeEntry};
ghost use Rattle.gg_cut_plan.specs.declared.listed.Listed.{Listed};
ghost use Rattle.gg_partfile.specs.declared.request.Request.{Request};
ghost use Rattle.gg_cut_plan.specs.Listed.{listed_of};
ghost use Rattle.gg_cut_plan.specs.Channels.{wires_of};
ghost use Rattle.gg_cut_plan.specs.Direct.{hub_of, routes, is_gone, plan_wires};
ghost use Rattle.gg_cut_routes.specs.inside.RoutedCuts.{ChannelsAreRouted, PlansAreRouted, MachinesAreFew, HubIsRouted, OthersAreRouted, OthersTakeTheSame, OthersGiveTheSame};

use gg_cut_split::{channels_once, machine_makes_part};

/// If what is listed is apart, the routed channels make parts of the circuit, as the channels before do.
pub fn channels_routed()
    ensures { ChannelsAreRouted }
{
    channels_once();
    machine_makes_part();
}

/// The channels of the plan of a request without a fault make parts of the circuit.
pub fn plan_is_routed()
    ensures { PlansAreRouted }
{}

/// If no channels are to be direct, the channels are the cut's, and no signal leaves.
pub fn nothing_direct()
    ensures channels { (circuit : FlatCircuit) (tree : InstanceTree) (listed : Listed) (piped : ℕ → Bool) (entries : List BridgeEntry) → routes (hub_of circuit tree listed piped entries false) ≡ wires_of circuit tree listed entries }
    ensures stays { (circuit : FlatCircuit) (tree : InstanceTree) (listed : Listed) (piped : ℕ → Bool) (entries : List BridgeEntry) (s : ℕ) → is_gone (hub_of circuit tree listed piped entries false) s ≡ false }
    ensures plan { (circuit : FlatCircuit) (tree : InstanceTree) (request : Request) → request.direct ≡ false → plan_wires circuit tree request ≡ wires_of circuit tree (listed_of tree request) request.bridges }
{}

/// What a machine of a cut had before the routing determines what it has by the routed channels. A signal of the hub stays if it isn't marked as gone
/// and its channel doesn't pass the hub. Every other machine has the signals that it had.
pub fn shares_routed()
    ensures hub { HubIsRouted }
    ensures others { OthersAreRouted }
{}

/// A plan has at most 33,025 machines that are no bridges: the hub, 256 units and memories, and a source and a tray for each of 16,384 channels.
pub fn machines_few()
    ensures { MachinesAreFew }
{}

/// Another machine than the hub takes by the routed channels what it took before, in the same order, and gives by the same signals.
pub fn units_still()
    ensures ins { OthersTakeTheSame }
    ensures outs { OthersGiveTheSame }
{}
