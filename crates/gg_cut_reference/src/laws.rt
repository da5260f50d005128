//! Laws: facts about the definitions. Each is the contract of a function with an empty body.
ghost use Rattle.std.specs.Prelude.{◌≡◌, [], map};
ghost use Rattle.gg_order.specs.Design.{Ordered};
ghost use Rattle.gg_partfile.specs.declared.request.Request.{Request};
ghost use Rattle.gg_cut_plan.specs.Direct.{plan_hub};
ghost use Rattle.gg_cut_reference.specs.Links.{taken_as};
ghost use Rattle.gg_cut_reference.specs.Made.{plan_reference};
ghost use Rattle.gg_cut_reference.specs.inside.ReferenceRuns.{MachinesFollow, ChannelsFollow, SourcesFollow};
ghost use Rattle.gg_cut_reference.specs.inside.ReferenceForm.{ReferencesArePiped, ReferencesAreFormed, ReferencesAreOrdered, NothingIsPiped, PipesDecideReference, PipesDecideStart};

use gg_cut_split::channels_once;

/// A machine follows a run of the reference circuit, from any start and whatever the ratios of the clocks. Its piece has a run, from its part of the
/// start, on the values of the channels that it takes. The values of piped channels come a cycle later, after the pipe's token. In each such run the
/// machine gives the values of the channels that it gives. No register of the circuit may be held by two signals.
pub fn parts_follow()
    ensures { MachinesFollow }
{
    channels_once();
}

/// In a run of the reference circuit, the signal that the consumer of a channel gets has the values of the signal that its producer gives, a cycle
/// later and after the pipe's token where the channel is piped.
pub fn channels_follow()
    ensures { ChannelsFollow }
{
    channels_once();
}

/// In a run of the reference circuit, each channel of the source of a top input is given the input's values.
pub fn sources_follow()
    ensures { SourcesFollow }
{
    channels_once();
}

/// The reference circuit has the signals, the registers and the memories of the design, which name signals as their machines see them, and then a
/// register for each piped channel, which takes the channel's value in each tick. It is well formed if no path of the design begins with `pipe:`. The
/// pipes, followed by the order of the design, are an order of it.
pub fn reference_formed()
    ensures made { ReferencesArePiped }
    ensures formed { ReferencesAreFormed }
    ensures ordered { ReferencesAreOrdered }
{
    channels_once();
}

/// Each output's value in the reference circuit is what its tray keeps.
pub fn outputs_kept()
    ensures { (design : Ordered) (request : Request) → (plan_reference design request).outs ≡ map (taken_as (plan_hub design.circuit design.tree request)) design.circuit.outs }
{}

/// Where no channel is piped, the reference circuit is the circuit itself. A request without pipes has no piped channel.
pub fn nothing_piped()
    ensures cut { NothingIsPiped }
    ensures request { (design : Ordered) (request : Request) → request.pipe ≡ [] → plan_reference design request ≡ design.circuit }
{}

/// Two requests without a fault that list the same pipes have one reference circuit, whatever their units, their memories and their direct channels.
/// If they give the clocks the same ratios, their runs start alike too. Each register of the design has to be held by a signal.
pub fn one_reference()
    ensures circuit { PipesDecideReference }
    ensures start { PipesDecideStart }
{}
