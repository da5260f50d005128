//! A law: a fact about the definitions. It is the contract of a function with an empty body.
ghost use Rattle.std.specs.Prelude.{ℕ, List, Some, map};
ghost use Rattle.gg_flat.specs.Streams.{Flow};
ghost use Rattle.gg_net.specs.declared.event.Event.{Event};
ghost use Rattle.gg_net.specs.Network.{Network};
ghost use Rattle.gg_net.specs.Kept.{Kept};
ghost use Rattle.gg_net.specs.markings.Steps.{Steps};
ghost use Rattle.gg_workers.specs.Work.{IsLater};
ghost use Rattle.gg_workers.specs.inside.LaterLaws.{FallsByReady};

/// Steps lead from a network to the network that comes back from workers. The measure has fallen by at least the number
/// of the events that could be done, of machines below `upto`.
pub fn later_by_steps()
    ensures steps { (flow : Flow) (upto : ℕ) (old new : Network) → Kept flow old → IsLater flow upto old new → (events : List Event) × Steps old (map (λ e. Some e) events) new }
    ensures falls { FallsByReady }
{}
