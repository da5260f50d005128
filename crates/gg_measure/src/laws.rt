//! Laws: facts about the definitions. Each is the contract of a function with an empty body.
ghost use Rattle.std.specs.Prelude.{◌≡◌, ◌↔◌, ◌+◌, ◌-◌, ◌*◌, ◌<◌, suc, List, Option, length, IsPermutation};
ghost use Rattle.gg_flat.specs.Streams.{Flow};
ghost use Rattle.gg_net.specs.declared.event.Event.{Event};
ghost use Rattle.gg_net.specs.inside.Counts.{Counts, HasBegun, IsAllowed, AreAtMost, CanRun, IsMarkingOf};
ghost use Rattle.gg_net.specs.inside.Measure.{left};
ghost use Rattle.gg_net.specs.markings.Measure.{sum_below};
ghost use Rattle.gg_net.specs.Network.{Network, Frame, frame_of};
ghost use Rattle.gg_net.specs.Kept.{Kept, IsSound};
ghost use Rattle.gg_net.specs.Step.{Ready, Step};
ghost use Rattle.gg_net.specs.markings.Steps.{Steps};
ghost use Rattle.gg_net.specs.inside.Fits.{marking_of};
ghost use Rattle.gg_measure.specs.inside.At.{IsAt};
ghost use Rattle.gg_measure.specs.inside.Ways.{CanComeUp, LeadsTo, LeadsToCounts, LeadsToWith, OfEachKept, OfEachOpening, counts_in};
ghost use Rattle.gg_measure.specs.Ways.{StepsBy};
ghost use Rattle.gg_measure.specs.inside.Nets.{AreDrained, HaveKept, dues_at, net_left};
ghost use Rattle.gg_net.specs.Network.{AllStandAt};

/// The layout of a network that is kept can run. The counts are allowed and have begun. The measure of the network is
/// its marking's. Before the first cycle it is a product: the number of cycles times the sum of twice the channels, the
/// machines and the served ports.
pub fn nets_are_allowed()
    ensures runs { OfEachKept (λ flow net layout. CanRun layout × IsMarkingOf layout (marking_of net)) }
    ensures allowed { OfEachKept (λ flow net layout. IsAllowed layout (counts_in layout net)) }
    ensures begun { OfEachKept (λ flow net layout. HasBegun layout flow.begin (counts_in layout net)) }
    ensures measure { OfEachKept (λ flow net layout. net_left net ≡ left layout (counts_in layout net)) }
    ensures opening { OfEachOpening (λ flow net layout. net_left net ≡ (net.end - flow.begin)
        * (2 * length net.wires + length net.machines + sum_below (dues_at net) (length net.machines))) }
{}

/// From a network steps lead to each network with the same frame and the same flow, if no count is lower there.
pub fn steps_up()
    ensures { OfEachKept (λ flow old layout. (goal : Network) → Kept flow goal → frame_of goal ≡ frame_of old
        → AreAtMost layout (counts_in layout old) (counts_in layout goal) → LeadsTo old goal) }
{}

/// From a network steps lead to a network with any allowed counts that are nowhere lower. From a network before its
/// first cycle they lead to a network with these counts exactly if the counts are allowed and have begun.
pub fn made_by_counts()
    ensures up { OfEachKept (λ flow old layout. (counts : Counts) → IsAllowed layout counts
        → AreAtMost layout (counts_in layout old) counts → LeadsToCounts layout old counts) }
    ensures exactly { OfEachOpening (λ flow old layout. (counts : Counts)
        → CanComeUp flow layout counts ↔ LeadsToCounts layout old counts) }
{}

/// From a network before its first cycle steps lead to a network with these counts exactly if the counts are allowed
/// and have begun, and it is the network with these counts. There is only one.
pub fn reached_exactly()
    ensures exactly { OfEachOpening (λ flow old layout. (new : Network) (counts : Counts)
        → (CanComeUp flow layout counts × IsAt flow (frame_of old) counts new)
        ↔ LeadsToWith layout old counts new) }
    ensures one { (flow : Flow) (frame : Frame) (counts : Counts) (one other : Network) → IsSound flow frame → IsAt flow frame counts one → IsAt flow frame counts other → one ≡ other }
{}

/// A step lowers the measure by one, and a list of steps by its length. A list of steps can be lengthened exactly if it
/// has fewer steps than the measure at its start.
pub fn steps_fall()
    ensures one { (flow : Flow) (old new : Network) (event : Event) → Kept flow old → Step old event new → suc (net_left new) ≡ net_left old }
    ensures all { (flow : Flow) (old new : Network) (events : List (Option Event)) → Kept flow old → Steps old events new → length events + net_left new ≡ net_left old }
    ensures longer { (flow : Flow) (old new : Network) (events : List (Option Event)) → Kept flow old → Steps old events new
        → (length events < net_left old) ↔ ((event : Event) × (next : Network) × Step new event next) }
{}

/// A list of steps that can't be lengthened has as many steps as the measure at its start. It ends with all machines at
/// the end. Each queue then contains as many tokens as it opened with, and each tray has kept the last values of its
/// channel.
pub fn steps_end_so()
    ensures count { (flow : Flow) (old new : Network) (events : List (Option Event)) → Kept flow old → Steps old events new → ((event : Event) → Ready new event → ⊥) → length events ≡ net_left old }
    ensures there { (flow : Flow) (old new : Network) (events : List (Option Event)) → Kept flow old → Steps old events new → ((event : Event) → Ready new event → ⊥) → AllStandAt new.end new }
    ensures drained { (flow : Flow) (old new : Network) (events : List (Option Event)) → Kept flow old → Steps old events new → ((event : Event) → Ready new event → ⊥) → AreDrained new }
    ensures kept { (flow : Flow) (old new : Network) (events : List (Option Event)) → Kept flow old → Steps old events new → ((event : Event) → Ready new event → ⊥) → HaveKept flow new }
{}

/// The measure of a network is 0 exactly if all machines are at the end.
pub fn none_left()
    ensures { (flow : Flow) (net : Network) → Kept flow net → (net_left net ≡ 0) ↔ AllStandAt net.end net }
{}

/// From a network the same steps in two orders, if each order can be done, lead to one network.
pub fn one_end()
    ensures { (flow : Flow) (old one other : Network) (events others : List Event) → Kept flow old → StepsBy old events one
        → StepsBy old others other → IsPermutation events others → one ≡ other }
{}
