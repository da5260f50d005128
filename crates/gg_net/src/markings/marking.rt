//! Laws of markings: why an event is refused, and where steps lead. Each is the contract of a function with an empty body.
ghost use Rattle.std.specs.Prelude.{◌≡◌, ◌≢◌, ℕ, suc, ◌<◌, ◌≤◌, ◌++◌, List, [], ◌∷◌, Option, length};
ghost use Rattle.gg_flat.specs.Streams.{Flow};
ghost use Rattle.gg_net.specs.declared.event.Event.{Event};
ghost use Rattle.gg_net.specs.declared.event.Event.TheVariants.{Fire};
ghost use Rattle.gg_net.specs.Network.{Network, Frame, queue_at, frame_of};
ghost use Rattle.gg_net.specs.Network as network;
ghost use Rattle.gg_net.specs.Kept.{IsWired, Kept};
ghost use Rattle.gg_net.specs.Step.{Step};
ghost use Rattle.gg_net.specs.markings.Marking.{Layout, marked_puts, marked_takes, held, after};
ghost use Rattle.gg_net.specs.inside.Fits.{HasLayout, marking_of};
ghost use Rattle.gg_net.specs.inside.LayoutOf.{layout_of};
ghost use Rattle.gg_net.specs.markings.Steps.{IsStep, Steps};
ghost use Rattle.gg_net.specs.inside.MarkingLaws.{RefusalsAreMarked, OpensMarked, OpensWithNonePut, NewestIsLastEntered, PutsTheNext, StepsAreReplayed, StopsAreReplayed, ReplayGoesOn};

/// A network agrees with its marking. An event may be done exactly if the marking doesn't refuse it, and every other
/// event is refused for the marking's cause. A step changes the marking as its event does, and leaves the layout as it
/// is.
pub fn goes_by_marking()
    ensures refusals { RefusalsAreMarked }
    ensures step { (flow : Flow) (old new : Network) (layout : Layout) (event : Event) → Kept flow old
        → HasLayout (frame_of old) layout → Step old event new → marking_of new ≡ after layout (marking_of old) event }
    ensures frame { (old new : Network) (event : Event) → Step old event new → frame_of new ≡ frame_of old }
{}

/// Before the first cycle the marking of a network is the opening marking, and no token was put since it began.
pub fn opens_with_marking()
    ensures marking { OpensMarked }
    ensures none { OpensWithNonePut }
{}

/// The marking has the counts of its network and the lengths of its queues. The newest token of a queue is the last of the values of its channel's
/// list that have entered so far.
pub fn counts_by_marking()
    ensures puts { (net : Network) (layout : Layout) (c : ℕ) → HasLayout (frame_of net) layout → c < length net.wires → network.puts net c ≡ marked_puts layout (marking_of net) c }
    ensures takes { (net : Network) (layout : Layout) (c : ℕ) → HasLayout (frame_of net) layout → c < length net.wires → network.takes net c ≡ marked_takes layout (marking_of net) c }
    ensures held { (flow : Flow) (net : Network) (layout : Layout) (c : ℕ) → Kept flow net → HasLayout (frame_of net) layout
        → c < length net.wires → length (queue_at net.queues c) ≡ held layout (marking_of net) c }
    ensures newest { NewestIsLastEntered }
{}

/// A token is put into a channel when the channel is fired, and at no other step. The number of tokens put is at most the number of cycles. The token
/// is then the newest of the queue, and the tokens put so far are the first values of the channel's list.
pub fn puts_by_step()
    ensures fires { (flow : Flow) (old new : Network) (c : ℕ) → Kept flow old → Step old (Fire c) new → network.puts new c ≡ suc (network.puts old c) }
    ensures others { (flow : Flow) (old new : Network) (event : Event) (c : ℕ) → Kept flow old → Step old event new → c < length old.wires → event ≢ Fire c → network.puts new c ≡ network.puts old c }
    ensures within { (flow : Flow) (net : Network) (c : ℕ) → Kept flow net → c < length net.wires → network.puts net c ≤ net.end }
    ensures held { (flow : Flow) (old new : Network) (c : ℕ) → Kept flow old → Step old (Fire c) new → 0 < length (queue_at new.queues c) }
    ensures front { PutsTheNext }
{}

/// Steps one after another keep the network's invariant `Kept`, and leave its layout as it is.
pub fn steps_keep()
    ensures kept { (flow : Flow) (old new : Network) (events : List (Option Event)) → Kept flow old → Steps old events new → Kept flow new }
    ensures frame { (old new : Network) (events : List (Option Event)) → Steps old events new → frame_of new ≡ frame_of old }
    ensures more { (old next new : Network) (events : List (Option Event)) (event : Option Event) → Steps old events next → IsStep next event new → Steps old (events ++ event ∷ []) new }
{}

/// The effect of steps on the marking determines where they lead, which step is refused, and why.
pub fn steps_by_marking()
    ensures done { StepsAreReplayed }
    ensures stopped { StopsAreReplayed }
    ensures goes_on { ReplayGoesOn }
{}

/// Each network that is wired has a layout.
pub fn each_has_layout()
    ensures { (frame : Frame) → IsWired frame → HasLayout frame (layout_of frame) }
{}
