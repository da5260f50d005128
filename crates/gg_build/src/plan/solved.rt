//! Laws: the run of the circuit that the network computes solves the network.
ghost use Rattle.std.specs.Prelude.{◌≤◌};
ghost use Rattle.gg_bits.specs.Limits.{capacity_limit};
ghost use Rattle.gg_net.specs.Kept.{Solves, IsSound};
ghost use Rattle.gg_net.specs.inside.Net.{IsWithinLimits};
ghost use Rattle.gg_build.specs.inside.Each.{OfEachCut};
ghost use Rattle.gg_build.specs.plan.Each.{OfEachStarted};

/// The run of the reference circuit from a start solves the network, if its machines and pipes begin there. Each channel's list is its signal's
/// column, a cycle later and after the pipe's token if the channel has a pipe. Its producer's rows give the column, maybe by a signal that it copies,
/// and its consumer's rows take the list. Each machine can do all cycles: its rows are a run of its piece, from its part of the start.
pub fn plan_is_solved()
    ensures { OfEachStarted (λ flow machines frame. Solves flow frame) }
{}

/// The frame of the network, which never changes, is sound: it is wired, has no ring, and is solved.
pub fn plan_is_sound()
    ensures { OfEachStarted (λ flow machines frame. IsSound flow frame) }
{}

/// The network is within the limits, if a channel that the request doesn't name may hold as many tokens as a queue.
pub fn plan_is_within()
    ensures { OfEachCut (λ design request default frame. default ≤ capacity_limit → IsWithinLimits frame) }
{}
