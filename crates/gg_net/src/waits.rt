//! The outs and ins that a machine of a host waits for: outs that haven't given their tokens, and ins that have none.
ghost use Rattle.std.specs.Prelude.{◌≡◌, ◌<◌, All, length, MatchOption};
ghost use Rattle.gg_node.specs.Machine.{machine_at, first_empty};
ghost use Rattle.gg_node.specs.Step.{AllFired};
ghost use Rattle.gg_node.specs.inside.Step.{AllLatched};
ghost use Rattle.gg_net.specs.inside.Readings.{IsFirstClear, IsFirstEmpty};

use gg_node::Host;

/// The first of the `outs` outs of a machine that hasn't given its token of this cycle, if there is one.
pub fn first_unfired<H: Host>(host: &H, thread: u32, outs: u32) -> Option<u32>
    requires thread { thread < length (H.machines host.now) }
    requires outs { outs ≡ length (machine_at (H.machines host.now) thread).flags }
    ensures { MatchOption result (AllFired (machine_at (H.machines host.now) thread)) (IsFirstClear (machine_at (H.machines host.now) thread).flags) }
{
    for place in 0..outs {
        if !host.fired(thread, place) {
            return Some(place);
        }
    }
    None
}

/// The first of the `ins` ins of a machine that has no token of this cycle, if there is one.
pub fn first_unlatched<H: Host>(host: &H, thread: u32, ins: u32) -> Option<u32>
    requires thread { thread < length (H.machines host.now) }
    requires ins { ins ≡ length (machine_at (H.machines host.now) thread).latches }
    ensures { MatchOption result (AllLatched (machine_at (H.machines host.now) thread)) (IsFirstEmpty (machine_at (H.machines host.now) thread).latches) }
{
    for place in 0..ins {
        if !host.latched(thread, place) {
            return Some(place);
        }
    }
    None
}

/// The first of these ins of a machine that has no token of this cycle, if there is one.
pub fn first_missing<H: Host>(host: &H, thread: u32, places: &[u32]) -> Option<u32>
    requires thread { thread < length (H.machines host.now) }
    requires there { All (λ i. i < length (machine_at (H.machines host.now) thread).latches) places.now }
    ensures { result ≡ first_empty (machine_at (H.machines host.now) thread).latches places.now }
{
    for place in places {
        if !host.latched(thread, *place) {
            return Some(*place);
        }
    }
    None
}
