//! One try of each event of one machine, at a thread of its host. The machine is below the cycle `upto`: each pass
//! checks this once. The conditions that are checked quickest come first.
ghost use Rattle.std.specs.Prelude.{◌≡◌, ℕ, ◌<◌, All, length, map, slice_get, Some, None, false};
ghost use Rattle.gg_node.specs.Machine.{machine_at, latch_at, flag_at, missing};
ghost use Rattle.gg_node.specs.inside.Machine.{due};
ghost use Rattle.gg_node.specs.Token.{IsToken};
ghost use Rattle.gg_node.specs.inside.Step.{MayLatch, MayFire, MayServe, MayFinish};
ghost use Rattle.gg_net.specs.inside.Net.{entry_of};
ghost use Rattle.gg_workers_pass.specs.inside.Tries.{LatchTried, FireTried, ServeIsDue, ServeTried, FinishIsDue, FinishTried};

use gg_link::Link;
use gg_net::{ServedPort, first_missing, first_unfired, first_unlatched};
use gg_node::Host;

// Takes a value from the link into the latch of an in, if both can be done.
pub(crate) fn try_latch<H: Host, L: Link>(
    link: &L,
    host: &mut H,
    thread: u32,
    place: u32,
    seat: &mut L::TakeSeat,
) -> bool
    requires thread { thread < length (H.machines host.old) }
    requires place { place < length (machine_at (H.machines host.old) thread).latches }
    requires seat { L.takes_from link.now seat.old }
    requires may { (value : ℕ) → latch_at (machine_at (H.machines host.old) thread).latches place ≡ None
        → slice_get (L.taking seat.old).stream (L.taking seat.old).count ≡ Some value
        → MayLatch (machine_at (H.machines host.old) thread) place value }
    ensures seat { L.takes_from link.now seat.new }
    ensures tried { LatchTried (H.machines host.old) thread place (L.taking seat.old) (H.machines host.new) (L.taking seat.new) result }
{
    if host.latched(thread, place) {
        return false;
    }
    let Some(value) = link.take(seat) else {
        return false;
    };
    host.latch(thread, place, value);
    true
}

// Puts the token of an out into the link and then gives it, if both can be done.
pub(crate) fn try_fire<H: Host, L: Link>(
    link: &L,
    host: &mut H,
    thread: u32,
    place: u32,
    seat: &mut L::PutSeat,
) -> bool
    requires thread { thread < length (H.machines host.old) }
    requires place { place < length (machine_at (H.machines host.old) thread).flags }
    requires seat { L.puts_into link.now seat.old }
    requires may { flag_at (machine_at (H.machines host.old) thread).flags place ≡ false
        → missing (machine_at (H.machines host.old) thread) place ≡ None
        → MayFire (machine_at (H.machines host.old) thread) place }
    requires token { (value : ℕ) → flag_at (machine_at (H.machines host.old) thread).flags place ≡ false
        → missing (machine_at (H.machines host.old) thread) place ≡ None
        → IsToken (machine_at (H.machines host.old) thread) place value
        → slice_get (L.putting seat.old).stream (L.putting seat.old).count ≡ Some value }
    ensures seat { L.puts_into link.now seat.new }
    ensures tried { FireTried (H.machines host.old) thread place (L.putting seat.old) (H.machines host.new) (L.putting seat.new) result }
{
    if host.fired(thread, place) || host.missing(thread, place).is_some() {
        return false;
    }
    let value = host.token(thread, place);
    if link.put(seat, value).is_err() {
        return false;
    }
    let _ = host.fire(thread, place);
    true
}

// Serves the port that is due, if that can be done.
pub(crate) fn try_serve<H: Host>(host: &mut H, thread: u32, outs: u32, ports: &[ServedPort]) -> bool
    requires thread { thread < length (H.machines host.old) }
    requires outs { outs ≡ length (machine_at (H.machines host.old) thread).flags }
    requires ports { ports.now ≡ map entry_of (machine_at (H.machines host.old) thread).ports }
    requires fields { All (λ port. All (λ i. i < length (machine_at (H.machines host.old) thread).latches) port.fields) ports.now }
    requires may { (port : ℕ) → ServeIsDue (machine_at (H.machines host.old) thread) port → MayServe (machine_at (H.machines host.old) thread) port }
    ensures { ServeTried (H.machines host.old) thread (H.machines host.new) result }
{
    let Some(port) = host.due(thread) else {
        return false;
    };
    if first_unfired(host, thread, outs).is_some() {
        return false;
    }
    let served = host.served(thread);
    if first_missing(host, thread, ports[served as usize].fields.as_slice()).is_some() {
        return false;
    }
    host.serve(thread, port);
    true
}

// Finishes the cycle, if that can be done.
pub(crate) fn try_finish<H: Host>(host: &mut H, thread: u32, ins: u32, outs: u32) -> bool
    requires thread { thread < length (H.machines host.old) }
    requires ins { ins ≡ length (machine_at (H.machines host.old) thread).latches }
    requires outs { outs ≡ length (machine_at (H.machines host.old) thread).flags }
    requires may { FinishIsDue (machine_at (H.machines host.old) thread) → MayFinish (machine_at (H.machines host.old) thread) }
    ensures { FinishTried (H.machines host.old) thread (H.machines host.new) result }
{
    if host.due(thread).is_some()
        || first_unfired(host, thread, outs).is_some()
        || first_unlatched(host, thread, ins).is_some()
    {
        return false;
    }
    host.finish(thread);
    true
}
