//! Whether an event may be done, and doing it if so.
ghost use Rattle.std.specs.Prelude.{◌≡◌, ℕ, ◌<◌, length, MatchBool};
ghost use Rattle.gg_net.specs.declared.event.Event.TheVariants.{Serve};
ghost use Rattle.gg_net.specs.Step.{Ready, Step};
ghost use Rattle.gg_measure.specs.inside.Nets.{NoServe};

use crate::order::Order;
use gg_net::{Event, Net, Streams};
use gg_node::Host;

// Whether an event may be done.
pub(crate) fn may<H: Host, Z: Streams>(net: &Net<H, Z>, event: Event) -> bool
    ensures { MatchBool result (Ready net.now event) (Ready net.now event → ⊥) }
{
    net.test(event).is_ok()
}

// Does an event if it may be done. Returns whether it was done.
pub(crate) fn attempt<H: Host, Z: Streams>(net: &mut Net<H, Z>, event: Event) -> bool
    ensures { MatchBool result (Step net.old event net.new) ((net.new ≡ net.old) × (Ready net.old event → ⊥)) }
{
    net.step(event).is_ok()
}

// Does an event if it may be done, and notes it then. Returns whether it was done.
pub(crate) fn attempt_noted<H: Host, Z: Streams>(
    net: &mut Net<H, Z>,
    order: &mut Order,
    event: Event,
) -> bool
    ensures { MatchBool result (Step net.old event net.new) ((net.new ≡ net.old) × (Ready net.old event → ⊥)) }
{
    let done = attempt(net, event);
    if done {
        order.note(event);
    }
    done
}

// Serves the port of a machine that is due, if that may be done. Returns whether it was done.
pub(crate) fn serve_due<H: Host, Z: Streams>(
    net: &mut Net<H, Z>,
    order: &mut Order,
    machine: u32,
) -> bool
    requires { machine < length net.old.machines }
    ensures { MatchBool result ((p : ℕ) × Step net.old (Serve machine p) net.new) ((net.new ≡ net.old) × NoServe net.old machine) }
{
    match net.due(machine) {
        None => false,
        Some(port) => attempt_noted(net, order, Event::Serve { machine, port }),
    }
}
