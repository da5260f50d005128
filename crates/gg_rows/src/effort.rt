//! The work of a network in a cycle, and whether workers are worth it.
ghost use Rattle.std.specs.Prelude.{◌≤◌};

use gg_cut_plan::{Body, Machine, Plan};

// The least work of a cycle that makes it worth to start workers again and again. Below it a window is over before they
// have started.
const WORTH: u64 = 400;

// The number of signals that a machine of a plan works out; 1 if it isn't a part of the circuit.
fn signals_of(machine: &Machine) -> u64 {
    match &machine.body {
        Body::Cut(part) => part.globals.as_slice().len() as u64,
        Body::Memory(part) => part.globals.as_slice().len() as u64,
        _ => 1,
    }
}

// The work of a plan's network in a cycle: its signals, and four times its channels.
pub(crate) fn work_of(plan: &Plan) -> u64 {
    let mut work = (plan.channels.as_slice().len() as u64).saturating_mul(4);
    for machine in plan.machines.as_slice() {
        work = work.saturating_add(signals_of(machine));
    }
    work
}

// The number of workers, of these, that run a window of a network with this work in a cycle. The first window has all
// of them.
pub(crate) fn workers_at(is_first: bool, workers: u32, work: u64) -> u32
    ensures { result ≤ workers }
{
    if is_first || work > WORTH { workers } else { 0 }
}
