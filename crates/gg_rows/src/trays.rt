//! `Trays`: the trays of a plan, and the work of its network in a cycle.
ghost use Rattle.std.specs.Prelude.{◌≡◌, ◌≤◌, length};
ghost use Rattle.std.specs.List.{prefix_len};
ghost use Rattle.gg_rows.specs.inside.Trays.{is_inner, is_tray};
ghost use Rattle.gg_rows.specs.inside.RunPrinted.{IsFirstTray, IsTrayCount};

use crate::effort::work_of;
use gg_cut_plan::{Body, Machine, Plan};

/// The trays of a plan: they come one after another.
#[derive(Clone, Copy)]
pub struct Trays {
    /// The number of the first one.
    pub first: usize,
    /// How many there are.
    pub count: usize,
    /// The work of the plan's network in a cycle: its signals, and four times its channels.
    pub work: u64,
}

// Whether a machine is before the trays: it is neither a tray nor a bridge.
fn is_inner(machine: &Machine) -> bool
    ensures { result ≡ is_inner machine.now }
{
    match machine.body {
        Body::Cut(_) | Body::Memory(_) | Body::Source(_) => true,
        Body::Tray | Body::Bridge(_) => false,
    }
}

// Whether a machine is a tray.
fn is_tray(machine: &Machine) -> bool
    ensures { result ≡ is_tray machine.now }
{
    match machine.body {
        Body::Tray => true,
        _ => false,
    }
}

// How many machines at the front are neither a tray nor a bridge.
fn inner_len(machines: &[Machine]) -> usize
    ensures length { result ≡ prefix_len is_inner machines.now }
    ensures within { result ≤ length machines.now }
{
    for number in 0..machines.len() {
        let inner = is_inner(&machines[number]);
        if !inner {
            return number;
        }
    }
    machines.len()
}

// How many machines at the front are trays.
fn trays_len(machines: &[Machine]) -> usize
    ensures { result ≡ prefix_len is_tray machines.now }
{
    for number in 0..machines.len() {
        let tray = is_tray(&machines[number]);
        if !tray {
            return number;
        }
    }
    machines.len()
}

/// The trays of a plan.
pub fn trays_of(plan: &Plan) -> Trays
    ensures first { IsFirstTray plan.now result.first }
    ensures count { IsTrayCount plan.now result.count }
{
    let machines = plan.machines.as_slice();
    let first = inner_len(machines);
    let count = trays_len(&machines[first..]);
    let work = work_of(plan);
    Trays { first, count, work }
}
