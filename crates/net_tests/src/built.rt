//! The network of a plan, and facts about it that a test looks at.
ghost use Rattle.std.specs.Prelude.{◌≡◌, ℕ, ◌<◌, ◌≤◌, true, length};
ghost use Rattle.gg_build.specs.inside.Build.{IsToRun, NeedsNone};
ghost use Rattle.gg_net.specs.Network.{cycle_at};

use gg_bridge::{Bridge, Echo};
use gg_build::{Node, build};
use gg_cut_plan::Plan;
use gg_net::{Net, Streams};
use gg_node::Host;
use gg_trace::Trace;
use std::alloc::{AllocError, Global};

// The network of a plan without bridges, before its first cycle.
pub(crate) fn build_alone<'a, Z: Streams>(
    alloc: Global,
    plan: &'a Plan,
    inputs: &Trace,
) -> Result<Net<Node<'a, Echo>, Z>, AllocError>
    requires run { IsToRun plan.now inputs.now.columns inputs.now.rows Z.flow }
    requires alone { NeedsNone plan.now }
{
    let bridges = Vec::new(alloc);
    let net = build::<Echo, Z>(alloc, plan, inputs, bridges)?;
    Ok(net)
}

// A host of a network here. What its tray keeps can be seen.
pub(crate) trait TestHost: Host {
    // The value of a cycle that it keeps. None if it doesn't keep it, or if it is no tray.
    fn kept(&self, cycle: u64) -> Option<u128>;
}

impl<B: Bridge + Send + Drop> TestHost for Node<'_, B> {
    fn kept(&self, cycle: u64) -> Option<u128> {
        self.value(cycle)
    }
}

// Whether no machine is above a cycle, and the network has at least that many to do.
pub(crate) fn may_go_to<H: Host, Z: Streams>(net: &Net<H, Z>, cycle: u64) -> bool
    ensures within { result ≡ true → cycle ≤ net.now.end }
    ensures none_above { result ≡ true → (m : ℕ) → m < length net.now.machines → cycle_at net.now m ≤ cycle }
{
    net.within_limits();
    for machine in 0..net.machines() {
        if net.cycle(machine as u32) > cycle {
            return false;
        }
    }
    cycle <= net.end()
}

// A value of a case. `None`: it is none.
fn value_of(digits: &str) -> Option<u128> {
    u128::from_str_radix(digits, 16).ok()
}

// Whether the last machine is a tray that keeps these values, one for each cycle, starting at cycle 0.
pub(crate) fn keeps<H: TestHost, Z: Streams>(net: &Net<H, Z>, values: &str) -> bool {
    net.within_limits();
    let machines = net.machines();
    if machines == 0 {
        return false;
    }
    let tray = net.host((machines - 1) as u32);
    let mut cycle: u64 = 0;
    for digits in values.split(' ') {
        let value = value_of(digits);
        if value.is_none() || tray.kept(cycle) != value {
            return false;
        }
        cycle = cycle.saturating_add(1);
    }
    tray.kept(cycle).is_none()
}
