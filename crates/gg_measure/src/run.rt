//! `run_to`: steps in the fixed order. `run_by` and `run_noted`: cycle by cycle, by an order that was noted.
ghost use Rattle.std.specs.Prelude.{◌≡◌, ℕ, ◌<◌, ◌≤◌, true, length};
ghost use Rattle.gg_net.specs.Network.{frame_of};
ghost use Rattle.gg_measure.specs.inside.Nets.{AreDrained, HaveKept, StaysWithin, HasRun, net_left};
ghost use Rattle.gg_net.specs.Network.{AllStandAt, cycle_at};
ghost use Rattle.gg_measure.specs.inside.Turns.{HasGoneRound};

use crate::order::Order;
use crate::pass::pass;
use crate::turn::{fire_round, round};
use gg_net::{Net, Streams};
use gg_node::Host;

// A turn of each machine that is below a cycle, by number. Returns whether anything was done, which lowers the measure.
fn go_round<H: Host, Z: Streams>(net: &mut Net<H, Z>, order: &mut Order, cycle: u64) -> bool
    ensures round { HasGoneRound cycle (length net.old.machines) net.old result net.new }
    ensures falls { result ≡ true → net_left net.new < net_left net.old }
{
    net.kept();
    round(net, order, cycle)
}

// Goes round the machines until all are at a cycle.
fn run_rounds<H: Host, Z: Streams>(net: &mut Net<H, Z>, order: &mut Order, cycle: u64)
    requires within { cycle ≤ net.old.end }
    requires none_above { (m : ℕ) → m < length net.old.machines → cycle_at net.old m ≤ cycle }
    ensures there { AllStandAt cycle net.new }
    ensures steps { HasRun cycle net.old net.new }
    ensures bounds { StaysWithin cycle net.old net.new }
    ensures frame { frame_of net.new ≡ frame_of net.old }
{
    net.kept();
    loop {
        if !go_round(net, order, cycle) {
            break;
        }
    }
    net.kept();
}

/// Does steps of the machines that are below a cycle until all are at it. Allocates nothing.
///
/// The machines have their turns by number, again and again. In its turn a machine takes all tokens that it may take, by its ins, gives all that it
/// may give, by its outs, serves its ports, and ends its cycle.
///
/// # Examples
///
/// A network of 3 machines is before its first cycle, 0, and has 10 cycles to do.
///
/// ```text
/// run_to(&mut net, 4);  // all machines are in cycle 4: `net.cycle(0)`, `net.cycle(1)` and `net.cycle(2)` are 4
/// net.puts(0)           // 4: one token of channel 0 for each of the cycles 0 to 3
/// run_to(&mut net, 4);  // changes nothing
/// run_to_end(&mut net); // all machines are in cycle 10, and `left(&net)` is 0
/// ```
pub fn run_to<H: Host, Z: Streams>(net: &mut Net<H, Z>, cycle: u64)
    requires within { cycle ≤ net.old.end }
    requires none_above { (m : ℕ) → m < length net.old.machines → cycle_at net.old m ≤ cycle }
    ensures there { AllStandAt cycle net.new }
    ensures steps { HasRun cycle net.old net.new }
    ensures bounds { StaysWithin cycle net.old net.new }
    ensures frame { frame_of net.new ≡ frame_of net.old }
{
    let mut none = Order::none(*net.shape().wires.allocator());
    run_rounds(net, &mut none, cycle);
}

/// Does steps until all machines are at the end. Each queue then contains as many tokens as it opened with.
pub fn run_to_end<H: Host, Z: Streams>(net: &mut Net<H, Z>)
    ensures there { AllStandAt net.old.end net.new }
    ensures steps { HasRun net.old.end net.old net.new }
    ensures bounds { StaysWithin net.old.end net.old net.new }
    ensures frame { frame_of net.new ≡ frame_of net.old }
    ensures drained { AreDrained net.new }
    ensures kept { HaveKept Z.flow net.new }
{
    net.kept();
    let end = net.end();
    run_to(net, end);
    net.kept();
}

// The highest cycle that a machine is in.
fn highest<H: Host, Z: Streams>(net: &Net<H, Z>) -> u64 {
    net.within_limits();
    let mut cycle = 0;
    for machine in 0..net.machines() {
        cycle = cycle.max(net.cycle(machine as u32));
    }
    cycle
}

// Goes round the machines that are below both cycles until a round does nothing.
fn settle<H: Host, Z: Streams>(net: &mut Net<H, Z>, order: &mut Order, upto: u64, _cycle: u64)
    requires { upto ≤ _cycle }
    ensures { HasRun _cycle net.old net.new }
{
    loop {
        if !go_round(net, order, upto) {
            break;
        }
    }
}

// The fires of each machine that is below `upto`, as far as they need no further token.
fn fire_first<H: Host, Z: Streams>(net: &mut Net<H, Z>, order: &mut Order, upto: u64, _cycle: u64)
    requires { upto ≤ _cycle }
    ensures { HasRun _cycle net.old net.new }
{
    fire_round(net, order, upto);
}

// `fire_first`, if the order is for workers.
fn begin_cycle<H: Host, Z: Streams>(
    net: &mut Net<H, Z>,
    order: &mut Order,
    upto: u64,
    cycle: u64,
    for_workers: bool,
)
    requires { upto ≤ cycle }
    ensures { HasRun cycle net.old net.new }
{
    if for_workers {
        fire_first(net, order, upto, cycle);
    }
}

// Brings all machines to one cycle, and then to the next one, and notes these last steps.
fn note<H: Host, Z: Streams>(net: &mut Net<H, Z>, order: &mut Order, cycle: u64, for_workers: bool)
    ensures { HasRun cycle net.old net.new }
{
    let level = highest(net).min(cycle);
    let next = level.saturating_add(1).min(cycle);
    settle(net, order, level, cycle);
    order.open();
    begin_cycle(net, order, next, cycle, for_workers);
    settle(net, order, next, cycle);
    order.close();
}

// Notes an order, if it is empty.
fn note_first<H: Host, Z: Streams>(
    net: &mut Net<H, Z>,
    order: &mut Order,
    cycle: u64,
    for_workers: bool,
)
    ensures { HasRun cycle net.old net.new }
{
    if order.is_empty() {
        note(net, order, cycle, for_workers);
    }
}

/// Brings all machines to one cycle, and then to the next one, but none past `cycle`, and notes these last steps in the
/// order, for workers. At first each machine gives what needs no token of this cycle: a worker in its own part of the order
/// then waits for no token that could be there already. Does nothing if the order has steps.
pub fn note_cycle<H: Host, Z: Streams>(net: &mut Net<H, Z>, order: &mut Order, cycle: u64)
    ensures steps { HasRun cycle net.old net.new }
    ensures bounds { StaysWithin cycle net.old net.new }
    ensures frame { frame_of net.new ≡ frame_of net.old }
{
    net.kept();
    note_first(net, order, cycle, true);
}

// Goes by an order as long as a pass over it does anything.
fn follow<H: Host, Z: Streams>(net: &mut Net<H, Z>, order: &Order, cycle: u64)
    ensures { HasRun cycle net.old net.new }
{
    loop {
        if !pass(net, order.events(), cycle) {
            break;
        }
    }
}

/// Brings all machines to a cycle by an order that was noted before, which stays as it is. The steps that the order leaves are done as by `run_to`.
pub fn run_noted<H: Host, Z: Streams>(net: &mut Net<H, Z>, order: &Order, cycle: u64)
    requires within { cycle ≤ net.old.end }
    requires none_above { (m : ℕ) → m < length net.old.machines → cycle_at net.old m ≤ cycle }
    ensures there { AllStandAt cycle net.new }
    ensures steps { HasRun cycle net.old net.new }
    ensures bounds { StaysWithin cycle net.old net.new }
    ensures frame { frame_of net.new ≡ frame_of net.old }
{
    net.kept();
    follow(net, order, cycle);
    run_to(net, cycle);
}

/// Brings all machines to a cycle as `run_to` does, but cycle by cycle: all are at one cycle before any goes on. Therefore each cycle has the same
/// steps in the same order. If the order is empty, it notes the steps of the first cycle. The other cycles go by the order.
pub fn run_by<H: Host, Z: Streams>(net: &mut Net<H, Z>, order: &mut Order, cycle: u64)
    requires within { cycle ≤ net.old.end }
    requires none_above { (m : ℕ) → m < length net.old.machines → cycle_at net.old m ≤ cycle }
    ensures there { AllStandAt cycle net.new }
    ensures steps { HasRun cycle net.old net.new }
    ensures bounds { StaysWithin cycle net.old net.new }
    ensures frame { frame_of net.new ≡ frame_of net.old }
{
    net.kept();
    note_first(net, order, cycle, false);
    run_noted(net, order, cycle);
}
