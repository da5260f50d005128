//! `run_rows`: a network is run window by window, and its rows are handed over.
ghost use Rattle.std.specs.Prelude.{◌≡◌, ◌+◌, ◌≤◌, IfOk, false, length};
ghost use Rattle.gg_bits.specs.Limits.{cycle_limit};
ghost use Rattle.gg_net.specs.Network.{AllStandAt};
ghost use Rattle.gg_rows.specs.inside.RunTaken.{TakesTheRow, TakesTheRun, TakesTheWindow};
ghost use Rattle.gg_rows.specs.inside.Taken.{IsLastOf, IsRanOut, TakesAt, WentBy, answer_of};

use crate::effort::workers_at;
use crate::rows::output_values;
use crate::taking::Rows;
use crate::window::{note_window, run_window, window_end};
use gg_bridge::Bridge;
use gg_build::Node;
use gg_io::{Ending, Gate};
use gg_measure::Order;
use gg_net::{Net, Streams};
use gg_node::Host;
use gg_ring::Ring;
use std::alloc::Global;
use std::thread::Threads;

// Hands over the row of a cycle, from a network that is at the end of the cycle's window. Returns whether to go on.
fn take_cycle<B: Bridge + Send + Drop, Z: Streams, T, W: Rows<T>>(
    net: &Net<Node<'_, B>, Z>,
    first: usize,
    cycle: u64,
    outs: &mut [u128],
    rows: &W,
    taken: &mut T,
) -> Result<bool, Ending>
    requires within { cycle ≤ cycle_limit }
    requires outs { first + length outs.old ≤ length net.now.machines }
    requires can { W.can_take rows.now (length outs.old) }
    ensures row { TakesTheRow (W.takes rows.now) Z.flow net.now first (length outs.old) cycle taken.old taken.new result }
    ensures at { TakesAt (W.takes rows.now) cycle taken.old taken.new result }
{
    output_values(net, first, cycle, outs);
    rows.take(taken, cycle, outs)
}

// Hands over the rows of a window, from a network that is at its end. Returns whether to go on.
fn take_window<B: Bridge + Send + Drop, Z: Streams, T, W: Rows<T>>(
    net: &Net<Node<'_, B>, Z>,
    first: usize,
    begun: u64,
    upto: u64,
    outs: &mut [u128],
    rows: &W,
    taken: &mut T,
) -> Result<bool, Ending>
    requires within { upto ≤ cycle_limit }
    requires outs { first + length outs.old ≤ length net.now.machines }
    requires can { W.can_take rows.now (length outs.old) }
    ensures rows { TakesTheWindow (W.takes rows.now) Z.flow net.now first (length outs.old) begun upto taken.old taken.new result }
    ensures went { WentBy (W.takes rows.now) taken.old taken.new result }
    ensures last { IfOk result (λ on. on ≡ false → IsLastOf (W.takes rows.now) begun upto taken.new) }
{
    for cycle in begun..upto {
        let goes_on = take_cycle(net, first, cycle, outs, rows, taken)?;
        if !goes_on {
            return Ok(false);
        }
    }
    Ok(true)
}

// An order with room for the steps of a cycle, or without memory for it an order that never notes a step.
fn order_of<H: Host, Z: Streams>(alloc: Global, net: &Net<H, Z>) -> Order {
    match Order::new(alloc, net) {
        Ok(order) => order,
        Err(_) => Order::none(alloc),
    }
}

/// Runs a network from its first cycle, `begin`, window by window: by this many workers, and then by steps in the order of the network. `work` is its
/// work in a cycle: if it is little, only the first window has workers. After each window it hands over the rows of its cycles: the values of the
/// out-signals of the plan's circuit, which the trays keep, starting at number `first`. It ends with the network, or with a row after which it isn't
/// to go on; no window begins then. Returns the network, and whether all rows were taken. If they were, all machines are at the network's end.
/// Otherwise they are at the end of the window of the last row.
///
/// # Errors
///
/// Returns why a row couldn't be taken, and `NoMemory` if an allocation fails.
///
/// # Examples
///
/// The network has 3,000 cycles to do, and its two trays are machines 5 and 6. `rows` counts the rows in `taken`, and goes on after each.
///
/// ```text
/// let mut outs = [0, 0];
/// let mut taken = 0;
/// let (net, all) = run_rows(&rt, alloc, net, 0, 2, work, 5, &mut outs, &rows, &mut taken, &gate)?;
/// // all is true, taken is 3000, and all machines are in cycle 3000.
/// // The windows were the cycles 0 to 1023, 1024 to 2047, and 2048 to 2999.
/// // If `rows` hadn't gone on after the row of cycle 1500: all is false, taken is 1501, and all machines are in cycle 2048.
/// ```
pub fn run_rows<
    'n,
    R: Threads + Sync,
    B: Bridge + Send + Drop,
    Z: Streams,
    T,
    W: Rows<T>,
    G: Gate + Sync,
>(
    rt: &R,
    alloc: Global,
    net: Net<Node<'n, B>, Z>,
    begin: u64,
    workers: u32,
    work: u64,
    first: usize,
    outs: &mut [u128],
    rows: &W,
    taken: &mut T,
    gate: &G,
) -> Result<(Net<Node<'n, B>, Z>, bool), Ending>
    requires few { workers ≤ 64 }
    requires opening { AllStandAt begin net }
    requires within { begin ≤ net.end }
    requires outs { first + length outs.old ≤ length net.machines }
    requires can { W.can_take rows.now (length outs.old) }
    ensures ran { TakesTheRun (W.takes rows.now) Z.flow net.entry begin first (length outs.old) taken.old taken.new (answer_of result) }
    ensures out { IfOk result (λ r. IsRanOut (W.takes rows.now) begin net.entry r.0 taken.new r.1) }
    ensures went { WentBy (W.takes rows.now) taken.old taken.new (answer_of result) }
{
    net.within_limits();
    let end = net.end();
    let mut net = net;
    let mut order = order_of(alloc, &net);
    let mut begun = begin;
    while begun < end {
        let upto = window_end(begun, end);
        let hands = workers_at(begun == begin, workers, work);
        note_window(&mut net, &mut order, hands, upto);
        net = match run_window::<R, Node<'n, B>, Ring, Z, G>(
            rt,
            (),
            alloc,
            net,
            hands,
            upto,
            &mut order,
            gate,
        ) {
            Ok(net) => net,
            Err(_) => return Err(Ending::NoMemory),
        };
        net.kept();
        let goes_on = take_window(&net, first, begun, upto, outs, rows, taken)?;
        if !goes_on {
            return Ok((net, false));
        }
        begun = upto;
    }
    Ok((net, true))
}
