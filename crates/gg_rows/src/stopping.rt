//! `run_to_stop`: a network is run, and looked at for a stop.
ghost use Rattle.std.specs.Prelude.{◌≡◌, ◌+◌, ◌≤◌, IfOk, IfErr, None, length};
ghost use Rattle.gg_net.specs.Network.{AllStandAt};
ghost use Rattle.gg_net.specs.Network.{frame_of};
ghost use Rattle.gg_rows.specs.inside.Printed.{SeesStop};
ghost use Rattle.gg_rows.specs.inside.RunPrinted.{IsFirstStop};

use crate::run::run_rows;
use crate::taking::Rows;
use crate::trays::Trays;
use gg_bridge::Bridge;
use gg_build::Node;
use gg_clocks::Ratio;
use gg_io::{Ending, Gate};
use gg_net::{Net, Streams};
use gg_trace::acts;
use std::alloc::Global;
use std::thread::Threads;

// Looks at rows for a stop that ends a run of `cycles` cycles. The conditions of the stops are the values after the first `shown` of a row.
#[derive(Drop)]
struct StopWatch<'s> {
    stops: &'s [Ratio],
    shown: usize,
    cycles: u64,
}

impl<'s> Rows<u64> for StopWatch<'s> {
    ghost can_take = { λ watch count. watch.shown ≤ count };

    ghost takes = { λ watch. SeesStop watch.stops.now watch.shown watch.cycles };

    fn take(&self, taken: &mut u64, cycle: u64, values: &[u128]) -> Result<bool, Ending> {
        if acts(self.stops, cycle, &values[self.shown..]) && cycle + 1 < self.cycles {
            *taken = cycle;
            return Ok(false);
        }
        Ok(true)
    }
}

/// Runs a network of a plan from its first cycle, 0, to its end, a window at a time: by this many workers, and then by steps in the fixed order.
/// Looks at the conditions of the stops. They are the out-signals after the first `shown`, and there is an out-signal for each of the trays; `stops`
/// has the ratios of their clocks. Returns the network, and the first cycle where a stop ends a run of `cycles` cycles: one acts, and the cycle isn't
/// the last one. If there is none, all machines are at the network's end.
///
/// # Errors
///
/// Returns `NoMemory` if an allocation fails.
pub fn run_to_stop<'n, R: Threads + Sync, B: Bridge + Send + Drop, Z: Streams, G: Gate + Sync>(
    rt: &R,
    alloc: Global,
    net: Net<Node<'n, B>, Z>,
    trays: Trays,
    stops: &[Ratio],
    shown: usize,
    cycles: u64,
    workers: u32,
    gate: &G,
) -> Result<(Net<Node<'n, B>, Z>, Option<u64>), Ending>
    requires few { workers ≤ 64 }
    requires opening { AllStandAt 0 net }
    requires trays { trays.first + trays.count ≤ length net.machines }
    requires shown { shown ≤ trays.count }
    ensures first { IfOk result (λ r. IsFirstStop Z.flow net.entry trays.first trays.count stops.now shown cycles r.1) }
    ensures frame { IfOk result (λ r. frame_of r.0 ≡ frame_of net.entry) }
    ensures stands { IfOk result (λ r. r.1 ≡ None → AllStandAt net.entry.end r.0) }
    ensures refused { IfErr result (λ ending. ending ≡ Ending.NoMemory) }
{
    let mut values = vec![in alloc; 0u128; trays.count]?;
    let watch = StopWatch {
        stops,
        shown,
        cycles,
    };
    let mut stop = 0;
    let (net, whole) = run_rows::<R, B, Z, u64, StopWatch<'_>, G>(
        rt,
        alloc,
        net,
        0,
        workers,
        trays.work,
        trays.first,
        values.as_mut_slice(),
        &watch,
        &mut stop,
        gate,
    )?;
    if whole {
        return Ok((net, None));
    }
    Ok((net, Some(stop)))
}
