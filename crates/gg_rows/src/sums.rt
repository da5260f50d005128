//! The network of a plan is built, counted and run, and its rows are folded.
ghost use Rattle.std.specs.Prelude.{◌≡◌, ◌≤◌, IfOk, length};
ghost use Rattle.gg_cut_reference.specs.whole.Whole.{plan_circuit};
ghost use Rattle.gg_flat.specs.Run.{Start};
ghost use Rattle.gg_build.specs.Build.{IsToRunFrom};
ghost use Rattle.gg_build.specs.inside.Build.{FromZeros, HasBridges, IsToRun};
ghost use Rattle.gg_rows.specs.inside.Sums.{AreSums, FoldsRow};

use crate::Fold;
use crate::run::run_rows;
use crate::taking::Rows;
use crate::trays::trays_of;
use gg_bits::Name;
use gg_bridge::Bridge;
use gg_build::build;
use gg_cut_plan::Plan;
use gg_io::{Ending, Gate};
use gg_measure::left;
use gg_net::Streams;
use gg_order::Design;
use gg_trace::Trace;
use std::alloc::{AllocError, Global};
use std::thread::Threads;

/// The sums of a plan's network.
#[derive(Clone, Copy)]
pub struct Sums {
    /// The number of its machines.
    pub machines: u64,
    /// The number of its channels.
    pub channels: u64,
    /// The number of steps from its opening to its end.
    pub steps: u64,
    /// The fold of the rows of the first two out-signals.
    pub fold: Fold,
}

// Folds the rows of the first two out-signals.
struct Folding;

impl Rows<Fold> for Folding {
    ghost can_take = { λ folding count. 2 ≤ count };

    ghost takes = { λ folding. FoldsRow };

    fn take(&self, taken: &mut Fold, _cycle: u64, values: &[u128]) -> Result<bool, Ending> {
        taken.add(values[0], values[1]);
        Ok(true)
    }
}

/// Builds the network of a plan, counts it, runs it by this many workers and then by steps in the order of the network, and folds the
/// rows of the first two out-signals. The plan's circuit should have two out-signals at least.
///
/// # Errors
///
/// Returns `AllocError` if an allocation fails.
pub fn sum_net<R: Threads + Sync, B: Bridge + Send + Drop, Z: Streams, G: Gate + Sync>(
    rt: &R,
    alloc: Global,
    _design: &Design,
    plan: &Plan,
    inputs: &Trace,
    workers: u32,
    bridges: Vec<(Name, B)>,
    gate: &G,
) -> Result<Sums, AllocError>
    requires few { workers ≤ 64 }
    requires run { (run : IsToRun plan.now inputs.now.columns inputs.now.rows Z.flow) × ((run.run.design ≡ _design.now) × (2 ≤ length (plan_circuit run.run.design run.run.request run.run.models).outs)) }
    requires bridges { HasBridges B.piece B.state plan.now bridges.items }
    ensures { IfOk result (λ sums. (start : Start) (run : IsToRunFrom plan.now start inputs.now.columns inputs.now.rows Z.flow) → FromZeros run → run.design ≡ _design.now → AreSums run sums) }
{
    let trays = trays_of(plan);
    let mut outs = vec![in alloc; 0u128; trays.count]?;
    let net = build::<B, Z>(alloc, plan, inputs, bridges)?;
    net.kept();
    let machines = net.machines() as u64;
    let channels = net.channels() as u64;
    let steps = left(&net);
    let mut fold = Fold::new();
    let ran = run_rows::<R, B, Z, Fold, Folding, G>(
        rt,
        alloc,
        net,
        0,
        workers,
        trays.work,
        trays.first,
        outs.as_mut_slice(),
        &Folding,
        &mut fold,
        gate,
    );
    match ran {
        Ok(_) => Ok(Sums {
            machines,
            channels,
            steps,
            fold,
        }),
        Err(_) => Err(AllocError),
    }
}
