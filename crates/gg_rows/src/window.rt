//! The windows of a run.
ghost use Rattle.std.specs.Prelude.{◌≡◌, ℕ, ◌<◌, ◌≤◌, length, IfOk, IfErr};
ghost use Rattle.gg_net.specs.Network.{frame_of};
ghost use Rattle.gg_net.specs.Network.{AllStandAt, cycle_at};
ghost use Rattle.gg_rows.specs.inside.Window.{GoesWithin, window_end};

use gg_bits::TRAY_ROWS;
use gg_flat::Streams;
use gg_io::Gate;
use gg_link::Link;
use gg_measure::{Order, note_cycle, run_by};
use gg_net::Net;
use gg_node::Host;
use gg_workers::work;
use std::alloc::{AllocError, Global};
use std::thread::Threads;

/// The end of the window that begins at a cycle, if `end` cycles have to be done: 1,024 cycles later, because a tray keeps that many values, or at
/// `end`.
pub fn window_end(begun: u64, end: u64) -> u64
    requires { begun ≤ end }
    ensures { result ≡ window_end begun end }
{
    if end - begun <= TRAY_ROWS {
        end
    } else {
        begun + TRAY_ROWS
    }
}

// Notes the steps of the next cycle, for workers to go by, if there are workers and no cycle was noted.
pub(crate) fn note_window<H: Host, Z: Streams>(
    net: &mut Net<H, Z>,
    order: &mut Order,
    workers: u32,
    upto: u64,
)
    ensures { GoesWithin upto net.old net.new }
{
    if workers == 0 {
        return;
    }
    note_cycle(net, order, upto);
}

// Lets workers run a network up to a cycle.
fn run_workers<R: Threads + Sync, H: Host, L: Link, Z: Streams, G: Gate + Sync>(
    rt: &R,
    home: L::Home,
    alloc: Global,
    net: Net<H, Z>,
    workers: u32,
    upto: u64,
    order: &Order,
    gate: &G,
) -> Result<Net<H, Z>, (Net<H, Z>, AllocError)>
    requires { workers ≤ 64 }
    ensures within { IfOk result (GoesWithin upto net) }
    ensures refused { IfErr result (λ r. r.0 ≡ net) }
{
    net.kept();
    work::<R, H, L, Z, G>(rt, home, alloc, net, workers, upto, order, gate)
}

/// Runs a network up to a cycle, the end of a window: by this many workers first, who go by the order, and then cycle by cycle, by the same order,
/// until all machines are there. With no workers all steps are done cycle by cycle.
///
/// # Errors
///
/// Returns the network as it was, with `AllocError`, if an allocation fails.
pub fn run_window<R: Threads + Sync, H: Host, L: Link, Z: Streams, G: Gate + Sync>(
    rt: &R,
    home: L::Home,
    alloc: Global,
    net: Net<H, Z>,
    workers: u32,
    upto: u64,
    order: &mut Order,
    gate: &G,
) -> Result<Net<H, Z>, (Net<H, Z>, AllocError)>
    requires few { workers ≤ 64 }
    requires within { upto ≤ net.end }
    requires none_above { (m : ℕ) → m < length net.machines → cycle_at net m ≤ upto }
    ensures there { IfOk result (AllStandAt upto) }
    ensures within { IfOk result (GoesWithin upto net) }
    ensures refused { IfErr result (λ r. r.0 ≡ net) }
{
    match run_workers::<R, H, L, Z, G>(rt, home, alloc, net, workers, upto, order, gate) {
        Ok(mut net) => {
            run_by(&mut net, order, upto);
            Ok(net)
        }
        Err(refused) => Err(refused),
    }
}
