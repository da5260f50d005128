//! `build`, `build_from`: the network of a plan.
ghost use Rattle.std.specs.Prelude.{◌≡◌, IfOk};
ghost use Rattle.gg_build.specs.inside.Build.{BeginsThere, BeginsWithZeros, HasBridges, IsToBegin, IsToRun};

use crate::begin::Begin;
use crate::node::Node;
use crate::placement::{Placement, placement_of};
use crate::wires::wires_of;
use gg_bits::Name;
use gg_bridge::Bridge;
use gg_cut_plan::Plan;
use gg_net::{Net, Shape, Streams};
use gg_trace::Trace;
use std::alloc::{AllocError, Global};

/// Builds the network of a plan before its first cycle. Its sources give the columns of a trace, and it has a cycle to do for each row of the trace.
/// Its hosts are the hosts of [`placement_of`]: units that the plan puts onto one host share it, a thread each, and each other machine has a host of
/// its own. The plan's bridges are taken out of `bridges`, by their names. The others are dropped, and all of them if an allocation fails.
///
/// Allocates all the memory that the network will use.
///
/// # Errors
///
/// Returns `AllocError` if an allocation fails.
///
/// # Examples
///
/// The plan has 6 machines, and channel 0 of its 5 channels is piped. The trace has 8 rows.
///
/// ```text
/// let net = build::<B, Z>(alloc, &plan, &trace, bridges)?;
/// net.machines()  // 6: net.cycle(m) is 0 for each machine m
/// net.channels()  // 5
/// net.end()       // 8
/// net.newest(0)   // Some(0): a piped channel opens with the token 0
/// net.newest(1)   // None: another channel opens without a token
/// ```
pub fn build<'a, B: Bridge + Send + Drop, Z: Streams>(
    alloc: Global,
    plan: &'a Plan,
    trace: &Trace,
    bridges: Vec<(Name, B)>,
) -> Result<Net<Node<'a, B>, Z>, AllocError>
    requires run { IsToRun plan.now trace.now.columns trace.now.rows Z.flow }
    requires bridges { HasBridges B.piece B.state plan.now bridges.items }
    ensures { IfOk result (λ net. BeginsWithZeros plan.now trace.now.columns trace.now.rows Z.flow net) }
{
    let begin = Begin {
        cycle: 0,
        state: None,
        tokens: Vec::new(alloc),
    };
    let net = build_from::<B, Z>(alloc, plan, trace, &begin, bridges)?;
    Ok(net)
}

/// Builds the network of a plan before its first step at `begin`. Its sources give the columns of a trace, starting at the cycle of `begin`, and it
/// has to do the cycles from there up to the trace's last row. Its hosts are the hosts of [`placement_of`].
///
/// Allocates all the memory that the network will use.
///
/// # Errors
///
/// Returns `AllocError` if an allocation fails.
pub fn build_from<'a, B: Bridge + Send + Drop, Z: Streams>(
    alloc: Global,
    plan: &'a Plan,
    trace: &Trace,
    begin: &Begin,
    bridges: Vec<(Name, B)>,
) -> Result<Net<Node<'a, B>, Z>, AllocError>
    requires run { IsToBegin plan.now begin.now trace.now.columns trace.now.rows Z.flow }
    requires bridges { HasBridges B.piece B.state plan.now bridges.items }
    ensures { IfOk result (λ net. BeginsThere plan.now begin.now trace.now.columns trace.now.rows Z.flow net) }
{
    let Placement { hosts, stations } = placement_of(alloc, plan, trace, begin, bridges)?;
    let wires = wires_of(alloc, plan, &begin.tokens)?;
    let end = trace.rows();
    let net = Net::new(
        alloc,
        hosts,
        Shape {
            stations,
            wires,
            end,
        },
    )?;
    Ok(net)
}
