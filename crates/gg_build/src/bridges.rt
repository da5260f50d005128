//! The bridges that are handed in, by their names.
ghost use Rattle.std.specs.Prelude.{◌≡◌, ◌≢◌, map, AllPairs, IfOk, OnOk, Some};
ghost use Rattle.gg_flat.specs.State.{opening};
ghost use Rattle.gg_bridge.specs.Turned.{turned};
ghost use Rattle.gg_bridge.specs.Hosted.{started_bridge};
ghost use Rattle.gg_bridge.specs.inside.Hosted.{ArePorts};
ghost use Rattle.gg_cut_plan.specs.declared.plan.Body.TheVariants.{Bridge as OfBridge};
ghost use Rattle.gg_build.specs.inside.Bridges.{IsTold, KeepsOthers, TellsBridges, bridge_named};
ghost use Rattle.gg_build.specs.inside.Hosts.{IsHost, IsHostOfBridge};

use crate::node::Node;
use gg_bits::{Name, copied};
use gg_bridge::{Bridge, Hosted};
use gg_cut_plan::BridgeBody;
use std::alloc::{AllocError, Global};
use std::collections::HashMap;

// A table of bridges by their names.
//
// # Errors
//
// Returns `AllocError` if an allocation fails.
pub(crate) fn table_of<B: Bridge + Drop>(
    alloc: Global,
    bridges: Vec<(Name, B)>,
) -> Result<HashMap<Name, B>, AllocError>
    requires { AllPairs (λ a b. a ≢ b) (map (λ pair. pair.0) bridges.items) }
    ensures { IfOk result (TellsBridges bridges.items) }
{
    let mut left = bridges;
    let mut table = HashMap::new(alloc);
    while let Some((name, bridge)) = left.pop() {
        table.insert(name, bridge)?;
    }
    Ok(table)
}

// The host of a bridge's machine. The bridge with its name is taken out of the table.
//
// # Errors
//
// Returns `AllocError` if an allocation fails.
pub(crate) fn bridge_host<'a, B: Bridge + Drop>(
    alloc: Global,
    body: &BridgeBody,
    bridges: &mut HashMap<Name, B>,
    cycle: u64,
) -> Result<Node<'a, B>, AllocError>
    requires told { IsTold B.piece B.state bridges.old body.now }
    requires ports { ArePorts body.now.model body.now.ins body.now.outs }
    ensures host { IfOk result (IsHost (λ machine. machine ≡ started_bridge (turned body.now.model body.now.ins body.now.outs) cycle (opening body.now.model))) }
    ensures own { IfOk result (IsHostOfBridge (λ bridge. bridge_named bridges.old body.now.name ≡ Some bridge)) }
    ensures others { OnOk result (KeepsOthers (OfBridge body.now) bridges.old bridges.new) }
{
    let ins = copied(alloc, body.ins.as_slice())?;
    let outs = copied(alloc, body.outs.as_slice())?;
    match bridges.remove(&body.name) {
        Some(bridge) => {
            let host = Hosted::new(alloc, bridge, ins, outs, cycle)?;
            Ok(Node::Bridge(host))
        }
        None => unreachable!(),
    }
}
