//! The channels that are left.
ghost use Rattle.std.specs.Prelude.{◌≡◌, [], ◌∷◌, ◌++◌, ◌<◌, not, if◌then◌else◌, IfSome, length, map, filter, All, IfOk, OnOk};
ghost use Rattle.gg_order.specs.Marks.{is_marked};
ghost use Rattle.gg_cut_routes.specs.inside.Tables.{entry_at, AreKnown, from_by, routed_by};

use crate::sides::Side;
use gg_cut_plan::Wire;
use std::alloc::{AllocError, Global};

// The channels with signals that don't leave, each with the in-channel that is given in its place, if it is direct.
//
// # Errors
//
// Returns `AllocError` if an allocation fails.
pub(crate) fn routed_of(
    alloc: Global,
    wires: &[Wire],
    sides: &[Side],
    straight: &[Option<u32>],
    gone: &[bool],
) -> Result<Vec<Wire>, AllocError>
    requires signals { All (λ w. w.signal < length gone.now) wires.now }
    requires sides { length sides.now ≡ length gone.now }
    requires straight { length straight.now ≡ length gone.now }
    requires known { AreKnown (length gone.now) straight.now }
    ensures { IfOk result (λ routed. routed.items ≡ map (λ w. routed_by sides.now w (entry_at straight.now w.signal)) (filter (λ w. not (is_marked gone.now w.signal)) wires.now)) }
{
    let mut routed = Vec::new(alloc);
    for place in 0..wires.len() {
        let wire = wires[place];
        let signal = wire.signal as usize;
        let route = route_of(wire, sides, straight[signal]);
        push_route(&mut routed, route, !gone[signal])?;
    }
    Ok(routed)
}

// Adds a channel at the end, if it is left.
fn push_route(routed: &mut Vec<Wire>, wire: Wire, left: bool) -> Result<(), AllocError>
    ensures { OnOk result (routed.new.items ≡ routed.old.items ++ (if left then wire ∷ [] else [])) }
{
    if left {
        routed.push(wire)?;
    }
    Ok(())
}

// A channel with the in-channel that is given in its place, if there is one.
fn route_of(wire: Wire, sides: &[Side], origin: Option<u32>) -> Wire
    requires { IfSome origin (λ x. x < length sides.now) }
    ensures { result ≡ routed_by sides.now wire origin }
{
    match origin {
        Some(origin) => from(wire, origin, sides[origin as usize]),
        None => wire,
    }
}

// A channel that gives an in-channel, from the machine that gives it.
fn from(wire: Wire, origin: u32, side: Side) -> Wire
    ensures { result ≡ from_by wire origin side }
{
    match side {
        Side::In(producer) => Wire {
            signal: wire.signal,
            given: origin,
            producer,
            consumer: wire.consumer,
        },
        Side::Own | Side::Out | Side::Other => wire,
    }
}
