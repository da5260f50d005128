//! The channels of a network.
ghost use Rattle.std.specs.Prelude.{◌≡◌, ◌^◌, ◌<◌, ◌≤◌, ℕ, length, map, All, IfOk, slice_index_or};
ghost use Rattle.gg_flat.specs.Line.{value_at};
ghost use Rattle.gg_cut_plan.specs.declared.plan.Channel.{Channel};
ghost use Rattle.gg_build.specs.plan.Built.{first_token, wires_of_plan};
ghost use Rattle.gg_build.specs.inside.Begin.{AreTokens};
ghost use Rattle.gg_build.specs.inside.Build.{IsFaultless};
ghost use Rattle.gg_build.specs.inside.Wires.{IsNoted, AreListed, ArePlaces, AreWires};

use gg_cut_plan::{Channel, Machine, Plan};
use gg_net::Wire;
use std::alloc::{AllocError, Global};

// For each channel its place among the channels that its producer gives, and its place among the channels that its
// consumer takes.
struct Places {
    outs: Vec<u32>,
    ins: Vec<u32>,
}

impl Drop for Places {
    fn drop(self) {
        let Self { outs, ins } = self;
        drop(outs);
        drop(ins);
    }
}

// Writes for each of these numbers its place in this list.
pub(crate) fn note(numbers: &[u32], places: &mut Vec<u32>)
    requires few { length numbers.now ≤ 2 ^ 32 }
    requires known { All (λ c. c < length places.old.items) numbers.now }
    ensures { IsNoted numbers.now places.old.items places.new.items }
{
    for place in 0..numbers.len() {
        places[numbers[place] as usize] = place as u32;
    }
}

// The places of all channels.
fn places_of(alloc: Global, machines: &[Machine], count: usize) -> Result<Places, AllocError>
    requires outs { AreListed (map (λ machine. machine.outs) machines.now) count }
    requires ins { AreListed (map (λ machine. machine.ins) machines.now) count }
    ensures outs { IfOk result (λ places. ArePlaces (map (λ machine. machine.outs) machines.now) count places.outs.items) }
    ensures ins { IfOk result (λ places. ArePlaces (map (λ machine. machine.ins) machines.now) count places.ins.items) }
{
    let mut outs = vec![in alloc; 0; count]?;
    let mut ins = vec![in alloc; 0; count]?;
    for machine in machines {
        note(machine.outs.as_slice(), &mut outs);
        note(machine.ins.as_slice(), &mut ins);
    }
    Ok(Places { outs, ins })
}

// The token that a channel opens with: if it has a pipe, the token at this place, or 0 after the end.
fn opens_with(pipe: bool, tokens: &[u128], place: usize) -> Option<u128>
    ensures { result ≡ first_token pipe (value_at tokens.now place) }
{
    if !pipe {
        return None;
    }
    match tokens.get(place) {
        Some(token) => Some(*token),
        None => Some(0),
    }
}

// These channels, at these places, with these tokens.
fn wires_at(
    alloc: Global,
    channels: &[Channel],
    outs: &[u32],
    ins: &[u32],
    tokens: &[u128],
) -> Result<Vec<Wire>, AllocError>
    requires outs { length outs.now ≡ length channels.now }
    requires ins { length ins.now ≡ length channels.now }
    ensures { IfOk result (λ wires. AreWires channels.now outs.now ins.now tokens.now (length channels.now) wires.items) }
{
    let mut wires = Vec::new(alloc);
    for number in 0..channels.len() {
        let channel = &channels[number];
        wires.push(Wire {
            producer: channel.producer,
            out: outs[number],
            consumer: channel.consumer,
            place: ins[number],
            capacity: channel.capacity,
            first: opens_with(channel.pipe, tokens, number),
        })?;
    }
    Ok(wires)
}

// The channels of the network of a plan, where these are the tokens of the pipes by channel.
//
// # Errors
//
// Returns `AllocError` if an allocation fails.
pub(crate) fn wires_of(alloc: Global, plan: &Plan, tokens: &[u128]) -> Result<Vec<Wire>, AllocError>
    requires { IsFaultless plan.now }
    ensures { IfOk result (λ wires. (token : ℕ → ℕ) → AreTokens plan.now.channels token tokens.now → wires.items ≡ wires_of_plan token plan.now) }
{
    let channels = plan.channels.as_slice();
    let places = places_of(alloc, plan.machines.as_slice(), channels.len())?;
    let wires = wires_at(alloc, channels, &places.outs, &places.ins, tokens)?;
    Ok(wires)
}
