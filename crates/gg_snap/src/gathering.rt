//! The state of a circuit, gathered from a network.
ghost use Rattle.std.specs.Prelude.{◌≡◌, ℕ, ◌<◌, ◌≤◌, ◌^◌, All, IfOk, MatchOption, OnOk, length};
ghost use Rattle.gg_flat.specs.Memory.{bank_at};
ghost use Rattle.gg_flat.specs.State.{State, opening};
ghost use Rattle.gg_cut_plan.specs.declared.plan.Plan.{Plan};
ghost use Rattle.gg_node.specs.Machine.{machine_at};
ghost use Rattle.gg_net.specs.Network.{queue_at};
ghost use Rattle.gg_build.specs.inside.Node.{machines_of};
ghost use Rattle.gg_snap.specs.inside.Parts.{HasPart, HasSizeOf};
ghost use Rattle.gg_snap.specs.inside.Gathered.{AreApart, AreDone, AreIn, HoldsBody, HoldsPart, IsAll, IsRunning, IsSized, held_by, kept_by, newest, newest_tokens};

use crate::pipes::pipes_of;
use crate::text::StateDraft;
use gg_bridge::Bridge;
use gg_build::Node;
use gg_cut_plan::{Body, Machine, Plan};
use gg_flat::{Piece, Streams};
use gg_net::Net;
use gg_order::State;
use std::alloc::{AllocError, Global};

// The state of a thread's machine, if it runs a piece. A bridge's host doesn't give its state; the network of a plan without bridges has no such
// host.
fn state_of<'n, B: Bridge + Drop>(
    node: &'n Node<'_, B>,
    thread: u32,
) -> Result<Option<&'n State>, AllocError>
    requires { thread < length (machines_of node.now) }
    ensures { IfOk result (λ found. MatchOption found (IsRunning (machine_at (machines_of node.now) thread) → ⊥) (λ state. state.now ≡ (machine_at (machines_of node.now) thread).state)) }
{
    match node {
        Node::Unit(host) => Ok(Some(host.state(thread))),
        Node::Shared(host) => Ok(Some(host.state(thread))),
        Node::Memory(host) => Ok(Some(host.state(thread))),
        Node::Source(host) => {
            // for the invariant only
            let _ = host.column();
            Ok(None)
        }
        Node::Tray(host) => {
            // for the invariant only
            let _ = host.value(0);
            Ok(None)
        }
        Node::Bridge(_) => Err(AllocError),
    }
}

// Puts the state of a machine at the registers and memories that it has.
fn put<B: Bridge + Send + Drop, Z: Streams>(
    draft: &mut StateDraft,
    net: &Net<Node<'_, B>, Z>,
    machine: u32,
    held: &[u32],
    memories: &[u32],
) -> Result<(), AllocError>
    requires known { machine < length net.now.machines }
    requires holds { (whole : State) × HoldsPart whole (length draft.old.registers)
        (length draft.old.banks) held.now memories.now (machine_at net.now.machines machine)
        × ((m : ℕ) → HasSizeOf (bank_at whole.banks m) (bank_at draft.old.banks m)) }
    ensures sizes { OnOk result ((m : ℕ) → HasSizeOf (bank_at draft.new.banks m) (bank_at draft.old.banks m)) }
    ensures part { OnOk result ((whole : State) → HoldsPart whole (length draft.old.registers)
        (length draft.old.banks) held.now memories.now (machine_at net.now.machines machine)
        → HasPart whole held.now memories.now draft.old draft.new) }
{
    let (node, thread) = net.host_and_thread(machine);
    if let Some(state) = state_of(node, thread)? {
        draft.put_part(held, memories, state);
    }
    Ok(())
}

// Puts the state of a machine of a plan.
fn put_machine<B: Bridge + Send + Drop, Z: Streams>(
    draft: &mut StateDraft,
    net: &Net<Node<'_, B>, Z>,
    machine: u32,
    body: &Body,
) -> Result<(), AllocError>
    requires known { machine < length net.now.machines }
    requires holds { (whole : State) × HoldsBody whole (length draft.old.registers) (length draft.old.banks) body.now
        (machine_at net.now.machines machine) × ((m : ℕ) → HasSizeOf (bank_at whole.banks m) (bank_at draft.old.banks m)) }
    ensures sizes { OnOk result ((m : ℕ) → HasSizeOf (bank_at draft.new.banks m) (bank_at draft.old.banks m)) }
    ensures part { OnOk result ((whole : State) → HoldsBody whole (length draft.old.registers) (length draft.old.banks) body.now
        (machine_at net.now.machines machine) → HasPart whole (held_by body.now) (kept_by body.now) draft.old draft.new) }
{
    match body {
        Body::Cut(part) => put(
            draft,
            net,
            machine,
            part.held.as_slice(),
            part.memories.as_slice(),
        ),
        Body::Memory(part) => put(draft, net, machine, &[], part.memories.as_slice()),
        Body::Source(_) | Body::Tray | Body::Bridge(_) => Ok(()),
    }
}

// The last token of a channel; 0 if it has none.
fn newest_of<B: Bridge + Send + Drop, Z: Streams>(net: &Net<Node<'_, B>, Z>, channel: u32) -> u128
    requires { channel < length net.now.wires }
    ensures { result ≡ newest (queue_at net.now.queues channel) }
{
    net.newest(channel).unwrap_or(0)
}

// The last token of each channel.
fn newest_tokens<B: Bridge + Send + Drop, Z: Streams>(
    alloc: Global,
    net: &Net<Node<'_, B>, Z>,
    count: usize,
) -> Result<Vec<u128>, AllocError>
    requires count { count ≡ length net.now.wires }
    requires few { count ≤ 2 ^ 32 }
    ensures { IfOk result (λ tokens. tokens.items ≡ newest_tokens net.now.queues count) }
{
    let mut tokens = Vec::new(alloc);
    for c in 0..count {
        tokens.push(newest_of(net, c as u32))?;
    }
    Ok(tokens)
}

// The parts of a state that the machines of a plan have.
fn gather_machines<B: Bridge + Send + Drop, Z: Streams>(
    alloc: Global,
    net: &Net<Node<'_, B>, Z>,
    machines: &[Machine],
    piece: &Piece,
) -> Result<StateDraft, AllocError>
    requires count { length net.now.machines ≡ length machines.now }
    requires few { length machines.now ≤ 2 ^ 32 }
    requires holds { (plan : Plan) × (whole : State) × (plan.machines ≡ machines.now) × AreIn piece.now plan net.now whole }
    ensures sized { IfOk result (λ draft. IsSized piece.now draft) }
    ensures done { IfOk result (λ draft. (plan : Plan) (whole : State) → plan.machines ≡ machines.now → AreIn piece.now plan net.now whole → AreDone plan whole (length machines.now) draft) }
{
    let mut draft = StateDraft::new(alloc, piece)?;
    for m in 0..machines.len() {
        put_machine(&mut draft, net, m as u32, &machines[m].body)?;
    }
    Ok(draft)
}

// The state of the circuit that a plan's network computes, from a network with all machines in their parts of it. The token of each pipe is the last
// one that entered its channel. `piece` is the plan's circuit, without the pipes.
//
// # Errors
//
// Returns `AllocError` if an allocation fails, or if a bridge's host has one of the machines.
pub(crate) fn gather<B: Bridge + Send + Drop, Z: Streams>(
    alloc: Global,
    net: &Net<Node<'_, B>, Z>,
    plan: &Plan,
    piece: &Piece,
) -> Result<State, AllocError>
    requires machines { length net.now.machines ≡ length plan.now.machines }
    requires channels { length net.now.wires ≡ length plan.now.channels }
    requires few { (length plan.now.machines ≤ 2 ^ 32) × (length plan.now.channels ≤ 2 ^ 32) }
    requires known { All (λ channel. channel.signal < length piece.now.signals) plan.now.channels }
    requires apart { AreApart plan.now.channels }
    requires holds { (whole : State) × AreIn piece.now plan.now net.now whole }
    ensures { IfOk result (λ state. (whole : State) → AreIn piece.now plan.now net.now whole → IsAll piece.now plan.now net.now whole → state ≡ whole) }
{
    let draft = gather_machines(alloc, net, plan.machines.as_slice(), piece)?;
    let channels = plan.channels.as_slice();
    let tokens = newest_tokens(alloc, net, channels.len())?;
    let pipes = pipes_of(alloc, channels, piece.signal_count(), &tokens)?;
    let state = draft.into_state_with_pipes(alloc, pipes)?;
    Ok(state)
}
