//! `Hosted`: a bridge as a machine.
ghost use Rattle.std.specs.Prelude.{◌≡◌, ℕ, ◌<◌, ◌≤◌, [], ◌∷◌, None, All, IfOk, length, is_some, slice_set};
ghost use Rattle.gg_flat.specs.Line.{value_at};
ghost use Rattle.gg_node.specs.inside.Machine.{IsTray, due};
ghost use Rattle.gg_node.specs.Machine.{Machine, machine_at, latch_at, flag_at, latched_value, missing};
ghost use Rattle.gg_node.specs.Token.{IsToken, IsNextState};
ghost use Rattle.gg_node.specs.inside.Step.{MayLatch, MayFire, MayServe, MayFinish};
ghost use Rattle.gg_node.specs.Step.{with_latch, with_flag, with_served, finished};
ghost use Rattle.gg_bridge.specs.Turned.{turned};
ghost use Rattle.gg_bridge.specs.inside.Turned.{AreAllPlaces};
ghost use Rattle.gg_bridge.specs.Hosted.{started_bridge};
ghost use Rattle.gg_bridge.specs.inside.Hosted.{ArePorts};

use crate::bridge::Bridge;
use gg_bits::Ids;
use gg_node::{Host, clean, clear_flags, empty_latches};
use std::alloc::{AllocError, Global};
use std::marker::Model;

/// A bridge as a machine of its own. Its ins and outs are the model's ports, in an order of its own. No out needs an in. It is a host
/// of one thread. A contract sees this machine, and the bridge.
#[derive(Drop)]
pub struct Hosted<B: Bridge + Drop> {
    bridge: B,
    // The place among the model's in-signals of each in, and among the out-signals of each out.
    ins: Ids,
    outs: Ids,
    // What the bridge says in its present state.
    said: Vec<u128>,
    // Room for what it sees.
    seen: Vec<u128>,
    latches: Vec<Option<u128>>,
    flags: Vec<bool>,
    cycle: u64,
}

impl<B: Bridge + Drop> Model for Hosted<B> {
    ghost use Rattle.gg_bridge.specs.Turned.{turned};
    ghost use Rattle.gg_bridge.specs.Hosted.{bridge_machine};
    ghost use Rattle.gg_bridge.specs.inside.Hosted.{Hosting, IsHosted};

    ghost Value = { Hosting B };

    ghost view = { λ host. record { machine = bridge_machine (turned (B.piece host.bridge) host.ins host.outs) host.cycle (B.state host.bridge) host.latches.items host.flags.items; bridge = host.bridge } };

    ghost invariant = { λ host. IsHosted (B.piece host.bridge) (B.state host.bridge) host.ins host.outs host.said.items host.seen.items host.latches.items host.flags.items };
}

// Puts the tokens in the latches to the places of their ins.
fn gather(ins: &[u32], latches: &[Option<u128>], seen: &mut Vec<u128>)
    requires count { length latches.now ≡ length ins.now }
    requires places { AreAllPlaces (length seen.old.items) ins.now }
    ensures count { length seen.new.items ≡ length seen.old.items }
    ensures put { (i : ℕ) → i < length ins.now → value_at seen.new.items (value_at ins.now i) ≡ latched_value (latch_at latches.now i) }
{
    for i in 0..ins.len() {
        seen[ins[i] as usize] = latches[i].unwrap_or(0);
    }
}

impl<B: Bridge + Drop> Hosted<B> {
    /// The machine of a bridge before its first step, in this cycle and in the bridge's state. Its ins and outs are these places of the model's
    /// in-signals and out-signals: each of the in-signals is one of the ins.
    ///
    /// # Errors
    ///
    /// Returns `AllocError` if an allocation fails.
    pub fn new(
        alloc: Global,
        bridge: B,
        ins: Ids,
        outs: Ids,
        cycle: u64,
    ) -> Result<Hosted<B>, AllocError>
        requires { ArePorts (B.piece bridge) ins outs }
        ensures machine { IfOk result (λ host. host.machine ≡ started_bridge (turned (B.piece bridge) ins outs) cycle (B.state bridge)) }
        ensures bridge { IfOk result (λ host. host.bridge ≡ bridge) }
    {
        let model = bridge.model();
        let seen = vec![in alloc; 0; model.ins().len()]?;
        let mut said = vec![in alloc; 0; model.outs().len()]?;
        bridge.says(&mut said);
        let latches = empty_latches(alloc, ins.as_slice().len())?;
        let flags = clear_flags(alloc, outs.as_slice().len())?;
        Ok(Hosted {
            bridge,
            ins,
            outs,
            said,
            seen,
            latches,
            flags,
            cycle,
        })
    }

    /// The place among the model's in-signals of each in.
    pub fn ins(&self) -> &[u32]
        ensures count { length result.now ≡ length self.now.machine.latches }
        ensures runs { ¬ IsTray self.now.machine.behaviour }
        ensures ports { self.now.machine.ports ≡ [] }
    {
        self.ins.as_slice()
    }

    // The token of an out.
    fn value(&self, place: u32) -> u128
        requires { MayFire self.now.machine place }
        ensures { IsToken self.now.machine place result }
    {
        self.said[self.outs.as_slice()[place as usize] as usize]
    }

    // Puts a token into the latch of an in.
    fn put(&mut self, place: u32, token: u128)
        requires { MayLatch self.old.machine place token }
        ensures { self.new ≡ record self.old { machine = with_latch self.old.machine place token } }
    {
        self.latches[place as usize] = Some(token);
    }

    // Advances to the next cycle.
    fn next_cycle(&mut self)
        requires { MayFinish self.old.machine }
        ensures next { IsNextState self.old.machine self.new.machine.state }
        ensures step { self.new.machine ≡ finished self.old.machine self.new.machine.state }
    {
        gather(self.ins.as_slice(), self.latches.as_slice(), &mut self.seen);
        self.bridge.answer(&self.seen);
        self.bridge.says(&mut self.said);
        clean(&mut self.latches, &mut self.flags);
        self.cycle += 1;
    }
}

#[tactic(auto, using(gg_node::proofs::OneLemmas::only, gg_node::proofs::OneLemmas::only_set))]
impl<B: Bridge + Send + Drop> Host for Hosted<B> {
    ghost machines = { λ host. host.machine ∷ [] };

    fn threads(&self) -> u32 {
        1
    }

    fn cycle(&self, thread: u32) -> u64 {
        self.cycle
    }

    fn latched(&self, thread: u32, place: u32) -> bool {
        self.latches[place as usize].is_some()
    }

    fn fired(&self, thread: u32, place: u32) -> bool {
        self.flags[place as usize]
    }

    fn missing(&self, thread: u32, place: u32) -> Option<u32> {
        // for the invariant only
        let _ = &self.cycle;
        None
    }

    fn due(&self, thread: u32) -> Option<u32> {
        // for the invariant only
        let _ = &self.cycle;
        None
    }

    fn served(&self, thread: u32) -> u32 {
        // for the invariant only
        let _ = &self.cycle;
        0
    }

    fn dues(&self, thread: u32) -> u32 {
        // for the invariant only
        let _ = &self.cycle;
        0
    }

    fn port_count(&self, thread: u32) -> u32 {
        // for the invariant only
        let _ = &self.cycle;
        0
    }

    fn token(&mut self, thread: u32, place: u32) -> u128 {
        self.value(place)
    }

    fn latch(&mut self, thread: u32, place: u32, value: u128) {
        self.put(place, value);
    }

    fn fire(&mut self, thread: u32, place: u32) -> u128 {
        let value = self.value(place);
        self.flags[place as usize] = true;
        value
    }

    fn serve(&mut self, thread: u32, port: u32) {
        // for the invariant only
        let _ = &self.cycle;
    }

    fn finish(&mut self, thread: u32) {
        self.next_cycle();
    }
}
