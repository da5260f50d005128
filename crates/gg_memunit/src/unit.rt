//! `MemUnit`: a memory that is served port by port.
ghost use Rattle.std.specs.Prelude.{◌≡◌, ℕ, ◌<◌, ◌≤◌, List, [], ◌∷◌, None, false, length, replicate, is_some, slice_set, IfOk};
ghost use Rattle.gg_bits.specs.Limits.{cycle_limit};
ghost use Rattle.gg_flat.specs.State.{IsState};
ghost use Rattle.gg_node.specs.Machine.{RunsPiece, Machine, machine_at, latch_at, flag_at, missing};
ghost use Rattle.gg_node.specs.inside.Machine.{due};
ghost use Rattle.gg_node.specs.Token.{IsToken, IsNextState};
ghost use Rattle.gg_node.specs.inside.Step.{MayLatch, MayFire, MayServe, MayFinish};
ghost use Rattle.gg_node.specs.Step.{with_latch, with_flag, with_served, finished};
ghost use Rattle.gg_memunit.specs.MemoryUnit.{IsMemoryPiece, started_unit};
ghost use Rattle.gg_memunit.specs.inside.MemoryUnit.{opening_unit};

use crate::{access, ports};
use gg_clocks::{Ratio, Timing};
use gg_flat::{Latency, Memory, Piece};
use gg_node::{Host, clean, clear_flags, empty_latches};
use gg_order::{Bank, State};
use std::alloc::{AllocError, Global};
use std::marker::Model;

/// A memory as a machine of its own. Its ports are served one by one. It is a host of one thread. Its ins are the
/// fields of the memory's ports, and its outs are the data of the readers. A contract sees it as this machine.
///
/// # Examples
///
/// ```
/// // A memory with one reader, which gives its word in the same cycle, and one writer. The ins are the reader's address
/// // and enable, then the writer's address, enable, data and mask. No port has a clock, so each tick has its edge.
/// let mut unit = MemUnit::with_clocks(alloc, piece, &[])?;
/// unit.latch(0, 0, 3);
/// unit.latch(0, 1, 1);
/// unit.fire(0, 0); // 0, the word at address 3
/// unit.latch(0, 2, 3);
/// unit.latch(0, 3, 1);
/// unit.latch(0, 4, 7);
/// unit.latch(0, 5, 1);
/// unit.due(0); // Some(1): port 0 is the reader, which needs no step
/// unit.serve(0, 1);
/// unit.finish(0);
/// unit.latch(0, 0, 3);
/// unit.latch(0, 1, 1);
/// unit.fire(0, 0); // 7
/// ```
pub struct MemUnit {
    piece: Piece,
    // what its memory holds, as the accesses so far have made it
    state: State,
    // The token in each latch; 0 if the latch is empty.
    inputs: Vec<u128>,
    latches: Vec<Option<u128>>,
    flags: Vec<bool>,
    // its tick is the cycle
    timing: Timing,
    served: u32,
}

impl Drop for MemUnit {
    fn drop(self) {
        let Self {
            piece,
            state,
            inputs,
            latches,
            flags,
            timing,
            served: _,
        } = self;
        drop(piece);
        drop(state);
        drop(inputs);
        drop(latches);
        drop(flags);
        drop(timing);
    }
}

impl Model for MemUnit {
    ghost use Rattle.gg_bits.specs.Limits.{cycle_limit};
    ghost use Rattle.gg_node.specs.Machine.{Machine};
    ghost use Rattle.gg_memunit.specs.MemoryUnit.{memory_machine};
    ghost use Rattle.gg_memunit.specs.inside.MemoryUnit.{IsOfPiece};

    ghost Value = { Machine };

    ghost view = { λ unit. memory_machine unit.piece unit.timing.ratios cycle_limit unit.timing.tick unit.state unit.served unit.latches.items unit.flags.items };

    ghost invariant = { λ unit. IsOfPiece unit.piece unit.state unit.inputs.items unit.latches.items unit.flags.items };
}

// The only memory of a piece.
fn memory_of(piece: &Piece) -> &Memory
    requires { length piece.now.memories ≡ 1 }
    ensures { piece.now.memories ≡ result.now ∷ [] }
{
    &piece.memories()[0]
}

// What the only memory of a state holds.
fn bank_of(state: &State) -> &Bank
    requires { length state.now.banks ≡ 1 }
    ensures { state.now.banks ≡ result.now ∷ [] }
{
    &state.banks()[0]
}

// The tokens and the latches of a unit's ins, and the flags of its outs.
#[derive(Drop)]
struct Slots {
    inputs: Vec<u128>,
    latches: Vec<Option<u128>>,
    flags: Vec<bool>,
}

// The slots of a unit before its first access.
fn empty_slots(alloc: Global, piece: &Piece) -> Result<Slots, AllocError>
    ensures inputs { IfOk result (λ slots. slots.inputs.items ≡ replicate (length piece.now.ins) 0) }
    ensures latches { IfOk result (λ slots. slots.latches.items ≡ replicate (length piece.now.ins) None) }
    ensures flags { IfOk result (λ slots. slots.flags.items ≡ replicate (length piece.now.outs) false) }
{
    let inputs = vec![in alloc; 0; piece.ins().len()]?;
    let latches = empty_latches(alloc, piece.ins().len())?;
    let flags = clear_flags(alloc, piece.outs().len())?;
    Ok(Slots {
        inputs,
        latches,
        flags,
    })
}

impl MemUnit {
    /// The unit of a piece that is only a memory, before the first cycle, with a ratio for each clock of the piece.
    ///
    /// # Errors
    ///
    /// Returns `AllocError` if an allocation fails.
    pub fn with_clocks(alloc: Global, piece: Piece, ratios: &[Ratio]) -> Result<MemUnit, AllocError>
        requires { IsMemoryPiece piece }
        ensures { IfOk result (λ unit. unit ≡ opening_unit piece ratios.now) }
    {
        let state = State::new(alloc, &piece)?;
        MemUnit::from_state(alloc, piece, ratios, state, 0)
    }

    /// The unit of a piece that is only a memory. It begins in this state, with this cycle, which is at most 1,000,000.
    /// There is a ratio for each clock of the piece.
    ///
    /// # Errors
    ///
    /// Returns `AllocError` if an allocation fails.
    pub fn from_state(
        alloc: Global,
        piece: Piece,
        ratios: &[Ratio],
        state: State,
        cycle: u64,
    ) -> Result<MemUnit, AllocError>
        requires memory { IsMemoryPiece piece }
        requires state { IsState piece state }
        requires cycle { cycle ≤ cycle_limit }
        ensures { IfOk result (λ unit. unit ≡ started_unit piece ratios.now state cycle) }
    {
        let timing = Timing::new(alloc, ratios, cycle)?;
        let Slots {
            inputs,
            latches,
            flags,
        } = empty_slots(alloc, &piece)?;
        Ok(MemUnit {
            piece,
            state,
            inputs,
            latches,
            flags,
            timing,
            served: 0,
        })
    }

    /// The state before its cycle, as the accesses of the cycle so far have changed it. The only thread is thread 0.
    pub fn state(&self, _thread: u32) -> &State
        requires { _thread < 1 }
        ensures { result.now ≡ self.now.state }
    {
        &self.state
    }

    /// The piece that it runs.
    pub fn piece(&self) -> &Piece
        ensures { self.now.behaviour ≡ RunsPiece result.now }
    {
        &self.piece
    }

    // The first in that an out needs and that has no token yet, if there is one.
    fn first_missing(&self, place: u32) -> Option<u32>
        requires { place < length self.now.flags }
        ensures { result ≡ missing self.now place }
    {
        let memory = memory_of(&self.piece);
        let reader = memory.readers.as_slice()[place as usize];
        ports::first_missing(self.latches.as_slice(), memory.latency, reader)
    }

    // The number of the port that is due, if one is left.
    fn port_due(&self) -> Option<u32>
        ensures { result ≡ due self.now }
    {
        let memory = memory_of(&self.piece);
        let (readers, writers) = (memory.readers.as_slice(), memory.writers.as_slice());
        ports::due_after(memory.latency, readers, writers, self.served)
    }

    // The number of ports that are served in a cycle.
    fn due_count(&self) -> u32
        ensures { result ≡ length self.now.ports }
    {
        let memory = memory_of(&self.piece);
        let (readers, writers) = (memory.readers.as_slice(), memory.writers.as_slice());
        ports::count(memory.latency, readers, writers)
    }

    // The number of ports of the memory.
    fn all_ports(&self) -> u32
        ensures { result ≡ self.now.port_count }
    {
        let memory = memory_of(&self.piece);
        ports::all(memory.readers.as_slice(), memory.writers.as_slice())
    }

    // The token of an out.
    fn value(&self, place: u32) -> u128
        requires { MayFire self.now place }
        ensures { IsToken self.now place result }
    {
        let memory = memory_of(&self.piece);
        let bank = bank_of(&self.state);
        match memory.latency {
            Latency::Zero => {
                let reader = &memory.readers.as_slice()[place as usize];
                access::find(bank, reader, &self.inputs)
            }
            Latency::One(_) => bank.reads()[place as usize],
        }
    }

    // Puts a token into the latch of an in.
    fn put(&mut self, place: u32, token: u128)
        requires { MayLatch self.old place token }
        ensures { self.new ≡ with_latch self.old place token }
    {
        self.inputs[place as usize] = token;
        self.latches[place as usize] = Some(token);
    }

    // Does the access of the port that is due.
    fn serve_port(&mut self, port: u32)
        requires { MayServe self.old port }
        ensures { self.new ≡ with_served self.old }
    {
        let memory = memory_of(&self.piece);
        let edges = self.timing.edges();
        access::serve(self.state.bank_mut(0), memory, port, edges, &self.inputs);
        self.served += 1;
    }

    // Advances to the next cycle.
    fn next_cycle(&mut self)
        requires { MayFinish self.old }
        ensures next { IsNextState self.old self.new.state }
        ensures step { self.new ≡ finished self.old self.new.state }
    {
        self.inputs.fill(0);
        clean(&mut self.latches, &mut self.flags);
        self.timing.advance();
        self.served = 0;
    }
}

#[tactic(auto, using(gg_node::proofs::OneLemmas::only, gg_node::proofs::OneLemmas::only_set))]
impl Host for MemUnit {
    ghost machines = { λ machine. machine ∷ [] };

    fn threads(&self) -> u32 {
        1
    }

    fn cycle(&self, thread: u32) -> u64 {
        self.timing.tick()
    }

    fn latched(&self, thread: u32, place: u32) -> bool {
        self.latches[place as usize].is_some()
    }

    fn fired(&self, thread: u32, place: u32) -> bool {
        self.flags[place as usize]
    }

    fn missing(&self, thread: u32, place: u32) -> Option<u32> {
        self.first_missing(place)
    }

    fn due(&self, thread: u32) -> Option<u32> {
        self.port_due()
    }

    fn served(&self, thread: u32) -> u32 {
        self.served
    }

    fn dues(&self, thread: u32) -> u32 {
        self.due_count()
    }

    fn port_count(&self, thread: u32) -> u32 {
        self.all_ports()
    }

    fn token(&mut self, thread: u32, place: u32) -> u128 {
        self.value(place)
    }

    fn latch(&mut self, thread: u32, place: u32, value: u128) {
        self.put(place, value);
    }

    fn fire(&mut self, thread: u32, place: u32) -> u128 {
        let value = self.value(place);
        self.flags[place as usize] = true;
        value
    }

    fn serve(&mut self, thread: u32, port: u32) {
        self.serve_port(port);
    }

    fn finish(&mut self, thread: u32) {
        self.next_cycle();
    }
}
