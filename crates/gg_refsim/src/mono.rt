//! `Mono`: the simulator of a whole circuit.
ghost use Rattle.std.specs.Prelude.{◌≡◌, ℕ, ◌+◌, ◌<◌, ◌≤◌, List, [], length, map, IfOk};
ghost use Rattle.gg_bits.specs.Limits.{cycle_limit};
ghost use Rattle.gg_flat.specs.Clock.{edges_at};
ghost use Rattle.gg_flat.specs.Line.{value_at};
ghost use Rattle.gg_flat.specs.State.{State as StateValue, IsState};
ghost use Rattle.gg_flat.specs.Settled.{IsInputs};
ghost use Rattle.gg_flat.specs.Order.{IsOrder};
ghost use Rattle.gg_flat.specs.WellFormed.{IsWellFormed};
ghost use Rattle.gg_refsim.specs.Cycle.{Cycle};
ghost use Rattle.gg_refsim.specs.inside.Cycle.{begun};

use gg_clocks::{Ratio, Timing};
use gg_flat::Piece;
use gg_order::{Design, State};
use gg_tape::{Cells, Tape};
use std::alloc::{AllocError, Global};
use std::error::Error;
use std::fmt;
use std::marker::Model;

/// An allocation failed.
#[derive(Clone, Copy, Debug, PartialEq, Eq)]
pub struct NoMemory;

impl From<AllocError> for NoMemory {
    ghost from_gives = { λ error refusal. Unit {0} };

    fn from(_error: AllocError) -> NoMemory {
        NoMemory
    }
}

impl fmt::Display for NoMemory {
    ghost use Rattle.std.specs.Prelude.{Some, codes};

    ghost output = { λ _. Some (codes "out of memory") };

    fn fmt<W: fmt::Write>(&self, f: &mut fmt::Formatter<W>) -> fmt::Result {
        f.write_str("out of memory")
    }
}

impl Error for NoMemory {}

/// A simulator of a design's circuit. A contract sees the circuit, the ratios of its clocks, how many cycles were made, and
/// the simulator's state.
pub struct Mono<'a> {
    design: &'a Design,
    // The ratios of the clocks. Its tick is the number of cycles that were made.
    timing: Timing,
    state: State,
    tape: Tape,
    cells: Cells,
}

impl Drop for Mono<'_> {
    fn drop(self) {
        let Self {
            design: _,
            timing,
            state,
            tape,
            cells,
        } = self;
        drop(timing);
        drop(state);
        drop(tape);
        drop(cells);
    }
}

impl<'a> Model for Mono<'a> {
    ghost use Rattle.gg_refsim.specs.inside.Cycle.{Simulation};
    ghost use Rattle.gg_refsim.specs.inside.Kept.{IsKept};

    ghost Value = { Simulation };

    ghost view = { λ mono. record { circuit = mono.design.now.circuit; ratios = mono.timing.ratios; cycle = mono.timing.tick; state = mono.state } };

    ghost invariant = { λ mono. IsKept mono.design.now mono.state mono.tape mono.cells };
}

impl<'a> Mono<'a> {
    /// The simulator of a design in the state before the first cycle. The clocks have these ratios, in the order of the
    /// circuit's clocks. A clock past the end of the list has an edge in every cycle.
    ///
    /// # Errors
    ///
    /// Returns `NoMemory` if an allocation fails.
    pub fn with_clocks(
        alloc: Global,
        design: &'a Design,
        ratios: &[Ratio],
    ) -> Result<Mono<'a>, NoMemory>
        ensures { IfOk result (λ mono. mono ≡ begun design.now.circuit ratios.now) }
    {
        let piece = design.piece();
        let state = State::new(alloc, piece)?;
        let tape = Tape::of(alloc, piece, design.order())?;
        let cells = Cells::of(alloc, piece)?;
        let timing = Timing::new(alloc, ratios, 0)?;
        Ok(Mono {
            design,
            timing,
            state,
            tape,
            cells,
        })
    }

    /// The circuit, which is well formed and has an order of evaluation.
    pub fn piece(&self) -> &Piece
        ensures circuit { result.now ≡ self.now.circuit }
        ensures formed { IsWellFormed self.now.circuit }
        ensures ordered { (order : List ℕ) × IsOrder self.now.circuit order }
        ensures typed { IsState self.now.circuit self.now.state }
    {
        // for the invariant only
        let _ = self.design.order();
        self.design.piece()
    }

    /// Makes one cycle: puts the outputs, in port order, into `outs`, and goes to the next state. Fewer than 1,000,000
    /// cycles were made before. It allocates nothing.
    ///
    /// The inputs are in port order, one for each in-signal, of its type. `outs` has a place for each out-signal.
    ///
    /// # Examples
    ///
    /// ```rust
    /// // `design` is the design of a module with the input `a`, the output `b` and the register `r`, where `r <= a`
    /// // and `b <= r` (gg_front's `front` makes it).
    /// let mut mono = Mono::with_clocks(alloc, &design, &[])?;
    /// let mut outs = [0];
    /// mono.cycle(&[5], &mut outs);
    /// // `outs` is `[0]`, because the register is 0 at first.
    /// mono.cycle(&[7], &mut outs);
    /// // `outs` is `[5]`.
    /// ```
    pub fn cycle(&mut self, inputs: &[u128], outs: &mut [u128])
        requires few { self.old.cycle < cycle_limit }
        requires inputs { IsInputs self.old.circuit inputs.now }
        requires outs { length outs.old ≡ length self.old.circuit.outs }
        ensures circuit { self.new.circuit ≡ self.old.circuit }
        ensures ratios { self.new.ratios ≡ self.old.ratios }
        ensures count { self.new.cycle ≡ self.old.cycle + 1 }
        ensures cycle { Cycle (edges_at self.old.ratios self.old.cycle) self.old.circuit self.old.state inputs.now outs.new self.new.state }
        ensures only { (printed : List ℕ) (after : StateValue)
            → Cycle (edges_at self.old.ratios self.old.cycle) self.old.circuit self.old.state inputs.now printed after
            → (printed ≡ outs.new) × (after ≡ self.new.state) }
    {
        let piece = self.design.piece();
        // for the invariant only
        let _ = self.design.order();
        self.tape
            .settle(piece, &self.state, inputs, &mut self.cells);
        read_outs(piece.outs(), self.cells.values(), outs);
        let edges = self.timing.edges();
        self.tape
            .advance(piece, &mut self.state, edges, &mut self.cells);
        self.timing.advance();
    }
}

// Puts the values of these signals into `outs`.
fn read_outs(places: &[u32], signals: &[u128], outs: &mut [u128])
    requires known { (k : ℕ) → k < length places.now → value_at places.now k < length signals.now }
    requires count { length outs.old ≡ length places.now }
    ensures { outs.new ≡ map (λ s. value_at signals.now s) places.now }
{
    for k in 0..places.len() {
        outs[k] = signals[places[k] as usize];
    }
}
