//! `Timing`: which tick it is, and which clocks have an edge in it.
ghost use Rattle.std.specs.Prelude.{◌≡◌, ◌+◌, ◌<◌, ◌≤◌, length, IfOk};
ghost use Rattle.gg_bits.specs.Limits.{cycle_limit};
ghost use Rattle.gg_flat.specs.Clock.{edges_at};

use crate::ratio::Ratio;
use gg_bits::Items;
use std::alloc::{AllocError, Global};
use std::marker::Model;

/// Ratios, one for each clock. A contract sees them as a list.
pub type Ratios = Items<Ratio>;

/// Which tick it is, and which clocks have an edge in it. A contract sees the ratios of the clocks and the tick.
pub struct Timing {
    ratios: Vec<Ratio>,
    tick: u64,
    // for each clock, whether it has an edge in this tick
    edges: Vec<bool>,
}

impl Drop for Timing {
    fn drop(self) {
        let Self {
            ratios,
            tick: _,
            edges,
        } = self;
        drop(ratios);
        drop(edges);
    }
}

impl Model for Timing {
    ghost use Rattle.std.specs.Prelude.{◌≡◌};
    ghost use Rattle.gg_flat.specs.Clock.{edges_at};
    ghost use Rattle.gg_clocks.specs.inside.Edges.{Timed};

    ghost Value = { Timed };

    ghost view = { λ timing. record { ratios = timing.ratios.items; tick = timing.tick } };

    ghost invariant = { λ timing. timing.edges.items ≡ edges_at timing.ratios.items timing.tick };
}

// Fills in the edges of these clocks at tick `b`.
fn fill_edges(ratios: &[Ratio], b: u64, edges: &mut [bool])
    requires tick { b ≤ cycle_limit }
    requires count { length edges.old ≡ length ratios.now }
    ensures { edges.new ≡ edges_at ratios.now b }
{
    for k in 0..ratios.len() {
        edges[k] = ratios[k].edge(b);
    }
}

impl Timing {
    /// Clocks with these ratios at tick `tick`, which is at most 1,000,000.
    ///
    /// # Errors
    ///
    /// Returns `AllocError` if an allocation fails.
    pub fn new(alloc: Global, ratios: &[Ratio], tick: u64) -> Result<Timing, AllocError>
        requires { tick ≤ cycle_limit }
        ensures { IfOk result (λ timing. timing ≡ record { ratios = ratios.now; tick = tick }) }
    {
        let ratios = Vec::from_slice(alloc, ratios)?;
        let mut edges = vec![in alloc; false; ratios.len()]?;
        fill_edges(ratios.as_slice(), tick, edges.as_mut_slice());
        Ok(Timing {
            ratios,
            tick,
            edges,
        })
    }

    /// The tick.
    pub fn tick(&self) -> u64
        ensures { result ≡ self.now.tick }
    {
        self.tick
    }

    /// For each clock, whether it has an edge in this tick.
    pub fn edges(&self) -> &[bool]
        ensures { result.now ≡ edges_at self.now.ratios self.now.tick }
    {
        self.edges.as_slice()
    }

    /// Goes on to the next tick, which is at most 1,000,000.
    pub fn advance(&mut self)
        requires { self.old.tick < cycle_limit }
        ensures { self.new ≡ record { ratios = self.old.ratios; tick = self.old.tick + 1 } }
    {
        self.tick += 1;
        fill_edges(self.ratios.as_slice(), self.tick, self.edges.as_mut_slice());
    }
}
