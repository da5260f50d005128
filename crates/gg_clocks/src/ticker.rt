//! `Ticker`: a clock that goes from tick to tick.
ghost use Rattle.std.specs.Prelude.{◌≡◌, ◌+◌, ◌≤◌};
ghost use Rattle.gg_bits.specs.Limits.{cycle_limit};
ghost use Rattle.gg_flat.specs.Clock.{edge};

use crate::ratio::Ratio;
use std::marker::Model;

/// A clock that goes tick by tick. A contract sees its ratio and the number of ticks made.
#[derive(Drop)]
pub struct Ticker {
    ratio: Ratio,
    // How far it is from one edge to the next: the remainder of `count * m` by `d`.
    phase: u64,
    count: u64,
}

impl Model for Ticker {
    ghost use Rattle.std.specs.Prelude.{◌≡◌, ◌*◌, ◌%◌};
    ghost use Rattle.gg_clocks.specs.inside.Edges.{Ticking};

    ghost Value = { Ticking };

    ghost view = { λ ticker. record { ratio = ticker.ratio; count = ticker.count } };

    ghost invariant = { λ ticker. ticker.phase ≡ ticker.count * ticker.ratio.m % ticker.ratio.d };
}

impl Ticker {
    /// The clock with this ratio, before its first tick.
    pub fn new(ratio: Ratio) -> Ticker
        ensures { result ≡ record { ratio = ratio; count = 0 } }
    {
        Ticker {
            ratio,
            phase: 0,
            count: 0,
        }
    }

    /// Makes a tick, and returns whether the clock has an edge in it. At most 1,000,000 ticks were made before.
    pub fn tick(&mut self) -> bool
        requires { self.old.count ≤ cycle_limit }
        ensures edge { result ≡ edge self.old.ratio self.old.count }
        ensures count { self.new.count ≡ self.old.count + 1 }
        ensures ratio { self.new.ratio ≡ self.old.ratio }
    {
        let next = self.phase + self.ratio.m();
        let d = self.ratio.d();
        let is_edge = d <= next;
        self.phase = if is_edge { next - d } else { next };
        self.count += 1;
        is_edge
    }
}
