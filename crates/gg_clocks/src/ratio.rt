//! `Ratio`: how often a clock has an edge.
ghost use Rattle.std.specs.Prelude.{◌≡◌, ◌≤◌, IfSome, IfNone};
ghost use Rattle.gg_bits.specs.Limits.{cycle_limit};
ghost use Rattle.gg_flat.specs.Clock.{edge};
ghost use Rattle.gg_clocks.specs.inside.Edges.{IsRatio, edge_count};

use std::marker::Model;

/// How often a clock has an edge: in `m` of `d` base ticks, where `1 <= m <= d <= 65535`. A contract sees it as the
/// `Ratio` of gg_flat.
#[derive(Clone, Copy, PartialEq, Eq)]
pub struct Ratio {
    m: u64,
    d: u64,
}

impl Model for Ratio {
    ghost use Rattle.gg_flat.specs.Clock.{Ratio};
    ghost use Rattle.gg_clocks.specs.inside.Edges.{IsRatio};

    ghost Value = { Ratio };

    ghost view = { λ ratio. record { m = ratio.m; d = ratio.d } };

    ghost inverse = { λ ratio. record { m = ratio.m; d = ratio.d } };

    ghost invariant = { λ ratio. IsRatio (record { m = ratio.m; d = ratio.d }) };
}

impl Ratio {
    /// The ratio of an edge in `m` of `d` base ticks. Returns `None` unless `1 <= m <= d <= 65535`.
    pub fn new(m: u64, d: u64) -> Option<Ratio>
        ensures some { IfSome result (λ ratio. ratio ≡ record { m = m; d = d }) }
        ensures range { IfSome result IsRatio }
        ensures none { IfNone result (¬ IsRatio (record { m = m; d = d })) }
    {
        if 1 <= m && m <= d && d <= 65535 {
            Some(Ratio { m, d })
        } else {
            None
        }
    }

    /// In how many of `d` base ticks the clock has an edge.
    pub fn m(&self) -> u64
        ensures value { result ≡ self.now.m }
        ensures range { IsRatio self.now }
    {
        self.m
    }

    /// The number of base ticks for `m` edges.
    pub fn d(&self) -> u64
        ensures value { result ≡ self.now.d }
        ensures range { IsRatio self.now }
    {
        self.d
    }

    /// Whether the clock has an edge at tick `b`, which is at most 1,000,000.
    pub fn edge(&self, b: u64) -> bool
        requires { b ≤ cycle_limit }
        ensures { result ≡ edge self.now b }
    {
        b * self.m / self.d < (b + 1) * self.m / self.d
    }

    /// How many of the ticks before tick `b` have an edge: the ticks from 0 to `b - 1`. The tick is at most 1,000,000.
    pub fn edges_before(&self, b: u64) -> u64
        requires { b ≤ cycle_limit }
        ensures { result ≡ edge_count self.now b }
    {
        b * self.m / self.d
    }
}
