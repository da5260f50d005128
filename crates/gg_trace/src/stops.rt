//! Stops: whether one acts, and how many rows of a run are written.
ghost use Rattle.std.specs.Prelude.{◌≡◌, ℕ, suc, ◌<◌, ◌≤◌, Bool, true, false, Some};
ghost use Rattle.gg_bits.specs.Limits.{cycle_limit};
ghost use Rattle.gg_flat.specs.Clock.{edges_at, ticks};
ghost use Rattle.gg_trace.specs.Last.{acts, row_count};

use gg_clocks::Ratio;

// Whether clock k has an edge in the tick. A clock past the end has one in each tick.
fn has_edge(ratios: &[Ratio], k: usize, tick: u64) -> bool
    requires { tick ≤ cycle_limit }
    ensures { result ≡ ticks (edges_at ratios.now tick) (Some k) }
{
    match ratios.get(k) {
        None => true,
        Some(ratio) => ratio.edge(tick),
    }
}

/// Whether a stop acts in the tick, which is at most 1,000,000, if the stops have these conditions: one of these is 1,
/// and the stop's clock has an edge in the tick. `ratios` has the ratios of the stops' clocks. Without ratios each
/// clock has an edge in each tick.
pub fn acts(ratios: &[Ratio], tick: u64, conditions: &[u128]) -> bool
    requires { tick ≤ cycle_limit }
    ensures { result ≡ acts ratios.now tick conditions.now }
{
    for (k, &condition) in conditions.iter().enumerate() {
        if condition == 1 && has_edge(ratios, k, tick) {
            return true;
        }
    }
    false
}

/// The first cycle that halts the run has the last row: there is one row more than there are cycles before it. If no
/// cycle halts the run, all rows are written.
pub fn rows_end_at_halts()
    ensures first { (is_halt : ℕ → Bool) (n t : ℕ) → t < n → is_halt t ≡ true → ((k : ℕ) → k < t → is_halt k ≡ false) → row_count is_halt n ≡ suc t }
    ensures all { (is_halt : ℕ → Bool) (n : ℕ) → ((t : ℕ) → t < n → is_halt t ≡ false) → row_count is_halt n ≡ n }
{}
