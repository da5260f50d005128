//! gg_clocks: the edges of a clock in two of three ticks.
use gg_clocks::{Ratio, Ticker};

// Whether a clock of ratio 2/3 has its edges where they were worked out by hand.
pub(crate) fn goes_in_two_of_three() -> bool {
    match Ratio::new(2, 3) {
        Some(ratio) => {
            let mut ticker = Ticker::new(ratio);
            [ticker.tick(), ticker.tick(), ticker.tick(), ticker.tick()]
                == [false, true, true, false]
                && ratio.edge(4)
                && ratio.edges_before(6) == 4
                && ratio.m() < ratio.d()
        }
        None => false,
    }
}
