//! The steps of a network without the values: markings, counts, and a measure that each step lowers.
//!
//! Whether a step of a network may be done, and why not, depends only on counts. A `Layout` never changes: it has for each channel its ends, its
//! capacity and the channels that it needs, and for each machine the ports that are served. A `Marking` changes: it has the cycle of each machine,
//! the number of its ports that were served in this cycle, and for each channel whether its token was taken in its consumer's cycle and whether it
//! was given in its producer's cycle (`specs/Marking`). Counts say how often each step was done: for each channel the tokens put and taken, for each
//! machine the cycles finished and the ports served (`specs/inside/Counts`). A network begins with any cycle, and a channel may open with a token.
//!
//! Its functions are laws: they compute nothing. Each wired network has a layout ([`each_has_layout`]). For a
//! network that has a layout (`specs/inside/Fits`) and the invariant `Kept` of gg_net, it promises:
//!
//! - an event may be done exactly if the marking doesn't refuse it, every other event is refused for the marking's cause, and a step changes the
//!   marking as its event does ([`goes_by_marking`]);
//! - the network begins with the opening marking ([`opens_with_marking`]);
//! - the marking has the numbers of tokens that were put into a channel, were taken from it and are held, and the newest token is a value of the
//!   channel's list ([`counts_by_marking`]);
//! - a token is put exactly when the channel is fired, as the next value of the channel's list ([`puts_by_step`]);
//! - the effect of a list of steps on the marking determines where the steps lead, or which of them is refused first and why ([`steps_keep`],
//!   [`steps_by_marking`]).
//!
//! Of layouts that can run it promises:
//! For layouts that can run it promises:
//! - a step raises one count by one, keeps counts allowed, and lowers the measure by one ([`keeps_allowed`]);
//! - from the opening, counts are reached exactly if they are allowed and have begun ([`opens_allowed`],
//!   [`reached_by_counts`]); from allowed counts all allowed ones that are nowhere lower are reached ([`leads_up`]);
//! - counts determine the marking ([`one_marking_by_counts`]);
//! - steps that can't go on end at the end, and their number is the measure ([`ends_so`]); fewer steps can go on
//!   ([`replays_while_left`]).

mod marking;
mod progress;

pub use marking::{
    counts_by_marking, each_has_layout, goes_by_marking, opens_with_marking, puts_by_step,
    steps_by_marking, steps_keep,
};
pub use progress::{
    ends_so, keeps_allowed, leads_up, one_marking_by_counts, opens_allowed, reached_by_counts,
    replays_while_left,
};
