//! `Streams`: what the channels of a network carry, used only in proofs.
use std::marker::Brand;

/// What a network that is cut out of a circuit computes. Only proofs use it: the trait has no calls, and no code reads
/// it. It is the last type parameter of what makes a network or works on one. The contract of each such call holds for
/// every choice of its member. It is chosen where such a call is given `Brand`.
pub trait Streams: Send {
    ghost use Rattle.gg_flat.specs.Streams.{Flow};

    /// The values that each channel carries, the rows of each machine's run, and where all begins.
    ghost flow: { Flow };
}

impl Streams for Brand {
    ghost use Rattle.std.specs.Prelude.{[]};
    ghost use Rattle.gg_flat.specs.Streams.{Flow};

    ghost flow = { record { lists = []; runs = []; begin = 0; states = [] } };
}
