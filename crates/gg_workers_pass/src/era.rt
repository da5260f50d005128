//! `Era`: the network that links are opened from, used only in proofs.
use std::marker::Brand;

/// The network that links are opened from. Only proofs use it: the trait has no calls, and no code reads it.
pub trait Era: Send {
    ghost use Rattle.gg_net.specs.Network.{Network};

    /// The network at that time.
    ghost start: { Network };
}

impl Era for Brand {
    ghost use Rattle.std.specs.Prelude.{[]};
    ghost use Rattle.gg_net.specs.Network.{Network};

    ghost start = { record { machines = []; wires = []; queues = []; end = 0 } };
}
