//! `Share` and `Split`: what machines have.
use gg_bits::{Ids, Items};
use gg_cut_plan::Wire;

/// What a machine has besides its channels. All numbers are numbers of the whole circuit.
pub struct Share {
    /// The signals of the circuit that it makes or takes, in the order of evaluation.
    pub globals: Ids,
    /// The memories of the circuit that belong to it, ascending.
    pub memories: Ids,
}

impl Drop for Share {
    fn drop(self) {
        let Self { globals, memories } = self;
        drop(globals);
        drop(memories);
    }
}

/// The channels of a cut, and what each machine has.
pub struct Split {
    /// The channels, by number.
    pub wires: Items<Wire>,
    /// What each machine has, by its number.
    pub shares: Items<Share>,
}

impl Drop for Split {
    fn drop(self) {
        let Self { wires, shares } = self;
        drop(wires);
        drop(shares);
    }
}
