//! `Listed`: what a request lists, by places in the tree.
use gg_bits::Ids;

/// What a request lists.
pub struct Listed {
    /// The instances that are units, in the order of the request.
    pub units: Ids,
    /// The places in the tree of the listed memories, in the order of the tree.
    pub memories: Ids,
}

impl Drop for Listed {
    fn drop(self) {
        let Self { units, memories } = self;
        drop(units);
        drop(memories);
    }
}
