//! `MachineDraft`: a machine in the making.
use crate::Domains;
use crate::draft::Draft;

/// A machine in the making that has a part: the draft, what clocks its machines follow, the machine's number, and what it has by
/// the routed channels.
#[derive(Clone, Copy)]
pub struct MachineDraft<'s, 'a> {
    pub draft: &'s Draft<'a>,
    pub domains: &'s Domains,
    /// The channels that it takes, and the channels that it gives, ascending.
    pub ins: &'s [u32],
    pub outs: &'s [u32],
    /// The signals of the circuit that it makes or takes, in the order of evaluation.
    pub globals: &'s [u32],
    /// The memories of the circuit that belong to it, ascending.
    pub memories: &'s [u32],
    pub number: usize,
}
