//! The reference circuit of a plan, as a design.
//!
//! A piped channel has the token 0 in it at the start. Its consumer therefore gets each value a cycle later, as if the design had a register there.
//! The reference circuit is the design with these registers (gg_cut_reference's `specs/Made`). The crate promises, for the plan of a request without
//! a fault (`CanPipe` in `specs/inside/CanPipe`):
//!
//! - [`pipe`] makes the reference circuit of the plan as a design, with the design's tree. The pipes are the first in the order, and
//!   the design's order follows.
//! - [`numbers_suffice`], a law: no number of a machine, a register or a pipe is past 32 bits.
//!
//! `pipe` takes time linear in the design and the plan. Tables say which machine has each signal's driver, who holds each register, who has each
//! memory, and who takes each piped channel.
#![tactic(auto)]

mod fill;
mod laws;
mod made;
mod piping;
mod tables;

pub use laws::numbers_suffice;
pub use piping::pipe;
