//! A cut in the making, and the parts that its machines run.
//!
//! `Draft` has all that a cut is made from: the design and the request, what is listed, what each machine has before the routing, and
//! the channels after it. `IsDraft` in `specs/inside/Draft` says what is known of it. `MachineDraft` is one machine of a draft. The crate promises:
//!
//! - `cut_part` makes the plan's part of the hub, of a unit or of a listed memory (`IsCutPart` in gg_cut_plan);
//! - `moved_part` makes the part of a unit from the part of the first unit of its host, with its own numbers and paths. Units of one host therefore
//!   run one program. By a law of gg_cut_split this is the plan's part: inside of both units registers and ports follow the same Clock inputs.
//!
//! A part takes the time of gg_part, or time linear in what is moved.
//!
//! The hub and the listed memories have the clocks of the circuit, and a unit has its own Clock inputs. The crate promises:
//!
//! - `domains_of` returns, for a design that keeps to its tree and has each register held once, what each register and each port of a memory follows
//!   in the circuit, and inside of its unit (`AreDomains` in `specs/inside/Domains`);
//! - [`Domains`] has a machine's clocks, and which of the two its registers and ports follow;
//! - `whole_clocking` returns the clocks that the registers and ports of any circuit follow, and `own_clocks` its clocks.
//!
//! `proofs/DomainTimes` says that this is what `part_of` of gg_part requires, and that units which share a host follow the same Clock inputs.
//!
//! `domains_of` takes time for the signals of the circuit times the depth of the instances, which is at most 32, and otherwise for what the circuit
//! has.
#![tactic(auto)]

mod domains;
mod draft;
mod lists;
mod machine_draft;
mod moved;
mod moved_piece;
mod parts;
mod paths;
mod places;
mod tables;
mod whole;

pub use domains::{Domains, domains_of};
pub use draft::Draft;
pub use lists::{numbers, picked};
pub use machine_draft::MachineDraft;
pub use moved::moved_part;
pub use parts::cut_part;
pub use paths::signal_name;
pub use whole::{own_clocks, whole_clocking};
