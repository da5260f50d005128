//! Duplicate units. Its functions are laws: they compute nothing.
//!
//! Two units that share a host by a list of the request are instances of one module. For a design that keeps to its tree and
//! a request without a fault, this module promises:
//!
//! - `units_stand_again`: each of the two has what the other has, with other numbers (`IsUnitAgain` in `specs/inside/Again`): the
//!   same signals and drivers, registers and memories, taken by channels in the same order, and given by channels of the
//!   same signals. Inside of the units its registers and ports follow the same Clock inputs.
//!
//! Why it holds: instances of one module are copies of each other (`HasCopies` of gg_part), and a memory inside one of the
//! units is listed exactly if its counterpart inside the other is.

mod laws;

pub use laws::units_stand_again;
