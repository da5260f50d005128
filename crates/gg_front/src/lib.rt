//! The front end: from the bytes of a circuit file to a design. A design is a well-formed flat circuit with the tree of
//! its instances and an order of evaluation.
//!
//! - `front` returns a design that the bytes mean (`MeansDesign`): they spell a circuit, no line is at fault, and the
//!   circuit is accepted (`IsAccepted`), so it has none of the faults F1 to F16. The flat circuit and the tree are this
//!   circuit's. Otherwise `front` returns the fault of reading, or the circuit's first fault (`HasFrontFault`): of
//!   shape, of types, of the limits, or a combinational loop. Any one of several rings of modules, or of several loops,
//!   may be reported.
//! - `one_meaning`: some bytes mean at most one flat circuit and one tree of instances, so two designs that they mean
//!   differ only in their order.
//! - `each_has_design`: the bytes of an accepted circuit mean a design.
//! - `each_has_one_run`: they mean exactly one flat circuit, and it has exactly one run for each trace.
//! - `acceptance_agrees`: if one circuit that a text spells is accepted, each is.
//! - `one_fault`: two faults of a text are the same, except that any ring of modules and any loop may be reported.
//! - `faults_apart`: an accepted text has no fault, and a text with a fault of reading has no fault of a circuit.
//!
//! Further laws state what holds of the circuit that a text spells and of its flat circuit. Their functions compute
//! nothing:
//!
//! - `copies`: in the flat circuit of a circuit that passed the checks, any two instances of one module have the same
//!   signals, drivers, registers, memories and instances below them, except for a shift of their numbers and the front
//!   of their paths (`HasCopies` of gg_part). The drivers of an instance's own input ports are written where the
//!   instance is held, and so are left out;
//! - `spelt_names`: each name in the circuit that a text spells is a name;
//! - `paths_are_words`: the paths of such a circuit have only bytes of names, and dots, and its signals' paths also the
//!   colons of stops; the ports of a memory have names, and no two of them have the same;
//! - `no_pipe_names`, `no_bridge_names`: no path of a signal begins with `pipe:` or `bridge:`.
#![tactic(auto)]

mod fault;
mod front_end;
mod instances;
mod laws;
mod paths;

pub use fault::FrontFault;
pub use front_end::front;
pub use instances::copies;
pub use laws::{
    acceptance_agrees, each_has_design, each_has_one_run, faults_apart, one_fault, one_meaning,
};
pub use paths::{no_bridge_names, no_pipe_names, paths_are_words, spelt_names};
