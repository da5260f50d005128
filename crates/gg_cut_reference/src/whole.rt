//! The circuit that the network of a plan with bridges computes: the reference circuit of gg_cut_reference with the models of the bridges in it.
//!
//! The definitions in `specs/` say what it is, where it starts, and what a run of it is. Its functions are laws:
//! they compute nothing. For a request without a fault, and models as bridges have them, it promises:
//!
//! - the circuit is well formed and has an order of evaluation (`circuit_is_formed`);
//! - its inputs are the inputs that no bridge drives, and its outputs the outputs that no bridge sees, followed by the stops (`circuit_has_ports`);
//! - a run of it is a run of the reference circuit and of each model, and what a bridge drives has the columns of what its model says
//!   (`circuit_runs`);
//! - each bridge can be at its ports, in the circuit with the bridges before it (`bridges_stand`);
//! - it starts with zeros where the reference circuit does (`zeros_stay`), and in a state of its own (`starts_are_typed`).
//!
//! Without bridges it is the reference circuit, by its definition.

mod laws;

pub use laws::{
    bridges_stand, circuit_has_ports, circuit_is_formed, circuit_runs, starts_are_typed, zeros_stay,
};
