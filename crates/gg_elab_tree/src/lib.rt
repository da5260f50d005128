//! The tree of a circuit's instances, and what the checks of a circuit imply for its flat circuit.
//!
//! The tree of a circuit (`IsTreeOf`) has the top and the instances below it, in turn. Each has its parent, its module,
//! its ports in port order and its memories. It also has its signals with the signals of the instances below it, which
//! are consecutive signals of the circuit. Each memory has the instance that holds it and the names of its ports. The
//! stops of all instances are listed, each with its signal.
//!
//! For the top the tree has the names of its Clock inputs. For each Clock input of an instance it has the Clock input
//! that it follows, one of what holds the instance. For each register, each port of a memory and each stop it has the
//! Clock input that it follows, one of its own instance. The crate promises:
//!
//! - `tree_of` is the circuit's tree;
//! - each circuit has a tree (`each_has_tree`).
//!
//! The other functions are laws, which compute nothing. They say of a circuit that passed the checks:
//!
//! - `top_of`: there is a top;
//! - `distinct`: no two sites have the same path, no two signals, and no two memories;
//! - `fits`: the tree is one of the circuit's flat circuit (`IsTree`); the flat circuit keeps to its scopes
//!   (`IsScoped`): what a driver names is visible where the driver is written; and the circuit's clocks are the tree's
//!   (`IsClocked`);
//! - `formed`: a flat circuit of the circuit is well formed (`IsWellFormed`), if its lines may be connected to what
//!   they drive (`AreFitting`). Its in-signals, the data of readers and the signals that they drive belong together;
//!   every name is a name of the circuit; types agree. Each register is held by exactly one signal (`AreHeldOnce`).
#![tactic(auto)]

mod clocks;
mod fitting;
mod forms;
mod instances;
mod laws;
mod memories;
mod paths;
mod places;
mod stops;
mod top;
mod tree;

pub use fitting::fits;
pub use forms::formed;
pub use laws::each_has_tree;
pub use paths::distinct;
pub use top::top_of;
pub use tree::tree_of;
