//! Ports of the top with bridges, and what entries of bridges without a fault have.
//!
//! Which machine has a port is defined in gg_cut_plan (Ports). The definitions in `specs/` say when entries fit a circuit and models (Fitting). Its
//! functions are laws: they compute nothing. They say:
//!
//! - the machines at the ports are named after them, and the bridges after their entries (`machines_named`);
//! - which ports a bridge has (`bridge_ports`);
//! - how many ports no bridge has, and the place of each among them (`open_ports`);
//! - entries without a fault fit (`bridges_fit`), and each that fits can be at the ports of a circuit (`bridges_attach`).

mod laws;

pub use laws::{
    bridge_ports, bridges_attach, bridges_fit, bridges_known, machines_named, open_ports,
};
