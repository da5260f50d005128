//! The machines of a cut are closed.
//!
//! If the entries of a request have no fault, its units are apart: none is the top or is in another (`AreApart` in
//! `specs/inside/Apart`). Its functions are laws: they compute nothing. For a design and what such a request
//! lists, it promises:
//!
//! - what is listed is apart. If the request has no fault at all, there is at most as much of it, and of the plan's
//!   channels, as a plan may have (`listed_apart`);
//! - a signal belongs to the machine of the longest listed path that holds the signal's path, and to the hub if there
//!   is none. An instance or a memory belongs to the machine of the longest listed path that is its path or holds it.
//!   The machine of a listed path has that path as its name (`owner_by_path`; the definitions, only by paths, are in
//!   `specs/inside/Longest`);
//! - each channel has the machine that its signal belongs to at one of its ends (`owner_at_end`);
//! - each signal has at most one channel, between two different machines (`channels_once`);
//! - the hub, a unit or a memory makes or takes all that the driver or the register of a signal that it makes names
//!   (`machine_closed`);
//! - the signals that such a machine makes or takes, with the memories that belong to it, make a part of the circuit.
//!   Its in-signals are the signals that the machine takes (`machine_makes_part`).
//!
//! Except in `listed_apart`, the channels are the channels before the routing (`wires_of` in gg_cut_plan's
//! `specs/Channels`).
//!
//! Why it holds: what a driver names is visible where the driver is written, in one instance. The machine of that
//! instance makes what is written there, except the data of a listed memory. It makes or takes what is visible there.

mod laws;

pub use laws::{
    channels_once, listed_apart, machine_closed, machine_makes_part, owner_at_end, owner_by_path,
};
