//! The names of a circuit's modules: one namespace for all that can be written in a module, each name with its role
//! (FIRRTL Specification, "Namespaces", "Instances", "Memories", "Flows").
//!
//! What can be written in a module: the names that it declares (ports, wires, registers, nodes, instances, memories),
//! `i.p` for each port `p` of the module of an instance `i`, and `m.r.f` for each field `f` of a port `r` of a memory
//! `m`. `scope_of` is the list of all of them. The crate promises:
//!
//! - `Namespace::of` returns a namespace exactly if no name comes twice (`repetitions`), and otherwise the first that
//!   does;
//! - `Namespace::role` is what a reference names in that list, and `Namespace::role_before` what it names in the part
//!   of the list that is declared before a line;
//! - as a `Graph` a namespace has the modules as nodes, and an edge from each module to each that it has an instance
//!   of.
//!
//! The list itself is never built: it may have 10^9 names. Time and memory of `of` are linear in the circuit. A role
//! takes two look-ups.
#![tactic(auto)]

mod fault;
mod find;
mod graph;
mod memory;
mod module;
mod namespace;
mod reference;
mod role;
mod table;

pub use fault::{NamesFault, Repetition};
pub use namespace::Namespace;
pub use reference::{connection, declared_name, first_name, written};
pub use role::{
    PortField, PortKind, Role, field_text, has_value, instance_port_role, is_answer, is_sink,
    is_source, needs_connection, port_fields, port_role,
};
