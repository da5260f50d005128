//! Roles of names.
ghost use Rattle.std.specs.Prelude.{◌≡◌, not};
ghost use Rattle.gg_shape_names.specs.Memory.{is_answer as answers, port_fields as fields_of, field_name};
ghost use Rattle.gg_shape_names.specs.Namespace.{role_of_port, role_of_instance_port, has_value as stands_for_value, is_sink as takes_connection, is_source as has_own_value, needs_connection as must_be_connected};

use gg_ast::{Direction, GroundType};

/// The meaning of a name that is written in a module (FIRRTL Specification, "Namespaces", "Flows").
#[derive(Clone, Copy, PartialEq, Eq)]
pub enum Role {
    /// An input port: a source.
    InputPort,
    /// An output port: a sink.
    OutputPort,
    /// A wire: a sink.
    Wire,
    /// A register: a sink.
    Register,
    /// A node: a source.
    Node,
    /// An instance of a module, which has no value.
    Instance,
    /// A memory, which has no value.
    Memory,
    /// `i.p`, an input port of an instance's module, with its type: a sink.
    InstanceInput(GroundType),
    /// `i.p`, an output port of an instance's module, with its type: a source.
    InstanceOutput(GroundType),
    /// `m.r.f`, a field of a memory's port: a source if it is the data of a reader, otherwise a sink.
    MemoryPort(PortKind, PortField),
}

/// Whether a port of a memory reads or writes.
#[derive(Clone, Copy, PartialEq, Eq)]
pub enum PortKind {
    /// `reader`: the fields addr, en, clk and data.
    Reader,
    /// `writer`: the fields addr, en, clk, data and mask.
    Writer,
}

/// A field of a memory's port.
#[derive(Clone, Copy, PartialEq, Eq)]
pub enum PortField {
    /// `addr`: the address of a word.
    Addr,
    /// `en`: whether the port is used.
    En,
    /// `clk`: its clock.
    Clk,
    /// `data`: the word.
    Data,
    /// `mask`: whether a writer writes its word.
    Mask,
}

/// The role of a port in its own module.
pub fn port_role(direction: Direction) -> Role
    ensures { result ≡ role_of_port direction }
{
    match direction {
        Direction::Input => Role::InputPort,
        Direction::Output => Role::OutputPort,
    }
}

/// The role of a port of an instance's module, seen from the module that has the instance.
pub fn instance_port_role(direction: Direction, ty: GroundType) -> Role
    ensures { result ≡ role_of_instance_port direction ty }
{
    match direction {
        Direction::Input => Role::InstanceInput(ty),
        Direction::Output => Role::InstanceOutput(ty),
    }
}

/// Whether a field is what the memory returns: the data of a reader.
pub fn is_answer(kind: PortKind, field: PortField) -> bool
    ensures { result ≡ answers kind field }
{
    match (kind, field) {
        (PortKind::Reader, PortField::Data) => true,
        (PortKind::Reader | PortKind::Writer, _) => false,
    }
}

/// Whether what is named has a value of its own; an instance and a memory have none.
pub fn has_value(role: Option<Role>) -> bool
    ensures { result ≡ stands_for_value role }
{
    match role {
        None | Some(Role::Instance | Role::Memory) => false,
        Some(
            Role::InputPort
            | Role::OutputPort
            | Role::Wire
            | Role::Register
            | Role::Node
            | Role::InstanceInput(_)
            | Role::InstanceOutput(_)
            | Role::MemoryPort(_, _),
        ) => true,
    }
}

/// Whether what is named may be connected.
pub fn is_sink(role: Option<Role>) -> bool
    ensures { result ≡ takes_connection role }
{
    match role {
        Some(Role::OutputPort | Role::Wire | Role::Register | Role::InstanceInput(_)) => true,
        Some(Role::MemoryPort(kind, field)) => !is_answer(kind, field),
        None
        | Some(
            Role::InputPort | Role::Node | Role::Instance | Role::Memory | Role::InstanceOutput(_),
        ) => false,
    }
}

/// Whether what is named has its own value, so that it must not be connected.
pub fn is_source(role: Option<Role>) -> bool
    ensures { result ≡ has_own_value role }
{
    match role {
        Some(Role::InputPort | Role::Node | Role::InstanceOutput(_)) => true,
        Some(Role::MemoryPort(kind, field)) => is_answer(kind, field),
        None
        | Some(
            Role::OutputPort
            | Role::Wire
            | Role::Register
            | Role::Instance
            | Role::Memory
            | Role::InstanceInput(_),
        ) => false,
    }
}

/// Whether a sink of this role must be connected: any except a register.
pub fn needs_connection(role: Role) -> bool
    ensures { result ≡ must_be_connected role }
{
    match role {
        Role::OutputPort | Role::Wire | Role::InstanceInput(_) => true,
        Role::MemoryPort(kind, field) => !is_answer(kind, field),
        Role::InputPort
        | Role::Register
        | Role::Node
        | Role::Instance
        | Role::Memory
        | Role::InstanceOutput(_) => false,
    }
}

/// The fields of a port, in this order: `addr`, `en`, `clk`, `data`, and for a writer `mask`.
pub fn port_fields(kind: PortKind) -> &'static [PortField]
    ensures { result.now ≡ fields_of kind }
{
    match kind {
        PortKind::Reader => &[
            PortField::Addr,
            PortField::En,
            PortField::Clk,
            PortField::Data,
        ],
        PortKind::Writer => &[
            PortField::Addr,
            PortField::En,
            PortField::Clk,
            PortField::Data,
            PortField::Mask,
        ],
    }
}

/// How a field is written.
pub fn field_text(field: PortField) -> &'static str
    ensures { result.now ≡ field_name field }
{
    match field {
        PortField::Addr => "addr",
        PortField::En => "en",
        PortField::Clk => "clk",
        PortField::Data => "data",
        PortField::Mask => "mask",
    }
}
