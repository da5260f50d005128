//! F5: sinks that are not connected.
ghost use Rattle.std.specs.Prelude.{◌≡◌, ◌<◌, ◌++◌, List, length, flat_map, map, IfOk};
ghost use Rattle.gg_shape_names.specs.Namespace.{instance_port, instance_ports, module_named, memory_entries};
ghost use Rattle.gg_shape.specs.inside.Faults.{Answers};
ghost use Rattle.gg_shape.specs.Shape.{in_modules, unconnected_sinks, unconnected_among, unconnected_entry, unconnected_port, unconnected_by};
ghost use Rattle.gg_shape.specs.inside.Told.{TellsFirst, is_among, inputs_of, is_in, names_as as names_of_kind, reference_of, unconnected_input, unconnected_of_field, unconnected_of_port, unconnected_in_field};

use crate::connected::{Connected, Key, text_of};
use crate::fault::{CheckFault, Fault};
use gg_ast::{Circuit, Direction, Field, MemoryField, Module, Port, Stmt, StmtKind};
use gg_bits::Name;
use gg_shape_names::{
    Namespace, PortField, PortKind, Role, field_text, instance_port_role, needs_connection,
    port_fields, port_role,
};
use std::alloc::{AllocError, Global};
use std::marker::Model;

// The input ports of a module, in order.
pub(crate) struct Inputs<'a> {
    ports: Vec<&'a Port>,
}

impl Drop for Inputs<'_> {
    fn drop(self) {
        let Self { ports } = self;
        drop(ports);
    }
}

impl<'a> Model for Inputs<'a> {
    ghost use Rattle.std.specs.Prelude.{List, map};
    ghost use Rattle.gg_ast.specs.declared.module.Port.{Port as Ports};

    ghost Value = { List Ports };

    ghost view = { λ inputs. map (λ port. port.now) inputs.ports.items };
}

impl<'a> Inputs<'a> {
    // The input ports of a module.
    pub(crate) fn of(alloc: Global, this: &'a Module) -> Result<Inputs<'a>, AllocError>
        ensures { IfOk result (λ inputs. inputs ≡ inputs_of this.now) }
    {
        let mut ports = Vec::new(alloc);
        for port in this.ports() {
            if is_input(port.direction) {
                ports.push(port)?;
            }
        }
        Ok(Inputs { ports })
    }

    // The ports.
    pub(crate) fn as_slice(&self) -> &[&'a Port]
        ensures { map (λ port. port.now) result.now ≡ self.now }
    {
        self.ports.as_slice()
    }
}

fn is_input(direction: Direction) -> bool
    ensures { result ≡ is_in direction }
{
    match direction {
        Direction::Input => true,
        Direction::Output => false,
    }
}

// A declaration of a module: its line, and what is connected in the module.
#[derive(Clone, Copy)]
struct Declaration<'a> {
    alloc: Global,
    connected: &'a Connected<'a>,
    line: u64,
}

// The fields of a memory's ports of one kind.
#[derive(Clone, Copy)]
struct MemorySinks<'a> {
    declaration: Declaration<'a>,
    memory: &'a Name,
    kind: PortKind,
}

// Refuses the first sink of the circuit that is not a register and not connected, given what is connected in each
// module.
pub(crate) fn check_unconnected(
    alloc: Global,
    names: &Namespace,
    all: &[Connected],
) -> Result<(), CheckFault>
    requires { TellsFirst names.now.modules (length names.now.modules) all.now }
    ensures { Answers (in_modules unconnected_sinks names.now) result }
{
    let inputs = all_inputs(alloc, names.circuit())?;
    check_modules(alloc, names, inputs.as_slice(), all)
}

// The input ports of all modules. With these the check of an instance skips its outputs, which may be many.
fn all_inputs<'a>(alloc: Global, circuit: &'a Circuit) -> Result<Vec<Inputs<'a>>, AllocError>
    ensures { IfOk result (λ all. all.items ≡ map inputs_of circuit.now.modules) }
{
    let mut all = Vec::new(alloc);
    for module in circuit.modules() {
        let inputs = Inputs::of(alloc, module)?;
        if let Err(refused) = all.push(inputs) {
            return Err(AllocError::from(refused));
        }
    }
    Ok(all)
}

// Refuses the first unconnected sink of all modules.
fn check_modules(
    alloc: Global,
    names: &Namespace,
    inputs: &[Inputs],
    all: &[Connected],
) -> Result<(), CheckFault>
    requires connected { TellsFirst names.now.modules (length names.now.modules) all.now }
    requires inputs { inputs.now ≡ map inputs_of names.now.modules }
    ensures { Answers (in_modules unconnected_sinks names.now) result }
{
    let modules = names.circuit().modules();
    for number in 0..modules.len() {
        check_module(alloc, names, inputs, &all[number], &modules[number])?;
    }
    Ok(())
}

// Refuses the first unconnected sink of a module.
fn check_module(
    alloc: Global,
    names: &Namespace,
    inputs: &[Inputs],
    connected: &Connected,
    this: &Module,
) -> Result<(), CheckFault>
    requires { inputs.now ≡ map inputs_of names.now.modules }
    ensures { Answers (unconnected_among names.now.modules (is_among connected.now) this.now) result }
{
    check_ports(alloc, connected, this.ports())?;
    check_statements(alloc, names, inputs, connected, this.statements())
}

// Refuses the first output port that is not connected.
fn check_ports(alloc: Global, connected: &Connected, ports: &[Port]) -> Result<(), CheckFault>
    ensures { Answers (flat_map (unconnected_port (is_among connected.now)) ports.now) result }
{
    for port in ports {
        check_own(alloc, connected, port)?;
    }
    Ok(())
}

// Refuses an output port of the module that is not connected.
fn check_own(alloc: Global, connected: &Connected, port: &Port) -> Result<(), CheckFault>
    ensures { Answers (unconnected_port (is_among connected.now) port.now) result }
{
    let declaration = Declaration {
        alloc,
        connected,
        line: port.line,
    };
    let key = Key::Local(port.name.as_str());
    connected_or_free(declaration, key, port_role(port.direction))
}

// Refuses the first unconnected sink that the statements declare.
fn check_statements(
    alloc: Global,
    names: &Namespace,
    inputs: &[Inputs],
    connected: &Connected,
    statements: &[Stmt],
) -> Result<(), CheckFault>
    requires { inputs.now ≡ map inputs_of names.now.modules }
    ensures { Answers (flat_map (unconnected_by names.now.modules (is_among connected.now)) statements.now) result }
{
    for statement in statements {
        check_statement(alloc, names, inputs, connected, statement)?;
    }
    Ok(())
}

// Refuses the first unconnected sink that a statement declares.
fn check_statement(
    alloc: Global,
    names: &Namespace,
    inputs: &[Inputs],
    connected: &Connected,
    statement: &Stmt,
) -> Result<(), CheckFault>
    requires { inputs.now ≡ map inputs_of names.now.modules }
    ensures { Answers (unconnected_by names.now.modules (is_among connected.now) statement.now) result }
{
    let declaration = Declaration {
        alloc,
        connected,
        line: statement.line,
    };
    match &statement.kind {
        StmtKind::Wire { name, .. } => {
            connected_or_free(declaration, Key::Local(name.as_str()), Role::Wire)
        }
        StmtKind::Instance { name, module } => {
            check_instance(declaration, names, inputs, name, module)
        }
        StmtKind::Memory { name, fields } => check_memory(declaration, name, fields.as_slice()),
        StmtKind::Node { .. }
        | StmtKind::Register { .. }
        | StmtKind::Connect { .. }
        | StmtKind::Invalid { .. }
        | StmtKind::Skip
        | StmtKind::Stop { .. }
        | StmtKind::Report { .. } => Ok(()),
    }
}

// Refuses the first input of an instance that is not connected.
fn check_instance(
    declaration: Declaration,
    names: &Namespace,
    inputs: &[Inputs],
    instance: &Name,
    held: &Name,
) -> Result<(), CheckFault>
    requires { inputs.now ≡ map inputs_of names.now.modules }
    ensures { Answers (flat_map (unconnected_entry (is_among declaration.entry.connected.now) declaration.entry.line) (instance_ports instance.now (module_named held.now names.now.modules))) result }
{
    match names.place_of_module(held) {
        Some(place) => check_inputs(declaration, instance, inputs[place as usize].as_slice()),
        None => Ok(()),
    }
}

// Refuses the first of these ports of an instance that is an input and not connected.
fn check_inputs(
    declaration: Declaration,
    instance: &Name,
    ports: &[&Port],
) -> Result<(), CheckFault>
    ensures { Answers (flat_map (unconnected_input instance.now (is_among declaration.entry.connected.now) declaration.entry.line) ports.now) result }
{
    for port in ports {
        check_input(declaration, instance, port)?;
    }
    Ok(())
}

// Refuses a port of an instance if it is an input and not connected.
fn check_input(declaration: Declaration, instance: &Name, port: &Port) -> Result<(), CheckFault>
    ensures { Answers (unconnected_entry (is_among declaration.entry.connected.now) declaration.entry.line (instance_port instance.now port.now)) result }
{
    let key = Key::PortOf(instance.as_str(), port.name.as_str());
    let role = instance_port_role(port.direction, port.ty);
    connected_or_free(declaration, key, role)
}

// Refuses the first field of a memory that is not connected: first of the readers, then of the writers.
fn check_memory(declaration: Declaration, memory: &Name, fields: &[Field]) -> Result<(), CheckFault>
    ensures { Answers (flat_map (unconnected_entry (is_among declaration.entry.connected.now) declaration.entry.line) (memory_entries memory.now fields.now)) result }
{
    let readers = MemorySinks {
        declaration,
        memory,
        kind: PortKind::Reader,
    };
    let writers = MemorySinks {
        declaration,
        memory,
        kind: PortKind::Writer,
    };
    check_kind(readers, fields)?;
    check_kind(writers, fields)
}

// Refuses the first field that is not connected of the ports of one kind.
fn check_kind(sinks: MemorySinks, fields: &[Field]) -> Result<(), CheckFault>
    ensures { Answers (flat_map (unconnected_in_field sinks.entry.kind sinks.entry.memory.now (is_among sinks.entry.declaration.connected.now) sinks.entry.declaration.line) fields.now) result }
{
    for field in fields {
        check_field(sinks, field)?;
    }
    Ok(())
}

// Refuses the first field that is not connected of the ports of one kind in a memory's field.
fn check_field(sinks: MemorySinks, field: &Field) -> Result<(), CheckFault>
    ensures { Answers (unconnected_in_field sinks.entry.kind sinks.entry.memory.now (is_among sinks.entry.declaration.connected.now) sinks.entry.declaration.line field.now) result }
{
    check_names(sinks, names_as(sinks.kind, &field.kind))
}

// The ports of one kind that a memory's field names.
fn names_as(kind: PortKind, field: &MemoryField) -> &[Name]
    ensures { result.now ≡ names_of_kind kind field.now }
{
    match (kind, field) {
        (PortKind::Reader, MemoryField::Readers(names)) => names.as_slice(),
        (PortKind::Writer, MemoryField::Writers(names)) => names.as_slice(),
        (PortKind::Reader | PortKind::Writer, _) => &[],
    }
}

// Refuses the first field that is not connected of the ports with these names.
fn check_names(sinks: MemorySinks, ports: &[Name]) -> Result<(), CheckFault>
    ensures { Answers (flat_map (unconnected_of_port sinks.entry.kind sinks.entry.memory.now (is_among sinks.entry.declaration.connected.now) sinks.entry.declaration.line) ports.now) result }
{
    for port in ports {
        check_port(sinks, port)?;
    }
    Ok(())
}

// Refuses the first field of a port that is not connected.
fn check_port(sinks: MemorySinks, port: &Name) -> Result<(), CheckFault>
    ensures { Answers (unconnected_of_port sinks.entry.kind sinks.entry.memory.now (is_among sinks.entry.declaration.connected.now) sinks.entry.declaration.line port.now) result }
{
    check_port_fields(sinks, port, port_fields(sinks.kind))
}

// Refuses the first of these fields of a port that is not connected.
fn check_port_fields(
    sinks: MemorySinks,
    port: &Name,
    fields: &[PortField],
) -> Result<(), CheckFault>
    ensures { Answers (flat_map (unconnected_of_field sinks.entry.kind sinks.entry.memory.now (is_among sinks.entry.declaration.connected.now) sinks.entry.declaration.line port.now) fields.now) result }
{
    for field in fields {
        check_port_field(sinks, port, *field)?;
    }
    Ok(())
}

// Refuses a field of a port that must be connected and isn't.
fn check_port_field(sinks: MemorySinks, port: &Name, field: PortField) -> Result<(), CheckFault>
    ensures { Answers (unconnected_of_field sinks.entry.kind sinks.entry.memory.now (is_among sinks.entry.declaration.connected.now) sinks.entry.declaration.line port.now field) result }
{
    let key = Key::FieldOf(sinks.memory.as_str(), port.as_str(), field_text(field));
    connected_or_free(sinks.declaration, key, Role::MemoryPort(sinks.kind, field))
}

// Refuses a sink that must be connected and isn't.
fn connected_or_free(declaration: Declaration, key: Key, role: Role) -> Result<(), CheckFault>
    ensures { Answers (unconnected_entry (is_among declaration.entry.connected.now) declaration.entry.line (reference_of key.entry, role)) result }
{
    let Declaration {
        alloc,
        connected,
        line,
    } = declaration;
    if needs_connection(role) && !connected.contains(key) {
        return Err(CheckFault::F(Fault::Unconnected {
            line,
            name: text_of(alloc, key)?,
        }));
    }
    Ok(())
}
