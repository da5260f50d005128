//! The table of a module: what it declares.
ghost use Rattle.std.specs.Prelude.{◌≡◌, [], ◌∷◌, ◌++◌, IfOk, OnOk, length, ◌<◌, ◌^◌, List};
ghost use Rattle.gg_ast.specs.Tree.{ModuleTree};
ghost use Rattle.gg_ast.specs.declared.module.Port.{Port as APort};
ghost use Rattle.gg_ast.specs.declared.statement.Stmt.{Stmt as AStatement};
ghost use Rattle.gg_shape_names.specs.Along.{along};
ghost use Rattle.gg_shape_names.specs.inside.Repetitions.{Tells};
ghost use Rattle.gg_shape_names.specs.Repetitions.{repeated_in, repeated_in_field, repeated_port, repeated_by, repeated_by_kind, repeated_declarations};
ghost use Rattle.gg_shape_names.specs.inside.Tables.{TellsScope, TellsModule, names_told, HavePorts};
ghost use Rattle.gg_shape_names.specs.inside.Declares.{DeclaresBy, DeclaresMemory};

use crate::fault::{NamesFault, Repetition};
use crate::memory::memory_ports;
use crate::role::{Role, port_role};
use crate::table::{Declared, Table};
use gg_ast::{Circuit, Field, Module, Port, Stmt, StmtKind};
use gg_bits::Name;
use std::alloc::Global;

// What a module of the circuit declares; fails at the first name that comes twice in it.
pub(crate) fn module_table<'a>(
    alloc: Global,
    circuit: &'a Circuit,
    this: &'a Module,
) -> Result<Table<'a>, NamesFault>
    requires few { length circuit.now.modules < 2 ^ 32 }
    ensures tells { Tells (repeated_declarations this.now) result }
    ensures table { IfOk result (λ table. TellsModule circuit.now.modules this.now table) }
{
    let mut table = Table::new(alloc);
    declare_ports(&mut table, circuit, this.ports())?;
    declare_statements(alloc, &mut table, circuit, this.ports(), this.statements())?;
    Ok(table)
}

// Declares the names of ports.
fn declare_ports<'a>(
    table: &mut Table<'a>,
    _circuit: &Circuit,
    ports: &'a [Port],
) -> Result<(), NamesFault>
    requires { table.old ≡ [] }
    ensures tells { Tells (along repeated_port ports.now) result }
    ensures table { OnOk result (TellsScope _circuit.now.modules ports.now [] table.new) }
{
    for port in ports {
        fresh(table, port.line, &port.name)?;
        table.declare(&port.name, Declared::Plain(port_role(port.direction)))?;
    }
    Ok(())
}

// Declares the names of statements, after the names of the ports.
fn declare_statements<'a>(
    alloc: Global,
    table: &mut Table<'a>,
    circuit: &'a Circuit,
    _ports: &'a [Port],
    statements: &'a [Stmt],
) -> Result<(), NamesFault>
    requires few { length circuit.now.modules < 2 ^ 32 }
    requires table { TellsScope circuit.now.modules _ports.now [] table.old }
    ensures tells { Tells (along (repeated_by _ports.now) statements.now) result }
    ensures table { OnOk result (TellsScope circuit.now.modules _ports.now statements.now table.new) }
{
    for statement in statements {
        declare_statement(alloc, table, circuit, statement)?;
    }
    Ok(())
}

// Declares the name of a statement, if it has one.
fn declare_statement<'a>(
    alloc: Global,
    table: &mut Table<'a>,
    circuit: &Circuit,
    statement: &'a Stmt,
) -> Result<(), NamesFault>
    requires few { length circuit.now.modules < 2 ^ 32 }
    ensures tells { Tells (repeated_by_kind (names_told table.old) statement.now.line statement.now.kind) result }
    ensures table { OnOk result (DeclaresBy circuit.now.modules statement.now.kind table.old table.new) }
{
    let line = statement.line;
    match &statement.kind {
        StmtKind::Wire { name, .. } => declare(table, line, name, Declared::Plain(Role::Wire)),
        StmtKind::Node { name, .. } => declare(table, line, name, Declared::Plain(Role::Node)),
        StmtKind::Register { name, .. } => {
            declare(table, line, name, Declared::Plain(Role::Register))
        }
        StmtKind::Instance { name, module } => declare(
            table,
            line,
            name,
            Declared::Instance(circuit.module(module.as_str())),
        ),
        StmtKind::Memory { name, fields } => {
            declare_memory(alloc, table, line, name, fields.as_slice())
        }
        StmtKind::Connect { .. }
        | StmtKind::Invalid { .. }
        | StmtKind::Skip
        | StmtKind::Stop { .. }
        | StmtKind::Report { .. } => Ok(()),
    }
}

// Declares a memory; fails if its name is already declared, or a port comes twice.
fn declare_memory<'a>(
    alloc: Global,
    table: &mut Table<'a>,
    line: u64,
    name: &'a Name,
    fields: &'a [Field],
) -> Result<(), NamesFault>
    ensures tells { Tells (repeated_in (names_told table.old) line name.now ++ along repeated_in_field fields.now) result }
    ensures table { OnOk result (DeclaresMemory name.now fields.now table.old table.new) }
{
    fresh(table, line, name)?;
    let ports = memory_ports(alloc, fields)?;
    table.declare(name, Declared::Memory(ports.readers, ports.writers))?;
    Ok(())
}

// Declares a name on this line; fails if it is already declared.
fn declare<'a>(
    table: &mut Table<'a>,
    line: u64,
    name: &'a Name,
    kind: Declared<'a>,
) -> Result<(), NamesFault>
    ensures tells { Tells (repeated_in (names_told table.old) line name.now) result }
    ensures table { OnOk result (table.new ≡ table.old ++ (name.now, kind.entry) ∷ []) }
{
    fresh(table, line, name)?;
    table.declare(name, kind)?;
    Ok(())
}

// Fails if a name is already declared.
fn fresh(table: &Table, line: u64, name: &Name) -> Result<(), NamesFault>
    ensures { Tells (repeated_in (names_told table.now) line name.now) result }
{
    if table.has(name) {
        return Err(NamesFault::Repeated(Repetition {
            line,
            name: name.clone()?,
        }));
    }
    Ok(())
}
