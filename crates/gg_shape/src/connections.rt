//! F4, F6: sinks that are connected twice, and sources that are connected.
ghost use Rattle.std.specs.Prelude.{◌≡◌, ◌<◌, ◌∷◌, [], ◌++◌, length, IfOk, OnOk, List, flat_map};
ghost use Rattle.gg_ast.specs.declared.statement.Stmt.{Stmt as AStatement};
ghost use Rattle.gg_shape_names.specs.Namespace.{scope_of};
ghost use Rattle.gg_shape.specs.inside.Faults.{Answers};
ghost use Rattle.gg_shape_names.specs.Along.{along};
ghost use Rattle.gg_shape.specs.Shape.{in_modules, second_connections, second_by, connected_sources, source_by};
ghost use Rattle.gg_shape.specs.inside.Told.{TellsConnected, TellsFirst, module_of};

use crate::connected::{Connected, key_of};
use crate::fault::{CheckFault, Fault};
use gg_ast::Stmt;
use gg_shape_names::{Namespace, connection, is_sink, is_source, written};
use std::alloc::{AllocError, Global};

// Refuses the first connection of the circuit to a sink that is already connected. If there is none, returns what is
// connected in each module.
pub(crate) fn check_second<'a>(
    alloc: Global,
    names: &Namespace<'a>,
) -> Result<Vec<Connected<'a>>, CheckFault>
    ensures answers { Answers (in_modules second_connections names.now) result }
    ensures connected { IfOk result (λ all. TellsFirst names.now.modules (length names.now.modules) all.items) }
{
    let mut all = Vec::new(alloc);
    for number in 0..names.circuit().modules().len() {
        all.reserve(1)?;
        let connected = connected_in(alloc, names, number as u32)?;
        all.push_reserved(connected);
    }
    Ok(all)
}

// Refuses the first second connection of a module. If there is none, returns what is connected in the module.
fn connected_in<'a>(
    alloc: Global,
    names: &Namespace<'a>,
    number: u32,
) -> Result<Connected<'a>, CheckFault>
    requires { number < length names.now.modules }
    ensures answers { Answers (second_connections names.now.modules (module_of names.now number)) result }
    ensures connected { IfOk result (λ connected. TellsConnected (module_of names.now number).statements connected) }
{
    let this = &names.circuit().modules()[number as usize];
    connected_by(alloc, names, number, this.statements())
}

// Refuses the first second connection by the statements of a module. If there is none, returns what they connect.
fn connected_by<'a>(
    alloc: Global,
    names: &Namespace<'a>,
    number: u32,
    statements: &'a [Stmt],
) -> Result<Connected<'a>, CheckFault>
    requires { number < length names.now.modules }
    ensures answers { Answers (along (second_by (scope_of names.now.modules (module_of names.now number))) statements.now) result }
    ensures connected { IfOk result (λ connected. TellsConnected statements.now connected) }
{
    let mut connected = Connected::new(alloc);
    for statement in statements {
        connected_once(alloc, names, number, &connected, statement)?;
        mark(&mut connected, statement)?;
    }
    Ok(connected)
}

// Refuses the connection of a sink that an earlier statement connects.
fn connected_once(
    alloc: Global,
    names: &Namespace,
    number: u32,
    connected: &Connected,
    statement: &Stmt,
) -> Result<(), CheckFault>
    requires { number < length names.now.modules }
    ensures { (before : List AStatement) → TellsConnected before connected.now → Answers (second_by (scope_of names.now.modules (module_of names.now number)) before statement.now) result }
{
    let Some(sink) = connection(statement) else {
        return Ok(());
    };
    if is_sink(names.role(number, sink)) && connected.contains(key_of(sink)) {
        return Err(CheckFault::F(Fault::SecondConnection {
            line: statement.line,
            name: written(alloc, sink)?,
        }));
    }
    Ok(())
}

// Records what the statement connects.
fn mark<'a>(connected: &mut Connected<'a>, statement: &'a Stmt) -> Result<(), AllocError>
    ensures { (before : List AStatement) → TellsConnected before connected.old → OnOk result (TellsConnected (before ++ statement.now ∷ []) connected.new) }
{
    match connection(statement) {
        Some(sink) => connected.add(key_of(sink)),
        None => Ok(()),
    }
}

// Refuses the first connection of the circuit to a source.
pub(crate) fn check_sources(alloc: Global, names: &Namespace) -> Result<(), CheckFault>
    ensures { Answers (in_modules connected_sources names.now) result }
{
    for number in 0..names.circuit().modules().len() {
        sources_in(alloc, names, number as u32)?;
    }
    Ok(())
}

// Refuses the first connection of a module to a source.
fn sources_in(alloc: Global, names: &Namespace, number: u32) -> Result<(), CheckFault>
    requires { number < length names.now.modules }
    ensures { Answers (connected_sources names.now.modules (module_of names.now number)) result }
{
    let this = &names.circuit().modules()[number as usize];
    sources_by(alloc, names, number, this.statements())
}

// Refuses the first connection to a source among these statements of a module.
fn sources_by(
    alloc: Global,
    names: &Namespace,
    number: u32,
    statements: &[Stmt],
) -> Result<(), CheckFault>
    requires { number < length names.now.modules }
    ensures { Answers (flat_map (source_by (scope_of names.now.modules (module_of names.now number))) statements.now) result }
{
    for statement in statements {
        no_source(alloc, names, number, statement)?;
    }
    Ok(())
}

// Refuses a connection to a source.
fn no_source(
    alloc: Global,
    names: &Namespace,
    number: u32,
    statement: &Stmt,
) -> Result<(), CheckFault>
    requires { number < length names.now.modules }
    ensures { Answers (source_by (scope_of names.now.modules (module_of names.now number)) statement.now) result }
{
    let Some(sink) = connection(statement) else {
        return Ok(());
    };
    if is_source(names.role(number, sink)) {
        return Err(CheckFault::F(Fault::ConnectedSource {
            line: statement.line,
            name: written(alloc, sink)?,
        }));
    }
    Ok(())
}
