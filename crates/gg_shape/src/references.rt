//! F3: references that name nothing that has a value, and instances of modules that don't exist.
ghost use Rattle.std.specs.Prelude.{◌≡◌, ◌++◌, ◌<◌, length};
ghost use Rattle.gg_shape_names.specs.Namespace.{entries_by, name_by};
ghost use Rattle.gg_shape.specs.inside.Faults.{Answers};
ghost use Rattle.gg_shape.specs.Shape.{in_modules, unknown_names, unknown_module, unknown_reference, unknown_in, unknown_in_reset, unknown_in_arguments, unknown_in_kind};
ghost use Rattle.gg_shape.specs.inside.Told.{IsBefore, module_of, scope_before};

use crate::fault::{CheckFault, Fault};
use gg_ast::{Argument, Expr, ExprKind, Reference, Reset, Stmt, StmtKind};
use gg_bits::Name;
use gg_shape_names::{Namespace, declared_name, has_value, written};
use std::alloc::Global;

// A position in a module: what is declared before it.
#[derive(Clone, Copy)]
pub(crate) struct Before {
    // The module.
    pub(crate) number: u32,
    // How many statements are before this position.
    pub(crate) statements: usize,
    // How many names are declared by the ports and those statements.
    pub(crate) names: usize,
}

// Refuses the first reference of the circuit that names nothing that has a value, or the first instance of a module
// that doesn't exist, whichever comes first.
pub(crate) fn check_references(alloc: Global, names: &Namespace) -> Result<(), CheckFault>
    ensures { Answers (in_modules unknown_names names.now) result }
{
    for number in 0..names.circuit().modules().len() {
        check_module(alloc, names, number as u32)?;
    }
    Ok(())
}

// Refuses the first unknown name of a module.
fn check_module(alloc: Global, names: &Namespace, number: u32) -> Result<(), CheckFault>
    requires { number < length names.now.modules }
    ensures { Answers (unknown_names names.now.modules (module_of names.now number)) result }
{
    let this = &names.circuit().modules()[number as usize];
    check_statements(alloc, names, number, this.ports().len(), this.statements())
}

// Refuses the first unknown name of a module's statements.
fn check_statements(
    alloc: Global,
    names: &Namespace,
    number: u32,
    ports: usize,
    statements: &[Stmt],
) -> Result<(), CheckFault>
    requires within { number < length names.now.modules }
    requires ports { ports ≡ length (module_of names.now number).ports }
    requires statements { statements.now ≡ (module_of names.now number).statements }
    ensures { Answers (unknown_names names.now.modules (module_of names.now number)) result }
{
    let total = names.len(number);
    let mut count = ports;
    for place in 0..statements.len() {
        let statement = &statements[place];
        let next = count + declared_count(statement);
        let before = Before {
            number,
            statements: place,
            names: count,
        };
        let behind = Before {
            number,
            statements: place + 1,
            names: next,
        };
        known_by(alloc, names, before, behind, statement)?;
        count = next;
    }
    prove!(count <= total);
    Ok(())
}

// How many names the statement declares.
fn declared_count(statement: &Stmt) -> usize
    ensures { result ≡ length (name_by statement.now) }
{
    match declared_name(statement) {
        Some(_) => 1,
        None => 0,
    }
}

// Refuses the first unknown name of a statement. In its own reset a register's name is known.
fn known_by(
    alloc: Global,
    names: &Namespace,
    before: Before,
    behind: Before,
    statement: &Stmt,
) -> Result<(), CheckFault>
    requires before { IsBefore names.now before }
    requires behind { IsBefore names.now behind }
    requires next { scope_before names.now behind ≡ scope_before names.now before ++ entries_by names.now.modules statement.now }
    ensures { Answers (unknown_in_kind names.now.modules (scope_before names.now before) statement.now.line statement.now.kind) result }
{
    let line = statement.line;
    match &statement.kind {
        StmtKind::Wire { .. } | StmtKind::Memory { .. } | StmtKind::Skip => Ok(()),
        StmtKind::Instance { module, .. } => known_module(names, line, module),
        StmtKind::Node { value, .. } => known_in(alloc, names, before, line, value),
        StmtKind::Register { clock, reset, .. } => {
            known_in(alloc, names, before, line, clock)?;
            known_in_reset(alloc, names, behind, reset)
        }
        StmtKind::Connect { sink, source } => {
            known(alloc, names, before, line, sink)?;
            known_in(alloc, names, before, line, source)
        }
        StmtKind::Invalid { sink } => known(alloc, names, before, line, sink),
        StmtKind::Stop {
            clock,
            condition,
            ..
        } => {
            known_in(alloc, names, before, line, clock)?;
            known_in(alloc, names, before, line, condition)
        }
        StmtKind::Report { arguments, .. } => {
            known_in_arguments(alloc, names, before, line, arguments.as_slice())
        }
    }
}

// Refuses an instance of a module that doesn't exist.
fn known_module(names: &Namespace, line: u64, name: &Name) -> Result<(), CheckFault>
    ensures { Answers (unknown_module names.now.modules line name.now) result }
{
    match names.place_of_module(name) {
        Some(_) => Ok(()),
        None => Err(CheckFault::F(Fault::UnknownName {
            line,
            name: name.clone()?,
        })),
    }
}

// Refuses the first unknown reference of a reset.
fn known_in_reset(
    alloc: Global,
    names: &Namespace,
    before: Before,
    reset: &Option<Reset>,
) -> Result<(), CheckFault>
    requires { IsBefore names.now before }
    ensures { Answers (unknown_in_reset (scope_before names.now before) reset.now) result }
{
    match reset {
        None => Ok(()),
        Some(reset) => {
            known_in(alloc, names, before, reset.line, &reset.condition)?;
            known_in(alloc, names, before, reset.line, &reset.init)
        }
    }
}

// Refuses the first unknown reference of the arguments.
fn known_in_arguments(
    alloc: Global,
    names: &Namespace,
    before: Before,
    line: u64,
    arguments: &[Argument],
) -> Result<(), CheckFault>
    requires { IsBefore names.now before }
    ensures { Answers (unknown_in_arguments (scope_before names.now before) line arguments.now) result }
{
    for argument in arguments {
        match argument {
            Argument::Value(value) => known_in(alloc, names, before, line, value)?,
            Argument::Text(_) => {}
        }
    }
    Ok(())
}

// Refuses the first unknown reference of an expression on this line.
fn known_in(
    alloc: Global,
    names: &Namespace,
    before: Before,
    line: u64,
    value: &Expr,
) -> Result<(), CheckFault>
    requires { IsBefore names.now before }
    ensures { Answers (unknown_in (scope_before names.now before) line value.now) result }
{
    match &value.kind {
        ExprKind::Named(reference) => known(alloc, names, before, line, reference),
        ExprKind::Constant(_) => Ok(()),
        ExprKind::Unary(_, a) => known_in(alloc, names, before, line, a),
        ExprKind::Binary(_, a, b) => {
            known_in(alloc, names, before, line, a)?;
            known_in(alloc, names, before, line, b)
        }
        ExprKind::Fixed(_, a, _, _) => known_in(alloc, names, before, line, a),
        ExprKind::Mux(c, a, b) => {
            known_in(alloc, names, before, line, c)?;
            known_in(alloc, names, before, line, a)?;
            known_in(alloc, names, before, line, b)
        }
    }
}

// Refuses a reference that names nothing that has a value.
fn known(
    alloc: Global,
    names: &Namespace,
    before: Before,
    line: u64,
    reference: &Reference,
) -> Result<(), CheckFault>
    requires { IsBefore names.now before }
    ensures { Answers (unknown_reference (scope_before names.now before) line reference.now) result }
{
    if has_value(names.role_before(before.number, before.names, reference)) {
        return Ok(());
    }
    Err(CheckFault::F(Fault::UnknownName {
        line,
        name: written(alloc, reference)?,
    }))
}
