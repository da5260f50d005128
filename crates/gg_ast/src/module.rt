//! Modules and ports (FIRRTL Specification, "Circuits and Modules").
ghost use Rattle.std.specs.Prelude.{◌≡◌, ◌<◌, length, is_ok, if◌then◌else◌};
ghost use Rattle.gg_ast.specs.Tree.{empty_module};
ghost use Rattle.gg_ast.specs.inside.Tree.{with_port, with_statement, module_with_field};

use crate::statement::{Field, Stmt};
use gg_bits::Name;
use std::alloc::{AllocError, Global};
use std::marker::Model;

/// The direction of a port.
#[derive(Clone, Copy, PartialEq, Eq)]
pub enum Direction {
    /// `input`.
    Input,
    /// `output`.
    Output,
}

/// A type as it is written (FIRRTL Specification, "Ground Types"): any width that a `u32` holds.
#[derive(Clone, Copy, PartialEq, Eq)]
pub enum GroundType {
    /// `UInt<WIDTH>`.
    UInt(u32),
    /// `SInt<WIDTH>`.
    SInt(u32),
    /// `Clock`.
    Clock,
}

/// A port, with its line.
pub struct Port {
    /// The line of the port, counted from 1.
    pub line: u64,
    /// Its name.
    pub name: Name,
    /// Whether the port is an input or an output.
    pub direction: Direction,
    /// Its type.
    pub ty: GroundType,
}

impl Drop for Port {
    fn drop(self) {
        let Self {
            line: _,
            name,
            direction: _,
            ty: _,
        } = self;
        drop(name);
    }
}

/// A module: its name, its ports and its statements in the order of the file. A contract sees it as a `ModuleTree`.
pub struct Module {
    line: u64,
    name: Name,
    ports: Vec<Port>,
    statements: Vec<Stmt>,
}

impl Drop for Module {
    fn drop(self) {
        let Self {
            line: _,
            name,
            ports,
            statements,
        } = self;
        drop(name);
        drop(ports);
        drop(statements);
    }
}

impl Model for Module {
    ghost use Rattle.gg_ast.specs.Tree.{ModuleTree};
    ghost use Rattle.gg_ast.specs.contracts.expression.Expr as expression;
    ghost use Rattle.std.specs.Coded.{codes};

    ghost Value = { ModuleTree };

    ghost coded = { Prim.hlevel (codes, expression.the_row.coded) };

    ghost view = { λ m. record { line = m.line; name = m.name; ports = m.ports.items; statements = m.statements.items } };
}

impl Module {
    // A module without ports and statements that begins on this line.
    pub(crate) fn new(alloc: Global, line: u64, name: Name) -> Module
        ensures { result ≡ empty_module line name }
    {
        Module {
            line,
            name,
            ports: Vec::new(alloc),
            statements: Vec::new(alloc),
        }
    }

    /// The line of the module's header, counted from 1.
    pub fn line(&self) -> u64
        ensures { result ≡ self.now.line }
    {
        self.line
    }

    /// The module's name.
    pub fn name(&self) -> &Name
        ensures { result.now ≡ self.now.name }
    {
        &self.name
    }

    /// The ports, in order.
    pub fn ports(&self) -> &[Port]
        ensures { result.now ≡ self.now.ports }
    {
        self.ports.as_slice()
    }

    /// The statements, in order.
    pub fn statements(&self) -> &[Stmt]
        ensures { result.now ≡ self.now.statements }
    {
        self.statements.as_slice()
    }

    // Adds a port as the last. If an allocation fails the module stays as it was.
    pub(crate) fn push_port(&mut self, port: Port) -> Result<(), AllocError>
        ensures { self.new ≡ (if is_ok result then with_port port self.old else self.old) }
    {
        self.ports.push(port)?;
        Ok(())
    }

    // Adds a statement as the last. If an allocation fails the module stays as it was.
    pub(crate) fn push_statement(&mut self, statement: Stmt) -> Result<(), AllocError>
        ensures { self.new ≡ (if is_ok result then with_statement statement self.old else self.old) }
    {
        self.statements.push(statement)?;
        Ok(())
    }

    // Adds a field to the last statement, if that is a memory, as its last. There has to be a statement. If an
    // allocation fails the module stays as it was.
    pub(crate) fn push_field(&mut self, field: Field) -> Result<(), AllocError>
        requires { 0 < length self.old.statements }
        ensures { self.new ≡ (if is_ok result then module_with_field field self.old else self.old) }
    {
        let last = self.statements.len() - 1;
        self.statements[last].push_field(field)
    }
}
