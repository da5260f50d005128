//! Statements (FIRRTL Specification, "Statements", "Memories").
ghost use Rattle.std.specs.Prelude.{◌≡◌, [], ◌∷◌, ◌++◌, is_ok, if◌then◌else◌};
ghost use Rattle.gg_ast.specs.inside.Tree.{statement_with_field};

use crate::expression::{Expr, Reference};
use crate::module::GroundType;
use gg_bits::{Name, Names};
use std::alloc::{AllocError, Global};
use std::marker::Model;

/// A statement, with its first line, counted from 1.
pub struct Stmt {
    /// The first line of the statement.
    pub line: u64,
    /// What it says.
    pub kind: StmtKind,
}

impl Drop for Stmt {
    fn drop(self) {
        let Self { line: _, kind } = self;
        drop(kind);
    }
}

impl Stmt {
    // Adds a field to a memory, as its last. Any other statement stays as it is. If an allocation fails the memory
    // stays as it was.
    pub(crate) fn push_field(&mut self, field: Field) -> Result<(), AllocError>
        ensures { self.new ≡ (if is_ok result then statement_with_field field self.old else self.old) }
    {
        match &mut self.kind {
            StmtKind::Memory { fields, .. } => fields.push(field),
            _ => Ok(()),
        }
    }
}

/// The kind of a statement, with its parts.
#[derive(Drop)]
pub enum StmtKind {
    /// `wire NAME : TYPE`.
    Wire {
        name: Name,
        ty: GroundType,
    },
    /// `node NAME = EXPR`.
    Node {
        name: Name,
        value: Expr,
    },
    /// `reg NAME : TYPE, CLOCK`, possibly with a reset.
    Register {
        name: Name,
        ty: GroundType,
        clock: Expr,
        reset: Option<Reset>,
    },
    /// `inst NAME of MODULE`.
    Instance {
        name: Name,
        module: Name,
    },
    /// `mem NAME :` and its fields, each on a line of its own after it.
    Memory {
        name: Name,
        fields: Fields,
    },
    /// `SINK <= SOURCE`.
    Connect {
        sink: Reference,
        source: Expr,
    },
    /// `SINK is invalid`.
    Invalid {
        sink: Reference,
    },
    /// `skip`.
    Skip,
    /// `stop(CLOCK, CONDITION, CODE)`, possibly with a name, which is in no namespace.
    Stop {
        clock: Expr,
        condition: Expr,
        code: u32,
        label: Option<Name>,
    },
    /// `printf(..)`, `assert(..)`, `assume(..)` or `cover(..)`, possibly with a name, which is in no namespace.
    Report {
        word: Report,
        arguments: Arguments,
        label: Option<Name>,
    },
}

/// A register's reset: if the condition is 1 the register takes the initial value.
pub struct Reset {
    /// The line of the reset: the register's own, or a later one if the reset has a line of its own.
    pub line: u64,
    /// The condition.
    pub condition: Expr,
    /// The initial value.
    pub init: Expr,
}

impl Drop for Reset {
    fn drop(self) {
        let Self {
            line: _,
            condition,
            init,
        } = self;
        drop(condition);
        drop(init);
    }
}

/// A field of a memory, with its line.
pub struct Field {
    /// The line of the field.
    pub line: u64,
    /// What it says.
    pub kind: MemoryField,
}

impl Drop for Field {
    fn drop(self) {
        let Self { line: _, kind } = self;
        drop(kind);
    }
}

/// The key and the value of a memory's field.
#[derive(Drop)]
pub enum MemoryField {
    /// `data-type => TYPE`.
    DataType(GroundType),
    /// `depth => N`.
    Depth(u32),
    /// `read-latency => N`.
    ReadLatency(u32),
    /// `write-latency => N`.
    WriteLatency(u32),
    /// `reader => NAME ..`.
    Readers(Names),
    /// `writer => NAME ..`.
    Writers(Names),
    /// `read-under-write => old`, `new` or `undefined`.
    ReadUnderWrite(ReadUnderWrite),
}

/// The value that a reader of latency 1 reads if a writer writes the same word in the same cycle.
#[derive(Clone, Copy, PartialEq, Eq)]
pub enum ReadUnderWrite {
    /// The word before the write.
    Old,
    /// The word after the write.
    New,
    /// Undefined.
    Undefined,
}

/// The statements that have no effect here (FIRRTL Specification, "Formatted Prints", "Verification").
#[derive(Clone, Copy, Debug, PartialEq, Eq)]
pub enum Report {
    /// `printf`.
    Printf,
    /// `assert`.
    Assert,
    /// `assume`.
    Assume,
    /// `cover`.
    Cover,
}

/// An argument of such a statement.
#[derive(Drop)]
pub enum Argument {
    /// An expression.
    Value(Expr),
    /// A text, as it is between its quotation marks.
    Text(Name),
}

/// The arguments of such a statement, in order. A contract sees them as their list.
pub struct Arguments {
    items: Vec<Argument>,
}

impl Drop for Arguments {
    fn drop(self) {
        let Self { items } = self;
        drop(items);
    }
}

impl Model for Arguments {
    ghost use Rattle.std.specs.Prelude.{List};
    ghost use Rattle.gg_ast.specs.declared.statement.Argument.{Argument};
    ghost use Rattle.gg_ast.specs.contracts.expression.Expr as expression;
    ghost use Rattle.std.specs.Coded.{codes};

    ghost Value = { List Argument };

    ghost coded = { Prim.hlevel (codes, expression.the_row.coded) };

    ghost view = { λ arguments. arguments.items.items };
}

impl Arguments {
    /// No arguments.
    pub fn new(alloc: Global) -> Arguments
        ensures { result ≡ [] }
    {
        Arguments {
            items: Vec::new(alloc),
        }
    }

    /// The arguments, in order.
    pub fn as_slice(&self) -> &[Argument]
        ensures { result.now ≡ self.now }
    {
        self.items.as_slice()
    }

    /// Adds an argument as the last.
    ///
    /// # Errors
    ///
    /// Returns `AllocError` if an allocation fails. The arguments stay as they were.
    pub fn push(&mut self, argument: Argument) -> Result<(), AllocError>
        ensures { self.new ≡ (if is_ok result then self.old ++ argument ∷ [] else self.old) }
    {
        self.items.push(argument)?;
        Ok(())
    }
}

/// The fields of a memory, in the order of the file. A contract sees them as their list.
pub struct Fields {
    items: Vec<Field>,
}

impl Drop for Fields {
    fn drop(self) {
        let Self { items } = self;
        drop(items);
    }
}

impl Model for Fields {
    ghost use Rattle.std.specs.Prelude.{List};
    ghost use Rattle.gg_ast.specs.declared.statement.Field.{Field};

    ghost Value = { List Field };

    ghost view = { λ fields. fields.items.items };
}

impl Fields {
    /// No fields.
    pub fn new(alloc: Global) -> Fields
        ensures { result ≡ [] }
    {
        Fields {
            items: Vec::new(alloc),
        }
    }

    /// The fields, in order.
    pub fn as_slice(&self) -> &[Field]
        ensures { result.now ≡ self.now }
    {
        self.items.as_slice()
    }

    /// Adds a field as the last.
    ///
    /// # Errors
    ///
    /// Returns `AllocError` if an allocation fails. The fields stay as they were.
    pub fn push(&mut self, field: Field) -> Result<(), AllocError>
        ensures { self.new ≡ (if is_ok result then self.old ++ field ∷ [] else self.old) }
    {
        self.items.push(field)?;
        Ok(())
    }
}
