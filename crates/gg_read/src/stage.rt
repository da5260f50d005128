//! The circuit that is built row by row, and the position after these rows.
ghost use Rattle.std.specs.Prelude.{◌≡◌, ℕ, ◌∷◌, [], ◌<◌, length, IfSome};
ghost use Rattle.gg_ast.specs.Names.{IsName};
ghost use Rattle.gg_ast.specs.inside.Names.{IsPortNamed, AreNamesOfTerm, AreNamesOfField, AreNamesOfReset, AreNamesOfStatement};
ghost use Rattle.gg_ast.specs.Row.{numbered, VersionRow, CircuitRow, ModuleRow, MemoryRow, RegisterResetRow};
ghost use Rattle.gg_ast.specs.Rows.{port_row, field_row, statement_rows};
ghost use Rattle.gg_ast.specs.inside.Tree.{IsMemory, IsOpenToPorts, IsOpenToFields};
ghost use Rattle.gg_read_row.specs.inside.LineRows.{row_of, AreNamesOfLine};
ghost use Rattle.gg_read.specs.Text.{InPorts, InStatements, InFields, place_after, after_version, after_circuit, after_module, after_port, after_statement, after_open, after_memory, after_field, after_reset};
ghost use Rattle.gg_read.specs.inside.Stages.{stage_place, AreNamesOfRegister, IsStage, Advances, TellsStart, TellsBare, IsWhole, IsBody, IsPortsOf, IsMemoryOf, IsOpened, open_row, reset_row, Ends};

use crate::text::ReadFault;
use gg_ast::{Circuit, Expr, Field, Fields, GroundType, Port, Reset, Stmt, StmtKind};
use gg_bits::Name;
use gg_read_row::{LineRow, RowFault};
use std::alloc::Global;

// A register with its reset on the next line.
pub(crate) struct OpenRegister {
    // The line of the register.
    pub(crate) line: u64,
    pub(crate) name: Name,
    pub(crate) ty: GroundType,
    pub(crate) clock: Expr,
}

impl Drop for OpenRegister {
    fn drop(self) {
        let Self {
            line: _,
            name,
            ty: _,
            clock,
        } = self;
        drop(name);
        drop(clock);
    }
}

impl OpenRegister {
    // Adds the register with this reset to the last module, as its last statement.
    #[tactic(auto, using(crate::proofs::Builds::rows_closed))]
    fn close(self, circuit: Circuit, reset: Reset) -> Result<Stage, RowFault>
        requires some { 0 < length circuit.modules }
        requires after { self.line < reset.line }
        requires named { AreNamesOfRegister self × AreNamesOfReset reset }
        ensures { Advances (Stage.Open circuit self) (Some InStatements) reset.line (reset_row reset ∷ []) result }
    {
        let mut circuit = circuit;
        let Self {
            line,
            name,
            ty,
            clock,
        } = self;
        let kind = StmtKind::Register {
            name,
            ty,
            clock,
            reset: Some(reset),
        };
        circuit.push_statement(Stmt { line, kind })?;
        Ok(Stage::Statements(circuit))
    }
}

// The position of the next line, and the circuit of the lines before it.
#[derive(Drop)]
pub(crate) enum Stage {
    // At the beginning of the text.
    Start,
    // After the version line.
    Version,
    // After the circuit's line.
    Header(Circuit),
    // After a module's line or a port.
    Ports(Circuit),
    // After a statement that is not a memory.
    Statements(Circuit),
    // After a memory's line or one of its fields.
    Fields(Circuit),
    // After the first line of a register with its reset on the next.
    Open(Circuit, OpenRegister),
}

// The stage after one more row, which is on this line.
//
// Returns `NoForm` exactly if the row is not valid at its position. The contract leaves out a statement that is no row
// by itself, such as a register with its reset: the reader of lines never returns one.
pub(crate) fn advance(
    alloc: Global,
    stage: Stage,
    line: u64,
    row: LineRow,
) -> Result<Stage, RowFault>
    requires stage { IsStage stage line }
    requires named { AreNamesOfLine row }
    ensures { IfSome (row_of row) (λ held. Advances stage (place_after (stage_place stage) held) line (numbered line held ∷ []) result) }
{
    match row {
        LineRow::Version(_, _, _) => version(stage),
        LineRow::Circuit(name) => header(alloc, stage, line, name),
        LineRow::Module(name) => module(alloc, stage, line, name),
        LineRow::Port(direction, name, ty) => port(
            stage,
            Port {
                line,
                name,
                direction,
                ty,
            },
        ),
        LineRow::Statement(kind) => statement(stage, Stmt { line, kind }),
        LineRow::RegisterReset(name, ty, clock, condition, init) => register(
            stage, line, name, ty, clock, condition, init,
        ),
        LineRow::RegisterOpen(name, ty, clock) => open(
            stage,
            OpenRegister {
                line,
                name,
                ty,
                clock,
            },
        ),
        LineRow::Reset(condition, init) => reset(
            stage,
            Reset {
                line,
                condition,
                init,
            },
        ),
        LineRow::Memory(name) => memory(alloc, stage, line, name),
        LineRow::Field(kind) => field(stage, Field { line, kind }),
    }
}

// A register with its reset, both on this line.
fn register(
    stage: Stage,
    line: u64,
    name: Name,
    ty: GroundType,
    clock: Expr,
    condition: Expr,
    init: Expr,
) -> Result<Stage, RowFault>
    requires stage { (before : ℕ) × IsStage stage before }
    requires named { IsName name × AreNamesOfTerm clock × AreNamesOfTerm condition × AreNamesOfTerm init }
    ensures { Advances stage (after_statement (stage_place stage)) line (numbered line (RegisterResetRow name ty clock condition init) ∷ []) result }
{
    let reset = Some(Reset {
        line,
        condition,
        init,
    });
    let kind = StmtKind::Register {
        name,
        ty,
        clock,
        reset,
    };
    statement(stage, Stmt { line, kind })
}

// The version line, which is valid at the beginning.
#[tactic(auto, using(crate::proofs::Builds::version_first))]
fn version(stage: Stage) -> Result<Stage, RowFault>
    ensures { (line a b c : ℕ) → Advances stage (after_version (stage_place stage)) line (numbered line (VersionRow a b c) ∷ []) result }
{
    let is_first = is_start(&stage);
    drop(stage);
    if is_first {
        return Ok(Stage::Version);
    }
    Err(RowFault::NoForm)
}

// Whether nothing was read yet.
fn is_start(stage: &Stage) -> bool
    ensures { TellsStart stage.now result }
{
    match stage {
        Stage::Start => true,
        Stage::Version
        | Stage::Header(_)
        | Stage::Ports(_)
        | Stage::Statements(_)
        | Stage::Fields(_)
        | Stage::Open(_, _) => false,
    }
}

// The circuit's line, which is valid at the beginning or after the version line.
#[tactic(auto, using(crate::proofs::Builds::header_next))]
fn header(alloc: Global, stage: Stage, line: u64, name: Name) -> Result<Stage, RowFault>
    requires named { IsName name }
    ensures { Advances stage (after_circuit (stage_place stage)) line (numbered line (CircuitRow name) ∷ []) result }
{
    let is_next = is_bare(&stage);
    drop(stage);
    if is_next {
        return Ok(Stage::Header(Circuit::new(alloc, line, name)));
    }
    Err(RowFault::NoForm)
}

// Whether no circuit has begun yet.
#[tactic(auto, using(crate::proofs::Builds::nothing_first))]
fn is_bare(stage: &Stage) -> bool
    ensures { TellsBare stage.now result }
{
    match stage {
        Stage::Start => true,
        Stage::Version => true,
        Stage::Header(_)
        | Stage::Ports(_)
        | Stage::Statements(_)
        | Stage::Fields(_)
        | Stage::Open(_, _) => false,
    }
}

// A module's line.
fn module(alloc: Global, stage: Stage, line: u64, name: Name) -> Result<Stage, RowFault>
    requires named { IsName name }
    ensures { Advances stage (after_module (stage_place stage)) line (numbered line (ModuleRow name) ∷ []) result }
{
    let mut circuit = whole(stage)?;
    circuit.push_module(alloc, line, name)?;
    Ok(Stage::Ports(circuit))
}

// The circuit, if a module may begin after it.
fn whole(stage: Stage) -> Result<Circuit, RowFault>
    ensures { IsWhole stage result }
{
    match stage {
        Stage::Header(circuit) => Ok(circuit),
        Stage::Ports(circuit) => Ok(circuit),
        Stage::Statements(circuit) => Ok(circuit),
        Stage::Fields(circuit) => Ok(circuit),
        Stage::Start | Stage::Version | Stage::Open(_, _) => Err(RowFault::NoForm),
    }
}

// A port, which is valid after its module's line or another port.
fn port(stage: Stage, port: Port) -> Result<Stage, RowFault>
    requires named { IsPortNamed port }
    requires stage { (line : ℕ) × IsStage stage line }
    ensures { Advances stage (after_port (stage_place stage)) port.line (port_row port ∷ []) result }
{
    match ports_of(stage) {
        Ok(circuit) => add_port(circuit, port),
        Err(fault) => {
            drop(port);
            Err(fault)
        }
    }
}

// The circuit, if a port may be added to its last module.
fn ports_of(stage: Stage) -> Result<Circuit, RowFault>
    ensures { IsPortsOf stage result }
{
    match stage {
        Stage::Ports(circuit) => Ok(circuit),
        Stage::Start
        | Stage::Version
        | Stage::Header(_)
        | Stage::Statements(_)
        | Stage::Fields(_)
        | Stage::Open(_, _) => Err(RowFault::NoForm),
    }
}

// Adds a port to the last module, as its last.
fn add_port(circuit: Circuit, port: Port) -> Result<Stage, RowFault>
    requires some { 0 < length circuit.modules }
    requires ports { IsOpenToPorts circuit.modules }
    requires named { IsPortNamed port }
    ensures { Advances (Stage.Ports circuit) (Some InPorts) port.line (port_row port ∷ []) result }
{
    let mut circuit = circuit;
    circuit.push_port(port)?;
    Ok(Stage::Ports(circuit))
}

// The circuit, if a statement may follow.
fn body(stage: Stage) -> Result<Circuit, RowFault>
    requires { (line : ℕ) × IsStage stage line }
    ensures { IsBody stage result }
{
    match stage {
        Stage::Ports(circuit) => Ok(circuit),
        Stage::Statements(circuit) => Ok(circuit),
        Stage::Fields(circuit) => Ok(circuit),
        Stage::Start | Stage::Version | Stage::Header(_) | Stage::Open(_, _) => Err(
            RowFault::NoForm,
        ),
    }
}

// A statement, which is valid after a port, a module's line or another statement.
fn statement(stage: Stage, statement: Stmt) -> Result<Stage, RowFault>
    requires named { AreNamesOfStatement statement }
    requires stage { (line : ℕ) × IsStage stage line }
    ensures { Advances stage (after_statement (stage_place stage)) statement.line (statement_rows statement) result }
{
    match body(stage) {
        Ok(circuit) => add_statement(circuit, statement),
        Err(fault) => {
            drop(statement);
            Err(fault)
        }
    }
}

// Adds a statement to the last module, as its last.
fn add_statement(circuit: Circuit, statement: Stmt) -> Result<Stage, RowFault>
    requires named { AreNamesOfStatement statement }
    requires some { 0 < length circuit.modules }
    ensures { Advances (Stage.Statements circuit) (Some InStatements) statement.line (statement_rows statement) result }
{
    let mut circuit = circuit;
    circuit.push_statement(statement)?;
    Ok(Stage::Statements(circuit))
}

// The first line of a memory, which is valid where a statement is.
fn memory(alloc: Global, stage: Stage, line: u64, name: Name) -> Result<Stage, RowFault>
    requires named { IsName name }
    requires stage { (at : ℕ) × IsStage stage at }
    ensures { Advances stage (after_memory (stage_place stage)) line (numbered line (MemoryRow name) ∷ []) result }
{
    let circuit = body(stage)?;
    let fields = Fields::new(alloc);
    let kind = StmtKind::Memory { name, fields };
    add_memory(circuit, Stmt { line, kind })
}

// Adds a memory without fields to the last module, as its last statement.
fn add_memory(circuit: Circuit, statement: Stmt) -> Result<Stage, RowFault>
    requires named { AreNamesOfStatement statement }
    requires memory { IsMemory statement.kind }
    requires some { 0 < length circuit.modules }
    ensures { Advances (Stage.Statements circuit) (Some InFields) statement.line (statement_rows statement) result }
{
    let mut circuit = circuit;
    circuit.push_statement(statement)?;
    Ok(Stage::Fields(circuit))
}

// A field, which is valid after its memory's line or another field.
fn field(stage: Stage, field: Field) -> Result<Stage, RowFault>
    requires named { AreNamesOfField field }
    requires stage { (line : ℕ) × IsStage stage line }
    ensures { Advances stage (after_field (stage_place stage)) field.line (field_row field ∷ []) result }
{
    match memory_of(stage) {
        Ok(circuit) => add_field(circuit, field),
        Err(fault) => {
            drop(field);
            Err(fault)
        }
    }
}

// The circuit, if a field may be added to its last memory.
fn memory_of(stage: Stage) -> Result<Circuit, RowFault>
    ensures { IsMemoryOf stage result }
{
    match stage {
        Stage::Fields(circuit) => Ok(circuit),
        Stage::Start
        | Stage::Version
        | Stage::Header(_)
        | Stage::Ports(_)
        | Stage::Statements(_)
        | Stage::Open(_, _) => Err(RowFault::NoForm),
    }
}

// Adds a field to the last memory, as its last.
fn add_field(circuit: Circuit, field: Field) -> Result<Stage, RowFault>
    requires some { 0 < length circuit.modules }
    requires open { IsOpenToFields circuit.modules }
    requires named { AreNamesOfField field }
    ensures { Advances (Stage.Fields circuit) (Some InFields) field.line (field_row field ∷ []) result }
{
    let mut circuit = circuit;
    circuit.push_field(field)?;
    Ok(Stage::Fields(circuit))
}

// The first line of a register with its reset on the next.
fn open(stage: Stage, register: OpenRegister) -> Result<Stage, RowFault>
    requires named { AreNamesOfRegister register }
    requires stage { (line : ℕ) × IsStage stage line }
    ensures { Advances stage (after_open (stage_place stage)) register.line (open_row register ∷ []) result }
{
    let circuit = body(stage)?;
    Ok(Stage::Open(circuit, register))
}

// The line of a reset, which is valid after its register's.
fn reset(stage: Stage, reset: Reset) -> Result<Stage, RowFault>
    requires named { AreNamesOfReset reset }
    requires stage { IsStage stage reset.line }
    ensures { Advances stage (after_reset (stage_place stage)) reset.line (reset_row reset ∷ []) result }
{
    match opened(stage) {
        Ok((circuit, register)) => register.close(circuit, reset),
        Err(fault) => {
            drop(reset);
            Err(fault)
        }
    }
}

// The circuit, and the register that awaits its reset.
fn opened(stage: Stage) -> Result<(Circuit, OpenRegister), RowFault>
    ensures { IsOpened stage result }
{
    match stage {
        Stage::Open(circuit, register) => Ok((circuit, register)),
        Stage::Start
        | Stage::Version
        | Stage::Header(_)
        | Stage::Ports(_)
        | Stage::Statements(_)
        | Stage::Fields(_) => Err(RowFault::NoForm),
    }
}

// The circuit, if the text may end here. `line` is the number of the line after the last.
pub(crate) fn finish(stage: Stage, line: u64) -> Result<Circuit, ReadFault>
    ensures { Ends stage line result }
{
    match stage {
        Stage::Header(circuit) => Ok(circuit),
        Stage::Ports(circuit) => Ok(circuit),
        Stage::Statements(circuit) => Ok(circuit),
        Stage::Fields(circuit) => Ok(circuit),
        Stage::Start | Stage::Version | Stage::Open(_, _) => Err(ReadFault::Syntax { line }),
    }
}
