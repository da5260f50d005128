//! The row of a line: one function for each form.
ghost use Rattle.std.specs.Prelude.{IfOk};
ghost use Rattle.gg_read_row.specs.inside.Reading.{Reads, Finds, expression_at, last_expression_at, version_at, header_at, declared_at, last_declared_at, node_at, instance_at, field_row_at, body_at, invalid_at, driven_at, connection_at, public_at, connect_at, invalidate_at, row_at};
ghost use Rattle.gg_read_row.specs.inside.LineRows.{AreNamesOfLine, FindsRow, TellsRow};

use crate::cursor::{Cursor, RowFault};
use crate::expression::{expr, ground_type, reference};
use crate::field::field;
use crate::registers::{register, regreset, reset_row};
use crate::stops::{report, stop};
use gg_ast::{
    Direction, Expr, FieldWord, GroundType, Keyword, MemoryField, Reference, Report, StmtKind,
};
use gg_bits::Name;
use gg_lex::{Symbol, Tok};
use std::alloc::Global;

/// The row of a line.
#[derive(Drop)]
pub enum LineRow {
    /// `FIRRTL version N.N.N`.
    Version(u32, u32, u32),
    /// `circuit NAME :`.
    Circuit(Name),
    /// `module NAME :`, possibly with `public` before it.
    Module(Name),
    /// `input NAME : TYPE` or `output NAME : TYPE`.
    Port(Direction, Name, GroundType),
    /// A statement of one line, other than a register with a reset or a memory.
    Statement(StmtKind),
    /// A register with its reset, the condition and the initial value, on the same line.
    RegisterReset(Name, GroundType, Expr, Expr, Expr),
    /// The first line of a register with its reset on the next line.
    RegisterOpen(Name, GroundType, Expr),
    /// The next line of such a register: the condition and the initial value.
    Reset(Expr, Expr),
    /// The first line of a memory.
    Memory(Name),
    /// A field of a memory.
    Field(MemoryField),
}

/// The row that the tokens of a line spell (FIRRTL Specification, "Grammar").
///
/// # Errors
///
/// Returns `NoForm` exactly if they spell none. Returns `NoMemory` if an allocation fails.
pub fn read_row(alloc: Global, tokens: &[Tok]) -> Result<LineRow, RowFault>
    ensures row { TellsRow tokens.now result }
    ensures named { IfOk result AreNamesOfLine }
{
    row(alloc, tokens)
}

// The row that the tokens of a line spell, by trying the forms.
fn row(alloc: Global, tokens: &[Tok]) -> Result<LineRow, RowFault>
    ensures { FindsRow result (row_at tokens.now) }
{
    let mut cursor = Cursor::new(tokens);
    if cursor.is_connection() {
        return connection(alloc, &mut cursor);
    }
    let keyword = cursor.keyword()?;
    body(alloc, &mut cursor, keyword)
}

// What follows the keyword of a line.
fn body(alloc: Global, cursor: &mut Cursor, keyword: Keyword) -> Result<LineRow, RowFault>
    ensures { FindsRow result (body_at keyword cursor.old) }
{
    match keyword {
        Keyword::Version => version(cursor),
        Keyword::Circuit => Ok(LineRow::Circuit(header(cursor)?)),
        Keyword::Module => Ok(LineRow::Module(header(cursor)?)),
        Keyword::Port(direction) => port(cursor, direction),
        Keyword::Wire => wire(cursor),
        Keyword::Node => node(alloc, cursor),
        Keyword::Register => register(alloc, cursor),
        Keyword::Reset => reset_row(alloc, cursor),
        Keyword::Instance => instance(cursor),
        Keyword::Memory => Ok(LineRow::Memory(header(cursor)?)),
        Keyword::Field(word) => field_row(alloc, cursor, word),
        Keyword::Skip => skip(cursor),
        Keyword::Stop => stop(alloc, cursor),
        Keyword::Report(word) => report(alloc, cursor, word),
        Keyword::Public => public(cursor),
        Keyword::Connect => connect(alloc, cursor),
        Keyword::Invalidate => invalidate(cursor),
        Keyword::Regreset => regreset(alloc, cursor),
    }
}

// `version n . n . n`.
fn version(cursor: &mut Cursor) -> Result<LineRow, RowFault>
    ensures { FindsRow result (version_at cursor.old) }
{
    cursor.word("version")?;
    let major = cursor.natural()?;
    cursor.symbol(Symbol::Dot)?;
    let minor = cursor.natural()?;
    cursor.symbol(Symbol::Dot)?;
    let patch = cursor.natural()?;
    cursor.end()?;
    Ok(LineRow::Version(major, minor, patch))
}

// `NAME :`.
fn header(cursor: &mut Cursor) -> Result<Name, RowFault>
    ensures { Finds (λ n. n) result (header_at cursor.old) }
{
    let name = cursor.name()?;
    cursor.symbol(Symbol::Colon)?;
    cursor.end()?;
    Ok(name)
}

// A module's header, after `public`, which changes nothing.
fn public(cursor: &mut Cursor) -> Result<LineRow, RowFault>
    ensures { FindsRow result (public_at cursor.old) }
{
    cursor.word("module")?;
    Ok(LineRow::Module(header(cursor)?))
}

// `NAME : TYPE`.
pub(crate) fn declared(cursor: &mut Cursor) -> Result<(Name, GroundType), RowFault>
    ensures { Reads (λ d. d) result cursor.new (declared_at cursor.old) }
{
    let name = cursor.name()?;
    cursor.symbol(Symbol::Colon)?;
    let ty = ground_type(cursor)?;
    Ok((name, ty))
}

// `NAME : TYPE` up to the end.
fn last_declared(cursor: &mut Cursor) -> Result<(Name, GroundType), RowFault>
    ensures { Finds (λ d. d) result (last_declared_at cursor.old) }
{
    let declared = declared(cursor)?;
    cursor.end()?;
    Ok(declared)
}

// A port, after its direction.
fn port(cursor: &mut Cursor, direction: Direction) -> Result<LineRow, RowFault>
    ensures { FindsRow result (body_at (Keyword.Port direction) cursor.old) }
{
    let (name, ty) = last_declared(cursor)?;
    Ok(LineRow::Port(direction, name, ty))
}

// A wire, after its keyword.
fn wire(cursor: &mut Cursor) -> Result<LineRow, RowFault>
    ensures { FindsRow result (body_at Keyword.Wire cursor.old) }
{
    let (name, ty) = last_declared(cursor)?;
    Ok(LineRow::Statement(StmtKind::Wire { name, ty }))
}

// An expression, with operations nested to any depth.
pub(crate) fn expression(alloc: Global, cursor: &mut Cursor) -> Result<Expr, RowFault>
    ensures { Reads (λ e. e) result cursor.new (expression_at cursor.old) }
{
    let depth = cursor.len();
    expr(alloc, cursor, depth)
}

// An expression up to the end.
pub(crate) fn last_expression(alloc: Global, cursor: &mut Cursor) -> Result<Expr, RowFault>
    ensures { Finds (λ e. e) result (last_expression_at cursor.old) }
{
    let value = expression(alloc, cursor)?;
    if cursor.is_empty() {
        return Ok(value);
    }
    drop(value);
    Err(RowFault::NoForm)
}

// A node, after its keyword.
fn node(alloc: Global, cursor: &mut Cursor) -> Result<LineRow, RowFault>
    ensures { FindsRow result (node_at cursor.old) }
{
    let name = cursor.name()?;
    cursor.symbol(Symbol::Equals)?;
    let value = last_expression(alloc, cursor)?;
    Ok(LineRow::Statement(StmtKind::Node { name, value }))
}

// An instance, after its keyword.
fn instance(cursor: &mut Cursor) -> Result<LineRow, RowFault>
    ensures { FindsRow result (instance_at cursor.old) }
{
    let name = cursor.name()?;
    cursor.word("of")?;
    let module = cursor.name()?;
    cursor.end()?;
    Ok(LineRow::Statement(StmtKind::Instance { name, module }))
}

// A field of a memory, after its word.
fn field_row(alloc: Global, cursor: &mut Cursor, word: FieldWord) -> Result<LineRow, RowFault>
    ensures { FindsRow result (field_row_at word cursor.old) }
{
    cursor.symbol(Symbol::Arrow)?;
    Ok(LineRow::Field(field(alloc, cursor, word)?))
}

// `skip`, after its keyword.
fn skip(cursor: &mut Cursor) -> Result<LineRow, RowFault>
    ensures { FindsRow result (body_at Keyword.Skip cursor.old) }
{
    cursor.end()?;
    Ok(LineRow::Statement(StmtKind::Skip))
}

// A connection: a sink and its source.
fn connection(alloc: Global, cursor: &mut Cursor) -> Result<LineRow, RowFault>
    ensures { FindsRow result (connection_at cursor.old) }
{
    let sink = reference(cursor)?;
    driven(alloc, cursor, sink)
}

// `<= SOURCE`, or `is invalid`.
fn driven(alloc: Global, cursor: &mut Cursor, sink: Reference) -> Result<LineRow, RowFault>
    ensures { FindsRow result (driven_at sink cursor.old) }
{
    if cursor.skip(Symbol::Connect) {
        let source = last_expression(alloc, cursor)?;
        return Ok(LineRow::Statement(StmtKind::Connect { sink, source }));
    }
    invalid(cursor, sink)
}

// `is invalid`.
fn invalid(cursor: &mut Cursor, sink: Reference) -> Result<LineRow, RowFault>
    ensures { FindsRow result (invalid_at sink cursor.old) }
{
    if cursor.skip_word("is") && cursor.skip_word("invalid") && cursor.is_empty() {
        return Ok(LineRow::Statement(StmtKind::Invalid { sink }));
    }
    drop(sink);
    Err(RowFault::NoForm)
}

// A connection, after `connect`.
fn connect(alloc: Global, cursor: &mut Cursor) -> Result<LineRow, RowFault>
    ensures { FindsRow result (connect_at cursor.old) }
{
    let sink = reference(cursor)?;
    cursor.symbol(Symbol::Comma)?;
    let source = last_expression(alloc, cursor)?;
    Ok(LineRow::Statement(StmtKind::Connect { sink, source }))
}

// A sink that is invalid, after `invalidate`.
fn invalidate(cursor: &mut Cursor) -> Result<LineRow, RowFault>
    ensures { FindsRow result (invalidate_at cursor.old) }
{
    let sink = reference(cursor)?;
    cursor.end()?;
    Ok(LineRow::Statement(StmtKind::Invalid { sink }))
}
