//! The rows of registers and of their resets.
ghost use Rattle.std.specs.Prelude.{ℕ, List};
ghost use Rattle.gg_ast.specs.Row.{RegisterResetRow};
ghost use Rattle.gg_ast.specs.Term.{Term};
ghost use Rattle.gg_lex.specs.declared.token.Symbol.TheVariants.{Comma, CloseParen};
ghost use Rattle.gg_read_row.specs.inside.Reading.{◌>>=◌ as ◌and_then◌, Reads, Finds, symbol_at, expression_at, reset_at, reset_row_at, inline_reset_at, with_at, clocked_at, register_at, last_pair_at, regreset_at};
ghost use Rattle.gg_read_row.specs.inside.LineRows.{FindsRow};

use crate::cursor::{Cursor, RowFault};
use crate::row::{LineRow, declared, expression, last_expression};
use gg_ast::{Expr, GroundType, StmtKind};
use gg_bits::Name;
use gg_lex::Symbol;
use std::alloc::Global;

// A register, after its keyword.
pub(crate) fn register(alloc: Global, cursor: &mut Cursor) -> Result<LineRow, RowFault>
    ensures { FindsRow result (register_at cursor.old) }
{
    let (name, ty) = declared(cursor)?;
    cursor.symbol(Symbol::Comma)?;
    let clock = expression(alloc, cursor)?;
    clocked(alloc, cursor, name, ty, clock)
}

// What may follow a register's clock: nothing, or a reset.
fn clocked(
    alloc: Global,
    cursor: &mut Cursor,
    name: Name,
    ty: GroundType,
    clock: Expr,
) -> Result<LineRow, RowFault>
    ensures { FindsRow result (clocked_at name ty clock cursor.old) }
{
    if cursor.is_empty() {
        return Ok(LineRow::Statement(StmtKind::Register {
            name,
            ty,
            clock,
            reset: None,
        }));
    }
    reset_part(alloc, cursor, name, ty, clock)
}

// `with :`, and a reset on this line or the next.
fn reset_part(
    alloc: Global,
    cursor: &mut Cursor,
    name: Name,
    ty: GroundType,
    clock: Expr,
) -> Result<LineRow, RowFault>
    ensures { FindsRow result (with_at name ty clock cursor.old) }
{
    if !(cursor.skip_word("with") && cursor.skip(Symbol::Colon)) {
        drop(clock);
        return Err(RowFault::NoForm);
    }
    if cursor.is_empty() {
        return Ok(LineRow::RegisterOpen(name, ty, clock));
    }
    match inline_reset(alloc, cursor) {
        Ok(found) => {
            let (condition, init) = found;
            Ok(LineRow::RegisterReset(name, ty, clock, condition, init))
        }
        Err(fault) => {
            drop(clock);
            Err(fault)
        }
    }
}

// A reset in brackets, at the end of the register's line.
fn inline_reset(alloc: Global, cursor: &mut Cursor) -> Result<(Expr, Expr), RowFault>
    ensures { (name : List ℕ) (ty : GroundType) (clock : Term) → Finds (λ r. RegisterResetRow name ty clock r.0 r.1) result (inline_reset_at name ty clock cursor.old) }
{
    cursor.symbol(Symbol::OpenParen)?;
    cursor.word("reset")?;
    let found = reset(alloc, cursor)?;
    if cursor.skip(Symbol::CloseParen) && cursor.is_empty() {
        return Ok(found);
    }
    drop(found);
    Err(RowFault::NoForm)
}

// `=> ( CONDITION , INIT )`.
fn reset(alloc: Global, cursor: &mut Cursor) -> Result<(Expr, Expr), RowFault>
    ensures { Reads (λ r. r) result cursor.new (reset_at cursor.old) }
{
    cursor.symbol(Symbol::Arrow)?;
    cursor.symbol(Symbol::OpenParen)?;
    let condition = expression(alloc, cursor)?;
    reset_init(alloc, cursor, condition)
}

// `, INIT )`, after the condition of a reset.
fn reset_init(alloc: Global, cursor: &mut Cursor, condition: Expr) -> Result<(Expr, Expr), RowFault>
    ensures { Reads {B = Term × Term} (λ r. r) result cursor.new
        (symbol_at Comma cursor.old and_then λ t. expression_at t and_then λ i. symbol_at CloseParen i.1 and_then λ u. Some
        ((condition, i.0), u)) }
{
    if !cursor.skip(Symbol::Comma) {
        drop(condition);
        return Err(RowFault::NoForm);
    }
    match expression(alloc, cursor) {
        Ok(init) => {
            if cursor.skip(Symbol::CloseParen) {
                return Ok((condition, init));
            }
            drop(condition);
            drop(init);
            Err(RowFault::NoForm)
        }
        Err(fault) => {
            drop(condition);
            Err(fault)
        }
    }
}

// A reset on a line of its own, after its keyword.
pub(crate) fn reset_row(alloc: Global, cursor: &mut Cursor) -> Result<LineRow, RowFault>
    ensures { FindsRow result (reset_row_at cursor.old) }
{
    let found = reset(alloc, cursor)?;
    if cursor.is_empty() {
        let (condition, init) = found;
        return Ok(LineRow::Reset(condition, init));
    }
    drop(found);
    Err(RowFault::NoForm)
}

// A register with a reset, after `regreset`.
pub(crate) fn regreset(alloc: Global, cursor: &mut Cursor) -> Result<LineRow, RowFault>
    ensures { FindsRow result (regreset_at cursor.old) }
{
    let (name, ty) = declared(cursor)?;
    cursor.symbol(Symbol::Comma)?;
    let clock = expression(alloc, cursor)?;
    match last_pair(alloc, cursor) {
        Ok(found) => {
            let (condition, init) = found;
            Ok(LineRow::RegisterReset(name, ty, clock, condition, init))
        }
        Err(fault) => {
            drop(clock);
            Err(fault)
        }
    }
}

// `, CONDITION , INIT` up to the end.
fn last_pair(alloc: Global, cursor: &mut Cursor) -> Result<(Expr, Expr), RowFault>
    ensures { Finds (λ p. p) result (last_pair_at cursor.old) }
{
    cursor.symbol(Symbol::Comma)?;
    let condition = expression(alloc, cursor)?;
    if !cursor.skip(Symbol::Comma) {
        drop(condition);
        return Err(RowFault::NoForm);
    }
    match last_expression(alloc, cursor) {
        Ok(init) => Ok((condition, init)),
        Err(fault) => {
            drop(condition);
            Err(fault)
        }
    }
}
