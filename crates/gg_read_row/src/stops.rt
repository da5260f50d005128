//! The rows of stops, and of statements without effect.
ghost use Rattle.std.specs.Prelude.{◌≡◌, [], ◌∷◌, ◌++◌, length, MatchResult};
ghost use Rattle.gg_ast.specs.Row.{StopRow};
ghost use Rattle.gg_ast.specs.Term.{Term};
ghost use Rattle.gg_read_row.specs.inside.Reading.{◌>>=◌ as ◌and_then◌, Reads, Finds, one_parameter_at, label_at, stop_at, argument_at, arguments_at, TakesArgument, report_at};
ghost use Rattle.gg_read_row.specs.inside.LineRows.{FindsRow};

use crate::cursor::{Cursor, RowFault};
use crate::expression::one_parameter;
use crate::row::{LineRow, expression};
use gg_ast::{Argument, Arguments, Expr, Report, StmtKind};
use gg_bits::Name;
use gg_lex::Symbol;
use std::alloc::Global;

// Nothing, or `: NAME`.
fn label(cursor: &mut Cursor) -> Result<Option<Name>, RowFault>
    ensures { Finds (λ l. l) result (label_at cursor.old) }
{
    if cursor.is_empty() {
        return Ok(None);
    }
    cursor.symbol(Symbol::Colon)?;
    let name = cursor.name()?;
    cursor.end()?;
    Ok(Some(name))
}

// A stop, after its keyword.
pub(crate) fn stop(alloc: Global, cursor: &mut Cursor) -> Result<LineRow, RowFault>
    ensures { FindsRow result (stop_at cursor.old) }
{
    cursor.symbol(Symbol::OpenParen)?;
    let clock = expression(alloc, cursor)?;
    if !cursor.skip(Symbol::Comma) {
        drop(clock);
        return Err(RowFault::NoForm);
    }
    match expression(alloc, cursor) {
        Ok(condition) => stopped(cursor, clock, condition),
        Err(fault) => {
            drop(clock);
            Err(fault)
        }
    }
}

// A stop, after its condition.
fn stopped(cursor: &mut Cursor, clock: Expr, condition: Expr) -> Result<LineRow, RowFault>
    ensures { FindsRow result (one_parameter_at cursor.old and_then λ n. label_at n.1 and_then λ l. Some (StopRow clock condition n.0 l)) }
{
    match stop_code(cursor) {
        Ok(found) => {
            let (code, label) = found;
            Ok(LineRow::Statement(StmtKind::Stop {
                clock,
                condition,
                code,
                label,
            }))
        }
        Err(fault) => {
            drop(clock);
            drop(condition);
            Err(fault)
        }
    }
}

// `, CODE )` and the label of a stop.
fn stop_code(cursor: &mut Cursor) -> Result<(u32, Option<Name>), RowFault>
    ensures { (clock condition : Term) → Finds (λ s. StopRow clock condition s.0 s.1) result (one_parameter_at cursor.old and_then λ n. label_at n.1 and_then λ l. Some (StopRow clock condition n.0 l)) }
{
    let code = one_parameter(cursor)?;
    let label = label(cursor)?;
    Ok((code, label))
}

// An argument: a text or an expression.
fn argument(alloc: Global, cursor: &mut Cursor) -> Result<Argument, RowFault>
    ensures { Reads (λ a. a) result cursor.new (argument_at cursor.old) }
{
    if cursor.is_text() {
        return Ok(Argument::Text(cursor.text()?));
    }
    let value = expression(alloc, cursor)?;
    Ok(Argument::Value(value))
}

// One or more arguments with commas between them, and the closing bracket.
fn arguments(alloc: Global, cursor: &mut Cursor) -> Result<Arguments, RowFault>
    ensures { Reads (λ v. v) result cursor.new (arguments_at (length cursor.old) [] cursor.old) }
{
    let mut arguments = Arguments::new(alloc);
    for _turn in 0..cursor.len() {
        match next_argument(alloc, cursor, &mut arguments) {
            Ok(true) => {}
            Ok(false) => return Ok(arguments),
            Err(fault) => return Err(fault),
        }
    }
    Err(RowFault::NoForm)
}

// One argument, and what follows it: a comma if there are more, or the closing bracket.
fn next_argument(
    alloc: Global,
    cursor: &mut Cursor,
    arguments: &mut Arguments,
) -> Result<bool, RowFault>
    ensures { TakesArgument result arguments.old cursor.old arguments.new cursor.new }
{
    let next = argument(alloc, cursor)?;
    add_argument(arguments, next)?;
    if cursor.skip(Symbol::Comma) {
        return Ok(true);
    }
    cursor.symbol(Symbol::CloseParen)?;
    Ok(false)
}

// Adds an argument as the last.
fn add_argument(arguments: &mut Arguments, next: Argument) -> Result<(), RowFault>
    ensures { MatchResult result (λ _. arguments.new ≡ arguments.old ++ next ∷ []) (λ fault. fault ≡ RowFault.NoMemory) }
{
    match arguments.push(next) {
        Ok(()) => Ok(()),
        Err(error) => Err(RowFault::from(error)),
    }
}

// A statement without effect, after its keyword.
pub(crate) fn report(alloc: Global, cursor: &mut Cursor, word: Report) -> Result<LineRow, RowFault>
    ensures { FindsRow result (report_at word cursor.old) }
{
    cursor.symbol(Symbol::OpenParen)?;
    let arguments = arguments(alloc, cursor)?;
    let label = label(cursor)?;
    Ok(LineRow::Statement(StmtKind::Report {
        word,
        arguments,
        label,
    }))
}
