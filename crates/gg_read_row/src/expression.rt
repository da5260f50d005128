//! References, types, literals and expressions.
ghost use Rattle.std.specs.Prelude.{◌≡◌, MatchResult};
ghost use Rattle.gg_read_row.specs.inside.Reading.{Reads, reference_at, second_at, third_at, width_at, kind_at, type_at, literal_at, parameters_at, one_parameter_at, two_parameters_at, expr_at, form_at, call_at, operands_at, unary_at, binary_at, fixed_at, mux_at};

use crate::cursor::{Cursor, RowFault};
use gg_ast::{Expr, ExprKind, GroundType, Literal, Operation, Reference};
use gg_bits::{Kind, Name, Op1, Op2, OpN};
use gg_lex::Symbol;
use std::alloc::{AllocError, Global};

// A reference of one to three names.
pub(crate) fn reference(cursor: &mut Cursor) -> Result<Reference, RowFault>
    ensures { Reads (λ r. r) result cursor.new (reference_at cursor.old) }
{
    let first = cursor.name()?;
    second(cursor, first)
}

// What may follow the first name of a reference.
fn second(cursor: &mut Cursor, first: Name) -> Result<Reference, RowFault>
    ensures { Reads (λ r. r) result cursor.new (second_at first cursor.old) }
{
    if !cursor.skip(Symbol::Dot) {
        return Ok(Reference::Local(first));
    }
    let second = cursor.name()?;
    third(cursor, first, second)
}

// What may follow the second name of a reference.
fn third(cursor: &mut Cursor, first: Name, second: Name) -> Result<Reference, RowFault>
    ensures { Reads (λ r. r) result cursor.new (third_at first second cursor.old) }
{
    if !cursor.skip(Symbol::Dot) {
        return Ok(Reference::PortOf(first, second));
    }
    let third = cursor.name()?;
    Ok(Reference::FieldOf(first, second, third))
}

// `<n>`.
fn width(cursor: &mut Cursor) -> Result<u32, RowFault>
    ensures { Reads (λ n. n) result cursor.new (width_at cursor.old) }
{
    cursor.symbol(Symbol::Less)?;
    let width = cursor.natural()?;
    cursor.symbol(Symbol::Greater)?;
    Ok(width)
}

// `UInt` or `SInt`.
fn kind(cursor: &mut Cursor) -> Result<Kind, RowFault>
    ensures { Reads (λ k. k) result cursor.new (kind_at cursor.old) }
{
    if cursor.skip_word("UInt") {
        return Ok(Kind::UInt);
    }
    cursor.word("SInt")?;
    Ok(Kind::SInt)
}

// `UInt<n>`, `SInt<n>` or `Clock`.
pub(crate) fn ground_type(cursor: &mut Cursor) -> Result<GroundType, RowFault>
    ensures { Reads (λ ty. ty) result cursor.new (type_at cursor.old) }
{
    if cursor.skip_word("Clock") {
        return Ok(GroundType::Clock);
    }
    let kind = kind(cursor)?;
    let width = width(cursor)?;
    match kind {
        Kind::UInt => Ok(GroundType::UInt(width)),
        Kind::SInt => Ok(GroundType::SInt(width)),
    }
}

// A literal.
fn literal(alloc: Global, cursor: &mut Cursor) -> Result<Literal, RowFault>
    ensures { Reads (λ l. l) result cursor.new (literal_at cursor.old) }
{
    let kind = kind(cursor)?;
    let width = width(cursor)?;
    cursor.symbol(Symbol::OpenParen)?;
    let number = cursor.digits(alloc)?;
    cursor.symbol(Symbol::CloseParen)?;
    Ok(Literal {
        kind,
        width,
        radix: number.radix,
        negative: number.negative,
        digits: number.digits,
    })
}

// `, n )`.
pub(crate) fn one_parameter(cursor: &mut Cursor) -> Result<u32, RowFault>
    ensures { Reads (λ n. n) result cursor.new (one_parameter_at cursor.old) }
{
    cursor.symbol(Symbol::Comma)?;
    let n = cursor.natural()?;
    cursor.symbol(Symbol::CloseParen)?;
    Ok(n)
}

// `, n , m )`.
fn two_parameters(cursor: &mut Cursor) -> Result<(u32, u32), RowFault>
    ensures { Reads (λ p. p) result cursor.new (two_parameters_at cursor.old) }
{
    cursor.symbol(Symbol::Comma)?;
    let n = cursor.natural()?;
    cursor.symbol(Symbol::Comma)?;
    let m = cursor.natural()?;
    cursor.symbol(Symbol::CloseParen)?;
    Ok((n, m))
}

// The parameters of an operation and its closing bracket.
fn parameters(cursor: &mut Cursor, op: OpN) -> Result<(u32, u32), RowFault>
    ensures { Reads (λ p. p) result cursor.new (parameters_at op cursor.old) }
{
    match op {
        OpN::Bits => two_parameters(cursor),
        OpN::Pad | OpN::Shl | OpN::Shr | OpN::Head | OpN::Tail => {
            let n = one_parameter(cursor)?;
            Ok((n, 0))
        }
    }
}

// An expression with operations nested at most `depth` deep.
#[cycle(expression)]
pub(crate) fn expr(alloc: Global, cursor: &mut Cursor, depth: usize) -> Result<Expr, RowFault>
    ensures { Reads (λ e. e) result cursor.new (expr_at depth cursor.old) }
{
    if depth == 0 {
        return Err(RowFault::NoForm);
    }
    form(alloc, cursor, depth - 1)
}

// An operation, a literal or a reference.
#[cycle(expression)]
fn form(alloc: Global, cursor: &mut Cursor, depth: usize) -> Result<Expr, RowFault>
    ensures { Reads (λ e. e) result cursor.new (form_at (expr_at depth) cursor.old) }
{
    if cursor.is_second(Symbol::OpenParen) {
        return call(alloc, cursor, depth);
    }
    if cursor.is_second(Symbol::Less) {
        let literal = literal(alloc, cursor)?;
        return Ok(Expr {
            kind: ExprKind::Constant(literal),
        });
    }
    let reference = reference(cursor)?;
    Ok(Expr {
        kind: ExprKind::Named(reference),
    })
}

// An operation with its operands.
#[cycle(expression)]
fn call(alloc: Global, cursor: &mut Cursor, depth: usize) -> Result<Expr, RowFault>
    ensures { Reads (λ e. e) result cursor.new (call_at (expr_at depth) cursor.old) }
{
    let operation = cursor.operation()?;
    cursor.symbol(Symbol::OpenParen)?;
    operands(alloc, cursor, depth, operation)
}

// The operands of an operation, and its closing bracket.
#[cycle(expression)]
fn operands(
    alloc: Global,
    cursor: &mut Cursor,
    depth: usize,
    operation: Operation,
) -> Result<Expr, RowFault>
    ensures { Reads (λ e. e) result cursor.new (operands_at (expr_at depth) operation cursor.old) }
{
    match operation {
        Operation::Unary(op) => unary(alloc, cursor, depth, op),
        Operation::Binary(op) => binary(alloc, cursor, depth, op),
        Operation::Fixed(op) => fixed(alloc, cursor, depth, op),
        Operation::Mux => mux(alloc, cursor, depth),
    }
}

// An operand, in a `Box`.
#[cycle(expression)]
fn operand(alloc: Global, cursor: &mut Cursor, depth: usize) -> Result<Box<Expr>, RowFault>
    ensures { Reads (λ operand. operand.value) result cursor.new (expr_at depth cursor.old) }
{
    let value = expr(alloc, cursor, depth)?;
    boxed(alloc, value)
}

// `a )`.
#[cycle(expression)]
fn unary(alloc: Global, cursor: &mut Cursor, depth: usize, op: Op1) -> Result<Expr, RowFault>
    ensures { Reads (λ e. e) result cursor.new (unary_at (expr_at depth) op cursor.old) }
{
    let a = operand(alloc, cursor, depth)?;
    cursor.symbol(Symbol::CloseParen)?;
    Ok(Expr {
        kind: ExprKind::Unary(op, a),
    })
}

// `a , b )`.
#[cycle(expression)]
fn binary(alloc: Global, cursor: &mut Cursor, depth: usize, op: Op2) -> Result<Expr, RowFault>
    ensures { Reads (λ e. e) result cursor.new (binary_at (expr_at depth) op cursor.old) }
{
    let a = operand(alloc, cursor, depth)?;
    cursor.symbol(Symbol::Comma)?;
    let b = operand(alloc, cursor, depth)?;
    cursor.symbol(Symbol::CloseParen)?;
    Ok(Expr {
        kind: ExprKind::Binary(op, a, b),
    })
}

// `a , n )` or `a , n , m )`.
#[cycle(expression)]
fn fixed(alloc: Global, cursor: &mut Cursor, depth: usize, op: OpN) -> Result<Expr, RowFault>
    ensures { Reads (λ e. e) result cursor.new (fixed_at (expr_at depth) op cursor.old) }
{
    let a = operand(alloc, cursor, depth)?;
    let (n, m) = parameters(cursor, op)?;
    Ok(Expr {
        kind: ExprKind::Fixed(op, a, n, m),
    })
}

// `c , a , b )`.
#[cycle(expression)]
fn mux(alloc: Global, cursor: &mut Cursor, depth: usize) -> Result<Expr, RowFault>
    ensures { Reads (λ e. e) result cursor.new (mux_at (expr_at depth) cursor.old) }
{
    let c = operand(alloc, cursor, depth)?;
    cursor.symbol(Symbol::Comma)?;
    let a = operand(alloc, cursor, depth)?;
    cursor.symbol(Symbol::Comma)?;
    let b = operand(alloc, cursor, depth)?;
    cursor.symbol(Symbol::CloseParen)?;
    Ok(Expr {
        kind: ExprKind::Mux(c, a, b),
    })
}

// The expression, in a `Box`.
fn boxed(alloc: Global, expr: Expr) -> Result<Box<Expr>, RowFault>
    ensures { MatchResult result (λ b. b.value ≡ expr) (λ fault. fault ≡ RowFault.NoMemory) }
{
    match Box::new(alloc, expr) {
        Ok(boxed) => Ok(boxed),
        Err(error) => Err(RowFault::from(AllocError::from(error))),
    }
}
