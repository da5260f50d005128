//! The lines of the flat circuit.
ghost use Rattle.std.specs.Prelude.{◌≡◌, Some, None, IfOk, OnOk};
ghost use Rattle.gg_bits.specs.Shape.{shape};
ghost use Rattle.gg_flat.specs.Line.{HasType, IsSource, IsCondition};
ghost use Rattle.gg_elab.specs.inside.Growing.{context_of, IsCut, IsZeroOf};
ghost use Rattle.gg_elab_sites.specs.IsFlat.{IsLineFor, IsLineOf, IsConditionOf};
ghost use Rattle.gg_bits.specs.ResultType.{is_condition};
ghost use Rattle.gg_elab_sites.specs.Meaning.{takes as takes_shape};
ghost use Rattle.gg_elab_sites.specs.inside.Views.{seen, connection};
ghost use Rattle.gg_elab_sites.specs.Connection.{Zeroed};

use crate::expression::add_expression;
use crate::scope::Scope;
use gg_ast::Expr;
use gg_bits::{Kind, Ty, Val};
use gg_elab_sites::Source;
use gg_flat::{Line, Node, Op};
use std::alloc::{AllocError, Global};

// Whether a sink of the first type can take a value of the second.
fn takes(sink: Ty, source: Ty) -> bool
    ensures { result ≡ takes_shape (shape sink) (shape source) }
{
    sink.kind == source.kind && source.width <= sink.width
}

// Adds a node of 0 with this type.
fn add_zero_of(line: &mut Line, ty: Ty) -> Result<(), AllocError>
    ensures { OnOk result (IsZeroOf line.old line.new (shape ty)) }
{
    line.push(Node {
        ty,
        op: Op::Literal(Val(0)),
    })?;
    Ok(())
}

// Whether a type is a condition's.
fn is_bit(ty: Ty) -> bool
    ensures { result ≡ is_condition (shape ty) }
{
    ty.kind == Kind::UInt && ty.width == 1
}

// The line if its value can be taken, otherwise the line with a 0 of this type at the end.
fn cut(line: Line, taken: bool, sink: Ty) -> Result<Line, AllocError>
    ensures { IfOk result (IsCut taken line (shape sink)) }
{
    let mut line = line;
    if taken {
        line.shrink_to_fit();
        return Ok(line);
    }
    add_zero_of(&mut line, sink)?;
    line.shrink_to_fit();
    Ok(line)
}

// The line of a sink of this type that gets an expression.
pub(crate) fn value_line(alloc: Global, scope: &Scope, e: &Expr, ty: Ty) -> Result<Line, AllocError>
    ensures stands { IfOk result (IsLineOf (context_of scope.now) (shape ty) e.now) }
    ensures fits { IfOk result (IsSource (HasType (context_of scope.now).bindings.signals.shapes) (shape ty)) }
{
    let mut line = Line::new(alloc);
    let stand = add_expression(alloc, scope, &mut line, e)?;
    cut(line, takes(ty, stand.ty), ty)
}

// The line of a sink of this type, by what it is connected to.
pub(crate) fn source_line(
    alloc: Global,
    scope: &Scope,
    source: Option<Source>,
    ty: Ty,
) -> Result<Line, AllocError>
    ensures stands { IfOk result (IsLineFor (context_of scope.now) (shape ty) (seen source.entry)) }
    ensures fits { IfOk result (IsSource (HasType (context_of scope.now).bindings.signals.shapes) (shape ty)) }
{
    match source {
        Some(source) => given_line(alloc, scope, source, ty),
        None => zero_line(alloc, scope, ty),
    }
}

// A line with a single node: 0.
fn zero_line(alloc: Global, scope: &Scope, ty: Ty) -> Result<Line, AllocError>
    ensures none { IfOk result (IsLineFor (context_of scope.now) (shape ty) None) }
    ensures zeroed { IfOk result (IsLineFor (context_of scope.now) (shape ty) (Some Zeroed)) }
    ensures fits { IfOk result (IsSource (HasType (context_of scope.now).bindings.signals.shapes) (shape ty)) }
{
    // for the invariant only
    let _ = scope.number;
    let mut line = Line::with_capacity(alloc, 1)?;
    add_zero_of(&mut line, ty)?;
    Ok(line)
}

// The line of a sink of this type with this connection.
fn given_line(alloc: Global, scope: &Scope, source: Source, ty: Ty) -> Result<Line, AllocError>
    ensures stands { IfOk result (IsLineFor (context_of scope.now) (shape ty) (Some (connection source.entry))) }
    ensures fits { IfOk result (IsSource (HasType (context_of scope.now).bindings.signals.shapes) (shape ty)) }
{
    match source {
        Source::Of(e) => value_line(alloc, scope, e, ty),
        Source::Zero => zero_line(alloc, scope, ty),
    }
}

// The line of a condition.
pub(crate) fn condition_line(alloc: Global, scope: &Scope, e: &Expr) -> Result<Line, AllocError>
    ensures stands { IfOk result (IsConditionOf (context_of scope.now) e.now) }
    ensures fits { IfOk result (IsCondition (HasType (context_of scope.now).bindings.signals.shapes)) }
{
    let bit = Ty::new(Kind::UInt, 1);
    let mut line = Line::new(alloc);
    let stand = add_expression(alloc, scope, &mut line, e)?;
    cut(line, is_bit(stand.ty), bit)
}
