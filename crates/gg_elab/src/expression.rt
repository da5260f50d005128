//! Expressions as nodes of a line.
ghost use Rattle.std.specs.Prelude.{◌≡◌, ◌<◌, IfOk};
ghost use Rattle.gg_bits.specs.Shape.{shape};
ghost use Rattle.gg_ast.specs.Term.{NamedTerm, ConstantTerm};
ghost use Rattle.gg_elab_sites.specs.Meaning.{term_shape};
ghost use Rattle.gg_elab.specs.inside.Growing.{context_of, IsZeroNode, IsResultNode, IsPlaced, Added};

use crate::lookup::find;
use crate::scope::Scope;
use gg_ast::{Expr, ExprKind, Literal, Reference};
use gg_bits::{Bad, Kind, Ty, Val, result_const, result_mux, result1, result2};
use gg_flat::{Line, Node, Op};
use gg_types::literal;
use std::alloc::{AllocError, Global};

// The node of a line that computes an expression.
#[derive(Clone, Copy)]
pub(crate) struct Stand {
    // Its place in the line.
    pub(crate) node: u32,
    // The expression's type.
    pub(crate) ty: Ty,
}

// Adds a node at the end. Returns `AllocError` if the line has 4,294,967,296 nodes already.
fn add_node(line: &mut Line, ty: Ty, op: Op) -> Result<Stand, AllocError>
    ensures { IfOk result (λ stand. IsPlaced (λ n. (n.ty ≡ ty) × (n.op ≡ op)) line.old line.new stand) }
{
    let node = match u32::try_from(line.len()) {
        Ok(node) => node,
        Err(_) => return Err(AllocError),
    };
    line.push(Node { ty, op })?;
    Ok(Stand { node, ty })
}

// Adds the node of 0 of type UInt<1>.
fn add_zero(line: &mut Line) -> Result<Stand, AllocError>
    ensures { IfOk result (λ stand. IsPlaced IsZeroNode line.old line.new stand) }
{
    add_node(line, Ty::new(Kind::UInt, 1), Op::Literal(Val(0)))
}

// Adds the node of an operation with this result, or the node of 0 if it has none.
fn add_result(line: &mut Line, found: Result<Ty, Bad>, op: Op) -> Result<Stand, AllocError>
    ensures { IfOk result (λ stand. IsPlaced (IsResultNode found op) line.old line.new stand) }
{
    match found {
        Ok(ty) => add_node(line, ty, op),
        Err(_) => add_zero(line),
    }
}

// Adds the node of a reference.
fn add_reference(
    alloc: Global,
    scope: &Scope,
    line: &mut Line,
    reference: &Reference,
) -> Result<Stand, AllocError>
    ensures { IfOk result (λ stand. Added (context_of scope.now) line.old line.new (NamedTerm reference.now) stand.node × (shape stand.ty ≡ term_shape (context_of scope.now) (NamedTerm reference.now))) }
{
    match find(alloc, scope, reference)? {
        Some(signal) => {
            let ty = scope.table.types[signal as usize];
            add_node(line, ty, Op::Ref(signal))
        }
        None => add_zero(line),
    }
}

// Adds the node of a literal.
fn add_literal(_scope: &Scope, line: &mut Line, constant: &Literal) -> Result<Stand, AllocError>
    ensures { IfOk result (λ stand. Added (context_of _scope.now) line.old line.new (ConstantTerm constant.now) stand.node
        × (shape stand.ty ≡ term_shape (context_of _scope.now) (ConstantTerm constant.now))) }
{
    match literal(constant) {
        Some((ty, value)) => add_node(line, ty, Op::Literal(value)),
        None => add_zero(line),
    }
}

// Adds the nodes of an expression; the last computes it.
pub(crate) fn add_expression(
    alloc: Global,
    scope: &Scope,
    line: &mut Line,
    e: &Expr,
) -> Result<Stand, AllocError>
    ensures { IfOk result (λ stand. Added (context_of scope.now) line.old line.new e.now stand.node × (shape stand.ty ≡ term_shape (context_of scope.now) e.now)) }
{
    match &e.kind {
        ExprKind::Named(reference) => add_reference(alloc, scope, line, reference),
        ExprKind::Constant(constant) => add_literal(scope, line, constant),
        ExprKind::Unary(op, a) => {
            let a = add_expression(alloc, scope, line, a)?;
            add_result(line, result1(*op, a.ty), Op::One(*op, a.node))
        }
        ExprKind::Binary(op, a, b) => {
            let a = add_expression(alloc, scope, line, a)?;
            let b = add_expression(alloc, scope, line, b)?;
            add_result(line, result2(*op, a.ty, b.ty), Op::Two(*op, a.node, b.node))
        }
        ExprKind::Fixed(op, a, n, m) => {
            let a = add_expression(alloc, scope, line, a)?;
            add_result(
                line,
                result_const(*op, a.ty, *n, *m),
                Op::Fix(*op, a.node, *n, *m),
            )
        }
        ExprKind::Mux(c, a, b) => {
            let c = add_expression(alloc, scope, line, c)?;
            let a = add_expression(alloc, scope, line, a)?;
            let b = add_expression(alloc, scope, line, b)?;
            add_result(
                line,
                result_mux(c.ty, a.ty, b.ty),
                Op::Mux(c.node, a.node, b.node),
            )
        }
    }
}
