//! The instructions of a line.
ghost use Rattle.std.specs.Prelude.{◌≡◌, ℕ, ◌+◌, ◌<◌, List, [], ◌∷◌, ◌++◌, length, true, IfOk, OnOk};
ghost use Rattle.gg_bits.specs.Shape.{shape};
ghost use Rattle.gg_flat.specs.Line.{op_at, shape_at, shapes_of};
ghost use Rattle.gg_tape.specs.inside.Instruction.{small};
ghost use Rattle.gg_tape.specs.declared.instruction.Operation.TheVariants.{Take};
ghost use Rattle.gg_tape.specs.inside.Told.{cell_of as cell_at, IsOf, IsRef, NamesBefore, Does, TellsTo, IsAdded};

use crate::instruction::{Instruction, Operation};
use crate::small::Small;
use gg_flat::{Node, Op, op_of, type_of};
use std::alloc::AllocError;

// The cell of a node, if there are this many signals.
fn cell_of(nodes: &[Node], signals: u32, i: u32) -> u32
    requires within { i < length nodes.now }
    requires room { signals + length nodes.now < 4294967296 }
    ensures { result ≡ cell_at nodes.now signals i }
{
    match op_of(nodes, i as usize) {
        Op::Ref(signal) => *signal,
        _ => signals + i,
    }
}

// The type of a node, in two bytes.
fn small_of(nodes: &[Node], i: u32) -> Small
    requires { i < length nodes.now }
    ensures { small result ≡ shape_at (shapes_of nodes.now) i }
{
    Small::of(type_of(nodes, i as usize))
}

// The number of a new literal, which is put at the end of the table. There are at most 4,294,967,295.
fn add_literal(literals: &mut Vec<u128>, value: u128) -> Result<u32, AllocError>
    ensures number { IfOk result (λ number. number ≡ length literals.old.items) }
    ensures added { OnOk result (literals.new.items ≡ literals.old.items ++ value ∷ []) }
{
    if literals.len() >= u32::MAX as usize {
        return Err(AllocError);
    }
    let number = literals.len() as u32;
    literals.push(value)?;
    Ok(number)
}

// The instruction that takes cell 0 for node k: the others are this one with more filled in.
fn take_none(nodes: &[Node], signals: u32, k: u32) -> Instruction
    requires within { k < length nodes.now }
    requires room { signals + length nodes.now < 4294967296 }
    ensures cell { result.cell ≡ signals + k }
    ensures ty { small result.ty ≡ shape_at (shapes_of nodes.now) k }
    ensures operation { result.operation ≡ Take }
{
    let ty = small_of(nodes, k);
    Instruction {
        operation: Operation::Take,
        ty,
        first_ty: ty,
        second_ty: ty,
        first: 0,
        second: 0,
        third: 0,
        cell: signals + k,
    }
}

// The instruction for node k that does this operation on node i.
fn on_one(nodes: &[Node], signals: u32, k: u32, operation: Operation, i: u32) -> Instruction
    requires within { k < length nodes.now }
    requires room { signals + length nodes.now < 4294967296 }
    requires before { i < k }
    ensures cell { result.cell ≡ signals + k }
    ensures ty { small result.ty ≡ shape_at (shapes_of nodes.now) k }
    ensures operation { result.operation ≡ operation }
    ensures first { IsOf nodes.now signals i result.first result.first_ty }
{
    Instruction {
        operation,
        first_ty: small_of(nodes, i),
        first: cell_of(nodes, signals, i),
        ..take_none(nodes, signals, k)
    }
}

// The instruction for node k that does this operation on nodes i and j.
fn on_two(nodes: &[Node], signals: u32, k: u32, operation: Operation, i: u32, j: u32) -> Instruction
    requires within { k < length nodes.now }
    requires room { signals + length nodes.now < 4294967296 }
    requires before { (i < k) × (j < k) }
    ensures cell { result.cell ≡ signals + k }
    ensures ty { small result.ty ≡ shape_at (shapes_of nodes.now) k }
    ensures operation { result.operation ≡ operation }
    ensures first { IsOf nodes.now signals i result.first result.first_ty }
    ensures second { IsOf nodes.now signals j result.second result.second_ty }
{
    Instruction {
        second_ty: small_of(nodes, j),
        second: cell_of(nodes, signals, j),
        ..on_one(nodes, signals, k, operation, i)
    }
}

// The instruction for a node. Its operands are earlier nodes.
fn instruction_for(
    nodes: &[Node],
    signals: u32,
    k: u32,
    literals: &mut Vec<u128>,
) -> Result<Instruction, AllocError>
    requires within { k < length nodes.now }
    requires room { signals + length nodes.now < 4294967296 }
    requires before { NamesBefore k (op_at nodes.now k) }
    ensures does { IfOk result (λ i. Does nodes.now signals literals.new.items k i) }
    ensures more { OnOk result ((more : List ℕ) × (literals.new.items ≡ literals.old.items ++ more)) }
{
    match op_of(nodes, k as usize) {
        Op::Ref(signal) => Ok(Instruction {
            first: *signal,
            ..take_none(nodes, signals, k)
        }),
        Op::Literal(value) => {
            let first = add_literal(literals, value.0)?;
            Ok(Instruction {
                operation: Operation::Constant,
                first,
                ..take_none(nodes, signals, k)
            })
        }
        Op::One(op, i) => Ok(on_one(nodes, signals, k, Operation::Apply1(*op), *i)),
        Op::Two(op, i, j) => Ok(on_two(nodes, signals, k, Operation::Apply2(*op), *i, *j)),
        Op::Fix(op, i, n, m) => Ok(Instruction {
            second: *n,
            third: *m,
            ..on_one(nodes, signals, k, Operation::ApplyConst(*op), *i)
        }),
        Op::Mux(c, i, j) => Ok(Instruction {
            third: cell_of(nodes, signals, *c),
            ..on_two(nodes, signals, k, Operation::Choose, *i, *j)
        }),
    }
}

// Whether a node is a reference.
fn is_ref(nodes: &[Node], i: usize) -> bool
    requires { i < length nodes.now }
    ensures { result ≡ true → IsRef (op_at nodes.now i) }
{
    match op_of(nodes, i) {
        Op::Ref(_) => true,
        _ => false,
    }
}

// Whether a node is a reference that isn't the last node.
fn is_passed(nodes: &[Node], k: usize) -> bool
    requires { k < length nodes.now }
    ensures { result ≡ true → (k + 1 < length nodes.now) × IsRef (op_at nodes.now k) }
{
    k + 1 < nodes.len() && is_ref(nodes, k)
}

// Adds the instruction of a node, unless it is a reference that isn't the last one.
fn tell_node(
    nodes: &[Node],
    signals: u32,
    k: usize,
    instructions: &mut Vec<Instruction>,
    literals: &mut Vec<u128>,
) -> Result<(), AllocError>
    requires within { k < length nodes.now }
    requires room { signals + length nodes.now < 4294967296 }
    requires before { NamesBefore k (op_at nodes.now k) }
    ensures told { OnOk result (TellsTo nodes.now signals k (k + 1) instructions.old.items literals.old.items instructions.new.items literals.new.items) }
{
    if is_passed(nodes, k) {
        return Ok(());
    }
    let instruction = instruction_for(nodes, signals, k as u32, literals)?;
    instructions.push(instruction)?;
    Ok(())
}

// Adds the instructions of a line: one for each node, except for references that aren't the last one.
pub(crate) fn tell(
    nodes: &[Node],
    signals: u32,
    instructions: &mut Vec<Instruction>,
    literals: &mut Vec<u128>,
) -> Result<(), AllocError>
    requires room { signals + length nodes.now < 4294967296 }
    requires before { (k : ℕ) → k < length nodes.now → NamesBefore k (op_at nodes.now k) }
    ensures told { OnOk result (IsAdded nodes.now signals instructions.old.items literals.old.items instructions.new.items literals.new.items) }
{
    for k in 0..nodes.len() {
        tell_node(nodes, signals, k, instructions, literals)?;
    }
    Ok(())
}
