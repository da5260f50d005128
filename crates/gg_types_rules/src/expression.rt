//! The type of an expression, and its first fault.
ghost use Rattle.std.specs.Prelude.{◌≡◌, ◌++◌, ◌<◌, Some, IfOk, Err, length};
ghost use Rattle.gg_bits.specs.inside.Shape.{shape_of};
ghost use Rattle.gg_bits.specs.ResultType.{type1, type2, type_const, type_mux};
ghost use Rattle.gg_shape.specs.inside.Faults.{Answers};
ghost use Rattle.gg_types_rules.specs.inside.Known.{roles_seen, traced_seen, owned_seen};
ghost use Rattle.gg_types.specs.Owned.{sort_of_reference};
ghost use Rattle.gg_types.specs.Types.{undeclared, clock_faults, read_sort, literal_faults, literal_sort, sort_in, faults_in, result1 as result_1, result2 as result_2, result3 as result_3, is_traced, result_faults, result_sort};
ghost use Rattle.gg_shape.specs.declared.fault.Word.TheVariants as words;
ghost use Rattle.gg_shape.specs.declared.fault.CheckFault.TheVariants.{F};
ghost use Rattle.gg_shape.specs.declared.fault.Fault.TheVariants.{WrongKind};

use crate::known::Known;
use crate::results::{result_const, result_mux, result1, result2};
use gg_ast::{Expr, ExprKind, Literal, Reference};
use gg_bits::{Bad, Op1, Op2, OpN, Ty};
use gg_shape::{CheckFault, Fault, Word};
use gg_shape_names::written;
use gg_types::{Sort, is_width, literal};
use std::alloc::Global;

// The type of an expression on this line, or its first fault.
pub(crate) fn type_of(
    alloc: Global,
    known: &Known,
    line: u64,
    value: &Expr,
) -> Result<Sort, CheckFault>
    ensures answers { Answers (faults_in (roles_seen known.now) (traced_seen known.now) (owned_seen known.now) line value.now) result }
    ensures sort { IfOk result (λ s. sort_in (roles_seen known.now) (traced_seen known.now) (owned_seen known.now) value.now ≡ Some s) }
{
    match &value.kind {
        ExprKind::Named(reference) => read(alloc, known, line, reference),
        ExprKind::Constant(number) => constant(line, number),
        ExprKind::Unary(operation, a) => {
            let ta = type_of(alloc, known, line, a)?;
            unary(line, *operation, ta)
        }
        ExprKind::Binary(operation, a, b) => {
            let ta = type_of(alloc, known, line, a)?;
            let tb = type_of(alloc, known, line, b)?;
            binary(line, *operation, ta, tb)
        }
        ExprKind::Fixed(operation, a, n, m) => {
            let ta = type_of(alloc, known, line, a)?;
            fixed(line, *operation, ta, *n, *m)
        }
        ExprKind::Mux(c, a, b) => {
            let tc = type_of(alloc, known, line, c)?;
            let ta = type_of(alloc, known, line, a)?;
            let tb = type_of(alloc, known, line, b)?;
            mux(line, tc, ta, tb)
        }
    }
}

// The type of a reference that is read.
#[tactic(auto, using(gg_shape::proofs::FlatLemmas::refused_first))]
fn read(alloc: Global, known: &Known, line: u64, reference: &Reference) -> Result<Sort, CheckFault>
    ensures answers { Answers (undeclared (roles_seen known.now) (owned_seen known.now) line reference.now
        ++ clock_faults (traced_seen known.now) line reference.now
        (sort_of_reference (roles_seen known.now) (owned_seen known.now) reference.now)) result }
    ensures sort { IfOk result (λ s. read_sort (traced_seen known.now) reference.now (sort_of_reference (roles_seen known.now) (owned_seen known.now) reference.now) ≡ Some s) }
{
    let sort = named(alloc, known, line, reference)?;
    match sort {
        Sort::Bits(_, _) => Ok(sort),
        Sort::Clock => {
            if leads_to_input(known, reference) {
                return Ok(sort);
            }
            Err(CheckFault::F(Fault::WrongClock {
                line,
                name: written(alloc, reference)?,
            }))
        }
    }
}

// Whether a reference leads to an input port through the drivers of wires and nodes.
fn leads_to_input(known: &Known, reference: &Reference) -> bool
    ensures { result ≡ is_traced (traced_seen known.now) reference.now }
{
    match reference {
        Reference::Local(name) => known.is_traced(name),
        Reference::PortOf(_, _) | Reference::FieldOf(_, _, _) => false,
    }
}

// The type of what a reference names.
pub(crate) fn named(
    alloc: Global,
    known: &Known,
    line: u64,
    reference: &Reference,
) -> Result<Sort, CheckFault>
    ensures answers { Answers (undeclared (roles_seen known.now) (owned_seen known.now) line reference.now) result }
    ensures sort { IfOk result (λ s. sort_of_reference (roles_seen known.now) (owned_seen known.now) reference.now ≡ Some s) }
{
    if let Some(sort) = known.sort(reference) {
        return Ok(sort);
    }
    Err(CheckFault::F(Fault::UnknownName {
        line,
        name: written(alloc, reference)?,
    }))
}

// The type of a literal.
fn constant(line: u64, number: &Literal) -> Result<Sort, CheckFault>
    ensures answers { Answers (literal_faults line number.now) result }
    ensures sort { IfOk result (λ s. literal_sort number.now ≡ Some s) }
{
    if !is_width(number.width) {
        return Err(CheckFault::F(Fault::WrongWidth {
            line,
            width: number.width,
        }));
    }
    match literal(number) {
        Some((ty, _)) => Ok(Sort::Bits(ty.kind, ty.width)),
        None => Err(CheckFault::F(Fault::LiteralTooLarge { line })),
    }
}

// The type of an operation on one value, by its operand's type.
fn unary(line: u64, operation: Op1, ta: Sort) -> Result<Sort, CheckFault>
    ensures answers { Answers (result_faults line (words.Unary operation) (result_1 (type1 operation) (Some ta))) result }
    ensures sort { IfOk result (λ s. result_sort (result_1 (type1 operation) (Some ta)) ≡ Some s) }
{
    let word = Word::Unary(operation);
    match ta {
        Sort::Bits(kind, width) => judged(line, word, result1(operation, kind, width)),
        Sort::Clock => wrong_kind(line, word),
    }
}

// The type of an operation on two values, by its operands' types.
fn binary(line: u64, operation: Op2, ta: Sort, tb: Sort) -> Result<Sort, CheckFault>
    ensures answers { Answers (result_faults line (words.Binary operation) (result_2 (type2 operation) (Some ta) (Some tb))) result }
    ensures sort { IfOk result (λ s. result_sort (result_2 (type2 operation) (Some ta) (Some tb)) ≡ Some s) }
{
    let word = Word::Binary(operation);
    match (ta, tb) {
        (Sort::Bits(ka, a), Sort::Bits(kb, b)) => {
            judged(line, word, result2(operation, ka, a, kb, b))
        },
        (Sort::Clock, _) | (_, Sort::Clock) => wrong_kind(line, word),
    }
}

// The type of an operation with parameters, by its operand's type.
fn fixed(line: u64, operation: OpN, ta: Sort, n: u32, m: u32) -> Result<Sort, CheckFault>
    ensures answers { Answers (result_faults line (words.Fixed operation) (result_1 (λ s. type_const operation s n m) (Some ta))) result }
    ensures sort { IfOk result (λ s. result_sort (result_1 (λ s. type_const operation s n m) (Some ta)) ≡ Some s) }
{
    let word = Word::Fixed(operation);
    match ta {
        Sort::Bits(kind, width) => {
            judged(line, word, result_const(operation, kind, width, n, m))
        },
        Sort::Clock => wrong_kind(line, word),
    }
}

// The type of a multiplexer, by its operands' types.
fn mux(line: u64, tc: Sort, ta: Sort, tb: Sort) -> Result<Sort, CheckFault>
    ensures answers { Answers (result_faults line words.Mux (result_3 type_mux (Some tc) (Some ta) (Some tb))) result }
    ensures sort { IfOk result (λ s. result_sort (result_3 type_mux (Some tc) (Some ta) (Some tb)) ≡ Some s) }
{
    match (tc, ta, tb) {
        (Sort::Bits(kc, c), Sort::Bits(ka, a), Sort::Bits(kb, b)) => {
            judged(line, Word::Mux, result_mux(kc, c, ka, a, kb, b))
        }
        (Sort::Clock, _, _) | (_, Sort::Clock, _) | (_, _, Sort::Clock) => {
            wrong_kind(line, Word::Mux)
        }
    }
}

// The type of a result, or what is wrong with it.
fn judged(line: u64, word: Word, result_type: Result<Ty, Bad>) -> Result<Sort, CheckFault>
    ensures answers { Answers (result_faults line word (Some (shape_of result_type))) result }
    ensures sort { IfOk result (λ s. result_sort (Some (shape_of result_type)) ≡ Some s) }
{
    match result_type {
        Ok(ty) => Ok(Sort::Bits(ty.kind, ty.width)),
        Err(Bad::Kind) => wrong_kind(line, word),
        Err(Bad::Width(width)) => Err(CheckFault::F(Fault::WrongWidth { line, width })),
        Err(Bad::Param) => Err(CheckFault::F(Fault::WrongParameter { line, word })),
    }
}

// A value of the wrong kind.
pub(crate) fn wrong_kind<T>(line: u64, word: Word) -> Result<T, CheckFault>
    ensures { result ≡ Err (F (WrongKind line word)) }
{
    Err(CheckFault::F(Fault::WrongKind { line, word }))
}
