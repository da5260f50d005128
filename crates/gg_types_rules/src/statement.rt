//! The faults of a statement's types, and what it declares.
ghost use Rattle.std.specs.Prelude.{◌≡◌, ◌++◌, ◌∷◌, [], ℕ, List, Some, OnOk, ◌+◌, length, option_map};
ghost use Rattle.gg_shape_names.specs.Namespace.{name_by};
ghost use Rattle.gg_shape.specs.declared.fault.Word.TheVariants as words;
ghost use Rattle.gg_shape.specs.inside.Faults.{Answers};
ghost use Rattle.gg_types.specs.declared.sort.Own.TheVariants.{Single};
ghost use Rattle.gg_types_rules.specs.inside.Known.{names_seen, roles_seen, traced_seen, owned_seen};
ghost use Rattle.gg_types.specs.inside.Named.{AreNext};
ghost use Rattle.gg_types.specs.Owned.{memory_own, sort_of_reference};
ghost use Rattle.gg_types.specs.Sorts.{sort_of};
ghost use Rattle.gg_types.specs.Types.{width_faults, faults_in, sort_in, memory_type_faults, faults_of_kind, own_by, register_faults, connection_faults, reset_faults, report_faults, argument_faults, invalid_faults, undeclared};

use crate::expression::{named, type_of, wrong_kind};
use crate::fields::judge_fields;
use crate::known::Known;
use crate::places::{clock, clocked, condition, connected, declared_type, stored_type};
use gg_ast::{Argument, Expr, Field, GroundType, Reference, Report, Reset, Stmt, StmtKind};
use gg_shape::{CheckFault, Fault, Word};
use gg_shape_names::written;
use gg_types::{Own, Sort, said_depth, said_type, sort_of};
use std::alloc::Global;

// Adds the type data of what a statement declares, or fails with the first fault of the statement's types.
pub(crate) fn judge(alloc: Global, known: &mut Known, statement: &Stmt) -> Result<(), CheckFault>
    requires next { AreNext (names_seen known.old) (length known.old.own.items) (name_by statement.now) }
    ensures answers { Answers (faults_of_kind (roles_seen known.old) (traced_seen known.old) (owned_seen known.old) statement.now.line statement.now.kind) result }
    ensures own { OnOk result (owned_seen known.new ≡ owned_seen known.old ++ own_by (roles_seen known.old) (traced_seen known.old) (owned_seen known.old) statement.now.kind) }
    ensures count { OnOk result (length known.new.own.items ≡ length known.old.own.items + length (name_by statement.now)) }
    ensures names { known.new.names.now ≡ known.old.names.now }
    ensures number { known.new.number ≡ known.old.number }
    ensures traced { known.new.traced.items ≡ known.old.traced.items }
{
    let line = statement.line;
    match &statement.kind {
        StmtKind::Wire { ty, .. } => judge_wire(known, line, *ty),
        StmtKind::Node { value, .. } => judge_node(alloc, known, line, value),
        StmtKind::Register {
            ty,
            clock,
            reset,
            ..
        } => judge_register(alloc, known, line, *ty, clock, reset),
        StmtKind::Instance { .. } => declare(known, Own::Instance),
        StmtKind::Memory { fields, .. } => judge_memory(known, fields.as_slice()),
        StmtKind::Connect { sink, source } => judge_connection(alloc, known, line, sink, source),
        StmtKind::Invalid { sink } => judge_invalid(alloc, known, line, sink),
        StmtKind::Skip => Ok(()),
        StmtKind::Stop {
            clock,
            condition,
            ..
        } => clocked(alloc, known, line, Word::Stop, clock, condition),
        StmtKind::Report {
            word,
            arguments,
            ..
        } => judge_report(alloc, known, line, *word, arguments.as_slice()),
    }
}

// Adds the type data of the next of the declared names.
pub(crate) fn declare(known: &mut Known, own: Own) -> Result<(), CheckFault>
    ensures answers { Answers [] result }
    ensures own { (name : List ℕ) → AreNext (names_seen known.old) (length known.old.own.items) (name ∷ []) → OnOk result (owned_seen known.new ≡ owned_seen known.old ++ (name, Some own) ∷ []) }
    ensures count { OnOk result (length known.new.own.items ≡ length known.old.own.items + 1) }
    ensures names { known.new.names.now ≡ known.old.names.now }
    ensures number { known.new.number ≡ known.old.number }
    ensures traced { known.new.traced.items ≡ known.old.traced.items }
{
    match known.own.push(own) {
        Ok(()) => Ok(()),
        Err(_) => Err(CheckFault::NoMemory),
    }
}

// Adds the type of a wire, or fails if its width is 0 or above 128.
fn judge_wire(known: &mut Known, line: u64, ty: GroundType) -> Result<(), CheckFault>
    ensures answers { Answers (width_faults line ty) result }
    ensures own { (name : List ℕ) → AreNext (names_seen known.old) (length known.old.own.items) (name ∷ [])
        → OnOk result (owned_seen known.new ≡ owned_seen known.old ++ (name, Some (Single (sort_of ty))) ∷ []) }
    ensures count { OnOk result (length known.new.own.items ≡ length known.old.own.items + 1) }
    ensures names { known.new.names.now ≡ known.old.names.now }
    ensures number { known.new.number ≡ known.old.number }
    ensures traced { known.new.traced.items ≡ known.old.traced.items }
{
    declared_type(line, ty)?;
    declare(known, Own::Single(sort_of(ty)))
}

// Adds the type of a node, or fails with the first fault of its expression.
fn judge_node(alloc: Global, known: &mut Known, line: u64, value: &Expr) -> Result<(), CheckFault>
    ensures answers { Answers (faults_in (roles_seen known.old) (traced_seen known.old) (owned_seen known.old) line value.now) result }
    ensures own { (name : List ℕ) → AreNext (names_seen known.old) (length known.old.own.items) (name ∷ [])
        → OnOk result (owned_seen known.new ≡ owned_seen known.old
        ++ (
          name,
          option_map Single (sort_in (roles_seen known.old) (traced_seen known.old)
              (owned_seen known.old) value.now),
        ) ∷ []) }
    ensures count { OnOk result (length known.new.own.items ≡ length known.old.own.items + 1) }
    ensures names { known.new.names.now ≡ known.old.names.now }
    ensures number { known.new.number ≡ known.old.number }
    ensures traced { known.new.traced.items ≡ known.old.traced.items }
{
    let sort = type_of(alloc, known, line, value)?;
    declare(known, Own::Single(sort))
}

// Adds the type and the number of a memory's words, or fails with the first fault of its fields.
fn judge_memory(known: &mut Known, fields: &[Field]) -> Result<(), CheckFault>
    ensures answers { Answers (memory_type_faults fields.now) result }
    ensures own { (name : List ℕ) → AreNext (names_seen known.old) (length known.old.own.items) (name ∷ [])
        → OnOk result (owned_seen known.new ≡ owned_seen known.old ++ (name, Some (memory_own fields.now)) ∷ []) }
    ensures count { OnOk result (length known.new.own.items ≡ length known.old.own.items + 1) }
    ensures names { known.new.names.now ≡ known.old.names.now }
    ensures number { known.new.number ≡ known.old.number }
    ensures traced { known.new.traced.items ≡ known.old.traced.items }
{
    judge_fields(fields)?;
    declare(known, Own::Memory(said_type(fields), said_depth(fields)))
}

// Adds the type of a register, or fails with its first fault.
fn judge_register(
    alloc: Global,
    known: &mut Known,
    line: u64,
    ty: GroundType,
    tick: &Expr,
    reset: &Option<Reset>,
) -> Result<(), CheckFault>
    ensures answers { (name : List ℕ) → AreNext (names_seen known.old) (length known.old.own.items) (name ∷ [])
        → Answers (register_faults (roles_seen known.old) (traced_seen known.old)
        (owned_seen known.old) line name ty tick.now reset.now) result }
    ensures own { (name : List ℕ) → AreNext (names_seen known.old) (length known.old.own.items) (name ∷ [])
        → OnOk result (owned_seen known.new ≡ owned_seen known.old ++ (name, Some (Single (sort_of ty))) ∷ []) }
    ensures count { OnOk result (length known.new.own.items ≡ length known.old.own.items + 1) }
    ensures names { known.new.names.now ≡ known.old.names.now }
    ensures number { known.new.number ≡ known.old.number }
    ensures traced { known.new.traced.items ≡ known.old.traced.items }
{
    let sort = sort_of(ty);
    stored_type(line, Word::Register, ty)?;
    clock(alloc, known, line, Word::Register, tick)?;
    declare(known, Own::Single(sort))?;
    judge_reset(alloc, known, sort, reset)
}

// Fails with the first fault of a reset of a register of this type.
fn judge_reset(
    alloc: Global,
    known: &Known,
    register: Sort,
    reset: &Option<Reset>,
) -> Result<(), CheckFault>
    ensures { Answers (reset_faults (roles_seen known.now) (traced_seen known.now) (owned_seen known.now) (Some register) reset.now) result }
{
    match reset {
        None => Ok(()),
        Some(reset) => {
            condition(alloc, known, reset.line, Word::Register, &reset.condition)?;
            let init = type_of(alloc, known, reset.line, &reset.init)?;
            connected(reset.line, Word::Register, register, init)
        }
    }
}

// Fails with the first fault of a connection.
#[tactic(auto, using(gg_shape::proofs::FlatLemmas::refused_first))]
fn judge_connection(
    alloc: Global,
    known: &Known,
    line: u64,
    sink: &Reference,
    source: &Expr,
) -> Result<(), CheckFault>
    ensures { Answers (connection_faults (roles_seen known.now) (traced_seen known.now) (owned_seen known.now) line sink.now source.now) result }
{
    let wide = named(alloc, known, line, sink)?;
    let narrow = type_of(alloc, known, line, source)?;
    connected(line, Word::Connect, wide, narrow)
}

// Refuses a Clock that is invalid.
#[tactic(auto, using(gg_shape::proofs::FlatLemmas::refused_first))]
fn judge_invalid(
    alloc: Global,
    known: &Known,
    line: u64,
    sink: &Reference,
) -> Result<(), CheckFault>
    ensures { Answers (undeclared (roles_seen known.now) (owned_seen known.now) line sink.now
        ++ invalid_faults line sink.now (sort_of_reference (roles_seen known.now) (owned_seen known.now) sink.now)) result }
{
    match named(alloc, known, line, sink)? {
        Sort::Bits(_, _) => Ok(()),
        Sort::Clock => Err(CheckFault::F(Fault::WrongClock {
            line,
            name: written(alloc, sink)?,
        })),
    }
}

// Fails with the first fault of the arguments of `printf`, `assert`, `assume` or `cover`. The first argument is a
// clock.
#[tactic(auto, using(gg_shape::proofs::FlatLemmas::refused_first))]
fn judge_report(
    alloc: Global,
    known: &Known,
    line: u64,
    report: Report,
    arguments: &[Argument],
) -> Result<(), CheckFault>
    ensures { Answers (report_faults (roles_seen known.now) (traced_seen known.now) (owned_seen known.now) line (words.Report report) arguments.now) result }
{
    let word = Word::Report(report);
    match arguments {
        [] => Ok(()),
        [Argument::Value(tick), rest @ ..] => {
            clock(alloc, known, line, word, tick)?;
            judge_arguments(alloc, known, line, rest)
        }
        [Argument::Text(_), ..] => wrong_kind(line, word),
    }
}

// Fails with the first fault of arguments that need only have a type.
fn judge_arguments(
    alloc: Global,
    known: &Known,
    line: u64,
    arguments: &[Argument],
) -> Result<(), CheckFault>
    ensures { Answers (argument_faults (roles_seen known.now) (traced_seen known.now) (owned_seen known.now) line arguments.now) result }
{
    for argument in arguments {
        if let Argument::Value(value) = argument {
            let _ = type_of(alloc, known, line, value)?;
        }
    }
    Ok(())
}
