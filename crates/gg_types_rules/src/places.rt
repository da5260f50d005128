//! Declared types, and positions with a rule of their own: clocks, conditions, connections.
ghost use Rattle.std.specs.Prelude.{◌≡◌, ◌≤◌, ◌<◌, ◌++◌, true, not, Some, length};
ghost use Rattle.gg_shape.specs.inside.Faults.{Answers};
ghost use Rattle.gg_shape.specs.Faults.{fault_if};
ghost use Rattle.gg_shape.specs.declared.fault.Fault.TheVariants.{WrongWidth};
ghost use Rattle.gg_types_rules.specs.inside.Known.{roles_seen, traced_seen, owned_seen};
ghost use Rattle.gg_types.specs.Types.{is_width, width_faults, stored_type_faults, clock_faults_in, clock_position, condition_faults_in, condition_position, connected as connected_faults, bits_connected};

use crate::expression::{type_of, wrong_kind};
use crate::known::Known;
use gg_ast::{Expr, GroundType};
use gg_bits::Kind;
use gg_shape::{CheckFault, Fault, Word};
use gg_types::{Sort, is_width};
use std::alloc::Global;

// Refuses the type of a port or a wire if its width is 0 or above 128.
pub(crate) fn declared_type(line: u64, ty: GroundType) -> Result<(), CheckFault>
    ensures { Answers (width_faults line ty) result }
{
    match ty {
        GroundType::UInt(width) | GroundType::SInt(width) => judged_width(line, width),
        GroundType::Clock => Ok(()),
    }
}

// Refuses the type of a register or of a memory's words if it is a Clock, or if its width is 0 or above 128.
pub(crate) fn stored_type(line: u64, word: Word, ty: GroundType) -> Result<(), CheckFault>
    ensures { Answers (stored_type_faults line word ty) result }
{
    match ty {
        GroundType::UInt(width) | GroundType::SInt(width) => judged_width(line, width),
        GroundType::Clock => wrong_kind(line, word),
    }
}

// Refuses a width that is 0 or above 128.
fn judged_width(line: u64, width: u32) -> Result<(), CheckFault>
    ensures { Answers (fault_if (not (is_width width)) (WrongWidth line width)) result }
{
    if !is_width(width) {
        return Err(CheckFault::F(Fault::WrongWidth { line, width }));
    }
    Ok(())
}

// Refuses an expression in a clock position that is not a reference of type Clock.
pub(crate) fn clock(
    alloc: Global,
    known: &Known,
    line: u64,
    word: Word,
    value: &Expr,
) -> Result<(), CheckFault>
    ensures { Answers (clock_faults_in (roles_seen known.now) (traced_seen known.now) (owned_seen known.now) line word value.now) result }
{
    let sort = type_of(alloc, known, line, value)?;
    only_clock(line, word, sort)
}

// Refuses the type of an expression in a clock position if it isn't Clock.
fn only_clock(line: u64, word: Word, sort: Sort) -> Result<(), CheckFault>
    ensures { Answers (clock_position line word (Some sort)) result }
{
    match sort {
        Sort::Bits(_, _) => wrong_kind(line, word),
        Sort::Clock => Ok(()),
    }
}

// Refuses a condition that is not `UInt<1>`.
pub(crate) fn condition(
    alloc: Global,
    known: &Known,
    line: u64,
    word: Word,
    value: &Expr,
) -> Result<(), CheckFault>
    ensures { Answers (condition_faults_in (roles_seen known.now) (traced_seen known.now) (owned_seen known.now) line word value.now) result }
{
    let sort = type_of(alloc, known, line, value)?;
    only_condition(line, word, sort)
}

// Refuses the type of a condition if it isn't `UInt<1>`.
fn only_condition(line: u64, word: Word, sort: Sort) -> Result<(), CheckFault>
    ensures { Answers (condition_position line word (Some sort)) result }
{
    match sort {
        Sort::Bits(Kind::UInt, 1) => Ok(()),
        Sort::Bits(_, _) | Sort::Clock => wrong_kind(line, word),
    }
}

// Fails with the first fault of a clock and of the condition after it.
pub(crate) fn clocked(
    alloc: Global,
    known: &Known,
    line: u64,
    word: Word,
    tick: &Expr,
    test: &Expr,
) -> Result<(), CheckFault>
    ensures { Answers (clock_faults_in (roles_seen known.now) (traced_seen known.now) (owned_seen known.now) line word tick.now
        ++ condition_faults_in (roles_seen known.now) (traced_seen known.now) (owned_seen known.now) line word test.now)
        result }
{
    clock(alloc, known, line, word, tick)?;
    condition(alloc, known, line, word, test)
}

// Refuses a value if its type can't be connected to a sink.
pub(crate) fn connected(line: u64, word: Word, sink: Sort, source: Sort) -> Result<(), CheckFault>
    ensures { Answers (connected_faults line word (Some sink) (Some source)) result }
{
    match (sink, source) {
        (Sort::Bits(ks, wide), Sort::Bits(kv, narrow)) => {
            connected_bits(line, word, ks, wide, kv, narrow)
        }
        (Sort::Clock, Sort::Clock) => Ok(()),
        (Sort::Bits(_, _), Sort::Clock) | (Sort::Clock, Sort::Bits(_, _)) => wrong_kind(line, word),
    }
}

// Refuses a ground type that can't be connected to a sink of another.
fn connected_bits(
    line: u64,
    word: Word,
    sink_kind: Kind,
    sink: u32,
    source_kind: Kind,
    source: u32,
) -> Result<(), CheckFault>
    ensures { Answers (bits_connected line word sink_kind sink source_kind source) result }
{
    if sink_kind != source_kind {
        return wrong_kind(line, word);
    }
    if source > sink {
        return Err(CheckFault::F(Fault::TooWide { line, source, sink }));
    }
    Ok(())
}
