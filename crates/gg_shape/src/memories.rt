//! F8: memories' fields that are missing, come twice or are out of range.
ghost use Rattle.std.specs.Prelude.{◌≡◌, ℕ, List, flat_map, option_to_list};
ghost use Rattle.gg_shape.specs.inside.Faults.{Answers};
ghost use Rattle.gg_shape.specs.Memories.{given_by, given, is_right as stands_right, wrong_field, wrong_fields, wrong_times, wrong_by, memory_faults};
ghost use Rattle.gg_shape.specs.inside.Counted.{count_of, with_value};

use crate::fault::{CheckFault, Fault, MemoryKey};
use gg_ast::{Circuit, Field, MemoryField, Stmt, StmtKind};

// Refuses the first wrong field of the circuit's memories.
pub(crate) fn check_memories(circuit: &Circuit) -> Result<(), CheckFault>
    ensures { Answers (memory_faults circuit.now) result }
{
    for module in circuit.modules() {
        check_statements(module.statements())?;
    }
    Ok(())
}

// Refuses the first wrong field of the memories among these statements.
fn check_statements(statements: &[Stmt]) -> Result<(), CheckFault>
    ensures { Answers (flat_map wrong_by statements.now) result }
{
    for statement in statements {
        check_statement(statement)?;
    }
    Ok(())
}

// Refuses the first wrong field of a statement, if it is a memory.
fn check_statement(statement: &Stmt) -> Result<(), CheckFault>
    ensures { Answers (wrong_by statement.now) result }
{
    match &statement.kind {
        StmtKind::Memory { fields, .. } => check_fields(statement.line, fields.as_slice()),
        StmtKind::Wire { .. }
        | StmtKind::Node { .. }
        | StmtKind::Register { .. }
        | StmtKind::Instance { .. }
        | StmtKind::Connect { .. }
        | StmtKind::Invalid { .. }
        | StmtKind::Skip
        | StmtKind::Stop { .. }
        | StmtKind::Report { .. } => Ok(()),
    }
}

// Refuses the first wrong field of a memory that is declared on this line.
fn check_fields(line: u64, fields: &[Field]) -> Result<(), CheckFault>
    ensures { Answers (wrong_fields line fields.now) result }
{
    check_key(line, fields, MemoryKey::DataType)?;
    check_key(line, fields, MemoryKey::Depth)?;
    check_times(line, fields)
}

// Refuses the first wrong latency, and then a wrong read-under-write.
fn check_times(line: u64, fields: &[Field]) -> Result<(), CheckFault>
    ensures { Answers (wrong_times line fields.now) result }
{
    check_key(line, fields, MemoryKey::ReadLatency)?;
    check_key(line, fields, MemoryKey::WriteLatency)?;
    check_key(line, fields, MemoryKey::ReadUnderWrite)
}

// Refuses a memory if its fields for this key are wrong.
fn check_key(line: u64, fields: &[Field], key: MemoryKey) -> Result<(), CheckFault>
    ensures { Answers (wrong_field line fields.now key) result }
{
    if is_right(key, given_for(key, fields)) {
        Ok(())
    } else {
        Err(CheckFault::F(Fault::MemoryField { line, key }))
    }
}

// How often a key comes, and its number if it comes once.
#[derive(Clone, Copy)]
pub(crate) enum Given {
    // Not at all.
    Never,
    // Once, with this number.
    Once(u32),
    // More than once.
    Often,
}

// How often the fields of a memory have a key.
fn given_for(key: MemoryKey, fields: &[Field]) -> Given
    ensures { result ≡ count_of (given key fields.now) }
{
    let mut found = Given::Never;
    for field in fields {
        found = with(found, number_for(key, &field.kind));
    }
    found
}

// How often a key comes after one more field.
fn with(found: Given, number: Option<u32>) -> Given
    ensures { result ≡ with_value found (option_to_list number) }
{
    match (found, number) {
        (found, None) => found,
        (Given::Never, Some(number)) => Given::Once(number),
        (Given::Once(_) | Given::Often, Some(_)) => Given::Often,
    }
}

// The number of a field, if it has this key: 0 for a type and a word.
fn number_for(key: MemoryKey, field: &MemoryField) -> Option<u32>
    ensures { option_to_list result ≡ given_by key field.now }
{
    match (key, field) {
        (MemoryKey::DataType, MemoryField::DataType(_)) => Some(0),
        (MemoryKey::Depth, MemoryField::Depth(number)) => Some(*number),
        (MemoryKey::ReadLatency, MemoryField::ReadLatency(number)) => Some(*number),
        (MemoryKey::WriteLatency, MemoryField::WriteLatency(number)) => Some(*number),
        (MemoryKey::ReadUnderWrite, MemoryField::ReadUnderWrite(_)) => Some(0),
        (_, _) => None,
    }
}

// Whether a key comes as often as it should, with a valid number.
fn is_right(key: MemoryKey, found: Given) -> bool
    ensures { (numbers : List ℕ) → found ≡ count_of numbers → result ≡ stands_right key numbers }
{
    match (key, found) {
        (MemoryKey::DataType, Given::Once(_)) => true,
        (MemoryKey::Depth, Given::Once(depth)) => depth > 0,
        (MemoryKey::ReadLatency, Given::Once(latency)) => latency <= 1,
        (MemoryKey::WriteLatency, Given::Once(latency)) => latency == 1,
        (MemoryKey::ReadUnderWrite, Given::Never | Given::Once(_)) => true,
        (_, _) => false,
    }
}
