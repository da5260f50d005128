//! The fields of a memory.
ghost use Rattle.gg_read_row.specs.inside.Reading.{Reads, Finds, last_type_at, last_natural_at, read_under_write_at, last_read_under_write_at, field_at};

use crate::cursor::{Cursor, RowFault};
use crate::expression::ground_type;
use gg_ast::{FieldWord, GroundType, MemoryField, ReadUnderWrite};
use std::alloc::Global;

// The value of a field, after its word and `=>`.
pub(crate) fn field(
    alloc: Global,
    cursor: &mut Cursor,
    word: FieldWord,
) -> Result<MemoryField, RowFault>
    ensures { Finds (λ f. f) result (field_at word cursor.old) }
{
    match word {
        FieldWord::DataType => Ok(MemoryField::DataType(last_type(cursor)?)),
        FieldWord::Depth => Ok(MemoryField::Depth(last_natural(cursor)?)),
        FieldWord::ReadLatency => Ok(MemoryField::ReadLatency(last_natural(cursor)?)),
        FieldWord::WriteLatency => Ok(MemoryField::WriteLatency(last_natural(cursor)?)),
        FieldWord::Reader => Ok(MemoryField::Readers(cursor.names(alloc)?)),
        FieldWord::Writer => Ok(MemoryField::Writers(cursor.names(alloc)?)),
        FieldWord::ReadUnderWrite => Ok(MemoryField::ReadUnderWrite(last_read_under_write(
            cursor,
        )?)),
    }
}

// A type up to the end.
fn last_type(cursor: &mut Cursor) -> Result<GroundType, RowFault>
    ensures { Finds (λ ty. ty) result (last_type_at cursor.old) }
{
    let ty = ground_type(cursor)?;
    cursor.end()?;
    Ok(ty)
}

// A number up to the end.
fn last_natural(cursor: &mut Cursor) -> Result<u32, RowFault>
    ensures { Finds (λ n. n) result (last_natural_at cursor.old) }
{
    let n = cursor.natural()?;
    cursor.end()?;
    Ok(n)
}

// `old`, `new` or `undefined`.
fn read_under_write(cursor: &mut Cursor) -> Result<ReadUnderWrite, RowFault>
    ensures { Reads (λ w. w) result cursor.new (read_under_write_at cursor.old) }
{
    if cursor.skip_word("old") {
        return Ok(ReadUnderWrite::Old);
    }
    if cursor.skip_word("new") {
        return Ok(ReadUnderWrite::New);
    }
    cursor.word("undefined")?;
    Ok(ReadUnderWrite::Undefined)
}

// One of these words up to the end.
fn last_read_under_write(cursor: &mut Cursor) -> Result<ReadUnderWrite, RowFault>
    ensures { Finds (λ w. w) result (last_read_under_write_at cursor.old) }
{
    let word = read_under_write(cursor)?;
    cursor.end()?;
    Ok(word)
}
