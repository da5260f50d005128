//! The fields of a memory (FIRRTL Specification, "Memories").
ghost use Rattle.std.specs.Prelude.{◌≡◌};
ghost use Rattle.gg_shape.specs.inside.Faults.{Answers};
ghost use Rattle.gg_types.specs.Types.{field_faults, memory_type_faults};

use crate::places::stored_type;
use gg_ast::{Field, MemoryField};
use gg_shape::{CheckFault, Word};

// Fails at the first type among a memory's fields that is a Clock, or has a width of 0 or above 128.
pub(crate) fn judge_fields(fields: &[Field]) -> Result<(), CheckFault>
    ensures { Answers (memory_type_faults fields.now) result }
{
    for field in fields {
        judge_field(field.line, &field.kind)?;
    }
    Ok(())
}

// Fails if the type in a field is a Clock, or its width is 0 or above 128.
fn judge_field(line: u64, kind: &MemoryField) -> Result<(), CheckFault>
    ensures { Answers (field_faults line kind.now) result }
{
    match kind {
        MemoryField::DataType(ty) => stored_type(line, Word::Memory, *ty),
        MemoryField::Depth(_)
        | MemoryField::ReadLatency(_)
        | MemoryField::WriteLatency(_)
        | MemoryField::Readers(_)
        | MemoryField::Writers(_)
        | MemoryField::ReadUnderWrite(_) => Ok(()),
    }
}
