//! The ports of a memory, and the names that are reached through them.
ghost use Rattle.std.specs.Prelude.{◌≡◌, ◌++◌, [], ◌∷◌, List, ℕ, IfOk, OnOk};
ghost use Rattle.gg_shape_names.specs.Along.{along};
ghost use Rattle.gg_ast.specs.declared.statement.Field.{Field as Fields};
ghost use Rattle.gg_shape_names.specs.Memory.{port_fields};
ghost use Rattle.gg_shape_names.specs.inside.Memory.{field_of as field_written};
ghost use Rattle.gg_shape_names.specs.inside.Repetitions.{Tells};
ghost use Rattle.gg_shape_names.specs.Repetitions.{repeated_in, repeated_in_field, repeated_port_of};
ghost use Rattle.gg_shape_names.specs.inside.Tables.{HaveSame, HavePorts, IsEither, role_of_field};
ghost use Rattle.gg_shape_names.specs.declared.role.PortKind.TheVariants.{Writer as AWriter};

use crate::fault::{NamesFault, Repetition};
use crate::role::{PortField, PortKind, Role};
use crate::table::Words;
use gg_ast::{Field, MemoryField};
use gg_bits::Name;
use std::alloc::Global;

// The ports of a memory.
#[derive(Drop)]
pub(crate) struct Ports<'a> {
    // The readers.
    pub(crate) readers: Words<'a>,
    // The writers.
    pub(crate) writers: Words<'a>,
}

// The ports that the fields of a memory name; fails at the first that comes twice.
pub(crate) fn memory_ports<'a>(alloc: Global, fields: &'a [Field]) -> Result<Ports<'a>, NamesFault>
    ensures tells { Tells (along repeated_in_field fields.now) result }
    ensures ports { IfOk result (λ ports. HavePorts fields.now ports.readers ports.writers) }
{
    let mut ports = Ports {
        readers: Words::new(alloc),
        writers: Words::new(alloc),
    };
    for field in fields {
        add_ports(&mut ports, field)?;
    }
    Ok(ports)
}

// Adds the ports that a field names to the ports of the fields before it.
fn add_ports<'a>(ports: &mut Ports<'a>, field: &'a Field) -> Result<(), NamesFault>
    ensures tells { (before : List Fields) → HavePorts before ports.old.readers ports.old.writers → Tells (repeated_in_field before field.now) result }
    ensures ports { (before : List Fields) → HavePorts before ports.old.readers ports.old.writers → OnOk result (HavePorts (before ++ field.now ∷ []) ports.new.readers ports.new.writers) }
{
    match &field.kind {
        MemoryField::Readers(names) => add_words(
            &mut ports.readers,
            &ports.writers,
            field.line,
            names.as_slice(),
        ),
        MemoryField::Writers(names) => add_words(
            &mut ports.writers,
            &ports.readers,
            field.line,
            names.as_slice(),
        ),
        MemoryField::DataType(_)
        | MemoryField::Depth(_)
        | MemoryField::ReadLatency(_)
        | MemoryField::WriteLatency(_)
        | MemoryField::ReadUnderWrite(_) => Ok(()),
    }
}

// Adds the names of a line to `words`; fails at the first that is already one of them, or one of the others.
fn add_words<'a>(
    words: &mut Words<'a>,
    others: &Words<'a>,
    line: u64,
    names: &'a [Name],
) -> Result<(), NamesFault>
    ensures tells { (earlier : List (List ℕ)) → IsEither earlier words.old others.now → Tells (along (repeated_port_of earlier line) names.now) result }
    ensures words { OnOk result (HaveSame words.new (words.old ++ names.now)) }
{
    for name in names {
        fresh(words, others, line, name)?;
        words.add(name)?;
    }
    Ok(())
}

// Fails if a name is one of the words or one of the others.
fn fresh(words: &Words, others: &Words, line: u64, name: &Name) -> Result<(), NamesFault>
    ensures { (earlier : List (List ℕ)) → IsEither earlier words.now others.now → Tells (repeated_in earlier line name.now) result }
{
    if words.contains(name) || others.contains(name) {
        return Err(NamesFault::Repeated(Repetition {
            line,
            name: name.clone()?,
        }));
    }
    Ok(())
}

// The field of a port with this text, or none if ports of this kind have no such field.
pub(crate) fn field_of(kind: PortKind, name: &Name) -> Option<PortField>
    ensures { result ≡ field_written name.now (port_fields kind) }
{
    let field = field_named(name.as_str())?;
    match (kind, field) {
        (PortKind::Reader, PortField::Mask) => None,
        (PortKind::Reader | PortKind::Writer, _) => Some(field),
    }
}

// The field with this text.
fn field_named(name: &str) -> Option<PortField>
    ensures { result ≡ field_written name.now (port_fields AWriter) }
{
    match name {
        "addr" => Some(PortField::Addr),
        "en" => Some(PortField::En),
        "clk" => Some(PortField::Clk),
        "data" => Some(PortField::Data),
        "mask" => Some(PortField::Mask),
        _ => None,
    }
}

// The role of the field of a port with these texts, by the memory's readers and writers, or none if there is no such
// port or field.
pub(crate) fn field_role(
    readers: &Words,
    writers: &Words,
    port: &Name,
    field: &Name,
) -> Option<Role>
    ensures { result ≡ role_of_field readers.now writers.now port.now field.now }
{
    if readers.contains(port) {
        if let Some(found) = field_of(PortKind::Reader, field) {
            return Some(Role::MemoryPort(PortKind::Reader, found));
        }
    }
    if writers.contains(port) {
        if let Some(found) = field_of(PortKind::Writer, field) {
            return Some(Role::MemoryPort(PortKind::Writer, found));
        }
    }
    None
}
