//! The fields of a memory, and the memory that they make (FIRRTL Specification, "Memories").
ghost use Rattle.std.specs.Prelude.{◌≡◌, ◌++◌, map, flat_map, option_map, IfOk, OnOk};
ghost use Rattle.gg_bits.specs.Shape.{shape, of_kind};
ghost use Rattle.gg_ast.specs.declared.statement.Field.{Field};
ghost use Rattle.gg_types.specs.Fields.{first_said, type_said, depth_said};
ghost use Rattle.gg_types.specs.Memories.{type_shape, sized as sized_shape, latency_said, under_said, under_write, readers_said, writers_said, latency_of, bank_of, bank_with};
ghost use Rattle.gg_types.specs.inside.Memories.{bank_seen};

use gg_ast::{Field, GroundType, MemoryField, ReadUnderWrite};
use gg_bits::{Kind, Name, Ty};
use gg_flat::{Latency, UnderWrite};
use std::alloc::{AllocError, Global};

/// A memory: its words, how many there are, its latency, and the names of its ports in the order of the file.
pub struct Bank<'a> {
    pub word: Ty,
    pub depth: u32,
    pub latency: Latency,
    pub readers: Vec<&'a Name>,
    pub writers: Vec<&'a Name>,
}

impl Drop for Bank<'_> {
    fn drop(self) {
        let Self {
            word: _,
            depth: _,
            latency: _,
            readers,
            writers,
        } = self;
        drop(readers);
        drop(writers);
    }
}

/// The type of a signal. None for a Clock, and for a width of 0 or above 128.
pub fn ground_type(ty: GroundType) -> Option<Ty>
    ensures { option_map (λ t. shape t) result ≡ type_shape ty }
{
    match ty {
        GroundType::UInt(width) => sized(Kind::UInt, width),
        GroundType::SInt(width) => sized(Kind::SInt, width),
        GroundType::Clock => None,
    }
}

// A type of this width, if the width is 1 to 128.
fn sized(kind: Kind, width: u32) -> Option<Ty>
    ensures { option_map (λ t. shape t) result ≡ sized_shape width (of_kind kind width) }
{
    if width >= 1 && width <= 128 {
        Some(Ty::new(kind, width))
    } else {
        None
    }
}

/// The type of a memory's words. None if no field has it.
pub fn said_type(fields: &[Field]) -> Option<GroundType>
    ensures { result ≡ first_said type_said fields.now }
{
    for field in fields {
        if let MemoryField::DataType(ty) = &field.kind {
            return Some(*ty);
        }
    }
    None
}

/// How many words a memory has. None if no field says so.
pub fn said_depth(fields: &[Field]) -> Option<u32>
    ensures { result ≡ first_said depth_said fields.now }
{
    for field in fields {
        if let MemoryField::Depth(depth) = &field.kind {
            return Some(*depth);
        }
    }
    None
}

// The read latency.
fn said_latency(fields: &[Field]) -> Option<u32>
    ensures { result ≡ first_said latency_said fields.now }
{
    for field in fields {
        if let MemoryField::ReadLatency(latency) = &field.kind {
            return Some(*latency);
        }
    }
    None
}

// What a reader of latency 1 gets if its word is written in the same cycle.
fn said_under(fields: &[Field]) -> Option<UnderWrite>
    ensures { result ≡ first_said under_said fields.now }
{
    for field in fields {
        if let MemoryField::ReadUnderWrite(word) = &field.kind {
            return Some(under_write(*word));
        }
    }
    None
}

fn under_write(word: ReadUnderWrite) -> UnderWrite
    ensures { result ≡ under_write word }
{
    match word {
        ReadUnderWrite::Old => UnderWrite::Old,
        ReadUnderWrite::New => UnderWrite::New,
        ReadUnderWrite::Undefined => UnderWrite::Undefined,
    }
}

// The latency of this number of cycles, if it is 0 or 1.
fn latency_of(under: UnderWrite, cycles: u32) -> Option<Latency>
    ensures { result ≡ latency_of under cycles }
{
    match cycles {
        0 => Some(Latency::Zero),
        1 => Some(Latency::One(under)),
        _ => None,
    }
}

// Adds names to the end of a list.
fn add_names<'a>(names: &mut Vec<&'a Name>, more: &'a [Name]) -> Result<(), AllocError>
    ensures { OnOk result (map (λ n. n.now) names.new.items ≡ map (λ n. n.now) names.old.items ++ more.now) }
{
    for name in more {
        names.reserve(1)?;
        names.push_reserved(name);
    }
    Ok(())
}

// The names of the readers.
fn readers<'a>(alloc: Global, fields: &'a [Field]) -> Result<Vec<&'a Name>, AllocError>
    ensures { IfOk result (λ names. map (λ n. n.now) names.items ≡ flat_map (λ (f : Field). readers_said f.kind) fields.now) }
{
    let mut names = Vec::new(alloc);
    for field in fields {
        if let MemoryField::Readers(more) = &field.kind {
            add_names(&mut names, more.as_slice())?;
        }
    }
    Ok(names)
}

// The names of the writers.
fn writers<'a>(alloc: Global, fields: &'a [Field]) -> Result<Vec<&'a Name>, AllocError>
    ensures { IfOk result (λ names. map (λ n. n.now) names.items ≡ flat_map (λ (f : Field). writers_said f.kind) fields.now) }
{
    let mut names = Vec::new(alloc);
    for field in fields {
        if let MemoryField::Writers(more) = &field.kind {
            add_names(&mut names, more.as_slice())?;
        }
    }
    Ok(names)
}

// The memory with these parts, if it has a type, at least one word and a latency.
fn bank_with<'a>(
    word: Option<Ty>,
    depth: u32,
    latency: Option<Latency>,
    readers: Vec<&'a Name>,
    writers: Vec<&'a Name>,
) -> Option<Bank<'a>>
    ensures { option_map bank_seen result ≡ bank_with (option_map (λ t. shape t) word) depth latency (map (λ n. n.now) readers.entry.items) (map (λ n. n.now) writers.entry.items) }
{
    match (word, latency) {
        (Some(word), Some(latency)) if depth > 0 => Some(Bank {
            word,
            depth,
            latency,
            readers,
            writers,
        }),
        _ => None,
    }
}

/// The memory that fields make. None if they have no type, no word or no latency of 0 or 1.
///
/// # Errors
///
/// Returns `AllocError` if an allocation fails.
pub fn bank_of<'a>(alloc: Global, fields: &'a [Field]) -> Result<Option<Bank<'a>>, AllocError>
    ensures { IfOk result (λ bank. option_map bank_seen bank ≡ bank_of fields.now) }
{
    let word = match said_type(fields) {
        Some(ty) => ground_type(ty),
        None => None,
    };
    let under = said_under(fields).unwrap_or(UnderWrite::Undefined);
    let latency = match said_latency(fields) {
        Some(cycles) => latency_of(under, cycles),
        None => None,
    };
    let depth = said_depth(fields).unwrap_or(0);
    let readers = readers(alloc, fields)?;
    let writers = writers(alloc, fields)?;
    Ok(bank_with(word, depth, latency, readers, writers))
}
