//! The table of a design: the values of a snapshot of it, in the order of the lines.
ghost use Rattle.std.specs.Prelude.{◌≡◌, ◌≢◌, ◌<◌, ◌++◌, ◌+◌, ◌^◌, ℕ, Some, None, IfOk, OnOk, MatchOption, All, AllPairs, length};
ghost use Rattle.gg_flat_tree.specs.Tree.{path_at, memory_at};
ghost use Rattle.gg_flat.specs.WellFormed.{IsWellFormed};
ghost use Rattle.gg_snap.specs.declared.text.row.At.TheVariants.{Words};
ghost use Rattle.gg_snap.specs.declared.text.row.Kind.TheVariants as kind;
ghost use Rattle.gg_snap.specs.text.Known.{AreKnown, CanSave};
ghost use Rattle.gg_snap.specs.text.Table.{by_path, channel_of, memory_rows, pipe_row, read_row, register_row, rows_of, signal_row, signal_rows};

use crate::text::row::{At, Kind, Row};
use gg_bits::Name;
use gg_flat::{Driver, Memory, Piece};
use gg_flat_tree::Tree;
use gg_order::Design;
use std::alloc::{AllocError, Global};

// The name of a pipe's channel, if this is the path of a pipe.
fn channel_of(path: &Name) -> Option<&str>
    ensures { MatchOption result (channel_of path.now ≡ None) (λ channel. channel_of path.now ≡ Some channel.now) }
{
    path.as_str().strip_prefix("pipe:")
}

// A row with one value.
fn row_of(kind: Kind, path: Name, width: u32, at: At) -> Row
    ensures { result ≡ record { kind = kind; path = path; width = width; count = 1; at = at } }
{
    Row {
        kind,
        path,
        width,
        count: 1,
        at,
    }
}

// Adds the row of a signal, if it holds a register that is no pipe.
fn add_register(
    rows: &mut Vec<Row>,
    path: &Name,
    width: u32,
    driver: &Driver,
) -> Result<(), AllocError>
    ensures { OnOk result (rows.new.items ≡ rows.old.items ++ register_row path.now width driver.now) }
{
    match driver {
        Driver::Held(register) => {
            if channel_of(path).is_some() {
                return Ok(());
            }
            rows.push(row_of(
                Kind::Register,
                path.clone()?,
                width,
                At::Register(*register),
            ))?;
            Ok(())
        }
        _ => Ok(()),
    }
}

// Adds the row of a signal, if it is a pipe.
fn add_pipe(
    alloc: Global,
    rows: &mut Vec<Row>,
    path: &Name,
    width: u32,
    driver: &Driver,
) -> Result<(), AllocError>
    ensures { OnOk result (rows.new.items ≡ rows.old.items ++ pipe_row path.now width driver.now) }
{
    match driver {
        Driver::Held(register) => {
            let Some(channel) = channel_of(path) else {
                return Ok(());
            };
            let channel = Name::from_str(alloc, channel)?;
            rows.push(row_of(Kind::Pipe, channel, width, At::Register(*register)))?;
            Ok(())
        }
        _ => Ok(()),
    }
}

// Adds the row of a signal, if it gives a read register.
fn add_read(rows: &mut Vec<Row>, path: &Name, width: u32, driver: &Driver) -> Result<(), AllocError>
    ensures { OnOk result (rows.new.items ≡ rows.old.items ++ read_row path.now width driver.now) }
{
    match driver {
        Driver::ReadRegister(memory, reader) => {
            rows.push(row_of(Kind::Read, path.clone()?, width, At::Read(*memory, *reader)))?;
            Ok(())
        }
        _ => Ok(()),
    }
}

// The path of a signal.
fn path_of(piece: &Piece, signal: u32) -> &Name
    requires formed { IsWellFormed piece.now }
    requires known { signal < length piece.now.signals }
    ensures { result.now ≡ path_at piece.now.paths signal }
{
    match piece.path(signal) {
        Some(path) => path,
        None => unreachable!(),
    }
}

// Adds the rows of this kind that a signal gives. A memory's row isn't one of a signal.
fn add_row(
    alloc: Global,
    rows: &mut Vec<Row>,
    kind: Kind,
    path: &Name,
    width: u32,
    driver: &Driver,
) -> Result<(), AllocError>
    ensures { OnOk result (rows.new.items ≡ rows.old.items ++ signal_row kind path.now width driver.now) }
{
    match kind {
        Kind::Register => add_register(rows, path, width, driver),
        Kind::Read => add_read(rows, path, width, driver),
        Kind::Pipe => add_pipe(alloc, rows, path, width, driver),
        Kind::Memory => Ok(()),
    }
}

// The rows of this kind that the signals give, in the order of the signals.
fn signal_rows(alloc: Global, piece: &Piece, kind: Kind) -> Result<Vec<Row>, AllocError>
    requires { IsWellFormed piece.now }
    ensures { IfOk result (λ rows. rows.items ≡ signal_rows kind piece.now) }
{
    let mut rows = Vec::new(alloc);
    let count = piece.signal_count();
    for s in 0..count {
        let signal = &piece.signals()[s];
        let path = path_of(piece, s as u32);
        add_row(
            alloc,
            &mut rows,
            kind,
            path,
            signal.ty.width,
            &signal.driver,
        )?;
    }
    Ok(rows)
}

// The path of the memory at a place of the tree.
fn memory_path(tree: &Tree, place: u32) -> &Name
    requires { place < length tree.now.memories }
    ensures { result.now ≡ path_at tree.now.memory_paths place }
{
    // for the invariant only
    let _ = tree.memory_count();
    match tree.memory_path(place) {
        Some(path) => path,
        None => unreachable!(),
    }
}

// How many words a memory has.
fn depth_of(memory: &Memory) -> u32
    ensures { result ≡ memory.now.depth }
{
    memory.depth
}

// The row of a memory.
fn row_of_memory(path: Name, number: u32, memory: &Memory) -> Row
    ensures row { result ≡ record { kind = kind.Memory; path = path; width = memory.now.word.width; count = memory.now.depth; at = Words number } }
    ensures few { result.count < 2 ^ 32 }
{
    Row {
        kind: Kind::Memory,
        path,
        width: memory.word.width,
        count: depth_of(memory),
        at: At::Words(number),
    }
}

// The rows of memories, in the order of the tree.
fn memory_rows(alloc: Global, piece: &Piece, tree: &Tree) -> Result<Vec<Row>, AllocError>
    requires { (place : ℕ) → place < length tree.now.memories → (memory_at tree.now place).memory < length piece.now.memories }
    ensures rows { IfOk result (λ rows. rows.items ≡ memory_rows piece.now tree.now) }
    ensures few { IfOk result (λ rows. All (λ row. row.count < 2 ^ 32) rows.items) }
{
    let mut rows = Vec::new(alloc);
    let count = tree.memory_count();
    for place in 0..count {
        let number = tree.memories()[place].memory;
        let memory = &piece.memories()[number as usize];
        let path = memory_path(tree, place as u32).clone()?;
        let row = row_of_memory(path, number, memory);
        rows.push(row)?;
    }
    Ok(rows)
}

// Rows in the order of the bytes of their paths. No two have the same path.
fn sorted(rows: Vec<Row>) -> Vec<Row>
    requires { AllPairs (λ a b. a.path ≢ b.path) rows.items }
    ensures { result.items ≡ by_path rows.items }
{
    let mut rows = rows;
    rows.sort_unstable_by(|one, other| one.path.cmp(&other.path));
    rows
}

// The table of a design: registers, read registers, pipes and memories, each kind in the order of the bytes of the paths.
//
// # Errors
//
// Returns `AllocError` if an allocation fails.
pub(crate) fn rows_of(alloc: Global, design: &Design) -> Result<Vec<Row>, AllocError>
    requires { CanSave design.now.circuit design.now.tree }
    ensures rows { IfOk result (λ rows. rows.items ≡ rows_of design.now.circuit design.now.tree) }
    ensures known { IfOk result (λ rows. AreKnown design.now.circuit rows.items) }
{
    let piece = design.piece();
    let tree = design.tree();
    // for the invariant only
    let _ = tree.memory_count();
    let registers = signal_rows(alloc, piece, Kind::Register)?;
    let reads = signal_rows(alloc, piece, Kind::Read)?;
    let pipes = signal_rows(alloc, piece, Kind::Pipe)?;
    let memories = memory_rows(alloc, piece, tree)?;
    let mut rows = sorted(registers);
    let mut reads = sorted(reads);
    let mut pipes = sorted(pipes);
    let mut memories = sorted(memories);
    rows.append(&mut reads)?;
    rows.append(&mut pipes)?;
    rows.append(&mut memories)?;
    Ok(rows)
}
