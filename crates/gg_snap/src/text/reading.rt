//! Reading of a snapshot's lines.
ghost use Rattle.std.specs.Prelude.{◌≡◌, ◌≢◌, ℕ, ◌+◌, ◌<◌, ◌≤◌, ◌^◌, ◌++◌, Some, None, IfOk, IfSome, MatchOption, IsTrue, ◌↔◌, length, true};
ghost use Rattle.std.specs.Bool.{OnTrue, OnFalse};
ghost use Rattle.std.specs.Option.{option_copied};
ghost use Rattle.gg_flat.specs.Circuit.{FlatCircuit};
ghost use Rattle.gg_flat.specs.State.{IsState, opening};
ghost use Rattle.gg_snap.specs.text.Known.{AreKnown, IsKnown};
ghost use Rattle.gg_snap.specs.text.Lines.{head_of, line_of};
ghost use Rattle.gg_snap.specs.inside.Places.{Ends, Finds, IsLineOfNone, IsTaken, behind};

use crate::text::cutting::cut_piece;
use crate::text::draft::StateDraft;
use crate::text::parsing::{after_head, cell_of};
use crate::text::row::Row;
use crate::text::writing::push_line;
use gg_trace::same_bytes;
use std::alloc::{AllocError, Global};

// How far a table was gone through: the row, and the address in it, that may come next.
#[derive(Clone, Copy)]
pub(crate) struct Cursor {
    // The row, by its place.
    pub(crate) row: usize,
    pub(crate) address: u32,
}

// Whether a value has no bit at `width` or above it.
fn fits(value: u128, width: u32) -> bool
    requires { width ≤ 128 }
    ensures { IsTrue result ↔ (value < 2 ^ width) }
{
    width == 128 || value < 1 << width
}

// Whether a line is the line of this value of a row.
fn is_line(
    text: &mut String,
    row: &Row,
    address: u32,
    value: u128,
    line: &[u8],
) -> Result<bool, AllocError>
    requires { row.now.width ≤ 128 }
    ensures { IfOk result (λ is. OnTrue is (line.now ≡ line_of row.now address value) × OnFalse is (line.now ≢ line_of row.now address value)) }
{
    text.clear();
    push_line(text, row, address, value)?;
    Ok(same_bytes(text.as_bytes(), line))
}

// Whether a row can have this value at this address, which isn't below `from`. It may not be 0.
fn is_cell(row: &Row, from: u32, address: u32, value: u128) -> bool
    requires { row.now.width ≤ 128 }
    ensures { IsTrue result ↔ ((from ≤ address) × (address < row.now.count) × (0 < value) × (value < 2 ^ row.now.width)) }
{
    from <= address && address < row.count && value > 0 && fits(value, row.width)
}

// The address, not below `from`, and the value of a row that a line spells. `rest` is the line without the row's head.
fn cell_at(
    text: &mut String,
    row: &Row,
    from: u32,
    line: &[u8],
    rest: &[u8],
) -> Result<Option<(u32, u128)>, AllocError>
    requires known { (circuit : FlatCircuit) × IsKnown circuit row.now }
    requires head { line.now ≡ head_of row.now ++ rest.now }
    ensures { IfOk result (λ cell. MatchOption cell
        ((address value : ℕ) → from ≤ address → address < row.now.count → 0 < value → value < 2 ^ row.now.width → line.now ≢ line_of row.now address value)
        (λ cell. (from ≤ cell.0) × (cell.0 < row.now.count) × (0 < cell.1) × (cell.1 < 2 ^ row.now.width) × (line.now ≡ line_of row.now cell.0 cell.1))) }
{
    let Some((address, value)) = cell_of(row, rest) else {
        return Ok(None);
    };
    if !is_cell(row, from, address, value) {
        return Ok(None);
    }
    if !is_line(text, row, address, value, line)? {
        return Ok(None);
    }
    Ok(Some((address, value)))
}

// Moves the cursor to the first row with a head that the line begins with, and returns the rest of the line.
fn find<'a>(rows: &[Row], cursor: &mut Cursor, line: &'a [u8]) -> Option<&'a [u8]>
    requires known { (circuit : FlatCircuit) × AreKnown circuit rows.now }
    requires within { cursor.old.row ≤ length rows.now }
    ensures { Finds rows.now line.now cursor.old cursor.new (option_copied result) }
{
    while cursor.row < rows.len() {
        let row = &rows[cursor.row];
        if let Some(rest) = after_head(line, row) {
            return Some(rest);
        }
        cursor.row += 1;
        cursor.address = 0;
    }
    None
}

// Takes a line, if it can come after the lines that were taken: its value goes into the draft.
fn take_line(
    rows: &[Row],
    cursor: &mut Cursor,
    draft: &mut StateDraft,
    text: &mut String,
    line: &[u8],
) -> Result<bool, AllocError>
    requires known { (circuit : FlatCircuit) × AreKnown circuit rows.now × IsState circuit draft.old }
    requires within { cursor.old.row ≤ length rows.now }
    ensures within { cursor.new.row ≤ length rows.now }
    ensures taken { IfOk result (λ taken. OnTrue taken (IsTaken (behind rows.now cursor.old) (behind rows.now cursor.new) line.now draft.old draft.new)) }
    ensures refused { IfOk result (λ taken. OnFalse taken (IsLineOfNone line.now (behind rows.now cursor.old))) }
    ensures kept { IfOk result (λ taken. OnFalse taken (draft.new ≡ draft.old)) }
{
    let Some(rest) = find(rows, cursor, line) else {
        return Ok(false);
    };
    let row = &rows[cursor.row];
    let Some((address, value)) = cell_at(text, row, cursor.address, line, rest)? else {
        return Ok(false);
    };
    draft.set(row.at, address, value);
    cursor.address = address + 1;
    Ok(true)
}

// Takes the lines of a text, one after another. Returns how many were taken before one that can't come after them, or none if all were taken.
pub(crate) fn take_lines(
    alloc: Global,
    rows: &[Row],
    draft: &mut StateDraft,
    text: &[u8],
) -> Result<Option<u64>, AllocError>
    requires known { (circuit : FlatCircuit) × AreKnown circuit rows.now × (draft.old ≡ opening circuit) }
    ensures few { IfOk result (λ stop. IfSome stop (λ k. k < length text.now)) }
    ensures ends { IfOk result (λ stop. (circuit : FlatCircuit) → AreKnown circuit rows.now → draft.old ≡ opening circuit → IsState circuit draft.new × Ends circuit rows.now text.now draft.new stop) }
{
    let mut line = String::new(alloc);
    let mut cursor = Cursor { row: 0, address: 0 };
    let mut rest = text;
    let mut count = 0;
    while !rest.is_empty() {
        let (piece, after) = cut_piece(rest);
        if !take_line(rows, &mut cursor, draft, &mut line, piece)? {
            return Ok(Some(count));
        }
        rest = after;
        count += 1;
    }
    Ok(None)
}
