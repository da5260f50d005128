//! The text of a snapshot, line by line.
ghost use Rattle.std.specs.Prelude.{◌≡◌, ◌++◌, ◌<◌, ◌≤◌, ◌+◌, OnOk, IfOk, string_bytes};
ghost use Rattle.std.specs.Char.{digit_char};
ghost use Rattle.std.specs.List.{concat};
ghost use Rattle.gg_flat.specs.State.{IsState};
ghost use Rattle.gg_flat.specs.Circuit.{FlatCircuit};
ghost use Rattle.gg_trace.specs.Printing.{hex_digits};
ghost use Rattle.gg_snap.specs.inside.Draft.{HasValue};
ghost use Rattle.gg_snap.specs.text.Known.{AreKnown, IsKnown};
ghost use Rattle.gg_snap.specs.text.Lines.{address_text, cycle_line, line_of, row_lines, shown, snap_text, value_lines, value_of};

use crate::text::row::{At, Row, word_of};
use gg_bits::Name;
use gg_order::State;
use itoa::Buffer;
use std::alloc::{AllocError, Global};

// The character of a hexadecimal digit, in lower case.
fn digit_of(digit: u32) -> char
    requires { digit < 16 }
    ensures { result ≡ digit_char digit }
{
    char::from_digit(digit, 16).unwrap()
}

// Writes the last `digits` digits of a value at the end of a text, in hexadecimal.
fn push_digits(text: &mut String, value: u128, digits: u32) -> Result<(), AllocError>
    requires { digits ≤ 32 }
    ensures { OnOk result (string_bytes text.new ≡ string_bytes text.old ++ hex_digits digits value) }
{
    let mut place = digits;
    while place > 0 {
        place -= 1;
        text.push(digit_of(((value >> (4 * place)) % 16) as u32))?;
    }
    Ok(())
}

// Writes the address of a memory's word and a blank at the end of a text.
fn push_address(text: &mut String, at: At, address: u32) -> Result<(), AllocError>
    ensures { OnOk result (string_bytes text.new ≡ string_bytes text.old ++ address_text at address) }
{
    match at {
        At::Words(_) => {
            let mut buffer = Buffer::new();
            text.push_str(buffer.format(address))?;
            text.push_str(" ")
        }
        At::Register(_) | At::Read(_, _) => Ok(()),
    }
}

// Writes the line of a value at the end of a text.
pub(crate) fn push_line(
    text: &mut String,
    row: &Row,
    address: u32,
    value: u128,
) -> Result<(), AllocError>
    requires { row.now.width ≤ 128 }
    ensures { OnOk result (string_bytes text.new ≡ string_bytes text.old ++ line_of row.now address value) }
{
    text.push_str(word_of(row.kind))?;
    text.push_str(row.path.as_str())?;
    text.push_str(" ")?;
    push_address(text, row.at, address)?;
    push_digits(text, value, (row.width + 3) / 4)?;
    text.push_str("\n")
}

// The value of a row at an address.
fn value_of(state: &State, at: At, address: u32) -> u128
    requires { HasValue state.now at address }
    ensures { result ≡ value_of state.now at address }
{
    match at {
        At::Register(register) => state.registers()[register as usize],
        At::Read(memory, reader) => state.banks()[memory as usize].reads()[reader as usize],
        At::Words(memory) => state.banks()[memory as usize].words()[address as usize],
    }
}

// Writes the line of a value at the end of a text, if the value isn't 0.
fn push_shown(text: &mut String, row: &Row, address: u32, value: u128) -> Result<(), AllocError>
    requires { row.now.width ≤ 128 }
    ensures { OnOk result (string_bytes text.new ≡ string_bytes text.old ++ concat (shown row.now address value)) }
{
    if value == 0 {
        return Ok(());
    }
    push_line(text, row, address, value)
}

// Writes the lines of a row at the end of a text.
fn push_row(text: &mut String, row: &Row, state: &State) -> Result<(), AllocError>
    requires known { (circuit : FlatCircuit) × IsKnown circuit row.now × IsState circuit state.now }
    ensures { OnOk result (string_bytes text.new ≡ string_bytes text.old ++ concat (row_lines state.now row.now)) }
{
    for address in 0..row.count {
        push_shown(text, row, address, value_of(state, row.at, address))?;
    }
    Ok(())
}

// Writes the lines of some rows at the end of a text.
fn push_rows(text: &mut String, rows: &[Row], state: &State) -> Result<(), AllocError>
    requires known { (circuit : FlatCircuit) × AreKnown circuit rows.now × IsState circuit state.now }
    ensures { OnOk result (string_bytes text.new ≡ string_bytes text.old ++ concat (value_lines state.now rows.now)) }
{
    for row in rows {
        push_row(text, row, state)?;
    }
    Ok(())
}

// Writes the line of a cycle at the end of a text.
pub(crate) fn push_cycle(text: &mut String, cycle: u64) -> Result<(), AllocError>
    ensures { OnOk result (string_bytes text.new ≡ string_bytes text.old ++ cycle_line cycle) }
{
    let mut buffer = Buffer::new();
    text.push_str("cycle ")?;
    text.push_str(buffer.format(cycle))?;
    text.push_str("\n")
}

// The text of a snapshot with these rows.
pub(crate) fn text_of(
    alloc: Global,
    rows: &[Row],
    cycle: u64,
    state: &State,
) -> Result<Name, AllocError>
    requires known { (circuit : FlatCircuit) × AreKnown circuit rows.now × IsState circuit state.now }
    ensures { IfOk result (λ text. text ≡ snap_text rows.now cycle state.now) }
{
    let mut text = String::from_str(alloc, "golden snapshot 1\n")?;
    push_cycle(&mut text, cycle)?;
    push_rows(&mut text, rows, state)?;
    Ok(Name::from(text))
}
