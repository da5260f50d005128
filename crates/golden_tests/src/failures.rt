//! Each command with each of its loads and each of its puts failing in turn, and refusals without an output that takes them. The calls are in
//! tables/printing.rt and tables/refused.rt.
use crate::calls::call;
use crate::outputs::{Full, Narrow, status_on};
use crate::row::Row;
use crate::tables::{printing, refused};
use crate::texts::edited;
use crate::ways::files_lent;
use gg_io::StreamSink;
use std::alloc::{AllocError, Global};
use std::test::Fail;
use std::thread::Threads;

// Whether a call ends with status 3 and this name, if the load of this number fails, which is the load of the file with this name.
fn is_unloaded<R: Threads + Sync>(
    rt: &R,
    alloc: Global,
    row: &Row<'_>,
    load: u64,
    name: &str,
) -> Result<bool, AllocError> {
    let files = files_lent(alloc, row.files.as_slice(), false)?;
    let loads = vec![in alloc; load]?;
    let (puts, err_puts) = (Vec::new(alloc), Vec::new(alloc));
    let answer = call(rt, alloc, row.words, files, loads, puts, err_puts)?;
    let line = format!(in alloc; "golden: cannot load {name}\n")?;
    Ok(answer.is(3, load.saturating_add(1), b"", line.as_bytes()))
}

// Whether it ends so for each of its loads in turn: a load for each word with a dot.
fn are_unloaded<R: Threads + Sync>(
    rt: &R,
    alloc: Global,
    row: &Row<'_>,
) -> Result<bool, AllocError> {
    let mut load: u64 = 0;
    for name in row.words.split(' ') {
        if name.contains('.') {
            if !is_unloaded(rt, alloc, row, load, name)? {
                return Ok(false);
            }
            load = load.saturating_add(1);
        }
    }
    Ok(row.end == Some((0, load)))
}

// Whether a call ends with status 4, and with a front of its text and of its line, if `out` takes `room` bytes and `err` takes `err_room`.
fn is_stopped<R: Threads + Sync>(
    rt: &R,
    alloc: Global,
    row: &Row<'_>,
    room: usize,
    err_room: usize,
) -> Result<bool, AllocError> {
    let mut out = Narrow::new(alloc, room);
    let mut err = Narrow::new(alloc, err_room);
    let mut sink = StreamSink::new(&mut out);
    let status = status_on(rt, alloc, row, &mut sink, &mut err)?;
    drop(sink);
    Ok(
        status == 4
            && out.holds_front(row.out.as_slice())
            && err.holds_front(b"golden: cannot write\n"),
    )
}

// Whether it ends so after each byte of its text. The line has 21 bytes: `err` fails after each of them too, or takes them all.
fn are_stopped<R: Threads + Sync>(
    rt: &R,
    alloc: Global,
    row: &Row<'_>,
) -> Result<bool, AllocError> {
    for room in 0..row.out.len() {
        if !is_stopped(rt, alloc, row, room, room % 22)? {
            return Ok(false);
        }
    }
    Ok(true)
}

// Whether a call ends with this status, this text and this line, if `out` has memory for this many puts.
fn ends_with_memory<R: Threads + Sync>(
    rt: &R,
    alloc: Global,
    row: &Row<'_>,
    room: u64,
    wanted: u8,
    text: &[u8],
    line: &str,
) -> Result<bool, AllocError> {
    let mut out = Full::new(alloc, room);
    let mut err = Narrow::new(alloc, 100);
    let status = status_on(rt, alloc, row, &mut out, &mut err)?;
    Ok(status == wanted && out.holds(text) && err.holds(line.as_bytes()))
}

// Whether a call ends with status 5 and its first puts, if `out` has memory only for these, `room` of them; and with status 0 and its whole text, if
// `out` has memory for all puts.
fn is_without_memory<R: Threads + Sync>(
    rt: &R,
    alloc: Global,
    row: &Row<'_>,
    room: u64,
) -> Result<bool, AllocError> {
    let text = row.out.as_slice();
    if room == row.puts_made() {
        return ends_with_memory(rt, alloc, row, room, 0, text, "");
    }
    let front = edited(alloc, text, room, 0, b"")?;
    let line = "golden: out of memory\n";
    ends_with_memory(rt, alloc, row, room, 5, front.as_slice(), line)
}

// Whether it ends so for each count of puts.
fn are_without_memory<R: Threads + Sync>(
    rt: &R,
    alloc: Global,
    row: &Row<'_>,
) -> Result<bool, AllocError> {
    for room in 0..row.puts_made().saturating_add(1) {
        if !is_without_memory(rt, alloc, row, room)? {
            return Ok(false);
        }
    }
    Ok(true)
}

// The status of a row's call, if `out` takes nothing and `err` takes `room` bytes. `None` if other bytes come on `err`.
fn status_told<R: Threads + Sync>(
    rt: &R,
    alloc: Global,
    row: &Row<'_>,
    room: usize,
) -> Result<Option<u8>, AllocError> {
    let mut out = Narrow::new(alloc, 0);
    let mut err = Narrow::new(alloc, room);
    let mut sink = StreamSink::new(&mut out);
    let status = status_on(rt, alloc, row, &mut sink, &mut err)?;
    drop(sink);
    Ok(if err.holds_front(row.err.as_slice()) {
        Some(status)
    } else {
        None
    })
}

// Whether a refused call has its status after each byte of its line. No status changes where `err` fails, and nothing is put on `out`.
fn are_told<R: Threads + Sync>(rt: &R, alloc: Global, row: &Row<'_>) -> Result<bool, AllocError> {
    let status = row.end.map(|end| end.0);
    for room in 0..row.err.len().saturating_add(1) {
        if status_told(rt, alloc, row, room)? != status {
            return Ok(false);
        }
    }
    Ok(true)
}

// The thing that fails in turn: each load, `out` after each byte, memory for each put on it, or `err` after each byte.
enum Turn {
    Load,
    Out,
    Memory,
    Err,
}

// Whether a call ends as it has to where something fails in turn.
fn ends_in_turn<R: Threads + Sync>(
    rt: &R,
    alloc: Global,
    row: &Row<'_>,
    turn: &Turn,
) -> Result<bool, AllocError> {
    match turn {
        Turn::Load => are_unloaded(rt, alloc, row),
        Turn::Out => are_stopped(rt, alloc, row),
        Turn::Memory => are_without_memory(rt, alloc, row),
        Turn::Err => are_told(rt, alloc, row),
    }
}

// Whether a paragraph is a call, and it ends so.
fn is_right<R: Threads + Sync>(
    rt: &R,
    alloc: Global,
    paragraph: &str,
    turn: &Turn,
) -> Result<bool, AllocError> {
    let mut row = Row::new(alloc);
    let is_read = row.take_all(alloc, paragraph)? && row.finish(alloc)?;
    Ok(is_read && ends_in_turn(rt, alloc, &row, turn)?)
}

// Checks that each call of a text ends as it has to where something fails in turn.
fn check_turns<R: Threads + Sync>(
    rt: &R,
    alloc: Global,
    text: &str,
    turn: &Turn,
) -> Result<(), Fail> {
    for paragraph in text.split("\n\n") {
        if !is_right(rt, alloc, paragraph, turn)? {
            return Err(Fail::new(format_args!("{paragraph}")));
        }
    }
    Ok(())
}

#[test]
fn each_load_fails(rt: HostRuntime) -> Result<(), Fail> {
    check_turns(&rt, rt.alloc(), printing::ROWS, &Turn::Load)
}

#[test]
fn out_fails_after_each_byte(rt: HostRuntime) -> Result<(), Fail> {
    check_turns(&rt, rt.alloc(), printing::ROWS, &Turn::Out)
}

#[test]
fn each_put_finds_no_memory(rt: HostRuntime) -> Result<(), Fail> {
    check_turns(&rt, rt.alloc(), printing::ROWS, &Turn::Memory)
}

#[test]
fn err_fails_after_each_byte(rt: HostRuntime) -> Result<(), Fail> {
    check_turns(&rt, rt.alloc(), refused::ROWS, &Turn::Err)
}
