//! Outputs that fail or find no memory, and a row's call on them.
ghost use Rattle.std.specs.Prelude.{None};

use crate::calls::{call_on, words_of};
use crate::row::Row;
use crate::ways::files_lent;
use gg_io::{MemShelf, PutFail, Sink, StreamSink};
use std::alloc::{AllocError, Global};
use std::io::{self, Write};
use std::thread::Threads;

// A stream that takes `room` bytes, and then fails.
pub(crate) struct Narrow {
    bytes: Vec<u8>,
    room: usize,
}

impl Drop for Narrow {
    fn drop(self) {
        let Self { bytes, room: _ } = self;
        drop(bytes);
    }
}

impl Narrow {
    // An empty stream with room for this many bytes.
    pub(crate) fn new(alloc: Global, room: usize) -> Narrow {
        Narrow {
            bytes: Vec::new(alloc),
            room,
        }
    }

    // Whether it has taken this text and no more.
    pub(crate) fn holds(&self, text: &[u8]) -> bool {
        self.bytes.as_slice() == text
    }

    // Whether it is full, and has taken the beginning of this text.
    pub(crate) fn holds_front(&self, text: &[u8]) -> bool {
        self.room == 0 && text.starts_with(self.bytes.as_slice())
    }
}

impl Write for Narrow {
    fn write(&mut self, buf: &[u8]) -> io::Result<usize> {
        let taken = buf.len().min(self.room);
        if taken == 0 {
            return Err(io::Error::from(io::ErrorKind::Other));
        }
        self.bytes.extend_from_slice(&buf[..taken])?;
        self.room -= taken;
        Ok(taken)
    }

    fn flush(&mut self) -> io::Result<()> {
        Ok(())
    }
}

// A sink that has memory for `room` puts. Its contract says nothing of what was written, and the test looks at it.
pub(crate) struct Full {
    bytes: Vec<u8>,
    room: u64,
    refused: u64,
}

impl Drop for Full {
    fn drop(self) {
        let Self {
            bytes,
            room: _,
            refused: _,
        } = self;
        drop(bytes);
    }
}

impl Full {
    // An empty sink with memory for this many puts.
    pub(crate) fn new(alloc: Global, room: u64) -> Full {
        Full {
            bytes: Vec::new(alloc),
            room,
            refused: 0,
        }
    }

    // Whether this text was put, and no more.
    pub(crate) fn holds(&self, text: &[u8]) -> bool {
        self.bytes.as_slice() == text
    }
}

impl Sink for Full {
    ghost written = { λ _. None };

    ghost faults = { λ _. 0 };

    ghost refused = { λ s. s.refused };

    fn put(&mut self, bytes: &[u8]) -> Result<(), PutFail> {
        if self.room == 0 || self.bytes.extend_from_slice(bytes).is_err() {
            self.refused = self.refused.saturating_add(1);
            return Err(PutFail::NoMemory);
        }
        self.room -= 1;
        Ok(())
    }
}

// The status of a row's call on these outputs.
pub(crate) fn status_on<R: Threads + Sync, K: Sink>(
    rt: &R,
    alloc: Global,
    row: &Row<'_>,
    out: &mut K,
    err: &mut Narrow,
) -> Result<u8, AllocError> {
    let words = words_of(alloc, row.words)?;
    let files = files_lent(alloc, row.files.as_slice(), false)?;
    let mut shelf = MemShelf::new(files, Vec::new(alloc));
    let mut err = StreamSink::new(err);
    call_on(rt, alloc, words.as_slice(), &mut shelf, out, &mut err)
}
