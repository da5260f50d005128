//! The streams of the system.
ghost use Rattle.std.specs.Prelude.{◌≡◌, ℕ, ◌≤◌, None, ◌++◌, length, take, IfOk, OnOk, OnErr, IfErr};
ghost use Rattle.std.specs.Io.KnownBytes.{Appends};
ghost use Rattle.gg_io.specs.PutFail.{HasPutCause};
ghost use Rattle.gg_io.specs.inside.PutFail.{faults_after_put};

use crate::counts::raise;
use crate::output::{PutFail, Sink};
use std::io::Write;

/// A stream of the system, such as standard output. What was written to it is unknown to contracts.
pub struct StreamSink<W: Write + Drop> {
    stream: W,
    // how many puts returned `Failed`
    faults: u64,
}

impl<W: Write + Drop> Drop for StreamSink<W> {
    fn drop(self) {
        let Self { stream, faults: _ } = self;
        drop(stream);
    }
}

impl<W: Write + Drop> StreamSink<W> {
    /// An output to this stream, with no puts yet.
    pub fn new(stream: W) -> StreamSink<W>
        ensures { result ≡ record { stream = stream; faults = 0 } }
    {
        StreamSink { stream, faults: 0 }
    }
}

// Writes all of the bytes, or fails after a first part of them. A stream that takes no bytes has failed.
fn write_whole<W: Write>(stream: &mut W, bytes: &[u8]) -> Result<(), PutFail>
    ensures whole { OnOk result (Appends (W.contents stream.old) (W.contents stream.new) bytes.now) }
    ensures failed { IfErr result (λ e. e ≡ PutFail.Failed) }
    ensures front { OnErr result ((n : ℕ) × (n ≤ length bytes.now)
        × Appends (W.contents stream.old) (W.contents stream.new) (take n bytes.now)) }
{
    let mut done = 0;
    while done < bytes.len() {
        let Ok(n) = stream.write(&bytes[done..]) else {
            return Err(PutFail::Failed);
        };
        if n == 0 {
            return Err(PutFail::Failed);
        }
        done += n;
    }
    Ok(())
}

impl<W: Write + Drop> Sink for StreamSink<W> {
    ghost written = { λ _. None };

    ghost faults = { λ s. s.faults };

    ghost refused = { λ _. 0 };

    /// The faults rise at each `Failed`. It never returns `NoMemory`. Where the stream's own bytes are known, they grow
    /// by the bytes of the put, or by a first part of these if it failed.
    fn put(&mut self, bytes: &[u8]) -> Result<(), PutFail>
        ensures caused { IfErr result (HasPutCause self.old.faults self.new.faults 0 0) }
        ensures faults_stay_or_rise { self.old.faults ≤ self.new.faults }

        ensures stream_took_all { OnOk result
            (Appends (W.contents self.old.stream) (W.contents self.new.stream) bytes.now) }
        ensures stream_took_front { OnErr result ((n : ℕ) × (n ≤ length bytes.now)
            × Appends (W.contents self.old.stream) (W.contents self.new.stream) (take n bytes.now)) }
        ensures faults { self.new.faults ≡ faults_after_put result self.old.faults }
    {
        if write_whole(&mut self.stream, bytes).is_err() {
            raise(&mut self.faults);
            return Err(PutFail::Failed);
        }
        Ok(())
    }
}
