//! Outputs in memory.
ghost use Rattle.std.specs.Prelude.{◌≡◌, [], ◌≤◌, ◌++◌, Some, OnOk, IfErr, IsErrOf, IsNone, IsSomeAnd, take};
ghost use Rattle.std.specs.Io.KnownBytes.{append_known};
ghost use Rattle.gg_io.specs.Count.{risen};
ghost use Rattle.gg_io.specs.PutFail.{HasPutCause, LeavesFront};
ghost use Rattle.gg_io.specs.inside.PutFail.{faults_after_put, refused_after_put};
ghost use Rattle.gg_io.specs.inside.Memory.{taken_before_failure};

use crate::counts::raise;
use crate::output::{PutFail, Sink};
use std::alloc::Global;

/// A put that must fail: its number, counted from 0, and how many of its bytes are written before it fails.
#[derive(Clone, Copy, PartialEq, Eq)]
pub struct FailingPut {
    /// The put's number, counted from 0.
    pub number: u64,
    /// How many bytes are written before the put fails; all of them if it has no more.
    pub takes: u64,
}

/// An output in memory: what was written, and the puts that must fail. If two entries have the same number the first
/// counts.
pub struct MemSink {
    /// What was written.
    pub bytes: Vec<u8>,
    /// The puts that must fail.
    pub failing: Vec<FailingPut>,
    /// The number of the next put.
    pub puts: u64,
    /// How many puts returned `Failed`.
    pub faults: u64,
    /// How many puts returned `NoMemory`.
    pub refused: u64,
}

impl Drop for MemSink {
    fn drop(self) {
        let Self {
            bytes,
            failing,
            puts: _,
            faults: _,
            refused: _,
        } = self;
        drop(bytes);
        drop(failing);
    }
}

impl MemSink {
    /// An empty output. The puts with these numbers must fail.
    pub fn new(alloc: Global, failing: Vec<FailingPut>) -> MemSink
        ensures bytes { result.bytes.items ≡ [] }
        ensures failing { result.failing ≡ failing }
        ensures counts { (result.puts ≡ 0) × (result.faults ≡ 0) × (result.refused ≡ 0) }
    {
        MemSink {
            bytes: Vec::new(alloc),
            failing,
            puts: 0,
            faults: 0,
            refused: 0,
        }
    }
}

// How many bytes the put of this number writes before it fails; None if it isn't listed.
fn taken_before_failure_of(failing: &[FailingPut], number: u64) -> Option<u64>
    ensures { result ≡ taken_before_failure failing.now number }
{
    let listed = failing.iter().find(|put| put.number == number)?;
    Some(listed.takes)
}

// Appends the bytes to what was written, or counts a refused put.
fn append(written: &mut Vec<u8>, bytes: &[u8], refused: &mut u64) -> Result<(), PutFail>
    ensures whole { OnOk result (written.new.items ≡ written.old.items ++ bytes.now) }
    ensures none { IfErr result (λ e. (e ≡ PutFail.NoMemory) × (written.new.items ≡ written.old.items)) }
    ensures stays_or_rises { refused.old ≤ refused.new }
    ensures count { refused.new ≡ refused_after_put result refused.old }
{
    if written.extend_from_slice(bytes).is_err() {
        raise(refused);
        return Err(PutFail::NoMemory);
    }
    Ok(())
}

impl Sink for MemSink {
    ghost written = { λ s. Some s.bytes.items };

    ghost faults = { λ s. s.faults };

    ghost refused = { λ s. s.refused };

    /// Returns `Failed` only if the put's number is listed. It has then written as many bytes as the list says, or all if
    /// it has fewer. A put that is listed never succeeds, but may return `NoMemory`.
    fn put(&mut self, bytes: &[u8]) -> Result<(), PutFail>
        ensures whole { OnOk result (Some self.new.bytes.items ≡ append_known (Some self.old.bytes.items) bytes.now) }
        ensures caused { IfErr result (HasPutCause self.old.faults self.new.faults self.old.refused self.new.refused) }
        ensures front { IfErr result (LeavesFront (Some self.old.bytes.items) (Some self.new.bytes.items) bytes.now) }
        ensures faults_stay_or_rise { self.old.faults ≤ self.new.faults }
        ensures refused_stay_or_rise { self.old.refused ≤ self.new.refused }

        ensures unlisted { OnOk result (IsNone (taken_before_failure self.old.failing.items self.old.puts)) }
        ensures listed { IsErrOf result PutFail.Failed → IsSomeAnd (taken_before_failure self.old.failing.items self.old.puts)
            (λ takes. self.new.bytes.items ≡ self.old.bytes.items ++ take takes bytes.now) }
        ensures faults { self.new.faults ≡ faults_after_put result self.old.faults }
        ensures refused { self.new.refused ≡ refused_after_put result self.old.refused }
        ensures number { self.new.puts ≡ risen self.old.puts }
        ensures list_stays { self.new.failing ≡ self.old.failing }
    {
        let number = self.puts;
        raise(&mut self.puts);
        match taken_before_failure_of(self.failing.as_slice(), number) {
            None => append(&mut self.bytes, bytes, &mut self.refused),
            Some(takes) => {
                let end = bytes.len().min(takes as usize);
                append(&mut self.bytes, &bytes[..end], &mut self.refused)?;
                raise(&mut self.faults);
                Err(PutFail::Failed)
            }
        }
    }
}

/// An output in memory that never returns `Failed`.
pub struct SureSink {
    /// What was written.
    pub bytes: Vec<u8>,
    /// How many puts returned `NoMemory`.
    pub refused: u64,
}

impl Drop for SureSink {
    fn drop(self) {
        let Self { bytes, refused: _ } = self;
        drop(bytes);
    }
}

impl SureSink {
    /// An empty output.
    pub fn new(alloc: Global) -> SureSink
        ensures bytes { result.bytes.items ≡ [] }
        ensures refused { result.refused ≡ 0 }
    {
        SureSink {
            bytes: Vec::new(alloc),
            refused: 0,
        }
    }
}

impl Sink for SureSink {
    ghost written = { λ s. Some s.bytes.items };

    ghost faults = { λ _. 0 };

    ghost refused = { λ s. s.refused };

    fn put(&mut self, bytes: &[u8]) -> Result<(), PutFail>
        ensures whole { OnOk result (Some self.new.bytes.items ≡ append_known (Some self.old.bytes.items) bytes.now) }
        ensures caused { IfErr result (HasPutCause 0 0 self.old.refused self.new.refused) }
        ensures front { IfErr result (LeavesFront (Some self.old.bytes.items) (Some self.new.bytes.items) bytes.now) }
        ensures refused_stay_or_rise { self.old.refused ≤ self.new.refused }

        ensures refused { self.new.refused ≡ refused_after_put result self.old.refused }
    {
        append(&mut self.bytes, bytes, &mut self.refused)
    }
}
