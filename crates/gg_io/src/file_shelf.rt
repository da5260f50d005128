//! The files of the system.
ghost use Rattle.std.specs.Prelude.{◌≡◌, ℕ, ◌-◌, ◌+◌, ◌^◌, ◌<◌, ◌≤◌, List, Option, None, length, IfOk, IfErr, IfSome};
ghost use Rattle.std.specs.Io.KnownBytes.{Consumes};
ghost use Rattle.gg_io.specs.Told.{Untold};
ghost use Rattle.gg_io.specs.LoadFail.{HasLoadCause};
ghost use Rattle.gg_io.specs.inside.LoadFail.{IsFault, IsFaultOrOver, faults_after_load, cuts_after_load};

use crate::counts::raise;
use crate::files::{LoadFail, Shelf};
use std::alloc::Global;
use std::fs;
use std::io::Read;
use std::rt::Files;

// The most bytes that one read requests.
const PART: usize = 4096;

/// The files of the system, by path. Their contents are unknown to contracts.
pub struct FileShelf<R: Files + Drop> {
    runtime: R,
    // how many loads returned `Failed`
    faults: u64,
    // how many loads returned `TooLong`
    cuts: u64,
}

impl<R: Files + Drop> Drop for FileShelf<R> {
    fn drop(self) {
        let Self {
            runtime,
            faults: _,
            cuts: _,
        } = self;
        drop(runtime);
    }
}

impl<R: Files + Drop> FileShelf<R> {
    /// A shelf of the runtime's files, with no loads yet.
    pub fn new(runtime: R) -> FileShelf<R>
        ensures faults { result.faults ≡ 0 }
        ensures cuts { result.cuts ≡ 0 }
    {
        FileShelf {
            runtime,
            faults: 0,
            cuts: 0,
        }
    }
}

// Reads part of the file, at most `room` bytes, and appends it to `bytes`. Returns 0 only at the end of the file.
fn read_part<F: Read>(file: &mut F, room: u64, bytes: &mut Vec<u8>) -> Result<usize, LoadFail>
    requires { 0 < room }
    ensures added { IfOk result (λ n. length bytes.new.items ≡ length bytes.old.items + n) }
    ensures bound { IfOk result (λ n. n ≤ room) }
    ensures read { IfOk result (λ n. (left : Option (List ℕ)) → Consumes left (F.remaining file.old) bytes.old.items
        → Consumes left (F.remaining file.new) bytes.new.items × (n ≡ 0 → IfSome left (λ all. bytes.new.items ≡ all))) }
    ensures fault { IfErr result IsFault }
{
    let mut part = [0u8; PART];
    let end = room.min(PART as u64) as usize;
    let Ok(n) = file.read(&mut part[..end]) else {
        return Err(LoadFail::Failed);
    };
    bytes.extend_from_slice(&part[..n])?;
    Ok(n)
}

// Reads the file to its end, or one byte past the limit.
fn read_within<F: Read>(alloc: Global, file: &mut F, limit: u64) -> Result<Vec<u8>, LoadFail>
    ensures within { IfOk result (λ bytes. length bytes.items ≤ limit) }
    ensures whole { IfOk result (λ bytes. IfSome (F.remaining file.old) (λ all. bytes.items ≡ all)) }
    ensures over { IfErr result (IsFaultOrOver (F.remaining file.old) limit) }
{
    let mut bytes = Vec::new(alloc);
    'parts: loop {
        let room = (limit - bytes.len() as u64).saturating_add(1);
        if read_part(file, room, &mut bytes)? == 0 {
            return Ok(bytes);
        }
        if bytes.len() as u64 > limit {
            return Err(LoadFail::TooLong {
                taken: bytes.len() as u64,
            });
        }
    }
}

// Opens the file and reads it. A clause here can't name the bytes of a file that is opened inside the function. That
// all of its bytes were read follows from the clause `whole` of `read_within`.
fn load_from<R: Files>(
    runtime: &R,
    alloc: Global,
    name: &str,
    limit: u64,
) -> Result<Vec<u8>, LoadFail>
    ensures within { IfOk result (λ bytes. length bytes.items ≤ limit) }
    ensures over { IfErr result (IsFaultOrOver None limit) }
{
    let Ok(mut file) = fs::open(runtime, name) else {
        return Err(LoadFail::Failed);
    };
    read_within(alloc, &mut file, limit)
}

impl<R: Files + Drop> Shelf for FileShelf<R> {
    ghost files = { λ _ _. Untold };

    ghost faults = { λ s _. s.faults };

    ghost cuts = { λ s _. s.cuts };

    /// The faults rise at each `Failed`, the cut loads at each `TooLong`.
    fn load(&mut self, alloc: Global, name: &str, limit: u64) -> Result<Vec<u8>, LoadFail>
        ensures within { IfOk result (λ file. length file.items ≤ limit) }
        ensures caused { IfErr result (HasLoadCause Untold limit
            self.old.faults self.new.faults self.old.cuts self.new.cuts) }
        ensures faults_stay_or_rise { List ℕ → self.old.faults ≤ self.new.faults }
        ensures cuts_stay_or_rise { List ℕ → self.old.cuts ≤ self.new.cuts }

        ensures faults { self.new.faults ≡ faults_after_load result self.old.faults }
        ensures cuts { self.new.cuts ≡ cuts_after_load result self.old.cuts }
    {
        match load_from(&self.runtime, alloc, name, limit) {
            Err(LoadFail::Failed) => {
                raise(&mut self.faults);
                Err(LoadFail::Failed)
            }
            Err(LoadFail::TooLong { taken }) => {
                raise(&mut self.cuts);
                Err(LoadFail::TooLong { taken })
            }
            Err(LoadFail::NoMemory) => Err(LoadFail::NoMemory),
            Ok(file) => Ok(file),
        }
    }
}
