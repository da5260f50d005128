//! Shelves in memory.
ghost use Rattle.std.specs.Prelude.{◌≡◌, ℕ, ◌-◌, ◌^◌, ◌<◌, ◌≤◌, ◌↔◌, ◌⊎◌, List, length, IfOk, IfErr, IsErrOf, Contains};
ghost use Rattle.gg_io.specs.Count.{risen};
ghost use Rattle.gg_io.specs.Told.{CanHold, Missing, Holds};
ghost use Rattle.gg_io.specs.LoadFail.{HasLoadCause};
ghost use Rattle.gg_io.specs.inside.LoadFail.{faults_after_load, cuts_after_load};
ghost use Rattle.gg_io.specs.inside.Memory.{bytes_under, told_of, told_or_empty};

use crate::counts::raise;
use crate::files::{LoadFail, Shelf};
use crate::mem_files::MemFiles;
use std::alloc::Global;

/// A shelf in memory: its files by name, and the numbers of the loads that must fail, counted from 0.
pub struct MemShelf {
    /// The files by name.
    pub files: MemFiles,
    /// The numbers of the loads that must fail.
    pub failing: Vec<u64>,
    /// The number of the next load.
    pub loads: u64,
    /// How many loads returned `Failed`.
    pub faults: u64,
    /// How many loads returned `TooLong`.
    pub cuts: u64,
}

impl Drop for MemShelf {
    fn drop(self) {
        let Self {
            files,
            failing,
            loads: _,
            faults: _,
            cuts: _,
        } = self;
        drop(files);
        drop(failing);
    }
}

impl MemShelf {
    /// A shelf of these files, with no loads yet. The loads with these numbers must fail.
    pub fn new(files: MemFiles, failing: Vec<u64>) -> MemShelf
        ensures { result ≡ record { files = files; failing = failing; loads = 0; faults = 0; cuts = 0 } }
    {
        MemShelf {
            files,
            failing,
            loads: 0,
            faults: 0,
            cuts: 0,
        }
    }
}

// A copy of the bytes, if they are within the limit; otherwise the count of cut loads rises.
fn copy_within(alloc: Global, bytes: &[u8], limit: u64, cuts: &mut u64) -> Result<Vec<u8>, LoadFail>
    ensures within { IfOk result (λ file. length file.items ≤ limit) }
    ensures whole { IfOk result (λ file. file.items ≡ bytes.now) }
    ensures caused { IfErr result (HasLoadCause (Holds bytes.now) limit (2 ^ 64 - 1) 0 cuts.old cuts.new) }
    ensures stays_or_rises { cuts.old ≤ cuts.new }
    ensures count { cuts.new ≡ cuts_after_load result cuts.old }
{
    if bytes.len() as u64 > limit {
        raise(cuts);
        return Err(LoadFail::TooLong { taken: limit + 1 });
    }
    Ok(Vec::from_slice(alloc, bytes)?)
}

impl Shelf for MemShelf {
    ghost files = { λ s name. told_of (bytes_under s.files name) };

    ghost faults = { λ s _. s.faults };

    ghost cuts = { λ s _. s.cuts };

    /// Fails exactly if the load's number is listed or there is no such file.
    fn load(&mut self, alloc: Global, name: &str, limit: u64) -> Result<Vec<u8>, LoadFail>
        ensures within { IfOk result (λ file. length file.items ≤ limit) }
        ensures whole { IfOk result (λ file. CanHold (told_of (bytes_under self.old.files name.now)) file.items) }
        ensures caused { IfErr result (HasLoadCause (told_of (bytes_under self.old.files name.now)) limit
            self.old.faults self.new.faults self.old.cuts self.new.cuts) }
        ensures faults_stay_or_rise { List ℕ → self.old.faults ≤ self.new.faults }
        ensures cuts_stay_or_rise { List ℕ → self.old.cuts ≤ self.new.cuts }

        ensures fails { IsErrOf result LoadFail.Failed
            ↔ (Contains self.old.failing.items self.old.loads ⊎ (told_of (bytes_under self.old.files name.now) ≡ Missing)) }
        ensures faults { self.new.faults ≡ faults_after_load result self.old.faults }
        ensures cuts { self.new.cuts ≡ cuts_after_load result self.old.cuts }
        ensures number { self.new.loads ≡ risen self.old.loads }
        ensures files_stay { self.new.files ≡ self.old.files }
        ensures list_stays { self.new.failing ≡ self.old.failing }
    {
        let number = self.loads;
        raise(&mut self.loads);
        if self.failing.contains(&number) {
            raise(&mut self.faults);
            return Err(LoadFail::Failed);
        }
        let Some(bytes) = self.files.get(name) else {
            raise(&mut self.faults);
            return Err(LoadFail::Failed);
        };
        copy_within(alloc, bytes.as_slice(), limit, &mut self.cuts)
    }
}

/// A shelf in memory that never returns `Failed`: every name is a file, and it is empty if the shelf has none of that
/// name.
pub struct SureShelf {
    /// The files by name.
    pub files: MemFiles,
    /// How many loads returned `TooLong`.
    pub cuts: u64,
}

impl Drop for SureShelf {
    fn drop(self) {
        let Self { files, cuts: _ } = self;
        drop(files);
    }
}

impl SureShelf {
    /// A shelf of these files, with no loads yet.
    pub fn new(files: MemFiles) -> SureShelf
        ensures { result ≡ record { files = files; cuts = 0 } }
    {
        SureShelf { files, cuts: 0 }
    }
}

impl Shelf for SureShelf {
    ghost files = { λ s name. told_or_empty (bytes_under s.files name) };

    ghost faults = { λ _ _. 0 };

    ghost cuts = { λ s _. s.cuts };

    fn load(&mut self, alloc: Global, name: &str, limit: u64) -> Result<Vec<u8>, LoadFail>
        ensures within { IfOk result (λ file. length file.items ≤ limit) }
        ensures whole { IfOk result (λ file. CanHold (told_or_empty (bytes_under self.old.files name.now)) file.items) }
        ensures caused { IfErr result (HasLoadCause (told_or_empty (bytes_under self.old.files name.now)) limit
            0 0 self.old.cuts self.new.cuts) }
        ensures cuts_stay_or_rise { List ℕ → self.old.cuts ≤ self.new.cuts }

        ensures cuts { self.new.cuts ≡ cuts_after_load result self.old.cuts }
        ensures files_stay { self.new.files ≡ self.old.files }
    {
        match self.files.get(name) {
            Some(bytes) => copy_within(alloc, bytes.as_slice(), limit, &mut self.cuts),
            None => copy_within(alloc, &[], limit, &mut self.cuts),
        }
    }
}
