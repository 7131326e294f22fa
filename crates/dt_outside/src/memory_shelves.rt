//! Shelves of files in memory: one that fails where a test asks it to, and one that never fails.
ghost use Rattle.std.specs.Prelude.{◌≡◌, ◌≢◌, ◌↔◌, ◌⊎◌, ◌+◌, ◌-◌, ◌^◌, ◌≤◌, [], min, length, Some, None, Err, OnOk, OnErr, Contains, IsNone, IfSome};
ghost use Rattle.dt_model.specs.declared.limits.TheConstants.{FILE_NAME_LIMIT};
ghost use Rattle.dt_model.specs.FileNames.{HasNameLength};
ghost use Rattle.dt_outside.specs.Faults.{IsFetch};
ghost use Rattle.dt_outside.specs.States.{shelf_state, sure_state};
ghost use Rattle.dt_outside.specs.MemoryFiles.{find_file, bytes_under, PutsFile};

use crate::memory_files::{MemFile, fill, find, put};
use crate::shelves::{FetchFault, Shelf, name_of};
use arrayvec::ArrayVec;
use dt_model::{FILE_NAME_LIMIT, NoMemory};
use std::alloc::Global;
use std::marker::Model;

/// A shelf of files in memory that fails at the listed fetches and at names that it doesn't have.
/// Contracts see it as a `MemShelfState`.
#[derive(Drop)]
pub struct MemShelf {
    alloc: Global,
    files: Vec<MemFile>,
    fails: Vec<u64>,
    calls: u64,
    faults: u64,
    blamed: ArrayVec<u8, FILE_NAME_LIMIT>,
}

impl Model for MemShelf {
    ghost use Rattle.dt_outside.specs.States.{MemShelfState};

    ghost Value = { MemShelfState };

    ghost view = { λ s. record { files = s.files.items; fails = s.fails.items; calls = s.calls; faults = s.faults; blamed = s.blamed.items } };
}

impl MemShelf {
    /// A shelf without files. Fetches count from 1, and those listed fail.
    pub fn new(alloc: Global, fails: Vec<u64>) -> MemShelf
        ensures fails { result.fails ≡ fails.items }
        ensures fresh { (result.files ≡ []) × (result.calls ≡ 0) × (result.faults ≡ 0) × (result.blamed ≡ []) }
    {
        MemShelf {
            alloc,
            files: Vec::new(alloc),
            fails,
            calls: 0,
            faults: 0,
            blamed: ArrayVec::new(),
        }
    }

    /// Puts a file on the shelf; one that has the name already is covered by it.
    pub fn add(&mut self, name: &str, bytes: &[u8]) -> Result<(), NoMemory>
        ensures ok { OnOk result (PutsFile self.old.files self.new.files name.now bytes.now) }
        ensures err { OnErr result (self.new.files ≡ self.old.files) }
        ensures rest { self.new ≡ record self.old { files = self.new.files } }
    {
        put(self.alloc, &mut self.files, name.as_bytes(), bytes)
    }

    /// The file that this fetch gives, unless the fetch is listed or the name isn't there.
    fn found(&self, name: &[u8]) -> Option<&[u8]>
        ensures none { IsNone result ↔ (Contains self.now.fails self.now.calls ⊎ (find_file self.now.files name.now ≡ None)) }
        ensures some { IfSome result (λ bytes. find_file self.now.files name.now ≡ Some bytes.now) }
    {
        if self.fails.contains(&self.calls) {
            return None;
        }
        find(&self.files, name)
    }
}

impl Shelf for MemShelf {
    ghost state = { λ s. shelf_state s };

    fn fetch(&mut self, name: &str, limit: u64, into: &mut Vec<u8>) -> Result<(), FetchFault>
        requires fresh { into.old.items ≡ [] }
        requires named { HasNameLength name.now }
        ensures answer { IsFetch (shelf_state self.old) (shelf_state self.new) name.now limit result into.new.items }
        ensures calls { self.new.calls ≡ min (self.old.calls + 1) (2 ^ 64 - 1) }
        ensures given { (self.new.files ≡ self.old.files) × (self.new.fails ≡ self.old.fails) }
        ensures counted { result ≡ Err FetchFault.Failed → self.new.faults ≡ min (self.old.faults + 1) (2 ^ 64 - 1) }
        // It fails exactly at the listed calls and at names that it doesn't have.
        ensures failed { (result ≡ Err FetchFault.Failed) ↔ (Contains self.old.fails self.new.calls ⊎ (find_file self.old.files name.now ≡ None)) }
    {
        self.calls = self.calls.saturating_add(1);
        match self.found(name.as_bytes()) {
            Some(bytes) => fill(into, bytes, limit),
            None => {
                self.faults = self.faults.saturating_add(1);
                self.blamed = name_of(name);
                Err(FetchFault::Failed)
            }
        }
    }
}

/// A shelf of files in memory that never fails: a name that it doesn't have is an empty file.
/// Contracts see it as the list of its files, in the order in which they came.
#[derive(Drop)]
pub struct SureShelf {
    alloc: Global,
    files: Vec<MemFile>,
}

impl Model for SureShelf {
    ghost use Rattle.std.specs.Prelude.{List};
    ghost use Rattle.dt_outside.specs.declared.memory_files.MemFile.{MemFile};

    ghost Value = { List MemFile };

    ghost view = { λ s. s.files.items };
}

impl SureShelf {
    /// A shelf without files.
    pub fn new(alloc: Global) -> SureShelf
        ensures fresh { result ≡ [] }
    {
        SureShelf {
            alloc,
            files: Vec::new(alloc),
        }
    }

    /// Puts a file on the shelf; one that has the name already is covered by it.
    pub fn add(&mut self, name: &str, bytes: &[u8]) -> Result<(), NoMemory>
        ensures ok { OnOk result (PutsFile self.old self.new name.now bytes.now) }
        ensures err { OnErr result (self.new ≡ self.old) }
    {
        put(self.alloc, &mut self.files, name.as_bytes(), bytes)
    }
}

impl Shelf for SureShelf {
    ghost state = { λ s. sure_state s };

    fn fetch(&mut self, name: &str, limit: u64, into: &mut Vec<u8>) -> Result<(), FetchFault>
        requires fresh { into.old.items ≡ [] }
        requires named { HasNameLength name.now }
        ensures answer { IsFetch (sure_state self.old) (sure_state self.new) name.now limit result into.new.items }
        ensures no_failure { result ≢ Err FetchFault.Failed }
    {
        match find(&self.files, name.as_bytes()) {
            Some(bytes) => fill(into, bytes, limit),
            None => Ok(()),
        }
    }
}
