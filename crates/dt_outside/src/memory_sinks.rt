//! Sinks in memory: one that fails where a test asks it to, and one that never fails.
ghost use Rattle.std.specs.Prelude.{◌≡◌, ◌↔◌, ◌⊎◌, ◌+◌, ◌-◌, ◌^◌, ◌<◌, ◌≤◌, ◌++◌, [], min, max, take, length, Some, None, IsTrue, IsErr, MatchResult, OnOk, OnErr, IfOk, Contains, false, true, if◌then◌else◌, Ok, ◌||◌, nat_lt};
ghost use Rattle.dt_outside.specs.Faults.{HasRisen, IsAppended};

use crate::sinks::{Sink, SinkFailed};
use dt_model::NoMemory;
use std::alloc::Global;
use std::marker::Model;

/// A sink in memory that takes a few bytes at a time, fails at the listed calls and where no room is
/// left, and exposes what was written. Contracts see it as a `MemSinkState`.
#[derive(Drop)]
pub struct MemSink {
    bytes: Vec<u8>,
    spare: usize,
    most: usize,
    fails: Vec<u64>,
    calls: u64,
    faults: u64,
}

impl Model for MemSink {
    ghost use Rattle.std.specs.Prelude.{◌+◌, ◌≤◌, vec_len, vec_capacity};
    ghost use Rattle.dt_outside.specs.States.{MemSinkState};

    ghost Value = { MemSinkState };

    ghost view = { λ s. record { bytes = s.bytes.items; spare = s.spare; most = s.most; fails = s.fails.items; calls = s.calls; faults = s.faults } };

    ghost invariant = { λ s. (vec_len s.bytes + s.spare ≤ vec_capacity s.bytes) × (1 ≤ s.most) };
}

impl MemSink {
    /// An empty sink without room that takes at most `most` bytes a call. Calls count from 1, and
    /// those listed fail.
    pub fn new(alloc: Global, most: usize, fails: Vec<u64>) -> MemSink
        requires some { 1 ≤ most }
        ensures fresh { (result.bytes ≡ []) × (result.spare ≡ 0) × (result.calls ≡ 0) × (result.faults ≡ 0) }
        ensures given { (result.most ≡ most) × (result.fails ≡ fails.items) }
    {
        MemSink {
            bytes: Vec::new(alloc),
            spare: 0,
            most,
            fails,
            calls: 0,
            faults: 0,
        }
    }

    /// Makes room for n more bytes, where there is less. It counts as room for n, however much the
    /// allocator gives.
    pub fn room(&mut self, n: usize) -> Result<(), NoMemory>
        ensures ok { OnOk result (self.new.spare ≡ max self.old.spare n) }
        ensures err { OnErr result (self.new.spare ≡ self.old.spare) }
        ensures bytes { self.new.bytes ≡ self.old.bytes }
        ensures rest { (self.new.most ≡ self.old.most) × (self.new.fails ≡ self.old.fails) × (self.new.calls ≡ self.old.calls) × (self.new.faults ≡ self.old.faults) }
    {
        if n <= self.spare {
            return Ok(());
        }
        self.bytes.reserve(n)?;
        self.spare = n;
        Ok(())
    }

    /// Whether this call fails.
    fn is_due_to_fail(&self) -> bool
        ensures value { IsTrue result ↔ (Contains self.now.fails self.now.calls ⊎ (self.now.spare ≡ 0)) }
    {
        let listed = self.fails.contains(&self.calls);
        listed || self.spare == 0
    }

    /// What was written.
    pub fn bytes(&self) -> &[u8]
        ensures value { result.now ≡ self.now.bytes }
    {
        self.bytes.as_slice()
    }
}

impl Sink for MemSink {
    ghost written = { λ s. Some s.bytes };

    ghost faults = { λ s. s.faults };

    fn write_some(&mut self, piece: &[u8]) -> Result<usize, SinkFailed>
        requires some { 0 < length piece.now }
        ensures count { IfOk result (λ n. n ≡ min (min (length piece.now) self.old.most) self.old.spare) }
        ensures some { IfOk result (λ n. 1 ≤ n) }
        ensures bytes { IfOk result (λ n. self.new.bytes ≡ self.old.bytes ++ take n piece.now) }
        ensures quiet { OnOk result (self.new.faults ≡ self.old.faults) }
        ensures risen { OnErr result (HasRisen self.old.faults self.new.faults) }
        ensures counted { OnErr result (self.new.faults ≡ min (self.old.faults + 1) (2 ^ 64 - 1)) }
        ensures kept { OnErr result (self.new.bytes ≡ self.old.bytes) }
        ensures calls { self.new.calls ≡ min (self.old.calls + 1) (2 ^ 64 - 1) }
        ensures room { MatchResult result (λ n. self.new.spare + n ≡ self.old.spare) (λ _. self.new.spare ≡ self.old.spare) }
        ensures given { (self.new.most ≡ self.old.most) × (self.new.fails ≡ self.old.fails) }
        // It fails exactly at the listed calls and where no room is left.
        ensures failed { IsErr result ↔ (Contains self.old.fails self.new.calls ⊎ (self.old.spare ≡ 0)) }
    {
        self.calls = self.calls.saturating_add(1);
        if self.is_due_to_fail() {
            self.faults = self.faults.saturating_add(1);
            return Err(SinkFailed);
        }
        let n = piece.len().min(self.most).min(self.spare);
        match self.bytes.extend_from_slice(&piece[..n]) {
            Ok(()) => {
                self.spare -= n;
                Ok(n)
            }
            Err(_) => unreachable!(),
        }
    }
}

/// A sink in memory that never fails: it keeps the first bytes, and exposes what was written while it
/// kept all. Contracts see it as a `SureSinkState`.
#[derive(Drop)]
pub struct SureSink {
    bytes: Vec<u8>,
    spare: usize,
    cut: bool,
}

impl Model for SureSink {
    ghost use Rattle.std.specs.Prelude.{◌+◌, ◌≤◌, vec_len, vec_capacity};
    ghost use Rattle.dt_outside.specs.States.{SureSinkState};

    ghost Value = { SureSinkState };

    ghost view = { λ s. record { bytes = s.bytes.items; spare = s.spare; cut = s.cut } };

    ghost invariant = { λ s. vec_len s.bytes + s.spare ≤ vec_capacity s.bytes };
}

impl SureSink {
    /// An empty sink that keeps the first n bytes.
    pub fn new(alloc: Global, n: usize) -> Result<SureSink, NoMemory>
        ensures fresh { IfOk result (λ s. (s.bytes ≡ []) × (s.spare ≡ n) × (s.cut ≡ false)) }
    {
        let bytes = Vec::with_capacity(alloc, n)?;
        Ok(SureSink {
            bytes,
            spare: n,
            cut: false,
        })
    }

    /// The bytes that were kept.
    pub fn bytes(&self) -> &[u8]
        ensures value { result.now ≡ self.now.bytes }
    {
        self.bytes.as_slice()
    }
}

impl Sink for SureSink {
    ghost written = { λ s. if s.cut then None else Some s.bytes };

    ghost faults = { λ s. 0 };

    fn write_some(&mut self, piece: &[u8]) -> Result<usize, SinkFailed>
        requires some { 0 < length piece.now }
        ensures all { result ≡ Ok (length piece.now) }
        ensures bytes { self.new.bytes ≡ self.old.bytes ++ take self.old.spare piece.now }
        ensures spare { self.new.spare ≡ self.old.spare - length piece.now }
        ensures cut { self.new.cut ≡ (self.old.cut || nat_lt self.old.spare (length piece.now)) }
    {
        let n = piece.len().min(self.spare);
        match self.bytes.extend_from_slice(&piece[..n]) {
            Ok(()) => {
                self.spare -= n;
                self.cut = self.cut || n < piece.len();
                Ok(piece.len())
            }
            Err(_) => unreachable!(),
        }
    }
}
