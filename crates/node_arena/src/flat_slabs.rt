//! Flat runs under numbers, with some prepared for later.
ghost use Rattle.std.specs.Prelude.{◌≡◌, ◌≢◌, ◌<◌, ◌≤◌, ◌-◌, ℕ, [], None, Some, IsSome, IsSomeAnd, IfSome, IfOk, OnOk, OnErr};
ghost use Rattle.std.specs.Prelude.{◌+◌, All, length, map, slice_get, slice_set, vec_len};
ghost use Rattle.node_arena.specs.Arenas.{RunState, RunsState, run_in, IsRunChange, RefusesRuns, with_more, with_less};
ghost use Rattle.node_arena.specs.Packing.{unpacked};
ghost use Rattle.node_arena.specs.Stores.{usable, IsEmptyRun};
ghost use Rattle.slab.specs.Slab.{slab_len};

use crate::elements::Elem;
use crate::flat_runs::FlatRun;
use crate::numbers::{NO_NUMBER, RunId};
use crate::packing::Packed;
use dt_model::NoMemory;
use slab::Slab;
use std::alloc::Global;
use std::marker::Model;

/// The flat runs of an arena, and empty ones of one room that can be given out without memory.
#[derive(Drop)]
pub(crate) struct Runs {
    alloc: Global,
    slab: Slab<FlatRun>,
    prepared: Vec<FlatRun>,
    room: usize,
}

impl Model for Runs {
    ghost use Rattle.std.specs.Prelude.{◌-◌, ◌≤◌, All, vec_len};
    ghost use Rattle.slab.specs.Slab.{slab_len};
    ghost use Rattle.node_arena.specs.Arenas.{RunsState};
    ghost use Rattle.node_arena.specs.Stores.{usable, IsEmptyRun};

    ghost Value = { RunsState };

    ghost view = { λ a. record { slots = a.slab.slots; spare = vec_len a.prepared; room = a.room; places = a.slab.capacity } };

    ghost invariant = { λ a. (vec_len a.prepared ≤ usable a.slab.capacity - slab_len a.slab) × All (IsEmptyRun a.room) a.prepared.items };
}

impl Runs {
    /// No runs.
    pub(crate) fn new(alloc: Global) -> Runs
        ensures value { result ≡ record { slots = []; spare = 0; room = 0; places = 0 } }
    {
        Runs {
            alloc,
            slab: Slab::new(alloc),
            prepared: Vec::new(alloc),
            room: 0,
        }
    }

    /// How many more runs can be made without memory.
    pub(crate) fn spare(&self) -> usize
        ensures value { result ≡ self.now.spare }
    {
        self.prepared.len()
    }

    /// Prepares at least so many runs, each with at least that room.
    pub(crate) fn reserve(&mut self, runs: u32, room: u32) -> Result<(), NoMemory>
        ensures ok { OnOk result ((runs ≤ self.new.spare) × (room ≤ self.new.room)) }
        ensures kept { OnOk result ((self.old.spare ≤ self.new.spare) × (self.old.room ≤ self.new.room)) }
        ensures err { OnErr result (RefusesRuns self.old self.new) }
        ensures slots { self.new.slots ≡ self.old.slots }
    {
        let spare = self.prepared.len();
        let runs = spare.max(runs as usize);
        let room = self.room.max(room as usize);
        if runs == spare && room == self.room {
            return Ok(());
        }
        if self.slab.len() > (NO_NUMBER as usize).saturating_sub(runs) {
            return Err(NoMemory);
        }
        let prepared = prepared(self.alloc, runs, room)?;
        grow(&mut self.slab, runs);
        let numbers = numbers_left(&self.slab);
        if numbers < spare {
            self.prepared = Vec::new(self.alloc);
        }
        if numbers < runs {
            return Err(NoMemory);
        }
        self.prepared = prepared;
        self.room = room;
        Ok(())
    }

    /// A new number with an empty run, which has the room of the prepared ones.
    pub(crate) fn make(&mut self) -> RunId
        requires spare { 0 < self.old.spare }
        ensures is_new { run_in self.old result ≡ None }
        ensures run { IsRunChange self.old self.new result (Some (record { elems = []; room = self.old.room })) }
        ensures spare { self.new.spare + 1 ≡ self.old.spare }
    {
        match self.prepared.pop() {
            Some(run) => RunId::of(self.slab.insert_reserved(run) as u32),
            None => unreachable!(),
        }
    }

    /// The elements of a run, as they are packed.
    pub(crate) fn packed(&self, id: RunId) -> &[Packed]
        requires there { IsSome (run_in self.now id) }
        ensures value { IfSome (run_in self.now id) (λ r. map unpacked result.now ≡ r.elems) }
    {
        self.slab[id.number() as usize].packed()
    }

    /// Puts an element into a run.
    pub(crate) fn insert(&mut self, id: RunId, place: usize, elem: Elem)
        requires there { IsSomeAnd (run_in self.old id) (λ r. (place ≤ length r.elems) × (0 < r.room)) }
        ensures run { IfSome (run_in self.old id) (λ r. IsRunChange self.old self.new id (Some (with_more r place elem))) }
        ensures spare { self.new.spare ≡ self.old.spare }
    {
        self.slab[id.number() as usize].insert(place, elem);
    }

    /// Takes an element out of a run.
    pub(crate) fn remove(&mut self, id: RunId, place: usize) -> Elem
        requires there { IsSomeAnd (run_in self.old id) (λ r. place < length r.elems) }
        ensures elem { IfSome (run_in self.old id) (λ r. slice_get r.elems place ≡ Some result) }
        ensures run { IfSome (run_in self.old id) (λ r. IsRunChange self.old self.new id (Some (with_less r place))) }
        ensures spare { self.new.spare ≡ self.old.spare }
    {
        self.slab[id.number() as usize].remove(place)
    }

    /// Puts an element in the place of another.
    pub(crate) fn replace(&mut self, id: RunId, place: usize, elem: Elem)
        requires there { IsSomeAnd (run_in self.old id) (λ r. place < length r.elems) }
        ensures run { IfSome (run_in self.old id) (λ r. IsRunChange self.old self.new id (Some (record r { elems = slice_set r.elems place elem }))) }
        ensures spare { self.new.spare ≡ self.old.spare }
    {
        self.slab[id.number() as usize].replace(place, elem);
    }

    /// Takes room for at least so many more elements of a run.
    pub(crate) fn grow_run(&mut self, id: RunId, more: u32) -> Result<(), NoMemory>
        requires there { IsSome (run_in self.old id) }
        ensures ok { OnOk result (IfSome (run_in self.old id) (λ r. IsSomeAnd (run_in self.new id) (λ q. more ≤ q.room))) }
        ensures run { IfSome (run_in self.old id) (λ r. IsSomeAnd (run_in self.new id) (λ q. (q.elems ≡ r.elems) × (r.room ≤ q.room))) }
        ensures err { OnErr result (run_in self.new id ≡ run_in self.old id) }
        ensures others { (other : ℕ) → other ≢ id → run_in self.new other ≡ run_in self.old other }
        ensures spare { self.new.spare ≡ self.old.spare }
        ensures room { self.new.room ≡ self.old.room }
    {
        self.slab[id.number() as usize].grow(more as usize)
    }

    /// Takes a run out.
    pub(crate) fn free(&mut self, id: RunId)
        requires there { IsSome (run_in self.old id) }
        ensures run { IsRunChange self.old self.new id None }
        ensures spare { self.new.spare ≡ self.old.spare }
    {
        self.slab.remove(id.number() as usize);
    }
}

/// So many empty runs, each with that room.
fn prepared(alloc: Global, runs: usize, room: usize) -> Result<Vec<FlatRun>, NoMemory>
    ensures len { IfOk result (λ v. vec_len v ≡ runs) }
    ensures all { IfOk result (λ v. All (IsEmptyRun room) v.items) }
{
    let mut prepared = Vec::with_capacity(alloc, runs)?;
    for _count in 0..runs {
        prepared.push(FlatRun::with_room(alloc, room)?)?;
    }
    Ok(prepared)
}

/// Takes room for so many more numbers, and for as many as there are if that can be had.
fn grow(slab: &mut Slab<FlatRun>, runs: usize)
    ensures slots { slab.new.slots ≡ slab.old.slots }
    ensures capacity { slab.old.capacity ≤ slab.new.capacity }
{
    let all = slab.len().max(runs);
    if slab.reserve(all).is_err() {
        let _ = slab.reserve(runs);
    }
}

/// How many more numbers of 32 bits the slab can give without memory.
fn numbers_left(slab: &Slab<FlatRun>) -> usize
    ensures value { result ≡ usable slab.now.capacity - slab_len slab.now }
{
    let capacity = slab.capacity();
    if capacity <= NO_NUMBER as usize {
        capacity - slab.len()
    } else {
        0
    }
}
