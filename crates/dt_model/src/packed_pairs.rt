//! Pairs of one order in few bytes, with room for more.

ghost use Rattle.std.specs.Prelude.{◌≡◌, ℕ, List, [], ◌∷◌, ◌++◌, ◌+◌, ◌≤◌, ◌<◌, ◌==◌, ◌^◌, not, length, filter, All, OnOk, OnErr, IfOk, slice_get, slice_set};
ghost use Rattle.std.specs.List.{insert};
ghost use Rattle.std.specs.List.Sorted.{IsBinarySearchResult, IsSearchInRange};
ghost use Rattle.std.specs.Cmp.Lexicographic.{slice_cmp};
ghost use Rattle.std.specs.Ordering.{nat_cmp};
ghost use Rattle.dt_model.specs.Pairs.{IsAscending, total_at};

use crate::lists::NoMemory;
use crate::packed_rows::Rows;
use crate::places::Coords;
use std::alloc::Global;
use std::marker::Model;

/// Rows of the width that their order needs.
#[derive(Drop)]
enum Widths {
    Two(Rows<2>),
    Four(Rows<4>),
    Six(Rows<6>),
    Eight(Rows<8>),
}

/// Pairs of one order, 0 to 8, with the room that was taken for more of them. A pair of order 1 or 2
/// takes 16 bytes, of order 3 or 4 24, of order 5 or 6 32, and of order 7 or 8 40. Indices are
/// counted from 0.
#[derive(Drop)]
pub struct PackedPairs {
    rows: Widths,
}

impl Model for PackedPairs {
    ghost use Rattle.dt_model.specs.Packed.{PackedState};

    ghost Value = { PackedState };

    ghost use Rattle.dt_model.specs.Widths.{state_of};

    ghost view = { λ a. state_of a.rows };
}

impl PackedPairs {
    /// No pairs, and no room. It takes no memory.
    pub fn new(alloc: Global, order: usize) -> PackedPairs
        requires small { order ≤ 8 }
        ensures value { result ≡ record { order = order; pairs = []; spare = 0 } }
    {
        let rows = if order <= 2 {
            Widths::Two(Rows::new(alloc, order))
        } else if order <= 4 {
            Widths::Four(Rows::new(alloc, order))
        } else if order <= 6 {
            Widths::Six(Rows::new(alloc, order))
        } else {
            Widths::Eight(Rows::new(alloc, order))
        };
        PackedPairs { rows }
    }

    /// How many coordinates each pair has.
    pub fn order(&self) -> usize
        ensures value { result ≡ self.now.order }
        ensures few { result ≤ 8 }
    {
        match &self.rows {
            Widths::Two(rows) => rows.order(),
            Widths::Four(rows) => rows.order(),
            Widths::Six(rows) => rows.order(),
            Widths::Eight(rows) => rows.order(),
        }
    }

    /// How many pairs there are.
    pub fn len(&self) -> usize
        ensures value { result ≡ length self.now.pairs }
    {
        match &self.rows {
            Widths::Two(rows) => rows.len(),
            Widths::Four(rows) => rows.len(),
            Widths::Six(rows) => rows.len(),
            Widths::Eight(rows) => rows.len(),
        }
    }

    /// The pair at an index. None exactly where the index isn't below the length.
    pub fn get(&self, index: usize) -> Option<(Coords, u64)>
        ensures value { result ≡ slice_get self.now.pairs index }
    {
        match &self.rows {
            Widths::Two(rows) => rows.get(index),
            Widths::Four(rows) => rows.get(index),
            Widths::Six(rows) => rows.get(index),
            Widths::Eight(rows) => rows.get(index),
        }
    }

    /// Puts a pair at the end. When out of memory the pairs are as before.
    pub fn push(&mut self, at: &Coords, value: u64) -> Result<(), NoMemory>
        requires same { length at.now ≡ self.old.order }
        ensures ok { OnOk result (self.new.pairs ≡ self.old.pairs ++ (at.now, value) ∷ []) }
        ensures err { OnErr result (self.new ≡ self.old) }
        ensures order { self.new.order ≡ self.old.order }
        ensures spare { self.old.spare ≤ self.new.spare + 1 }
    {
        match &mut self.rows {
            Widths::Two(rows) => rows.push(at, value),
            Widths::Four(rows) => rows.push(at, value),
            Widths::Six(rows) => rows.push(at, value),
            Widths::Eight(rows) => rows.push(at, value),
        }
    }

    /// Takes room for so many more pairs than there are now.
    pub fn reserve(&mut self, more: usize) -> Result<(), NoMemory>
        ensures pairs { self.new.pairs ≡ self.old.pairs }
        ensures order { self.new.order ≡ self.old.order }
        ensures room { OnOk result (more ≤ self.new.spare) }
        ensures spare { self.old.spare ≤ self.new.spare }
    {
        match &mut self.rows {
            Widths::Two(rows) => rows.reserve(more),
            Widths::Four(rows) => rows.reserve(more),
            Widths::Six(rows) => rows.reserve(more),
            Widths::Eight(rows) => rows.reserve(more),
        }
    }

    /// Puts a pair at an index, for which there is room. It takes time by the number of pairs behind.
    pub fn insert(&mut self, index: usize, at: &Coords, value: u64)
        requires room { 0 < self.old.spare }
        requires within { index ≤ length self.old.pairs }
        requires same { length at.now ≡ self.old.order }
        ensures pairs { self.new.pairs ≡ insert self.old.pairs index (at.now, value) }
        ensures order { self.new.order ≡ self.old.order }
        ensures spare { self.new.spare + 1 ≡ self.old.spare }
    {
        match &mut self.rows {
            Widths::Two(rows) => rows.insert(index, at, value),
            Widths::Four(rows) => rows.insert(index, at, value),
            Widths::Six(rows) => rows.insert(index, at, value),
            Widths::Eight(rows) => rows.insert(index, at, value),
        }
    }

    /// Puts a pair in the place of another.
    pub fn set(&mut self, index: usize, at: &Coords, value: u64)
        requires within { index < length self.old.pairs }
        requires same { length at.now ≡ self.old.order }
        ensures pairs { self.new.pairs ≡ slice_set self.old.pairs index (at.now, value) }
        ensures order { self.new.order ≡ self.old.order }
        ensures spare { self.new.spare ≡ self.old.spare }
    {
        match &mut self.rows {
            Widths::Two(rows) => rows.set(index, at, value),
            Widths::Four(rows) => rows.set(index, at, value),
            Widths::Six(rows) => rows.set(index, at, value),
            Widths::Eight(rows) => rows.set(index, at, value),
        }
    }

    /// The index of a pair with these coordinates, or, where the pairs ascend, the one where it
    /// would go. It takes time by the logarithm of their number.
    pub fn search(&self, at: &Coords) -> Result<usize, usize>
        ensures bound { IsSearchInRange result (length self.now.pairs) }
        ensures position { IsBinarySearchResult (λ p. slice_cmp nat_cmp p.0 at.now) self.now.pairs result }
    {
        match &self.rows {
            Widths::Two(rows) => rows.search(at),
            Widths::Four(rows) => rows.search(at),
            Widths::Six(rows) => rows.search(at),
            Widths::Eight(rows) => rows.search(at),
        }
    }

    /// Equal pairs, without room: one allocation.
    pub fn copy(&self, alloc: Global) -> Result<PackedPairs, NoMemory>
        ensures order { IfOk result (λ copy. copy.order ≡ self.now.order) }
        ensures pairs { IfOk result (λ copy. copy.pairs ≡ self.now.pairs) }
        ensures spare { IfOk result (λ copy. copy.spare ≡ 0) }
    {
        let rows = match &self.rows {
            Widths::Two(rows) => Widths::Two(rows.copy(alloc)?),
            Widths::Four(rows) => Widths::Four(rows.copy(alloc)?),
            Widths::Six(rows) => Widths::Six(rows.copy(alloc)?),
            Widths::Eight(rows) => Widths::Eight(rows.copy(alloc)?),
        };
        Ok(PackedPairs { rows })
    }

    /// The pairs whose value isn't 0, in the same order and without room: one allocation.
    pub fn nonzeros(&self, alloc: Global) -> Result<PackedPairs, NoMemory>
        ensures order { IfOk result (λ kept. kept.order ≡ self.now.order) }
        ensures pairs { IfOk result (λ kept. kept.pairs ≡ filter (λ p. not (p.1 == 0)) self.now.pairs) }
        ensures small { IfOk result (λ kept. All (λ p. p.1 < 2 ^ 64) kept.pairs) }
    {
        let rows = match &self.rows {
            Widths::Two(rows) => Widths::Two(rows.nonzeros(alloc)?),
            Widths::Four(rows) => Widths::Four(rows.nonzeros(alloc)?),
            Widths::Six(rows) => Widths::Six(rows.nonzeros(alloc)?),
            Widths::Eight(rows) => Widths::Eight(rows.nonzeros(alloc)?),
        };
        Ok(PackedPairs { rows })
    }

    /// Adds up the pairs with the same coordinates modulo 2^64, and leaves them in ascending order
    /// and without zeros. It takes no memory, and where the pairs ascend already, time by their
    /// number.
    pub fn coalesce(&mut self)
        ensures ascending { IsAscending self.new.pairs }
        ensures nonzero { All (λ p. 0 < p.1) self.new.pairs }
        ensures totals { (c : List ℕ) → total_at self.new.pairs c ≡ total_at self.old.pairs c }
        ensures order { self.new.order ≡ self.old.order }
        ensures spare { self.old.spare ≤ self.new.spare }
    {
        match &mut self.rows {
            Widths::Two(rows) => rows.coalesce(),
            Widths::Four(rows) => rows.coalesce(),
            Widths::Six(rows) => rows.coalesce(),
            Widths::Eight(rows) => rows.coalesce(),
        }
    }
}
