//! The cells of one tensor as one ascending list, packed by its order.

ghost use Rattle.std.specs.Prelude.{◌≡◌, ◌+◌, ◌^◌, ◌<◌, ◌≤◌, ℕ, List, All, length, slice_index_or, IfOk, IfErr, OnOk};
ghost use Rattle.dt_model.specs.Pairs.{total_at, IsAscending};
ghost use Rattle.commit_core.specs.Cells.{IsAt, IsGapFor, Puts, without_zeros};

use dt_model::{Coords, NoMemory, Nonzeros, PackedPairs, Pairs};
use std::alloc::Global;
use std::marker::Model;

/// The cells of one tensor, in ascending order of their coordinates. A cell of order r takes 4 r + 8
/// bytes, rounded up to 8.
#[derive(Drop)]
pub struct CellList {
    cells: PackedPairs,
}

impl Model for CellList {
    ghost use Rattle.commit_core.specs.CellListState.{CellListState};
    ghost use Rattle.dt_model.specs.Pairs.{IsAscending};

    ghost Value = { CellListState };

    ghost view = { λ a. record { order = a.cells.order; cells = a.cells.pairs; spare = a.cells.spare } };

    ghost invariant = { λ a. IsAscending a.cells.pairs };
}

/// Where the cell with these coordinates is, or where it would go: a binary search.
fn find_cell(cells: &PackedPairs, at: &Coords) -> Result<usize, usize>
    requires ascending { IsAscending cells.now.pairs }
    ensures found { IfOk result (IsAt cells.now.pairs at.now) }
    ensures absent { IfErr result (IsGapFor cells.now.pairs at.now) }
{
    cells.search(at)
}

/// The number of the cell at an index.
fn number_of(cells: &PackedPairs, index: usize) -> u64
    requires within { index < length cells.now.pairs }
    ensures value { (d : List ℕ × ℕ) → result ≡ (slice_index_or cells.now.pairs index d).1 }
{
    match cells.get(index) {
        Some((_, value)) => value,
        None => unreachable!(),
    }
}

impl CellList {
    /// The cells that lines of this order add up to, modulo 2^64. Lines that don't ascend are sorted;
    /// equal coordinates are added up in one pass. The list takes the only memory.
    pub fn load(alloc: Global, order: usize, lines: &Pairs) -> Result<CellList, NoMemory>
        requires small { order ≤ 8 }
        requires same { All (λ line. length line.0 ≡ order) lines.now }
        ensures order { IfOk result (λ list. list.order ≡ order) }
        ensures value { IfOk result (λ list. (c : List ℕ) → total_at list.cells c ≡ total_at lines.now c) }
    {
        let mut cells = lines.packed(alloc, order)?;
        cells.coalesce();
        Ok(CellList { cells })
    }

    /// The number at these coordinates, 0 where there is no cell: a binary search.
    pub fn number(&self, at: &Coords) -> u64
        ensures value { result ≡ total_at self.now.cells at.now }
    {
        match find_cell(&self.cells, at) {
            Ok(place) => number_of(&self.cells, place),
            Err(_) => 0,
        }
    }

    /// Takes room for so many more cells than there are now.
    pub fn reserve(&mut self, more: usize) -> Result<(), NoMemory>
        ensures order { self.new.order ≡ self.old.order }
        ensures cells { self.new.cells ≡ self.old.cells }
        ensures room { OnOk result (more ≤ self.new.spare) }
        ensures spare { self.old.spare ≤ self.new.spare }
    {
        self.cells.reserve(more)
    }

    /// Puts a number at these coordinates, for which there is room. A new cell takes time by the number of
    /// cells behind it.
    pub fn put(&mut self, at: &Coords, value: u64)
        requires same { length at.now ≡ self.old.order }
        requires room { 0 < self.old.spare }
        ensures order { self.new.order ≡ self.old.order }
        ensures value { Puts self.old.cells self.new.cells at.now value }
        ensures spare { self.old.spare ≤ self.new.spare + 1 }
    {
        match find_cell(&self.cells, at) {
            Ok(place) => self.cells.set(place, at, value),
            Err(place) => self.cells.insert(place, at, value),
        }
    }

    /// The cells whose number isn't 0, in ascending order: one allocation.
    pub fn nonzeros(&self, alloc: Global) -> Result<Nonzeros, NoMemory>
        ensures value { IfOk result (λ pairs. pairs ≡ without_zeros self.now.cells) }
        ensures small { IfOk result (λ pairs. All (λ p. p.1 < 2 ^ 64) pairs) }
        ensures ascending { IsAscending self.now.cells }
    {
        Nonzeros::nonzeros_of(alloc, &self.cells)
    }
}
