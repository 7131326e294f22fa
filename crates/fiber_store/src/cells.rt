//! Cells in ascending order: a binary search, and what is written where it ends.
ghost use Rattle.std.specs.Prelude.{◌≡◌, ◌+◌, ◌<◌, ◌≤◌, ℕ, List, length, slice_index_or, IfOk, IfErr};
ghost use Rattle.commit_core.specs.Cells.{IsAt, IsGapFor};
ghost use Rattle.dt_model.specs.Pairs.{total_at, IsAscending};
ghost use Rattle.fiber_store.specs.Fibers.{Writes, number_after};

use dt_model::{Coords, PackedPairs, Update};

/// Where the cell with these coordinates is, or where it would go: a binary search.
fn find(cells: &PackedPairs, at: &Coords) -> Result<usize, usize>
    requires ascending { IsAscending cells.now.pairs }
    ensures found { IfOk result (IsAt cells.now.pairs at.now) }
    ensures absent { IfErr result (IsGapFor cells.now.pairs at.now) }
{
    cells.search(at)
}

/// The number of the cell at an index.
fn number_of(cells: &PackedPairs, index: usize) -> u64
    requires within { index < length cells.now.pairs }
    ensures value { (d : List ℕ × ℕ) → result ≡ (slice_index_or cells.now.pairs index d).1 }
{
    match cells.get(index) {
        Some((_, value)) => value,
        None => unreachable!(),
    }
}

/// The number at these coordinates, 0 where there is no cell.
pub(crate) fn number_at(cells: &PackedPairs, at: &Coords) -> u64
    requires ascending { IsAscending cells.now.pairs }
    ensures value { result ≡ total_at cells.now.pairs at.now }
{
    match find(cells, at) {
        Ok(index) => number_of(cells, index),
        Err(_) => 0,
    }
}

/// The number that an update leaves in its cell, one of these cells or a new one.
pub(crate) fn number_after(cells: &PackedPairs, update: &Update) -> u64
    requires ascending { IsAscending cells.now.pairs }
    ensures value { result ≡ number_after (total_at cells.now.pairs) update.now }
{
    match update {
        Update::Set { value, .. } => *value,
        Update::Add { cell, value } => number_at(cells, &cell.at).wrapping_add(*value),
    }
}

/// Puts a number at these coordinates, for which there is room. A new cell takes time by the number of cells behind it.
pub(crate) fn put(cells: &mut PackedPairs, at: &Coords, number: u64)
    requires ascending { IsAscending cells.old.pairs }
    requires same { length at.now ≡ cells.old.order }
    requires room { 0 < cells.old.spare }
    ensures cells { Writes cells.old.pairs cells.new.pairs at.now number }
    ensures order { cells.new.order ≡ cells.old.order }
    ensures spare { cells.old.spare ≤ cells.new.spare + 1 }
{
    match find(cells, at) {
        Ok(index) => cells.set(index, at, number),
        Err(index) => cells.insert(index, at, number),
    }
}
