//! Rows of N coordinates and a value: pairs of one order, in as few bytes as the order needs.

ghost use Rattle.std.specs.Prelude.{◌≡◌, ℕ, List, [], ◌∷◌, ◌++◌, ◌+◌, ◌≤◌, ◌<◌, ◌==◌, ◌^◌, not, length, take, drop, map, filter, All, OnOk, OnErr, IfOk, slice_get, slice_set, if◌then◌else◌};
ghost use Rattle.std.specs.List.{insert};
ghost use Rattle.std.specs.List.Sorted.{IsBinarySearchResult, IsSearchInRange, IsPermutation};
ghost use Rattle.std.specs.Cmp.Lexicographic.{slice_cmp};
ghost use Rattle.std.specs.Ordering.{nat_cmp};
ghost use Rattle.dt_model.specs.Pairs.{IsAscending, total_at};
ghost use Rattle.dt_model.specs.Gathering.{gathered, with_nonzero, IsNonDescending};

use crate::lists::NoMemory;
use crate::places::Coords;
use std::alloc::Global;
use std::cmp::Ordering;
use std::marker::Model;

/// A pair of at most N coordinates: 4 N + 8 bytes where N is even. What is behind the coordinates
/// has no meaning.
#[derive(Clone, Copy, PartialEq, Eq, PartialOrd, Ord)]
pub(crate) struct Row<const N: usize> {
    at: [u32; N],
    value: u64,
}

/// Pairs of one order, at most N, with the room that was taken for more of them.
#[derive(Drop)]
pub(crate) struct Rows<const N: usize> {
    order: usize,
    rows: Vec<Row<N>>,
    spare: usize,
}

impl<const N: usize> Model for Rows<N> {
    ghost use Rattle.std.specs.Prelude.{List, ℕ, ◌≡◌, ◌+◌, ◌≤◌, take, map, length, All, vec_len, vec_capacity};
    ghost use Rattle.dt_model.specs.Packed.{PackedState};

    ghost Value = { PackedState };

    ghost view = { λ a. record { order = a.order; pairs = map (λ row. (take a.order row.at, row.value)) a.rows.items; spare = a.spare } };

    ghost invariant = { λ a. (a.order ≤ N) × (N ≤ 8) × All (λ row. length row.at ≡ N) a.rows.items × (vec_len a.rows + a.spare ≤ vec_capacity a.rows) };
}

impl<const N: usize> Rows<N> {
    /// No pairs, and no room.
    pub(crate) fn new(alloc: Global, order: usize) -> Self
        requires small { order ≤ N }
        requires few { N ≤ 8 }
        ensures value { result ≡ record { order = order; pairs = []; spare = 0 } }
    {
        Rows {
            order,
            rows: Vec::new(alloc),
            spare: 0,
        }
    }

    /// How many pairs there are.
    pub(crate) fn len(&self) -> usize
        ensures value { result ≡ length self.now.pairs }
    {
        self.rows.len()
    }

    /// How many coordinates each pair has.
    pub(crate) fn order(&self) -> usize
        ensures value { result ≡ self.now.order }
        ensures few { result ≤ 8 }
    {
        self.order
    }

    /// The pair at an index.
    pub(crate) fn get(&self, index: usize) -> Option<(Coords, u64)>
        ensures value { result ≡ slice_get self.now.pairs index }
    {
        match self.rows.get(index) {
            None => None,
            Some(row) => Some((coords_of(&row.at[..self.order]), row.value)),
        }
    }

    /// Puts a pair at the end. When out of memory the pairs are as before.
    pub(crate) fn push(&mut self, at: &Coords, value: u64) -> Result<(), NoMemory>
        requires same { length at.now ≡ self.old.order }
        ensures ok { OnOk result (self.new.pairs ≡ self.old.pairs ++ (at.now, value) ∷ []) }
        ensures err { OnErr result (self.new ≡ self.old) }
        ensures order { self.new.order ≡ self.old.order }
        ensures spare { self.old.spare ≤ self.new.spare + 1 }
    {
        let spare = self.spare.saturating_sub(1);
        let row = Row {
            at: padded(at.as_slice()),
            value,
        };
        self.rows.push(row)?;
        self.spare = spare;
        Ok(())
    }

    /// Takes room for so many more pairs than there are now.
    pub(crate) fn reserve(&mut self, more: usize) -> Result<(), NoMemory>
        ensures pairs { self.new.pairs ≡ self.old.pairs }
        ensures order { self.new.order ≡ self.old.order }
        ensures room { OnOk result (more ≤ self.new.spare) }
        ensures spare { self.old.spare ≤ self.new.spare }
    {
        self.rows.reserve(more)?;
        self.spare = self.spare.max(more);
        Ok(())
    }

    /// Puts a pair at an index, for which there is room. It takes time by the number of pairs behind.
    pub(crate) fn insert(&mut self, index: usize, at: &Coords, value: u64)
        requires room { 0 < self.old.spare }
        requires within { index ≤ length self.old.pairs }
        requires same { length at.now ≡ self.old.order }
        ensures pairs { self.new.pairs ≡ insert self.old.pairs index (at.now, value) }
        ensures order { self.new.order ≡ self.old.order }
        ensures spare { self.new.spare + 1 ≡ self.old.spare }
    {
        self.spare -= 1;
        let row = Row {
            at: padded(at.as_slice()),
            value,
        };
        match self.rows.insert(index, row) {
            Ok(()) => {}
            Err(_) => unreachable!(),
        }
    }

    /// Puts a pair in the place of another.
    pub(crate) fn set(&mut self, index: usize, at: &Coords, value: u64)
        requires within { index < length self.old.pairs }
        requires same { length at.now ≡ self.old.order }
        ensures pairs { self.new.pairs ≡ slice_set self.old.pairs index (at.now, value) }
        ensures order { self.new.order ≡ self.old.order }
        ensures spare { self.new.spare ≡ self.old.spare }
    {
        let rows = &mut self.rows;
        rows[index] = Row {
            at: padded(at.as_slice()),
            value,
        };
    }

    /// The index of a pair with these coordinates, or, where the pairs ascend, the one where it
    /// would go: a binary search.
    pub(crate) fn search(&self, at: &Coords) -> Result<usize, usize>
        ensures bound { IsSearchInRange result (length self.now.pairs) }
        ensures position { IsBinarySearchResult (λ p. slice_cmp nat_cmp p.0 at.now) self.now.pairs result }
    {
        let order = self.order;
        let sought = at.as_slice();
        self.rows.binary_search_by(
            |row| -> Ordering
                requires { (order ≤ N) × (N ≤ 8) }
                ensures { result ≡ slice_cmp nat_cmp (take order row.now.at) sought.entry.now }
            { row.at[..order].cmp(&sought) },
        )
    }

    /// Equal pairs, without room.
    pub(crate) fn copy(&self, alloc: Global) -> Result<Self, NoMemory>
        ensures order { IfOk result (λ copy. copy.order ≡ self.now.order) }
        ensures pairs { IfOk result (λ copy. copy.pairs ≡ self.now.pairs) }
        ensures spare { IfOk result (λ copy. copy.spare ≡ 0) }
    {
        Ok(Rows {
            order: self.order,
            rows: Vec::from_slice(alloc, self.rows.as_slice())?,
            spare: 0,
        })
    }

    /// The pairs whose value isn't 0, in the same order: one allocation.
    pub(crate) fn nonzeros(&self, alloc: Global) -> Result<Self, NoMemory>
        ensures order { IfOk result (λ kept. kept.order ≡ self.now.order) }
        ensures pairs { IfOk result (λ kept. kept.pairs ≡ filter (λ p. not (p.1 == 0)) self.now.pairs) }
        ensures small { IfOk result (λ kept. All (λ p. p.1 < 2 ^ 64) kept.pairs) }
    {
        Ok(Rows {
            order: self.order,
            rows: nonzero_rows(alloc, self.rows.as_slice())?,
            spare: 0,
        })
    }

    /// Adds up the pairs with the same coordinates, in ascending order and without zeros. It takes
    /// no memory, and where the pairs ascend already, time by their number.
    pub(crate) fn coalesce(&mut self)
        ensures ascending { IsAscending self.new.pairs }
        ensures nonzero { All (λ p. 0 < p.1) self.new.pairs }
        ensures totals { (c : List ℕ) → total_at self.new.pairs c ≡ total_at self.old.pairs c }
        ensures order { self.new.order ≡ self.old.order }
        ensures spare { self.old.spare ≤ self.new.spare }
    {
        self.sort();
        self.gather();
    }

    /// Sorts the pairs by their coordinates.
    fn sort(&mut self)
        ensures same { IsPermutation self.old.pairs self.new.pairs }
        ensures sorted { IsNonDescending self.new.pairs }
        ensures order { self.new.order ≡ self.old.order }
        ensures spare { self.new.spare ≡ self.old.spare }
    {
        self.rows.sort_unstable();
    }

    /// Adds up neighbours with the same coordinates, and leaves out zeros.
    fn gather(&mut self)
        ensures value { self.new.pairs ≡ gathered self.old.pairs }
        ensures order { self.new.order ≡ self.old.order }
        ensures spare { self.new.spare ≡ self.old.spare }
    {
        let count = gather_rows(&mut self.rows, self.order);
        self.rows.truncate(count);
    }
}

/// Writes a row at an index, unless its value is 0, and answers how many rows are in front then.
fn put_nonzero<const N: usize>(rows: &mut [Row<N>], kept: usize, row: Row<N>, order: usize) -> usize
    requires within { kept < length rows.old }
    requires fits { order ≤ N }
    requires few { N ≤ 8 }
    requires whole { length row.at ≡ N }
    requires all { All (λ row. length row.at ≡ N) rows.old }
    ensures front { map (λ row. (take order row.at, row.value)) (take result rows.new) ≡ map (λ row. (take order row.at, row.value)) (take kept rows.old) ++ with_nonzero (take order row.entry.at, row.entry.value) [] }
    ensures behind { (k : ℕ) → kept < k → drop k rows.new ≡ drop k rows.old }
    ensures few { result ≤ kept + 1 }
    ensures all { All (λ row. length row.at ≡ N) rows.new }
{
    if row.value == 0 {
        return kept;
    }
    rows[kept] = row;
    kept + 1
}

/// Adds up neighbours with the same coordinates, in front, and answers how many rows these are.
fn gather_rows<const N: usize>(rows: &mut [Row<N>], order: usize) -> usize
    requires fits { order ≤ N }
    requires few { N ≤ 8 }
    requires all { All (λ row. length row.at ≡ N) rows.old }
    ensures value { map (λ row. (take order row.at, row.value)) (take result rows.new) ≡ gathered (map (λ row. (take order row.at, row.value)) rows.old) }
    ensures within { result ≤ length rows.new }
    ensures all { All (λ row. length row.at ≡ N) rows.new }
{
    if rows.is_empty() {
        return 0;
    }
    let mut last = rows[0];
    let mut kept = 0;
    for i in 1..rows.len() {
        let row = rows[i];
        if last.at[..order] == row.at[..order] {
            last.value = last.value.wrapping_add(row.value);
        } else {
            kept = put_nonzero(rows, kept, last, order);
            last = row;
        }
    }
    put_nonzero(rows, kept, last, order)
}

/// The rows whose value isn't 0, in the same order.
fn nonzero_rows<const N: usize>(alloc: Global, rows: &[Row<N>]) -> Result<Vec<Row<N>>, NoMemory>
    ensures value { IfOk result (λ kept. kept.items ≡ filter (λ row. not (row.value == 0)) rows.now) }
    ensures small { IfOk result (λ kept. All (λ row. row.value < 2 ^ 64) kept.items) }
{
    let mut kept = Vec::with_capacity(alloc, rows.len())?;
    for row in rows {
        if row.value != 0 {
            kept.push(*row)?;
        }
    }
    Ok(kept)
}

/// Equal coordinates.
fn coords_of(numbers: &[u32]) -> Coords
    requires few { length numbers.now ≤ 8 }
    ensures value { result ≡ numbers.now }
{
    let mut coords = Coords::new();
    for number in numbers {
        coords.push(*number);
    }
    coords
}

/// The numbers, and zeros behind them.
fn padded<const N: usize>(numbers: &[u32]) -> [u32; N]
    requires fits { length numbers.now ≤ N }
    requires few { N ≤ 8 }
    ensures front { take (length numbers.now) result ≡ numbers.now }
    ensures whole { length result ≡ N }
{
    let mut row = [0; N];
    for (i, number) in numbers.iter().enumerate() {
        row[i] = *number;
    }
    row
}
